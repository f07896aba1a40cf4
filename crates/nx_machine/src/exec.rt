ghost use Rattle.std.specs.Prelude.{◌≡◌, ◌+◌, ◌*◌, ◌%◌, ◌^◌, ◌<◌, ◌==◌, if◌then◌else◌};
ghost use Rattle.nx_base.specs.Views.{View, load_bytes, store_bytes};
ghost use Rattle.nx_base.specs.Registers.{reg};
ghost use Rattle.nx_ram.specs.Widths.{IsWidth};
ghost use Rattle.nx_rv.specs.Execution.{Traps, plus, advance, linked, branched, widened, loaded, stored, execute, turn};
ghost use Rattle.nx_rv.specs.Table.{IsInRange};
ghost use Rattle.nx_space.specs.World.{view_in, IsEntered};
ghost use Rattle.nx_space.specs.Lawful.{OnlyEntered};
ghost use Rattle.nx_machine.specs.Outcome.{turn_of};

use nx_alu::{alu, taken};
use nx_base::{Regs, causes};
use nx_rv::{Inst, decode};
use nx_space::Space;

/// What one instruction leads to.
#[derive(Clone, Copy, Debug)]
pub enum Step {
    /// The next one.
    Goes,
    /// A call; pc stands after the `ecall`.
    Calls,
    /// A trap with this cause; pc stands at the instruction.
    Traps(u8),
}

// A sum that wraps.
#[tactic(auto, unfolding(nx_rv::specs::Execution::plus))]
fn plus(n: u32, z: i32) -> u32
    ensures { result ≡ plus n z }
{
    n.wrapping_add(z.cast_unsigned())
}

// Goes to the next instruction.
#[tactic(auto, unfolding(nx_rv::specs::Execution::advance))]
fn advance(regs: &mut Regs)
    ensures { regs.new ≡ advance regs.old }
{
    regs.pc = regs.pc.wrapping_add(4);
}

// Jumps, and keeps the address after the jump.
#[tactic(auto, unfolding(nx_rv::specs::Execution::linked, nx_rv::specs::Execution::jump))]
fn link(regs: &mut Regs, rd: u8, to: u32) -> Step
    requires { rd < 32 }
    ensures { (v : View) → turn_of result regs.new v ≡ linked rd to regs.old v }
{
    if to % 4 != 0 {
        return Step::Traps(causes::FETCH_MISALIGNED);
    }
    regs.set(rd, regs.pc.wrapping_add(4));
    regs.pc = to;
    Step::Goes
}

// Goes to the target of a branch that is taken, else on.
#[tactic(auto, unfolding(nx_rv::specs::Execution::branched, nx_rv::specs::Execution::jump))]
fn branch(regs: &mut Regs, taken: bool, target: u32) -> Step
    ensures { (v : View) → turn_of result regs.new v ≡ branched taken target regs.old v }
{
    if !taken {
        advance(regs);
        return Step::Goes;
    }
    if target % 4 != 0 {
        return Step::Traps(causes::FETCH_MISALIGNED);
    }
    regs.pc = target;
    Step::Goes
}

// A number of `width` bytes as a word, with its sign where that is asked.
#[tactic(auto, unfolding(nx_rv::specs::Execution::widened))]
fn widen(width: u8, signed: bool, n: u32) -> u32
    requires width { IsWidth width }
    requires small { n < 2 ^ (8 * width) }
    ensures { result ≡ widened width signed n }
{
    match width {
        1 if signed && n >= 0x80 => n + 0xFFFFFF00,
        2 if signed && n >= 0x8000 => n + 0xFFFF0000,
        _ => n,
    }
}

// Loads a number of `width` bytes into a register.
#[tactic(auto, unfolding(nx_rv::specs::Execution::loaded), using(crate::proofs::Only::only_same))]
fn load<S: Space>(width: u8, signed: bool, rd: u8, at: u32, regs: &mut Regs, space: &mut S) -> Step
    requires entered { IsEntered (S.world space.old) }
    requires width { IsWidth width }
    requires rd { rd < 32 }
    ensures turn { turn_of result regs.new (view_in (S.world space.new))
        ≡ (if at % width == 0 then loaded (load_bytes (view_in (S.world space.old)) at width) width signed rd regs.old (view_in (S.world space.old))
        else Traps 4 regs.old (view_in (S.world space.old))) }
    ensures only { OnlyEntered (S.world space.old) (S.world space.new) }
{
    if at % width as u32 != 0 {
        return Step::Traps(causes::LOAD_MISALIGNED);
    }
    match space.load(at, width) {
        Ok(n) => {
            regs.set(rd, widen(width, signed, n));
            advance(regs);
            Step::Goes
        }
        Err(cause) => Step::Traps(cause),
    }
}

// Stores the low `width` bytes of a word.
#[tactic(auto, unfolding(nx_rv::specs::Execution::stored), using(crate::proofs::Only::only_same))]
fn store<S: Space>(width: u8, at: u32, value: u32, regs: &mut Regs, space: &mut S) -> Step
    requires entered { IsEntered (S.world space.old) }
    requires width { IsWidth width }
    ensures turn { turn_of result regs.new (view_in (S.world space.new))
        ≡ (if at % width == 0 then stored (store_bytes (view_in (S.world space.old)) at width value) regs.old (view_in (S.world space.old))
        else Traps 6 regs.old (view_in (S.world space.old))) }
    ensures only { OnlyEntered (S.world space.old) (S.world space.new) }
{
    if at % width as u32 != 0 {
        return Step::Traps(causes::STORE_MISALIGNED);
    }
    match space.store(at, width, value) {
        Ok(()) => {
            advance(regs);
            Step::Goes
        }
        Err(cause) => Step::Traps(cause),
    }
}

// Executes an instruction.
#[tactic(auto, unfolding(nx_rv::specs::Execution::execute), using(crate::proofs::Only::only_same, crate::proofs::Fields::load_width, crate::proofs::Fields::op_imm_rd, crate::proofs::Fields::op_imm_rs1))]
fn exec<S: Space>(inst: Inst, regs: &mut Regs, space: &mut S) -> Step
    requires entered { IsEntered (S.world space.old) }
    requires in_range { IsInRange inst }
    ensures turn { turn_of result regs.new (view_in (S.world space.new)) ≡ execute inst regs.old (view_in (S.world space.old)) }
    ensures only { OnlyEntered (S.world space.old) (S.world space.new) }
{
    match inst {
        Inst::Lui { rd, imm } => regs.set(rd, imm),
        Inst::Auipc { rd, imm } => regs.set(rd, regs.pc.wrapping_add(imm)),
        Inst::Jal { rd, offset } => return link(regs, rd, plus(regs.pc, offset)),
        Inst::Jalr { rd, rs1, imm } => {
            let to = plus(regs.get(rs1), imm);
            return link(regs, rd, to - to % 2);
        }
        Inst::Branch {
            cond,
            rs1,
            rs2,
            offset,
        } => {
            let taken = taken(cond, regs.get(rs1), regs.get(rs2));
            return branch(regs, taken, plus(regs.pc, offset));
        }
        Inst::Load {
            width,
            signed,
            rd,
            rs1,
            imm,
        } => return load(width, signed, rd, plus(regs.get(rs1), imm), regs, space),
        Inst::Store {
            width,
            rs1,
            rs2,
            imm,
        } => {
            let at = plus(regs.get(rs1), imm);
            return store(width, at, regs.get(rs2), regs, space);
        }
        Inst::OpImm { op, rd, rs1, imm } => {
            let n = alu(op, regs.get(rs1), imm.cast_unsigned());
            regs.set(rd, n);
        }
        Inst::Op { op, rd, rs1, rs2 } => {
            let n = alu(op, regs.get(rs1), regs.get(rs2));
            regs.set(rd, n);
        }
        Inst::Fence { .. } => {}
        Inst::Ecall => {
            advance(regs);
            return Step::Calls;
        }
        Inst::Ebreak => return Step::Traps(causes::BREAKPOINT),
    }
    advance(regs);
    Step::Goes
}

/// Makes the instruction at the pc.
#[tactic(auto, unfolding(nx_rv::specs::Execution::turn, nx_rv::specs::Execution::fetched, nx_rv::specs::Execution::decoded), using(crate::proofs::Only::only_same))]
pub fn make_step<S: Space>(regs: &mut Regs, space: &mut S) -> Step
    requires { IsEntered (S.world space.old) }
    ensures turn { turn_of result regs.new (view_in (S.world space.new)) ≡ turn regs.old (view_in (S.world space.old)) }
    ensures only { OnlyEntered (S.world space.old) (S.world space.new) }
{
    if regs.pc % 4 != 0 {
        return Step::Traps(causes::FETCH_MISALIGNED);
    }
    match space.fetch(regs.pc) {
        Ok(word) => match decode(word) {
            Some(inst) => exec(inst, regs, space),
            None => Step::Traps(causes::ILLEGAL_INSTRUCTION),
        },
        Err(cause) => Step::Traps(cause),
    }
}
