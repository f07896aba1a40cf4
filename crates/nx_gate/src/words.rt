ghost use Rattle.std.specs.Prelude.{◌≡◌, ℕ, ◌+◌, ◌*◌, ◌%◌, ◌^◌, ◌<◌, ◌≤◌, length};
ghost use Rattle.nx_base.specs.declared.regs.Regs.{Regs};
ghost use Rattle.nx_base.specs.Registers.{reg};
ghost use Rattle.nx_base.specs.Views.{View};
ghost use Rattle.nx_rv.specs.Table.{IsInRange};
ghost use Rattle.nx_gate.specs.Gates.{words_of};
ghost use Rattle.nx_gate.specs.Proxies.{addi as addi_of, Calls, Stand};

use crate::gate::Gate;
use arrayvec::ArrayVec;
use nx_base::AluOp;
use nx_rv::{Inst, encode};

fn addi(rd: u8, rs1: u8, n: u16) -> Inst
    requires rd { rd < 32 }
    requires rs1 { rs1 < 32 }
    requires n { n < 2048 }
    ensures value { result ≡ addi_of rd rs1 n }
    ensures in_range { IsInRange result }
{
    Inst::OpImm {
        op: AluOp::Add,
        rd,
        rs1,
        imm: i32::from(n),
    }
}

#[tactic(auto, unfolding(crate::specs::Proxies::proxy_of))]
fn make_words(gate: &Gate) -> ArrayVec<u32, 16>
    requires { gate.now.number < 2048 }
    ensures words { result.items ≡ words_of gate.now }
    ensures few { length gate.now.kinds.items ≤ 6 }
{
    let mut words = ArrayVec::new();
    let mut i = gate.kinds.len() as u8;
    while i > 0 {
        i -= 1;
        words.push(encode(&addi(11 + i, 10 + i, 0)));
    }
    words.push(encode(&addi(10, 0, gate.number)));
    words.push(encode(&Inst::Ecall));
    words.push(encode(&Inst::Jalr {
        rd: 0,
        rs1: 1,
        imm: 0,
    }));
    words
}

/// The words by which a program makes the call of a gate: they move its arguments up by one
/// register, put the number into register 10, make the call, and return.
pub fn proxy(gate: &Gate) -> ArrayVec<u32, 16>
    requires { gate.now.number < 2048 }
    ensures words { result.items ≡ words_of gate.now }
    // Where these words stand at the pc, they make the call.
    ensures calls { (r : Regs) (v : View) → length r.x ≡ 32 → ((j : ℕ) → reg r j < 2 ^ 32) → r.pc % 4 ≡ 0 → r.pc + 4 * length result.items < 2 ^ 32
        → Stand v r.pc result.items → Calls gate.now.number (length gate.now.kinds.items) r v }
{
    make_words(gate)
}
