//! Instructions that move numbers between cells, registers and the frame.
ghost use Rattle.std.specs.Prelude.{◌≡◌, ◌++◌, ◌<◌, ◌^◌, OnOk};
ghost use Rattle.nx_base.specs.declared.operations.AluOp.TheVariants as alu;
ghost use Rattle.nx_rv.specs.declared.inst.Inst.TheVariants as inst;
ghost use Rattle.nx_codegen.specs.Cells.{IsCell, IsOperand};
ghost use Rattle.nx_codegen.specs.Frames.{IsFunction};
ghost use Rattle.nx_codegen.specs.Moves.{above_code, answer_code, get_code, into_code, load_code, move_code, moved_code, number_code, operand_code, set_code, source, store_code, target};

use crate::address::{lower_part, upper_part};
use crate::frame::{cell_place, is_in_register, register};
use nx_base::AluOp;
use nx_rv::Inst;
use nx_slot::{Operand, SlotFunction};
use std::alloc::AllocError;

/// An operation on two registers.
pub fn op(op: AluOp, rd: u8, rs1: u8, rs2: u8) -> Inst
    ensures { result ≡ inst.Op op rd rs1 rs2 }
{
    Inst::Op { op, rd, rs1, rs2 }
}

/// An operation on a register and a number.
pub fn op_imm(op: AluOp, rd: u8, rs1: u8, imm: i32) -> Inst
    ensures { result ≡ inst.OpImm op rd rs1 imm }
{
    Inst::OpImm { op, rd, rs1, imm }
}

/// The sum of a register and a number.
pub fn add_imm(rd: u8, rs1: u8, imm: i32) -> Inst
    ensures { result ≡ inst.OpImm alu.Add rd rs1 imm }
{
    op_imm(AluOp::Add, rd, rs1, imm)
}

/// A number into a register.
#[tactic(auto, unfolding(crate::specs::Moves::number_code))]
pub fn put_number(code: &mut Vec<Inst>, rd: u8, number: u32) -> Result<(), AllocError>
    ensures { OnOk result (code.new.items ≡ code.old.items ++ number_code rd number) }
{
    if upper_part(number) == 0 {
        code.push(add_imm(rd, 0, lower_part(number)))?;
    } else {
        code.push(Inst::Lui {
            rd,
            imm: upper_part(number),
        })?;
        code.push(add_imm(rd, rd, lower_part(number)))?;
    }
    Ok(())
}

/// A word of the frame into a register.
#[tactic(auto, unfolding(crate::specs::Moves::load_code))]
pub fn put_load(code: &mut Vec<Inst>, rd: u8, place: u32) -> Result<(), AllocError>
    ensures { OnOk result (code.new.items ≡ code.old.items ++ load_code rd place) }
{
    if place < 2048 {
        code.push(Inst::Load {
            width: 4,
            signed: true,
            rd,
            rs1: 2,
            imm: place as i32,
        })?;
    } else {
        code.push(Inst::Lui {
            rd,
            imm: upper_part(place),
        })?;
        code.push(op(AluOp::Add, rd, rd, 2))?;
        code.push(Inst::Load {
            width: 4,
            signed: true,
            rd,
            rs1: rd,
            imm: lower_part(place),
        })?;
    }
    Ok(())
}

/// A register into a word of the frame.
#[tactic(auto, unfolding(crate::specs::Moves::store_code))]
pub fn put_store(code: &mut Vec<Inst>, rs: u8, place: u32) -> Result<(), AllocError>
    ensures { OnOk result (code.new.items ≡ code.old.items ++ store_code rs place) }
{
    if place < 2048 {
        code.push(Inst::Store {
            width: 4,
            rs1: 2,
            rs2: rs,
            imm: place as i32,
        })?;
    } else {
        code.push(Inst::Lui {
            rd: 7,
            imm: upper_part(place),
        })?;
        code.push(op(AluOp::Add, 7, 7, 2))?;
        code.push(Inst::Store {
            width: 4,
            rs1: 7,
            rs2: rs,
            imm: lower_part(place),
        })?;
    }
    Ok(())
}

/// An address above the stack pointer.
#[tactic(auto, unfolding(crate::specs::Moves::above_code))]
pub fn put_above(code: &mut Vec<Inst>, rd: u8, bytes: u32) -> Result<(), AllocError>
    ensures { OnOk result (code.new.items ≡ code.old.items ++ above_code rd bytes) }
{
    if bytes < 2048 {
        code.push(add_imm(rd, 2, bytes as i32))?;
    } else {
        put_number(code, rd, bytes)?;
        code.push(op(AluOp::Add, rd, rd, 2))?;
    }
    Ok(())
}

/// A cell's value into a register.
#[tactic(auto, unfolding(crate::specs::Moves::into_code))]
pub fn put_into(
    code: &mut Vec<Inst>,
    function: &SlotFunction,
    rd: u8,
    cell: usize,
) -> Result<(), AllocError>
    requires framed { IsFunction function.now }
    requires cell_there { IsCell function.now cell }
    ensures { OnOk result (code.new.items ≡ code.old.items ++ into_code function.now rd cell) }
{
    if is_in_register(function, cell) {
        code.push(add_imm(rd, register(function, cell), 0))?;
        Ok(())
    } else {
        put_load(code, rd, cell_place(function, cell))
    }
}

/// A cell's value into its own register, or else into a spare one.
#[tactic(auto, unfolding(crate::specs::Moves::get_code))]
pub fn put_get(
    code: &mut Vec<Inst>,
    function: &SlotFunction,
    spare: u8,
    cell: usize,
) -> Result<(), AllocError>
    requires framed { IsFunction function.now }
    requires cell_there { IsCell function.now cell }
    ensures { OnOk result (code.new.items ≡ code.old.items ++ get_code function.now spare cell) }
{
    if is_in_register(function, cell) {
        Ok(())
    } else {
        put_load(code, spare, cell_place(function, cell))
    }
}

/// The register that then has the value.
#[tactic(auto, unfolding(crate::specs::Moves::source))]
pub fn source_of(function: &SlotFunction, spare: u8, cell: usize) -> u8
    requires framed { IsFunction function.now }
    requires cell_there { IsCell function.now cell }
    ensures { result ≡ source function.now spare cell }
{
    if is_in_register(function, cell) {
        register(function, cell)
    } else {
        spare
    }
}

/// The register that a cell's new value is made in.
pub fn target_register(function: &SlotFunction, cell: usize) -> u8
    requires framed { IsFunction function.now }
    requires cell_there { IsCell function.now cell }
    ensures { result ≡ target function.now cell }
{
    source_of(function, 5, cell)
}

/// A cell's new value out of that register.
#[tactic(auto, unfolding(crate::specs::Moves::set_code))]
pub fn put_set(code: &mut Vec<Inst>, function: &SlotFunction, cell: usize) -> Result<(), AllocError>
    requires framed { IsFunction function.now }
    requires cell_there { IsCell function.now cell }
    ensures { OnOk result (code.new.items ≡ code.old.items ++ set_code function.now cell) }
{
    if is_in_register(function, cell) {
        Ok(())
    } else {
        put_store(code, 5, cell_place(function, cell))
    }
}

/// A cell's value into another cell.
#[tactic(auto, unfolding(crate::specs::Moves::move_code))]
pub fn put_move(
    code: &mut Vec<Inst>,
    function: &SlotFunction,
    to: usize,
    from: usize,
) -> Result<(), AllocError>
    requires framed { IsFunction function.now }
    requires to_there { IsCell function.now to }
    requires from_there { IsCell function.now from }
    ensures { OnOk result (code.new.items ≡ code.old.items ++ move_code function.now to from) }
{
    if is_in_register(function, to) {
        put_into(code, function, register(function, to), from)
    } else {
        put_get(code, function, 5, from)?;
        put_store(code, source_of(function, 5, from), cell_place(function, to))
    }
}

/// An operand's value into a cell.
pub fn put_moved(
    code: &mut Vec<Inst>,
    function: &SlotFunction,
    to: usize,
    from: Operand,
) -> Result<(), AllocError>
    requires framed { IsFunction function.now }
    requires to_there { IsCell function.now to }
    requires from_fits { IsOperand function.now from }
    ensures { OnOk result (code.new.items ≡ code.old.items ++ moved_code function.now to from) }
{
    match from {
        Operand::Cell(cell) => put_move(code, function, to, cell),
        Operand::Number(number) => {
            put_number(code, target_register(function, to), number)?;
            put_set(code, function, to)
        }
    }
}

/// An operand's value into a register.
pub fn put_operand(
    code: &mut Vec<Inst>,
    function: &SlotFunction,
    rd: u8,
    operand: Operand,
) -> Result<(), AllocError>
    requires framed { IsFunction function.now }
    requires operand_fits { IsOperand function.now operand }
    ensures { OnOk result (code.new.items ≡ code.old.items ++ operand_code function.now rd operand) }
{
    match operand {
        Operand::Cell(cell) => put_into(code, function, rd, cell),
        Operand::Number(number) => put_number(code, rd, number),
    }
}

/// What a call answered, into a cell.
#[tactic(auto, unfolding(crate::specs::Moves::answer_code))]
pub fn put_answer(
    code: &mut Vec<Inst>,
    function: &SlotFunction,
    cell: usize,
) -> Result<(), AllocError>
    requires framed { IsFunction function.now }
    requires cell_there { IsCell function.now cell }
    ensures { OnOk result (code.new.items ≡ code.old.items ++ answer_code function.now cell) }
{
    code.push(add_imm(target_register(function, cell), 10, 0))?;
    put_set(code, function, cell)
}
