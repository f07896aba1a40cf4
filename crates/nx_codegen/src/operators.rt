//! Instructions of operators.
ghost use Rattle.std.specs.Prelude.{◌≡◌, ◌++◌, ◌*◌, ◌%◌, ◌^◌, OnOk, pos};
ghost use Rattle.nx_slot.specs.declared.op.Binary.TheVariants.{Compare};
ghost use Rattle.nx_slot.specs.Objects.{bytes_of};
ghost use Rattle.nx_rv.specs.declared.inst.Inst.TheVariants as inst;
ghost use Rattle.nx_codegen.specs.Cells.{IsCell, IsOperand};
ghost use Rattle.nx_codegen.specs.Frames.{IsFunction};
ghost use Rattle.nx_codegen.specs.Operators.{applied_code, binary_code, changed_code, compare_code, constant_code, indexed_code, load_of, loaded_code, scaled_code, short_code, stored_code, unary_code};

use crate::address::{lower_part, upper_part};
use crate::moves::{op, op_imm, put_get, put_number, put_set, source_of, target_register};
use nx_base::AluOp;
use nx_rv::Inst;
use nx_slot::{Binary, Comparison, Operand, SlotFunction, Unary, Width};
use std::alloc::AllocError;

/// A comparison of two registers, as 1 or 0 in a third.
fn put_compare(
    code: &mut Vec<Inst>,
    test: Comparison,
    rd: u8,
    a: u8,
    b: u8,
) -> Result<(), AllocError>
    ensures { OnOk result (code.new.items ≡ code.old.items ++ compare_code test rd a b) }
{
    match test {
        Comparison::Equal => {
            code.push(op(AluOp::Sub, rd, a, b))?;
            code.push(op_imm(AluOp::Sltu, rd, rd, 1))?;
        }
        Comparison::Unequal => {
            code.push(op(AluOp::Sub, rd, a, b))?;
            code.push(op(AluOp::Sltu, rd, 0, rd))?;
        }
        Comparison::Less => code.push(op(AluOp::Slt, rd, a, b))?,
        Comparison::AtMost => {
            code.push(op(AluOp::Slt, rd, b, a))?;
            code.push(op_imm(AluOp::Xor, rd, rd, 1))?;
        }
        Comparison::Greater => code.push(op(AluOp::Slt, rd, b, a))?,
        Comparison::AtLeast => {
            code.push(op(AluOp::Slt, rd, a, b))?;
            code.push(op_imm(AluOp::Xor, rd, rd, 1))?;
        }
    }
    Ok(())
}

/// What two registers make, into a third.
fn put_binary(
    code: &mut Vec<Inst>,
    operator: Binary,
    rd: u8,
    a: u8,
    b: u8,
) -> Result<(), AllocError>
    ensures { OnOk result (code.new.items ≡ code.old.items ++ binary_code operator rd a b) }
{
    match operator {
        Binary::Add => code.push(op(AluOp::Add, rd, a, b))?,
        Binary::Subtract => code.push(op(AluOp::Sub, rd, a, b))?,
        Binary::Multiply => code.push(op(AluOp::Mul, rd, a, b))?,
        Binary::Divide => code.push(op(AluOp::Div, rd, a, b))?,
        Binary::Remainder => code.push(op(AluOp::Rem, rd, a, b))?,
        Binary::And => code.push(op(AluOp::And, rd, a, b))?,
        Binary::Or => code.push(op(AluOp::Or, rd, a, b))?,
        Binary::Xor => code.push(op(AluOp::Xor, rd, a, b))?,
        Binary::ShiftLeft => code.push(op(AluOp::Sll, rd, a, b))?,
        Binary::ShiftRight => code.push(op(AluOp::Sra, rd, a, b))?,
        Binary::Compare(test) => return put_compare(code, test, rd, a, b),
    }
    Ok(())
}

/// An operation on a register and a number, which is part of the instruction where it fits.
#[tactic(auto, unfolding(crate::specs::Operators::short_code))]
fn put_short(
    code: &mut Vec<Inst>,
    operation: AluOp,
    rd: u8,
    a: u8,
    number: u32,
) -> Result<(), AllocError>
    ensures { OnOk result (code.new.items ≡ code.old.items ++ short_code operation rd a number) }
{
    if upper_part(number) == 0 {
        code.push(op_imm(operation, rd, a, lower_part(number)))?;
    } else {
        put_number(code, 6, number)?;
        code.push(op(operation, rd, a, 6))?;
    }
    Ok(())
}

/// A comparison of a register and a number, as 1 or 0.
fn put_compare_number(
    code: &mut Vec<Inst>,
    test: Comparison,
    rd: u8,
    a: u8,
    number: u32,
) -> Result<(), AllocError>
    ensures { OnOk result (code.new.items ≡ code.old.items ++ constant_code (Compare test) rd a number) }
{
    match test {
        Comparison::Equal => {
            put_short(code, AluOp::Xor, rd, a, number)?;
            code.push(op_imm(AluOp::Sltu, rd, rd, 1))?;
            Ok(())
        }
        Comparison::Unequal => {
            put_short(code, AluOp::Xor, rd, a, number)?;
            code.push(op(AluOp::Sltu, rd, 0, rd))?;
            Ok(())
        }
        Comparison::Less => put_short(code, AluOp::Slt, rd, a, number),
        Comparison::AtLeast => {
            put_short(code, AluOp::Slt, rd, a, number)?;
            code.push(op_imm(AluOp::Xor, rd, rd, 1))?;
            Ok(())
        }
        Comparison::AtMost => {
            put_number(code, 6, number)?;
            put_compare(code, Comparison::AtMost, rd, a, 6)
        }
        Comparison::Greater => {
            put_number(code, 6, number)?;
            put_compare(code, Comparison::Greater, rd, a, 6)
        }
    }
}

/// What a register and a number make.
fn put_constant(
    code: &mut Vec<Inst>,
    operator: Binary,
    rd: u8,
    a: u8,
    number: u32,
) -> Result<(), AllocError>
    ensures { OnOk result (code.new.items ≡ code.old.items ++ constant_code operator rd a number) }
{
    match operator {
        Binary::Add => put_short(code, AluOp::Add, rd, a, number),
        Binary::Subtract => put_short(code, AluOp::Add, rd, a, 0u32.wrapping_sub(number)),
        Binary::And => put_short(code, AluOp::And, rd, a, number),
        Binary::Or => put_short(code, AluOp::Or, rd, a, number),
        Binary::Xor => put_short(code, AluOp::Xor, rd, a, number),
        Binary::ShiftLeft => {
            code.push(op_imm(AluOp::Sll, rd, a, (number % 32) as i32))?;
            Ok(())
        }
        Binary::ShiftRight => {
            code.push(op_imm(AluOp::Sra, rd, a, (number % 32) as i32))?;
            Ok(())
        }
        Binary::Compare(test) => put_compare_number(code, test, rd, a, number),
        Binary::Multiply => {
            put_number(code, 6, number)?;
            put_binary(code, Binary::Multiply, rd, a, 6)
        }
        Binary::Divide => {
            put_number(code, 6, number)?;
            put_binary(code, Binary::Divide, rd, a, 6)
        }
        Binary::Remainder => {
            put_number(code, 6, number)?;
            put_binary(code, Binary::Remainder, rd, a, 6)
        }
    }
}

/// What a cell and an operand make.
pub fn put_applied(
    code: &mut Vec<Inst>,
    function: &SlotFunction,
    operator: Binary,
    to: usize,
    left: usize,
    right: Operand,
) -> Result<(), AllocError>
    requires framed { IsFunction function.now }
    requires to_there { IsCell function.now to }
    requires left_there { IsCell function.now left }
    requires right_fits { IsOperand function.now right }
    ensures { OnOk result (code.new.items ≡ code.old.items ++ applied_code function.now operator to left right) }
{
    put_get(code, function, 5, left)?;
    match right {
        Operand::Cell(cell) => {
            put_get(code, function, 6, cell)?;
            put_binary(
                code,
                operator,
                target_register(function, to),
                source_of(function, 5, left),
                source_of(function, 6, cell),
            )?;
        }
        Operand::Number(number) => {
            put_constant(
                code,
                operator,
                target_register(function, to),
                source_of(function, 5, left),
                number,
            )?;
        }
    }
    put_set(code, function, to)
}

fn put_unary(code: &mut Vec<Inst>, operator: Unary, rd: u8, a: u8) -> Result<(), AllocError>
    ensures { OnOk result (code.new.items ≡ code.old.items ++ unary_code operator rd a) }
{
    match operator {
        Unary::Negate => code.push(op(AluOp::Sub, rd, 0, a))?,
        Unary::LowByte => code.push(op_imm(AluOp::And, rd, a, 255))?,
    }
    Ok(())
}

/// What one cell makes.
pub fn put_changed(
    code: &mut Vec<Inst>,
    function: &SlotFunction,
    operator: Unary,
    to: usize,
    from: usize,
) -> Result<(), AllocError>
    requires framed { IsFunction function.now }
    requires to_there { IsCell function.now to }
    requires from_there { IsCell function.now from }
    ensures { OnOk result (code.new.items ≡ code.old.items ++ changed_code function.now operator to from) }
{
    put_get(code, function, 5, from)?;
    put_unary(
        code,
        operator,
        target_register(function, to),
        source_of(function, 5, from),
    )?;
    put_set(code, function, to)
}

fn put_scaled(code: &mut Vec<Inst>, width: Width, rd: u8, a: u8, b: u8) -> Result<(), AllocError>
    ensures { OnOk result (code.new.items ≡ code.old.items ++ scaled_code width rd a b) }
{
    match width {
        Width::Byte => code.push(op(AluOp::Add, rd, a, b))?,
        Width::Word => {
            code.push(op_imm(AluOp::Sll, 6, b, 2))?;
            code.push(op(AluOp::Add, rd, a, 6))?;
        }
    }
    Ok(())
}

/// So many bytes as elements take, modulo 2^32.
fn bytes_of_elements(width: Width, number: u32) -> u32
    ensures { result ≡ bytes_of width * number % 2 ^ 32 }
{
    match width {
        Width::Byte => number,
        Width::Word => 4u32.wrapping_mul(number),
    }
}

/// A pointer moved up by elements.
pub fn put_indexed(
    code: &mut Vec<Inst>,
    function: &SlotFunction,
    to: usize,
    base: usize,
    index: Operand,
    width: Width,
) -> Result<(), AllocError>
    requires framed { IsFunction function.now }
    requires to_there { IsCell function.now to }
    requires base_there { IsCell function.now base }
    requires index_fits { IsOperand function.now index }
    ensures { OnOk result (code.new.items ≡ code.old.items ++ indexed_code function.now to base index width) }
{
    put_get(code, function, 5, base)?;
    match index {
        Operand::Cell(cell) => {
            put_get(code, function, 6, cell)?;
            put_scaled(
                code,
                width,
                target_register(function, to),
                source_of(function, 5, base),
                source_of(function, 6, cell),
            )?;
        }
        Operand::Number(number) => {
            put_short(
                code,
                AluOp::Add,
                target_register(function, to),
                source_of(function, 5, base),
                bytes_of_elements(width, number),
            )?;
        }
    }
    put_set(code, function, to)
}

fn element_load(width: Width, rd: u8, a: u8) -> Inst
    ensures { result ≡ load_of width rd a }
{
    match width {
        Width::Byte => Inst::Load {
            width: 1,
            signed: false,
            rd,
            rs1: a,
            imm: 0,
        },
        Width::Word => Inst::Load {
            width: 4,
            signed: true,
            rd,
            rs1: a,
            imm: 0,
        },
    }
}

/// The element at a pointer.
pub fn put_loaded(
    code: &mut Vec<Inst>,
    function: &SlotFunction,
    to: usize,
    place: usize,
    width: Width,
) -> Result<(), AllocError>
    requires framed { IsFunction function.now }
    requires to_there { IsCell function.now to }
    requires place_there { IsCell function.now place }
    ensures { OnOk result (code.new.items ≡ code.old.items ++ loaded_code function.now to place width) }
{
    put_get(code, function, 5, place)?;
    code.push(element_load(
        width,
        target_register(function, to),
        source_of(function, 5, place),
    ))?;
    put_set(code, function, to)
}

fn element_store(width: Width, a: u8, value: u8) -> Inst
    ensures { result ≡ inst.Store (bytes_of width) a value (pos 0) }
{
    match width {
        Width::Byte => Inst::Store {
            width: 1,
            rs1: a,
            rs2: value,
            imm: 0,
        },
        Width::Word => Inst::Store {
            width: 4,
            rs1: a,
            rs2: value,
            imm: 0,
        },
    }
}

/// A number into the element at a pointer.
pub fn put_stored(
    code: &mut Vec<Inst>,
    function: &SlotFunction,
    place: usize,
    value: usize,
    width: Width,
) -> Result<(), AllocError>
    requires framed { IsFunction function.now }
    requires place_there { IsCell function.now place }
    requires value_there { IsCell function.now value }
    ensures { OnOk result (code.new.items ≡ code.old.items ++ stored_code function.now place value width) }
{
    put_get(code, function, 5, place)?;
    put_get(code, function, 6, value)?;
    code.push(element_store(
        width,
        source_of(function, 5, place),
        source_of(function, 6, value),
    ))?;
    Ok(())
}
