//! Instructions of jumps and tests.
ghost use Rattle.std.specs.Prelude.{◌≡◌, ◌+◌, ◌++◌, ◌<◌, ◌^◌, OnOk, pos};
ghost use Rattle.nx_rv.specs.declared.inst.Inst.TheVariants as inst;
ghost use Rattle.nx_codegen.specs.Cells.{IsOperand};
ghost use Rattle.nx_codegen.specs.Frames.{IsFunction};
ghost use Rattle.nx_codegen.specs.Operators.{branch_if, branch_unless, jump_code, right_code, right_source, skip_code};

use crate::address::{apart, lower_part, upper_part, way};
use crate::moves::{put_get, put_number, source_of};
use nx_base::Cond;
use nx_rv::Inst;
use nx_slot::{Comparison, Operand, SlotFunction};
use std::alloc::AllocError;

/// A jump from one place of the function to another.
#[tactic(auto, unfolding(crate::specs::Operators::jump_code))]
pub fn put_jump(code: &mut Vec<Inst>, near: bool, here: u32, there: u32) -> Result<(), AllocError>
    requires here_small { here < 2 ^ 31 }
    requires there_small { there < 2 ^ 31 }
    ensures { OnOk result (code.new.items ≡ code.old.items ++ jump_code near here there) }
{
    if near {
        code.push(Inst::Jal {
            rd: 0,
            offset: way(here, there),
        })?;
    } else {
        code.push(Inst::Auipc {
            rd: 5,
            imm: upper_part(apart(here, there)),
        })?;
        code.push(Inst::Jalr {
            rd: 0,
            rs1: 5,
            imm: lower_part(apart(here, there)),
        })?;
    }
    Ok(())
}

fn branch(cond: Cond, rs1: u8, rs2: u8, offset: i32) -> Inst
    ensures { result ≡ inst.Branch cond rs1 rs2 offset }
{
    Inst::Branch {
        cond,
        rs1,
        rs2,
        offset,
    }
}

/// A branch where a comparison holds.
fn taken_if(test: Comparison, a: u8, b: u8, offset: i32) -> Inst
    ensures { result ≡ branch_if test a b offset }
{
    match test {
        Comparison::Equal => branch(Cond::Eq, a, b, offset),
        Comparison::Unequal => branch(Cond::Ne, a, b, offset),
        Comparison::Less => branch(Cond::Lt, a, b, offset),
        Comparison::AtMost => branch(Cond::Ge, b, a, offset),
        Comparison::Greater => branch(Cond::Lt, b, a, offset),
        Comparison::AtLeast => branch(Cond::Ge, a, b, offset),
    }
}

/// A branch where a comparison doesn't hold.
fn taken_unless(test: Comparison, a: u8, b: u8, offset: i32) -> Inst
    ensures { result ≡ branch_unless test a b offset }
{
    match test {
        Comparison::Equal => branch(Cond::Ne, a, b, offset),
        Comparison::Unequal => branch(Cond::Eq, a, b, offset),
        Comparison::Less => branch(Cond::Ge, a, b, offset),
        Comparison::AtMost => branch(Cond::Lt, b, a, offset),
        Comparison::Greater => branch(Cond::Ge, b, a, offset),
        Comparison::AtLeast => branch(Cond::Lt, a, b, offset),
    }
}

/// A jump where a comparison of two registers doesn't hold.
#[tactic(auto, unfolding(crate::specs::Operators::skip_code))]
pub fn put_skip(
    code: &mut Vec<Inst>,
    near: bool,
    test: Comparison,
    a: u8,
    b: u8,
    here: u32,
    there: u32,
) -> Result<(), AllocError>
    requires here_small { here + 4 < 2 ^ 31 }
    requires there_small { there < 2 ^ 31 }
    ensures { OnOk result (code.new.items ≡ code.old.items ++ skip_code near test a b here there) }
{
    if near {
        code.push(taken_unless(test, a, b, way(here, there)))?;
        Ok(())
    } else {
        code.push(taken_if(test, a, b, 12))?;
        put_jump(code, false, here + 4, there)
    }
}

/// What the right side of a test needs.
#[tactic(auto, unfolding(crate::specs::Operators::right_code))]
pub fn put_right(
    code: &mut Vec<Inst>,
    function: &SlotFunction,
    right: Operand,
) -> Result<(), AllocError>
    requires framed { IsFunction function.now }
    requires right_fits { IsOperand function.now right }
    ensures { OnOk result (code.new.items ≡ code.old.items ++ right_code function.now right) }
{
    match right {
        Operand::Cell(cell) => put_get(code, function, 6, cell),
        Operand::Number(0) => Ok(()),
        Operand::Number(number) => put_number(code, 6, number),
    }
}

/// The register that then has it.
#[tactic(auto, unfolding(crate::specs::Operators::right_source))]
pub fn right_register(function: &SlotFunction, right: Operand) -> u8
    requires framed { IsFunction function.now }
    requires right_fits { IsOperand function.now right }
    ensures { result ≡ right_source function.now right }
{
    match right {
        Operand::Cell(cell) => source_of(function, 6, cell),
        Operand::Number(0) => 0,
        Operand::Number(_) => 6,
    }
}
