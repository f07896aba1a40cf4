//! Instructions of calls, entries and returns.
ghost use Rattle.std.specs.Prelude.{◌≡◌, ◌+◌, ◌++◌, ◌<◌, ◌≤◌, OnOk, true, slice_get};
ghost use Rattle.nx_rv.specs.declared.inst.Inst.TheVariants as inst;
ghost use Rattle.nx_codegen.specs.Calling.{arguments_code, call_code, clear_code, clear_loop, close_code, enter_code, kept_at, leave_code, open_code, parameters_code, restore_code, save_code, test_code};
ghost use Rattle.nx_codegen.specs.Cells.{AreHanded};
ghost use Rattle.nx_codegen.specs.Frames.{IsFunction};

use crate::address::{lower_part, upper_part};
use crate::frame::{array_place, cell_place, rounded_bytes};
use crate::moves::{add_imm, op, put_above, put_into, put_number, put_store};
use nx_base::{AluOp, Cond};
use nx_rv::Inst;
use nx_slot::SlotFunction;
use std::alloc::AllocError;

/// A word above the stack pointer out of a register.
fn stored(rs: u8, place: i32) -> Inst
    ensures { result ≡ inst.Store 4 2 rs place }
{
    Inst::Store {
        width: 4,
        rs1: 2,
        rs2: rs,
        imm: place,
    }
}

/// A word above the stack pointer into a register.
fn loaded(rd: u8, place: i32) -> Inst
    ensures { result ≡ inst.Load 4 true rd 2 place }
{
    Inst::Load {
        width: 4,
        signed: true,
        rd,
        rs1: 2,
        imm: place,
    }
}

/// Cells from one on into the registers of arguments.
#[tactic(auto, unfolding(crate::specs::Calling::arguments_code), using(crate::proofs::Bounds::words_small))]
pub fn put_arguments(
    code: &mut Vec<Inst>,
    function: &SlotFunction,
    first: usize,
    count: usize,
) -> Result<(), AllocError>
    requires framed { IsFunction function.now }
    requires handed { AreHanded function.now first count }
    ensures { OnOk result (code.new.items ≡ code.old.items ++ arguments_code function.now first count) }
{
    for k in 0..count {
        put_into(code, function, 10 + k as u8, first + k)?;
    }
    Ok(())
}

/// The parameters out of their registers into their cells.
#[tactic(auto, unfolding(crate::specs::Calling::parameters_code), using(crate::proofs::Bounds::words_small))]
fn put_parameters(code: &mut Vec<Inst>, function: &SlotFunction) -> Result<(), AllocError>
    requires framed { IsFunction function.now }
    ensures { OnOk result (code.new.items ≡ code.old.items ++ parameters_code function.now function.now.params) }
{
    for k in 0..function.params {
        put_store(code, 10 + k as u8, cell_place(function, k))?;
    }
    Ok(())
}

/// How many temporaries in registers a call keeps.
#[tactic(auto, unfolding(crate::specs::Calling::kept_at))]
fn kept(function: &SlotFunction, first: usize) -> u8
    requires { function.now.locals ≤ first }
    ensures is { result ≡ kept_at function.now first }
    ensures few { result ≤ 8 }
{
    (first - function.locals).min(8) as u8
}

#[tactic(auto, unfolding(crate::specs::Calling::save_code))]
fn put_save(code: &mut Vec<Inst>, count: u8) -> Result<(), AllocError>
    requires { count ≤ 8 }
    ensures { OnOk result (code.new.items ≡ code.old.items ++ save_code count) }
{
    for k in 0..count {
        code.push(stored(18 + k, 4 * (1 + k as i32)))?;
    }
    Ok(())
}

#[tactic(auto, unfolding(crate::specs::Calling::restore_code))]
fn put_restore(code: &mut Vec<Inst>, count: u8) -> Result<(), AllocError>
    requires { count ≤ 8 }
    ensures { OnOk result (code.new.items ≡ code.old.items ++ restore_code count) }
{
    for k in 0..count {
        code.push(loaded(18 + k, 4 * (1 + k as i32)))?;
    }
    Ok(())
}

/// A jump to an address that a link fills in.
#[tactic(auto, unfolding(crate::specs::Calling::call_code))]
pub fn put_call(code: &mut Vec<Inst>) -> Result<(), AllocError>
    ensures { OnOk result (code.new.items ≡ code.old.items ++ call_code 0) }
{
    code.push(Inst::Lui {
        rd: 1,
        imm: upper_part(0),
    })?;
    code.push(Inst::Jalr {
        rd: 1,
        rs1: 1,
        imm: lower_part(0),
    })?;
    Ok(())
}

/// The temporaries in registers that are in use, into their words.
pub fn put_saved(
    code: &mut Vec<Inst>,
    function: &SlotFunction,
    first: usize,
) -> Result<(), AllocError>
    requires { function.now.locals ≤ first }
    ensures { OnOk result (code.new.items ≡ code.old.items ++ save_code (kept_at function.now first)) }
{
    put_save(code, kept(function, first))
}

/// And back.
pub fn put_restored(
    code: &mut Vec<Inst>,
    function: &SlotFunction,
    first: usize,
) -> Result<(), AllocError>
    requires { function.now.locals ≤ first }
    ensures { OnOk result (code.new.items ≡ code.old.items ++ restore_code (kept_at function.now first)) }
{
    put_restore(code, kept(function, first))
}

#[tactic(auto, unfolding(crate::specs::Calling::open_code))]
fn put_open(code: &mut Vec<Inst>, bytes: u32) -> Result<(), AllocError>
    ensures { OnOk result (code.new.items ≡ code.old.items ++ open_code bytes) }
{
    if bytes <= 2048 {
        code.push(add_imm(2, 2, -1 - (bytes.saturating_sub(1) as i32)))?;
    } else {
        put_number(code, 5, bytes)?;
        code.push(op(AluOp::Sub, 2, 2, 5))?;
    }
    Ok(())
}

#[tactic(auto, unfolding(crate::specs::Calling::close_code))]
fn put_close(code: &mut Vec<Inst>, bytes: u32) -> Result<(), AllocError>
    ensures { OnOk result (code.new.items ≡ code.old.items ++ close_code bytes) }
{
    if bytes < 2048 {
        code.push(add_imm(2, 2, bytes as i32))?;
    } else {
        put_number(code, 5, bytes)?;
        code.push(op(AluOp::Add, 2, 2, 5))?;
    }
    Ok(())
}

#[tactic(auto, unfolding(crate::specs::Calling::test_code))]
fn put_test(code: &mut Vec<Inst>) -> Result<(), AllocError>
    ensures { OnOk result (code.new.items ≡ code.old.items ++ test_code) }
{
    code.push(Inst::Branch {
        cond: Cond::Geu,
        rs1: 2,
        rs2: 4,
        offset: 16,
    })?;
    code.push(op(AluOp::Sub, 11, 3, 2))?;
    code.push(add_imm(10, 0, 0))?;
    code.push(Inst::Ecall)?;
    Ok(())
}

/// A function's entry.
#[tactic(auto, unfolding(crate::specs::Calling::enter_code))]
pub fn put_enter(code: &mut Vec<Inst>, function: &SlotFunction) -> Result<(), AllocError>
    requires framed { IsFunction function.now }
    ensures { OnOk result (code.new.items ≡ code.old.items ++ enter_code function.now) }
{
    code.push(Inst::Branch {
        cond: Cond::Ne,
        rs1: 3,
        rs2: 0,
        offset: 8,
    })?;
    code.push(add_imm(3, 2, 0))?;
    put_open(code, function.frame)?;
    put_test(code)?;
    code.push(stored(1, 0))?;
    put_parameters(code, function)
}

/// A function's return.
#[tactic(auto, unfolding(crate::specs::Calling::leave_code))]
pub fn put_leave(code: &mut Vec<Inst>, function: &SlotFunction) -> Result<(), AllocError>
    ensures { OnOk result (code.new.items ≡ code.old.items ++ leave_code function.now) }
{
    code.push(loaded(1, 0))?;
    put_close(code, function.frame)?;
    code.push(Inst::Jalr {
        rd: 0,
        rs1: 1,
        imm: 0,
    })?;
    Ok(())
}

fn put_clear_loop(code: &mut Vec<Inst>) -> Result<(), AllocError>
    ensures { OnOk result (code.new.items ≡ code.old.items ++ clear_loop) }
{
    code.push(Inst::Store {
        width: 4,
        rs1: 5,
        rs2: 0,
        imm: 0,
    })?;
    code.push(add_imm(5, 5, 4))?;
    code.push(Inst::Branch {
        cond: Cond::Ltu,
        rs1: 5,
        rs2: 6,
        offset: -8,
    })?;
    Ok(())
}

/// An array of the function is set to zero.
#[tactic(auto, unfolding(crate::specs::Calling::clear_code))]
pub fn put_clear(
    code: &mut Vec<Inst>,
    function: &SlotFunction,
    number: usize,
) -> Result<(), AllocError>
    requires framed { IsFunction function.now }
    ensures { OnOk result (code.new.items ≡ code.old.items ++ clear_code function.now number (slice_get function.now.arrays number)) }
{
    match function.arrays.get(number) {
        None => Ok(()),
        Some(array) => {
            put_above(code, 5, array_place(function, number))?;
            put_number(code, 6, rounded_bytes(array))?;
            code.push(op(AluOp::Add, 6, 6, 5))?;
            put_clear_loop(code)
        }
    }
}
