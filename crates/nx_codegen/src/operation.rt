//! The instructions of one operation, as far as they are known before a link, and the places that a link fills in.
ghost use Rattle.std.specs.Prelude.{◌≡◌, ◌+◌, ◌*◌, ◌++◌, ◌<◌, ◌^◌, OnOk, [], ◌∷◌, length};
ghost use Rattle.nx_rv.specs.declared.inst.Inst.TheVariants.{Lui, Store};
ghost use Rattle.nx_slot.specs.declared.op.SlotOp.TheVariants as op;
ghost use Rattle.nx_codegen.specs.Addresses.{lower, no_links, upper};
ghost use Rattle.nx_codegen.specs.Cells.{AreHanded, HasCells, IsCell, IsOperand};
ghost use Rattle.nx_codegen.specs.Code.{address_code, ask_code, fetch_code, give_code, go_code, keep_code, local_code, operation_code, tested_code};
ghost use Rattle.nx_codegen.specs.Frames.{IsFunction};
ghost use Rattle.nx_codegen.specs.Refs.{refs_in};

use crate::address::{lower_part, target_of_object, upper_part};
use crate::calling::{put_arguments, put_call, put_clear, put_leave, put_restored, put_saved};
use crate::frame::array_place;
use crate::jumps::{put_jump, put_right, put_skip, right_register};
use crate::moves::{
    add_imm, put_above, put_answer, put_get, put_move, put_moved, put_operand, put_set, source_of,
    target_register,
};
use crate::operators::{put_applied, put_changed, put_indexed, put_loaded, put_stored};
use crate::output::{Ref, Target};
use nx_rv::Inst;
use nx_slot::{Comparison, Operand, SlotFunction, SlotOp};
use std::alloc::AllocError;

/// Where an operation stands, in bytes from the function's first instruction.
#[derive(Clone, Copy)]
pub struct Place {
    /// Whether a branch reaches from end to end.
    pub near: bool,
    /// Where the operation begins.
    pub here: u32,
    /// Where it jumps to, if it does.
    pub there: u32,
}

/// What is emitted: instructions, with the address 0 at each ref.
#[derive(Drop)]
pub struct Emission {
    pub code: Vec<Inst>,
    pub refs: Vec<Ref>,
}

#[tactic(auto, using(crate::proofs::Bounds::sides_few, crate::proofs::Bounds::length_parts))]
fn put_tested(
    code: &mut Vec<Inst>,
    function: &SlotFunction,
    test: Comparison,
    left: usize,
    right: Operand,
    place: &Place,
) -> Result<(), AllocError>
    requires framed { IsFunction function.now }
    requires left_there { IsCell function.now left }
    requires right_fits { IsOperand function.now right }
    requires here_small { place.now.here < 2 ^ 30 }
    requires there_small { place.now.there < 2 ^ 30 }
    ensures { OnOk result (code.new.items ≡ code.old.items ++ tested_code place.now.near function.now test left right place.now.here place.now.there) }
{
    let before = code.len();
    put_get(code, function, 5, left)?;
    put_right(code, function, right)?;
    let sides = (code.len() - before) as u32;
    put_skip(
        code,
        place.near,
        test,
        source_of(function, 5, left),
        right_register(function, right),
        place.here + 4 * sides,
        place.there,
    )
}

fn put_give(code: &mut Vec<Inst>, function: &SlotFunction, value: Operand) -> Result<(), AllocError>
    requires framed { IsFunction function.now }
    requires value_fits { IsOperand function.now value }
    ensures { OnOk result (code.new.items ≡ code.old.items ++ give_code function.now value) }
{
    put_operand(code, function, 10, value)?;
    put_leave(code, function)
}

fn put_local(
    code: &mut Vec<Inst>,
    function: &SlotFunction,
    to: usize,
    number: usize,
) -> Result<(), AllocError>
    requires framed { IsFunction function.now }
    requires to_there { IsCell function.now to }
    ensures { OnOk result (code.new.items ≡ code.old.items ++ local_code function.now to number) }
{
    put_above(
        code,
        target_register(function, to),
        array_place(function, number),
    )?;
    put_set(code, function, to)
}

/// An address into a cell.
fn put_address(code: &mut Vec<Inst>, function: &SlotFunction, to: usize) -> Result<(), AllocError>
    requires framed { IsFunction function.now }
    requires to_there { IsCell function.now to }
    ensures { OnOk result (code.new.items ≡ code.old.items ++ address_code function.now to 0) }
{
    let register = target_register(function, to);
    code.push(Inst::Lui {
        rd: register,
        imm: upper_part(0),
    })?;
    code.push(add_imm(register, register, lower_part(0)))?;
    put_set(code, function, to)
}

/// The number at an address into a cell.
fn put_fetch(code: &mut Vec<Inst>, function: &SlotFunction, to: usize) -> Result<(), AllocError>
    requires framed { IsFunction function.now }
    requires to_there { IsCell function.now to }
    ensures { OnOk result (code.new.items ≡ code.old.items ++ fetch_code function.now to 0) }
{
    code.push(Inst::Lui {
        rd: 5,
        imm: upper_part(0),
    })?;
    code.push(Inst::Load {
        width: 4,
        signed: true,
        rd: target_register(function, to),
        rs1: 5,
        imm: lower_part(0),
    })?;
    put_set(code, function, to)
}

/// A number out of a register to an address.
fn put_kept(code: &mut Vec<Inst>, register: u8) -> Result<(), AllocError>
    ensures { OnOk result (code.new.items ≡ code.old.items ++ Lui 5 (upper 0) ∷ Store 4 5 register (lower 0) ∷ []) }
{
    code.push(Inst::Lui {
        rd: 5,
        imm: upper_part(0),
    })?;
    code.push(Inst::Store {
        width: 4,
        rs1: 5,
        rs2: register,
        imm: lower_part(0),
    })?;
    Ok(())
}

/// A ref at the end of what is emitted.
fn put_ref(out: &mut Emission, target: Target) -> Result<(), AllocError>
    ensures code { OnOk result (out.new.code ≡ out.old.code) }
    ensures refs { OnOk result (out.new.refs.items ≡ out.old.refs.items ++ record { at = length out.old.code.items; target = target } ∷ []) }
{
    let at = out.code.len();
    out.refs.push(Ref { at, target })?;
    Ok(())
}

/// A call of the kernel.
fn put_ask(
    out: &mut Emission,
    function: &SlotFunction,
    number: u16,
    first: usize,
    count: usize,
) -> Result<(), AllocError>
    requires framed { IsFunction function.now }
    requires handed { AreHanded function.now first count }
    ensures code { OnOk result (out.new.code.items ≡ out.old.code.items ++ ask_code function.now first count 0) }
    ensures refs { OnOk result (out.new.refs.items ≡ out.old.refs.items ++ refs_in function.now (length out.old.code.items) (op.Ask number first count)) }
{
    put_arguments(&mut out.code, function, first, count)?;
    put_ref(out, Target::Call(number))?;
    put_call(&mut out.code)?;
    put_answer(&mut out.code, function, first)
}

/// A call of a function.
fn put_go(
    out: &mut Emission,
    function: &SlotFunction,
    callee: usize,
    first: usize,
    count: usize,
) -> Result<(), AllocError>
    requires framed { IsFunction function.now }
    requires handed { AreHanded function.now first count }
    ensures code { OnOk result (out.new.code.items ≡ out.old.code.items ++ go_code function.now first count 0) }
    ensures refs { OnOk result (out.new.refs.items ≡ out.old.refs.items ++ refs_in function.now (length out.old.code.items) (op.Go callee first count)) }
{
    put_saved(&mut out.code, function, first)?;
    put_arguments(&mut out.code, function, first, count)?;
    put_ref(out, Target::Function(callee))?;
    put_call(&mut out.code)?;
    put_restored(&mut out.code, function, first)?;
    put_answer(&mut out.code, function, first)
}

/// One operation.
pub fn put_operation(
    out: &mut Emission,
    function: &SlotFunction,
    place: &Place,
    operation: &SlotOp,
) -> Result<(), AllocError>
    requires framed { IsFunction function.now }
    requires operation_there { HasCells function.now operation.now }
    requires here_small { place.now.here < 2 ^ 30 }
    requires there_small { place.now.there < 2 ^ 30 }
    ensures code { OnOk result (out.new.code.items ≡ out.old.code.items ++ operation_code no_links place.now.near function.now (λ i. place.now.there) place.now.here 0 operation.now) }
    ensures refs { OnOk result (out.new.refs.items ≡ out.old.refs.items ++ refs_in function.now (length out.old.code.items) operation.now) }
{
    match *operation {
        SlotOp::Move { to, from } => put_moved(&mut out.code, function, to, from),
        SlotOp::Forge { to, from } => put_move(&mut out.code, function, to, from),
        SlotOp::Apply {
            op,
            to,
            left,
            right,
        } => put_applied(&mut out.code, function, op, to, left, right),
        SlotOp::Change { op, to, from } => put_changed(&mut out.code, function, op, to, from),
        SlotOp::SkipUnless {
            test,
            left,
            right,
            ..
        } => put_tested(&mut out.code, function, test, left, right, place),
        SlotOp::Skip { .. } => put_jump(&mut out.code, place.near, place.here, place.there),
        SlotOp::Back { .. } => put_jump(&mut out.code, place.near, place.here, place.there),
        SlotOp::Ask {
            number,
            first,
            count,
        } => put_ask(out, function, number, first, count),
        SlotOp::Go {
            function: callee,
            first,
            count,
        } => put_go(out, function, callee, first, count),
        SlotOp::Give { value } => put_give(&mut out.code, function, value),
        SlotOp::Make { array } => put_clear(&mut out.code, function, array),
        SlotOp::Local { to, array } => put_local(&mut out.code, function, to, array),
        SlotOp::Static { to, object } => {
            put_ref(out, target_of_object(&object))?;
            put_address(&mut out.code, function, to)
        }
        SlotOp::Entry {
            to,
            function: entered,
        } => {
            put_ref(out, Target::Function(entered))?;
            put_address(&mut out.code, function, to)
        }
        SlotOp::Fetch { to, object } => {
            put_ref(out, target_of_object(&object))?;
            put_fetch(&mut out.code, function, to)
        }
        SlotOp::Keep { object, from } => {
            put_get(&mut out.code, function, 6, from)?;
            put_ref(out, target_of_object(&object))?;
            put_kept(&mut out.code, source_of(function, 6, from))
        }
        SlotOp::Index {
            to,
            base,
            index,
            width,
        } => put_indexed(&mut out.code, function, to, base, index, width),
        SlotOp::Load { to, place, width } => put_loaded(&mut out.code, function, to, place, width),
        SlotOp::Store {
            place,
            value,
            width,
        } => put_stored(&mut out.code, function, place, value, width),
    }
}
