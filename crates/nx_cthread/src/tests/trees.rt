use nx_base::{Bytes, Kind};
use nx_checked::{
    ArrayName, Cell, Checked, CheckedExpr, CheckedFunction, CheckedPlace, CheckedStmt, Conversion,
    Element, IntOperator, Scalar, Shape, StepValue, UsedCall,
};
use nx_shared::Shared;
use sqlite_items::Items;
use std::alloc::{AllocError, Global};

// The first two variables of a function.
pub const N: Cell = Cell::Local(0);

pub const I: Cell = Cell::Local(1);

pub fn function(
    alloc: Global,
    params: &[Scalar],
    locals: &[Scalar],
    arrays: &[Shape],
    body: Items<CheckedStmt>,
) -> Result<CheckedFunction, AllocError> {
    Ok(CheckedFunction {
        params: Items::from_slice(alloc, params)?,
        locals: Items::from_slice(alloc, locals)?,
        arrays: Items::from_slice(alloc, arrays)?,
        initials: Items::new(alloc),
        body: Shared::new(alloc, body)?,
        frame: 32,
    })
}

fn used(alloc: Global, number: u16, kind: Kind) -> Result<UsedCall, AllocError> {
    Ok(UsedCall {
        name: Bytes::new(alloc),
        number,
        kinds: Items::from_slice(alloc, &[Kind::Word, kind, Kind::Len])?,
        returns: true,
    })
}

// A program of these functions, whose calls are `read` and `write`.
pub fn program(alloc: Global, functions: Items<CheckedFunction>) -> Result<Checked, AllocError> {
    let mut calls = Items::new(alloc);
    calls.push(used(alloc, 15, Kind::Out)?)?;
    calls.push(used(alloc, 16, Kind::In)?)?;
    Ok(Checked {
        functions,
        main: 0,
        scalars: Items::new(alloc),
        arrays: Items::new(alloc),
        literals: Items::new(alloc),
        calls,
    })
}

pub fn part(alloc: Global, e: CheckedExpr) -> Result<Shared<CheckedExpr>, AllocError> {
    Shared::new(alloc, e)
}

pub fn constant(alloc: Global, n: u32) -> Result<Shared<CheckedExpr>, AllocError> {
    part(alloc, CheckedExpr::Constant(n))
}

pub fn run(alloc: Global, e: CheckedExpr) -> Result<CheckedStmt, AllocError> {
    Ok(CheckedStmt::Expr(part(alloc, e)?))
}

// The first array.
fn array(alloc: Global) -> Result<Shared<CheckedExpr>, AllocError> {
    part(alloc, CheckedExpr::Array(ArrayName::Local(0)))
}

// `a[e]`, of the first array.
pub fn element(alloc: Global, e: CheckedExpr) -> Result<Shared<CheckedPlace>, AllocError> {
    let array = array(alloc)?;
    let index = part(alloc, e)?;
    Shared::new(alloc, CheckedPlace::Index(array, index))
}

pub fn binary(alloc: Global, op: IntOperator, a: u32, b: u32) -> Result<CheckedExpr, AllocError> {
    let left = constant(alloc, a)?;
    let right = constant(alloc, b)?;
    Ok(CheckedExpr::Binary(op, left, right))
}

// `read` or `write` of a descriptor and the first array, with a length.
pub fn transfer(
    alloc: Global,
    call: u32,
    descriptor: CheckedExpr,
    length: CheckedExpr,
) -> Result<CheckedExpr, AllocError> {
    let mut args = Items::new(alloc);
    args.push(descriptor)?;
    args.push(CheckedExpr::Array(ArrayName::Local(0)))?;
    args.push(length)?;
    Ok(CheckedExpr::Kernel(call, args))
}

pub fn write(alloc: Global, length: u32) -> Result<CheckedExpr, AllocError> {
    transfer(
        alloc,
        1,
        CheckedExpr::Constant(1),
        CheckedExpr::Constant(length),
    )
}

// `*p = 1`
fn deref_assigned(alloc: Global, at: Shared<CheckedExpr>) -> Result<CheckedExpr, AllocError> {
    let place = Shared::new(alloc, CheckedPlace::Deref(at))?;
    let one = constant(alloc, 1)?;
    Ok(CheckedExpr::AssignElement(Element::Int, place, one))
}

// `(int *)4`
fn forged(alloc: Global) -> Result<Shared<CheckedExpr>, AllocError> {
    let four = constant(alloc, 4)?;
    part(alloc, CheckedExpr::Convert(Conversion::ToPointer, four))
}

// `a[i] = 5`, and `a[i] += 5`
fn element_assigned(alloc: Global, i: u32, raised: bool) -> Result<CheckedExpr, AllocError> {
    let place = element(alloc, CheckedExpr::Constant(i))?;
    let five = constant(alloc, 5)?;
    if raised {
        Ok(CheckedExpr::CompoundElement(IntOperator::Add, Element::Int, place, five))
    } else {
        Ok(CheckedExpr::AssignElement(Element::Int, place, five))
    }
}

// `a && write(1, a, 0)`, and the same with `||`
fn with_a_call(alloc: Global, a: u32, both: bool) -> Result<CheckedExpr, AllocError> {
    let left = constant(alloc, a)?;
    let right = part(alloc, write(alloc, 0)?)?;
    if both {
        Ok(CheckedExpr::And(left, right))
    } else {
        Ok(CheckedExpr::Or(left, right))
    }
}

fn and(alloc: Global, a: u32, b: u32) -> Result<CheckedExpr, AllocError> {
    let left = constant(alloc, a)?;
    let right = constant(alloc, b)?;
    Ok(CheckedExpr::And(left, right))
}

pub fn expression(alloc: Global, case: u32) -> Result<CheckedExpr, AllocError> {
    match case {
        0 => Ok(CheckedExpr::Assign(Scalar::Int, N, constant(alloc, 1)?)),
        1 => Ok(CheckedExpr::Compound(IntOperator::Add, Scalar::Int, N, constant(alloc, 1)?)),
        2 => Ok(CheckedExpr::Step(StepValue::Old, true, Scalar::Int, N)),
        3 => element_assigned(alloc, 1, false),
        4 => element_assigned(alloc, 1, true),
        5 => deref_assigned(alloc, array(alloc)?),
        6 => and(alloc, 0, 1),
        7 => and(alloc, 1, 0),
        8 => with_a_call(alloc, 0, true),
        9 => with_a_call(alloc, 1, false),
        10 => element_assigned(alloc, 2, false),
        11 => element_assigned(alloc, 2, true),
        12 => deref_assigned(alloc, forged(alloc)?),
        13 => write(alloc, 9),
        14 => Ok(CheckedExpr::Call(1, Items::new(alloc))),
        _ => Ok(CheckedExpr::Call(2, Items::new(alloc))),
    }
}
