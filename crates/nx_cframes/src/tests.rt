use super::*;
use nx_checked::{
    ArrayName, Cell, CheckedExpr, CheckedFunction, CheckedPlace, CheckedStmt, Element, IntOperator,
    Scalar, Shape,
};
use nx_shared::Shared;
use sqlite_items::Items;
use std::alloc::{AllocError, Global};

fn binary(
    alloc: Global,
    op: IntOperator,
    a: CheckedExpr,
    b: CheckedExpr,
) -> Result<CheckedExpr, AllocError> {
    let a = Shared::new(alloc, a)?;
    let b = Shared::new(alloc, b)?;
    Ok(CheckedExpr::Binary(op, a, b))
}

/// `b[i] = 48 - v % 10`
fn digit(alloc: Global) -> Result<CheckedExpr, AllocError> {
    let number = CheckedExpr::Read(Cell::Local(0));
    let rest = binary(
        alloc,
        IntOperator::Remainder,
        number,
        CheckedExpr::Constant(10),
    )?;
    let digit = binary(
        alloc,
        IntOperator::Subtract,
        CheckedExpr::Constant(48),
        rest,
    )?;
    let array = Shared::new(alloc, CheckedExpr::Array(ArrayName::Local(0)))?;
    let index = Shared::new(alloc, CheckedExpr::Read(Cell::Local(1)))?;
    let place = Shared::new(alloc, CheckedPlace::Index(array, index))?;
    let digit = Shared::new(alloc, digit)?;
    Ok(CheckedExpr::AssignElement(Element::Char, place, digit))
}

fn function(
    alloc: Global,
    scalars: &[Scalar],
    shape: Shape,
    body: Items<CheckedStmt>,
) -> Result<CheckedFunction, AllocError> {
    Ok(CheckedFunction {
        params: Items::new(alloc),
        locals: Items::from_slice(alloc, scalars)?,
        arrays: Items::from_slice(alloc, &[shape])?,
        initials: Items::new(alloc),
        body: Shared::new(alloc, body)?,
        frame: 0,
    })
}

// A function of three numbers and 12 chars that keeps four values at once.
#[test]
fn four_values_wait(rt: HostRuntime) -> Result<(), AllocError> {
    let alloc = rt.alloc();
    let value = Shared::new(alloc, digit(alloc)?)?;
    let mut body = Items::new(alloc);
    body.push(CheckedStmt::Expr(value))?;
    let shape = Shape {
        element: Element::Char,
        count: 12,
    };
    let scalars = [Scalar::Int, Scalar::Int, Scalar::Int];
    let function = function(alloc, &scalars, shape, body)?;
    assert_eq!(rt; frame_bytes(&function), Some(64));
    Ok(())
}

#[test]
fn arrays_take_their_bytes(rt: HostRuntime) -> Result<(), AllocError> {
    let alloc = rt.alloc();
    for (element, count, bytes) in [
        (Element::Char, 1, Some(32)),
        (Element::Char, 16, Some(32)),
        (Element::Char, 17, Some(48)),
        (Element::Int, 262140, Some(1_048_576)),
        (Element::Int, 2_147_483_647, None),
    ] {
        let function = function(alloc, &[], Shape { element, count }, Items::new(alloc))?;
        assert_eq!(rt; frame_bytes(&function), bytes);
    }
    assert_eq!(rt; rounded(5), 8);
    Ok(())
}
