ghost use Rattle.std.specs.Prelude.{IfOk, ◌≡◌, []};

use super::*;
use nx_base::Bytes;
use nx_checked::{Checked, Element, GlobalArray, GlobalScalar, Scalar, Shape};
use sqlite_items::Items;
use std::alloc::{AllocError, Global};
use std::test::Fail;

fn array(
    alloc: Global,
    element: Element,
    count: u32,
    bytes: &[u8],
) -> Result<GlobalArray, AllocError> {
    Ok(GlobalArray {
        shape: Shape { element, count },
        bytes: Bytes::from_slice(alloc, bytes)?,
    })
}

/// `int x = 5; char c[3] = "ab"; int n[2] = {1, -2};` and the text `hi`, without a function.
fn variables(alloc: Global) -> Result<Checked, AllocError>
    ensures { IfOk result (λ p. p.functions ≡ []) }
{
    let mut scalars = Items::new(alloc);
    scalars.push(GlobalScalar {
        scalar: Scalar::Int,
        value: 5,
    })?;
    let mut arrays = Items::new(alloc);
    arrays.push(array(alloc, Element::Char, 3, b"ab\0".as_slice())?)?;
    let numbers = [1, 0, 0, 0, 0xfe, 0xff, 0xff, 0xff];
    arrays.push(array(alloc, Element::Int, 2, &numbers)?)?;
    let mut literals = Items::new(alloc);
    literals.push(Bytes::from_slice(alloc, b"hi\0".as_slice())?)?;
    Ok(Checked {
        functions: Items::new(alloc),
        main: 0,
        scalars,
        arrays,
        literals,
        calls: Items::new(alloc),
    })
}

#[test]
fn variables_stand_one_after_another(rt: HostRuntime) -> Result<(), Fail> {
    let alloc = rt.alloc();
    let program = variables(alloc)?;
    let lowered = lower(alloc, &program)?;
    let globals = [
        5, 0, 0, 0, 0x61, 0x62, 0, 0, 1, 0, 0, 0, 0xfe, 0xff, 0xff, 0xff,
    ];
    assert_eq!(rt; lowered.globals.as_slice(), globals.as_slice());
    assert_eq!(rt; lowered.literals.as_slice(), b"hi\0".as_slice());
    assert_eq!(rt; lowered.functions.len(), 0);
    Ok(())
}
