//! Where a function's operations begin.
ghost use Rattle.std.specs.Prelude.{◌≡◌, ◌+◌, ◌*◌, ◌<◌, ◌≤◌, ◌^◌, IfOk, length, slice_get, Some};
ghost use Rattle.nx_codegen.specs.Cells.{AllHaveCells, HasCells};
ghost use Rattle.nx_codegen.specs.Code.{offset, size_of};
ghost use Rattle.nx_codegen.specs.Emitted.{ArePlaces, destination};
ghost use Rattle.nx_codegen.specs.Frames.{IsFunction};

use crate::operation::{Emission, Place, put_operation};
use nx_slot::{SlotFunction, SlotOp};
use std::alloc::{AllocError, Global};

/// How many bytes an operation takes.
fn size_of_operation(
    scratch: &mut Emission,
    function: &SlotFunction,
    near: bool,
    operation: &SlotOp,
) -> Result<u32, AllocError>
    requires framed { IsFunction function.now }
    requires operation_there { HasCells function.now operation.now }
    ensures is { IfOk result (λ n. n ≡ size_of near function.now operation.now) }
    ensures small { IfOk result (λ n. n ≤ 160) }
{
    scratch.code.clear();
    scratch.refs.clear();
    let place = Place {
        near,
        here: 0,
        there: 0,
    };
    put_operation(scratch, function, &place, operation)?;
    Ok(4 * scratch.code.len() as u32)
}

/// Where each operation begins, and where the last one ends, in bytes from the first.
pub fn places_of(alloc: Global, function: &SlotFunction, near: bool) -> Result<Vec<u32>, AllocError>
    requires framed { IsFunction function.now }
    requires operations_there { AllHaveCells function.now function.now.ops }
    requires few { length function.now.ops ≤ 2 ^ 20 }
    ensures { IfOk result (λ places. ArePlaces near function.now (length function.now.ops) places.items) }
{
    let mut scratch = Emission {
        code: Vec::new(alloc),
        refs: Vec::new(alloc),
    };
    let mut places = Vec::new(alloc);
    let mut next = 0;
    places.push(next)?;
    for k in 0..function.ops.len() {
        let Some(operation) = function.ops.get(k) else {
            return Ok(places);
        };
        next += size_of_operation(&mut scratch, function, near, operation)?;
        places.push(next)?;
    }
    Ok(places)
}
