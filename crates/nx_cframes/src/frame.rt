ghost use Rattle.std.specs.Prelude.{◌≡◌, ◌≤◌, ◌^◌, ◌+◌, length, max, IfSome, IfNone};
ghost use Rattle.nx_checked.specs.Frames.{frame_of, all_initials, all_values};
ghost use Rattle.nx_cframes.specs.Counts.{capped};

use crate::counts::{bytes_with, greater, sum};
use crate::shapes::arrays_bytes;
use crate::statements::block_values;
use crate::values::initial_values;
use nx_checked::CheckedFunction;

/// The greatest number of values that wait in a function.
fn most_values(function: &CheckedFunction) -> u64
    ensures { result ≡ capped (max (all_initials function.now.initials) (all_values function.now.body)) }
{
    let initials = initial_values(function.initials.as_slice());
    let body = block_values(function.body.get().as_slice());
    greater(initials, body)
}

/// Its variables and the values that wait.
fn cells(function: &CheckedFunction) -> u64
    ensures { result ≡ capped (length function.now.params + length function.now.locals + max (all_initials function.now.initials) (all_values function.now.body)) }
{
    let values = most_values(function);
    sum(
        function.params.len() as u64,
        function.locals.len() as u64,
        values,
    )
}

/// The bytes of stack that a call of a function takes, if they are fewer than 2^32.
pub fn frame_bytes(function: &CheckedFunction) -> Option<u32>
    ensures bytes { IfSome result (λ n. n ≡ frame_of function.now) }
    ensures beyond { IfNone result (2 ^ 32 ≤ frame_of function.now) }
{
    let cells = cells(function);
    let arrays = arrays_bytes(function.arrays.as_slice());
    bytes_with(cells, arrays)
}
