ghost use Rattle.std.specs.Prelude.{◌≡◌, ◌+◌, ◌*◌, ◌/◌, ◌^◌, ◌<◌};
ghost use Rattle.nx_checked.specs.Frames.{bytes_of, array_bytes as bytes_of_arrays};
ghost use Rattle.nx_cframes.specs.Counts.{capped};

use crate::counts::{count, more};
use nx_checked::{Element, Shape};

/// The bytes of an array.
pub fn array_bytes(shape: Shape) -> u64
    ensures bytes { result ≡ bytes_of shape }
    ensures small { result < 2 ^ 34 }
{
    let count = u64::from(shape.count);
    match shape.element {
        Element::Int => count * 4,
        Element::Char => count,
    }
}

/// A number of bytes, rounded up to a multiple of 4.
pub fn rounded(bytes: u64) -> u64
    requires { bytes < 2 ^ 34 }
    ensures { result ≡ 4 * ((bytes + 3) / 4) }
{
    4 * ((bytes + 3) / 4)
}

/// The bytes of arrays, each rounded up to a multiple of 4.
pub(crate) fn arrays_bytes(shapes: &[Shape]) -> u64
    ensures { result ≡ capped (bytes_of_arrays shapes.now) }
{
    let mut left = shapes.len();
    let mut bytes = count(0);
    while left > 0 {
        left -= 1;
        bytes = more(rounded(array_bytes(shapes[left])), bytes);
    }
    bytes
}
