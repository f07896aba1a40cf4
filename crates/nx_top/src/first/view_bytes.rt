// nx_copy will take its place.

ghost use Rattle.std.specs.Prelude.{◌≡◌, ◌+◌, ◌^◌, ◌≤◌, ℕ, List, ◌++◌, true, length, OnOk, Ok};
ghost use Rattle.nx_space.specs.World.{view_in, IsEntered};
ghost use Rattle.nx_top.specs.first.ExpectedRuns.{LiesAt};

use nx_base::Bytes;
use nx_space::Space;
use std::alloc::AllocError;

/// Puts the bytes at an address after others, up to the first that may not be read, and answers
/// whether all of them may.
pub fn put_view_bytes<S: Space>(
    bytes: &mut Bytes,
    space: &mut S,
    at: u32,
    count: u32,
) -> Result<bool, AllocError>
    requires { IsEntered (S.world space.old) }
    ensures same { S.world space.new ≡ S.world space.old }
    ensures seen { (string : List ℕ) → length string ≡ count → at + count ≤ 2 ^ 32 → LiesAt (view_in (S.world space.old)) string at
        → OnOk result ((result ≡ Ok true) × (bytes.new ≡ bytes.old ++ string)) }
{
    for i in 0..count {
        let Some(place) = at.checked_add(i) else {
            return Ok(false);
        };
        match space.load(place, 1) {
            Ok(byte) => bytes.push(byte as u8)?,
            Err(_) => return Ok(false),
        }
    }
    Ok(true)
}
