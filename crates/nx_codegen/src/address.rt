//! Numbers in two parts, and the way from one address to another.
ghost use Rattle.std.specs.Prelude.{◌≡◌, ◌+◌, ◌<◌, ◌^◌};
ghost use Rattle.nx_codegen.specs.Addresses.{distance, from_to, lower, target_of, upper};

use crate::output::Target;
use nx_slot::{Section, StaticObject};

/// The part of a number that LUI holds.
#[tactic(auto, unfolding(crate::specs::Addresses::upper))]
pub fn upper_part(number: u32) -> u32
    ensures { result ≡ upper number }
{
    number.wrapping_add(2048) / 4096 * 4096
}

/// The signed number of 12 bits that makes up the rest.
#[tactic(auto, unfolding(crate::specs::Addresses::lower))]
pub fn lower_part(number: u32) -> i32
    ensures { result ≡ lower number }
{
    let low = (number % 4096) as i32;
    if low < 2048 { low } else { low - 4096 }
}

/// How far it is from one address to another, both below 2^31.
#[tactic(auto, unfolding(crate::specs::Addresses::from_to))]
pub fn way(here: u32, there: u32) -> i32
    requires here_small { here < 2 ^ 31 }
    requires there_small { there < 2 ^ 31 }
    ensures { result ≡ from_to here there }
{
    there as i32 - here as i32
}

/// The same modulo 2^32.
#[tactic(auto, unfolding(crate::specs::Addresses::distance))]
pub fn apart(here: u32, there: u32) -> u32
    ensures { result ≡ distance here there }
{
    there.wrapping_sub(here)
}

/// What a link addresses for an object that is there from the start.
pub fn target_of_object(object: &StaticObject) -> Target
    ensures { result ≡ target_of object.now }
{
    match object.section {
        Section::Global(at) => Target::Global(at),
        Section::Literal(at) => Target::Literal(at),
    }
}
