//! What names stand for at a place of a C file, and what a file uses so far.
#![tactic(auto)]

mod lookups;
mod names;
mod used;

pub use lookups::{name_entry, name_place, name_size, name_value, number};
pub use names::{Functions, Names, Variable, Variables};
pub use used::{Used, enter, place_in};
