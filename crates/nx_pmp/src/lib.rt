//! Physical memory protection: which accesses the entries allow, and a unit that counts what it is
//! asked.
#![tactic(auto)]

mod laws;
mod matching;
mod pmp;
mod region;
mod unit;

pub use laws::{
    an_access_matches_by_its_bytes, low_ones_give_the_size_of_a_range,
    the_lowest_numbered_entry_decides,
};
pub use pmp::{Pmp, PmpEntry};
pub use unit::{PmpUnit, Question};

#[cfg(test)]
mod tests;
