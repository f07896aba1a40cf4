//! Types of C's files: which are well typed, what they do, and else which fault comes first.
#![tactic(auto)]

mod known;
mod laws;

pub use known::Known;
pub use laws::{a_well_typed_file_is_accepted, an_accepted_file_is_well_typed};
