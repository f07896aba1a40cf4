//! What the instructions do that set an array to zeros. Nothing here runs.
#![tactic(auto)]

mod laws;

pub use laws::an_array_is_set_to_zeros;
