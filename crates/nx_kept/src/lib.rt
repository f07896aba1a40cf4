//! The words of a linked program keep its slot code, call by call. Nothing here runs.
#![tactic(auto)]

mod laws;

pub use laws::{each_step_is_done, words_keep_slot_code};
