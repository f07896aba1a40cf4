//! The words of a placed program keep its slot code as a program of the system. Nothing here runs.
#![tactic(auto)]

mod laws;

pub use laws::words_keep_slot_programs;
