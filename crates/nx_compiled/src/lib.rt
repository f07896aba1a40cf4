//! The words of a compiled program keep the program. Nothing here runs.
#![tactic(auto)]

mod laws;

pub use laws::words_keep_programs;
