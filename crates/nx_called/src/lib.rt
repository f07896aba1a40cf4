//! What the machine does where slot code calls the kernel or a function, or returns. Nothing here runs.
#![tactic(auto)]

mod laws;

pub use laws::calls_and_returns_are_done;
