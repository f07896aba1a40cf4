//! The schedule: threads by slot, which of them is the first of a sort, and how they go on, wait
//! and end. Contracts see the definitions of `nx_ksys`.
#![tactic(auto)]

mod change;
mod search;
mod threads;

pub use search::{awaited, deadline, runs_before};
pub use threads::Threads;

#[cfg(test)]
mod tests;
