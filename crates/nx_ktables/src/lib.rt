//! The tables of the kernel: all that it keeps, and what they are at boot. `state_of` is the state
//! of `nx_ksys` for which they stand.
#![tactic(auto)]

mod answers;
mod boot;
mod descriptor_calls;
mod environment_calls;
mod tables;
mod thread_calls;
mod tree_calls;

pub use answers::{answer, done, refuse, tell_text, tell_word};
pub use tables::Tables;

#[cfg(test)]
mod tests;
