//! A thread of a checked C program, which runs one step at a time, without addresses.
#![tactic(auto)]

mod decide;
mod entry;
mod evaluate;
mod step;
mod store;
mod thread;

pub use thread::{CCall, CStep, CThread};

#[cfg(test)]
mod tests;
