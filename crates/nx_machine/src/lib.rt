//! The machine: it fetches and executes RV32IM instructions over the entered view of any space.
#![tactic(auto)]

mod exec;
mod machine;

pub use machine::{Machine, Stop};

#[cfg(test)]
mod tests;
