//! Leaves, operators and calls of C's expressions, once the types of their parts are known.
#![tactic(auto)]

mod calls;
mod leaves;
mod operators;

pub use calls::{called, starts};
pub use leaves::{base_bytes, name_alone, push, text};
pub use operators::{Before, Between, apply, combine};
