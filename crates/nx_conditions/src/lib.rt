//! The conditions of a call table: how they are spelled, their trees, and their values.
#![tactic(auto)]

mod condition;
mod evaluate;
mod meaning;
mod parse;
mod read;
mod stop;
#[cfg(test)]
mod tests;
mod token;
mod tokenize;

pub use condition::Condition;
pub use evaluate::{holds, value};
pub use meaning::{Meaning, Meanings};
pub use read::read_condition;
pub use stop::ConditionStop;
pub use token::{Comparison, Token};
pub use tokenize::tokens;
