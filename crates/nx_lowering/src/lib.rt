//! Makes slot code of the functions of checked C programs, and of whole programs.
#![tactic(auto)]

mod function;
mod program;
mod statement;

pub use function::lower_function;
pub use program::lower;

#[cfg(test)]
mod tests;
