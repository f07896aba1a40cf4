//! Statements of C programs and lists of them, read one token ahead by what reads their expressions.
//! How they are read stands in `nx_cstmt`'s definitions.
#![tactic(auto)]

mod list;
mod statement;

pub use statement::statements;
