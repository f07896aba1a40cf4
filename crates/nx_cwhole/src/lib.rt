//! Whole expressions of C programs.
//! How they are read stands in `nx_cexpr`'s definitions.
#![tactic(auto)]

mod whole;

pub use whole::expression;
