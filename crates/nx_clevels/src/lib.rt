//! The levels of expressions of C programs, one after another.
//! How they are read stands in `nx_cexpr`'s definitions.
#![tactic(auto)]

mod levels;

pub use levels::level;
