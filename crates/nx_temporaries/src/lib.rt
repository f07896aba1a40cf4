//! How many values the code of expressions and statements keeps at most at one time.
#![tactic(auto)]

mod temporaries;

pub use temporaries::{of_all, of_stmts};
