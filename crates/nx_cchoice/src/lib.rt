//! Conditional expressions of C: a test, `?` and the two expressions that it chooses from.
//! What reads the parts is passed as a closure. How they are read stands in `nx_cexpr`'s definitions.
#![tactic(auto)]

pub mod choice;
