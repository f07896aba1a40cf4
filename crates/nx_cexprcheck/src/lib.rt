//! What an expression of C does, or its first fault.
#![tactic(auto)]

mod expression;

pub use expression::check_expression;
