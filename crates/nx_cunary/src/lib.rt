//! Unary expressions of C: operators before an operand, casts, parentheses, and what stands after a
//! primary expression. What reads the parts is passed as a closure. How they are read stands in
//! `nx_cexpr`'s definitions.
#![tactic(auto)]

pub mod unary;
