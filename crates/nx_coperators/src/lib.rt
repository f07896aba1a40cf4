//! Operators of C between operands, with their right sides.
//! Each function takes what reads the parts, a closure as in `nx_cterm`. How they are read stands in
//! `nx_cexpr`'s definitions.
#![tactic(auto)]

pub mod operators;
