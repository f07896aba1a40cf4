//! Indexes of C expressions, one or more after what is indexed.
//! Each function takes what reads the parts: a closure that reads an expression of a level,
//! with at most so many nodes on a path. How they are read stands in `nx_cexpr`'s definitions.
#![tactic(auto)]

pub mod element;
