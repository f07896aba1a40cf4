//! The forms of C statements, read one token ahead by what reads the expressions and statements in them.
//! Which tokens are a statement stands in `nx_ctree`'s definitions, how they are read in `specs/Reading.antt`.
#![tactic(auto)]

pub mod forms;
pub mod inner;
pub mod loops;
pub mod parts;
