//! Operators of C before an operand: `-`, `!`, `~`, `*`, `&`, `++` and `--`.
//! What reads the parts is passed as a closure. How they are read stands in `nx_cexpr`'s definitions.
#![tactic(auto)]

pub mod prefix;
