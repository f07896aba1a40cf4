//! What stands after a primary expression of C: indexes, and then `++` or `--`.
//! What reads the parts is passed as a closure. How they are read stands in `nx_cexpr`'s definitions.
#![tactic(auto)]

pub mod postfix;
