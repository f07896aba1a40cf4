//! Assignments of C: what is written to, the sign, and the right side.
//! What reads the parts is passed as a closure. How they are read stands in `nx_cexpr`'s definitions.
#![tactic(auto)]

pub mod assignment;
