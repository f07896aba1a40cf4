//! Casts and `sizeof`: expressions of C in which a type is named.
//! What reads the parts is passed as a closure. How they are read stands in `nx_cexpr`'s definitions.
#![tactic(auto)]

pub mod cast;
pub mod size;
