//! What `++` or `--` may stand before in C: a name, what a pointer points to, or an element.
//! What reads the parts is passed as a closure. How they are read stands in `nx_cexpr`'s definitions.
#![tactic(auto)]

pub mod place;
