//! Types of C's expressions: which are well typed, what they do, and else which fault comes first.
#![tactic(auto)]

mod laws;

pub use laws::{a_well_typed_expression_is_accepted, an_accepted_expression_is_well_typed};
