//! Statements and functions of C: which are well typed, what they do, and else which fault comes first.
#![tactic(auto)]

mod laws;
mod locals;

pub use laws::{
    a_well_typed_function_is_accepted, accepted_statements_are_well_typed,
    an_accepted_function_is_well_typed, well_typed_statements_are_accepted,
};
pub use locals::Locals;
