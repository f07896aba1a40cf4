//! What a statement of C does, or its first fault.
#![tactic(auto)]

mod made;
mod parts;
mod statement;

pub use statement::check_statements;
