//! What the entry and the return of a compiled function do. Nothing here runs.
#![tactic(auto)]

mod laws;

pub use laws::{a_function_is_entered_or_tells_its_need, a_function_returns_its_value};
