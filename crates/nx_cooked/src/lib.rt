//! Calls of slot code over views that show its objects: what is taken and what is put. Nothing here runs.
#![tactic(auto)]

mod laws;

pub use laws::{inputs_are_taken_from_objects, outputs_are_put_into_objects};
