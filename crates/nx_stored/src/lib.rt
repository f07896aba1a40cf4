//! What the machine does where slot code reads, writes or makes an object. Nothing here runs.
#![tactic(auto)]

mod laws;

pub use laws::operations_on_objects_are_done;
