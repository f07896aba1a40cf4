//! What the machine does where slot code makes an operation on cells. Nothing here runs.
#![tactic(auto)]

mod laws;

pub use laws::operations_on_cells_are_done;
