//! The slot code of functions names their own cells. Nothing here runs.
#![tactic(auto)]

mod laws;

pub use laws::{frames_hold_their_cells, functions_name_their_cells};
