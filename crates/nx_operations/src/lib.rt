//! What compiled operations do: those on numbers, accesses to memory, jumps and tests. Nothing here runs.
#![tactic(auto)]

mod laws;

pub use laws::{
    accesses_read_and_write_memory, jumps_and_tests_lead_to_their_places,
    operations_write_their_cell, operators_give_their_numbers,
};
