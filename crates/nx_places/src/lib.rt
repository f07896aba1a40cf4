//! Where the instructions of an operation stand, and that they are no more than it costs. Nothing here
//! runs.
#![tactic(auto)]

mod laws;

pub use laws::{
    an_operation_has_no_more_instructions_than_it_costs, operations_stand_at_their_places,
    places_lie_among_addresses,
};
