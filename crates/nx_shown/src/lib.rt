//! What instructions do over a view whose bytes and registers are functions: the laws that compiled
//! words rest on. Nothing here runs.
#![tactic(auto)]

mod laws;

pub use laws::{
    a_load_gives_what_is_shown, a_store_changes_what_is_shown_there_alone,
    each_instruction_leads_on,
};
