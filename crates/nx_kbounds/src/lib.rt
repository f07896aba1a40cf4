//! What bounds the tables of the kernel, as laws over its calls, its choices and its ends.
#![tactic(auto)]

mod laws;

pub use laws::{
    groups_are_no_more_than_threads, nothing_leads_nowhere, numbers_bound_what_is_kept,
    tables_keep_their_places, time_is_bounded_by_moments, what_is_kept_is_short,
};
