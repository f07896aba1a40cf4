//! Address spaces: what the groups of a run can read, write and run. The trait `Space` says it of
//! every layout; `FlatSpace` has one window over the whole RAM, and `PmpSpace` those that its entries
//! allow.
#![tactic(auto)]

mod flat;
mod laws;
mod protected;
mod shared;
mod space;

pub use flat::FlatSpace;
pub use laws::{
    a_group_sees_all_of_a_write_or_nothing, a_started_group_has_a_view,
    accesses_change_the_entered_view_only, the_entries_allow_what_the_view_does,
    the_other_groups_are_left, the_pool_stays, what_is_good_stays_good,
    without_pages_nothing_needs_a_frame,
};
pub use nx_base::Regs;
pub use protected::PmpSpace;
pub use shared::{Live, RAM_START};
pub use space::Space;

#[cfg(test)]
mod tests;
