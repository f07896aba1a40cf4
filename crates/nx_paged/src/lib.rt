//! An address space of page tables: each group has tables of its own in the RAM, and sees what a walk
//! from its root gives.
#![tactic(auto)]

mod build;
mod group;
mod laws;
mod paged;
mod program;
mod regs;
mod walks;
mod write;

pub use laws::{
    a_paged_world_is_lawful, frames_are_taken_and_given_back, groups_share_no_byte,
    the_view_is_what_the_walk_gives,
};
pub use paged::PagedSpace;

#[cfg(test)]
mod tests;
