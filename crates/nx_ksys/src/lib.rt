//! What the kernel means: its state, its calls and its schedule as plain data, in `specs/`, one
//! file for each subsystem; and the small types that the kernel's code and these definitions share.
#![tactic(auto)]

mod cooked;
mod laws;
mod moved_bytes;
mod node;
mod pick;
mod replies;
mod thread;

pub use cooked::Cooked;
pub use laws::{
    a_call_changes_the_threads_as_it_answers, a_call_counts_one, a_choice_wakes_whom_it_answers,
    a_console_only_grows, choosing_changes_nothing_that_is_reported,
    live_threads_have_numbers_and_slots_of_their_own, paths_are_bounded_by_objects,
    pointers_mean_nothing_to_the_kernel, the_kernel_stays_sound, what_a_call_means_decides_it,
    what_the_kernel_tells_is_words_and_bytes, who_is_due_wakes,
};
pub use moved_bytes::{MOST_MOVED, MovedBytes};
pub use node::{Node, NodeKind, Open, Target};
pub use pick::Pick;
pub use replies::{Replies, Reply};
pub use thread::{Asked, Doing, Search, Thread, Wait};

#[cfg(test)]
mod tests;
