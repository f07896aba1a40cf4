//! Calls on task groups and their threads, on arguments and variables, each by its row; and the end
//! of a group.
#![tactic(auto)]

mod children;
mod ending;
mod exiting;
mod group_calls;
mod joining;
mod outcome;
mod status;
mod variables;

pub use children::wait_for_child;
pub use ending::end_group;
pub use exiting::{exit, exit_thread};
pub use group_calls::{count_arguments, set_priority, tell_argument, tell_group};
pub use joining::join;
pub use outcome::{Outcome, Started};
pub use status::tell_status;
pub use variables::{list_variable, tell_variable};
