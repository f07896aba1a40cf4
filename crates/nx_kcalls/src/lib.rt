//! Calls on the kernel's tables: those on files and paths, on message queues and on semaphores,
//! each by its row.
#![tactic(auto)]

mod file_calls;
mod path_calls;
mod queue_calls;
mod semaphore_calls;
mod telling;

pub use file_calls::{lseek, open_file, read, write};
pub use path_calls::{enter, kind, list, make_directory, tell_directory, unlink};
pub use queue_calls::{close_queue, open_queue, receive, send, unlink_queue};
pub use semaphore_calls::{close_semaphore, open_semaphore, post, try_wait, wait};
