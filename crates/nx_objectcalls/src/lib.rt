//! Calls on what is open and on what stands at paths, over the objects of the kernel: what each
//! leaves of them, and the value or the error that it is told.
#![tactic(auto)]

mod file_calls;
mod leading;
mod making;
mod messages;
mod open_calls;
mod queue_calls;
mod room;
mod semaphore_calls;

pub use file_calls::{read_file, seek, write_file};
pub use leading::{Led, queue_at, readable, semaphore_at, writable};
pub use messages::{receive_message, send_message};
pub use open_calls::{open_file, unlink};
pub use queue_calls::{close_queue, open_queue, unlink_queue};
pub use room::{Room, is_full};
pub use semaphore_calls::{close_semaphore, open_semaphore};
