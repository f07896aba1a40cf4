//! Message queues and semaphores: what each call on them answers, and messages in chains of blocks
//! in any store. Who waits on them is kept with the threads.
#![tactic(auto)]

mod laws;
mod message;
mod opening;
mod queue;
mod queues;
mod received;
mod semaphores;
mod sending;
mod sent;
mod table;

pub use laws::{messages_fill_their_blocks, the_oldest_of_the_greatest_priority_comes_next};
pub use message::Taken;
pub use opening::{Opening, QueuePath, opening_path, queue_of_node, unlinking_path};
pub use queues::Queues;
pub use received::Received;
pub use semaphores::{Posted, Semaphores, Waited};
pub use sent::Sent;

#[cfg(test)]
mod tests;
