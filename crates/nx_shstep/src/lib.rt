//! A command of the shell under way: the calls of its steps, and what a reply to each leaves to do.
#![tactic(auto)]

mod after;
mod begin;
mod calling;
mod command;
mod descriptors;
mod going;
mod made;
mod making;
mod replies;
mod reply;
mod texts;

pub use calling::{listed, probed, word};
pub use command::Command;
pub use descriptors::Descriptors;
pub use made::{Inputs, MadeCall};
pub use reply::{code, errno, handed, has_failed, value};

#[cfg(test)]
mod tests;
