//! What a file of C does, or its first fault.
#![tactic(auto)]

mod contents;
mod file;
mod functions;
mod globals;
mod heads;

pub use file::check;
