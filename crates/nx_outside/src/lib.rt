//! The outside as the system sees it: files that are read whole by their names, and a sink that
//! pieces of bytes are put to. Each counts its faults, so that a caller can tell them from its own.
//! `MemFiles` and `MemSink` are both in memory, with faults at chosen calls.
#![tactic(auto)]

mod files;
mod mem_files;
mod mem_sink;
mod sink;
#[cfg(test)]
mod tests;

pub use files::{FileStop, Files, LONGEST};
pub use mem_files::MemFiles;
pub use mem_sink::MemSink;
pub use sink::{Sink, SinkFail};
