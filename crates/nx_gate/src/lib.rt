//! The gates of a call table: what the kernel is told of each call, and the words by which a
//! program makes it.
#![tactic(auto)]

mod gate;
mod listing_text;
mod words;

pub use gate::{Gate, Gates, plan};
pub use listing_text::listing;
pub use words::proxy;

#[cfg(test)]
mod tests;
