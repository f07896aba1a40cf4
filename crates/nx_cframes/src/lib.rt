//! How many bytes of stack a call of a checked function takes, and the bytes of its arrays.
#![tactic(auto)]

mod counts;
mod frame;
mod shapes;
mod statements;
mod values;

pub use frame::frame_bytes;
pub use shapes::{array_bytes, rounded};

#[cfg(test)]
mod tests;
