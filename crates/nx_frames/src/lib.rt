//! Page frames of a RAM: which are free, and those that were taken, as chains.
#![tactic(auto)]

mod frames;
mod laws;
mod too_few;
mod zeros;

pub use frames::{Frames, Taken};
pub use laws::{each_frame_is_owned_once, frames_share_no_byte};
pub use too_few::TooFew;

#[cfg(test)]
mod tests;
