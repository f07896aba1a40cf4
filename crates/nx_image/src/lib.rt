//! An image: where the parts of programs stand in each build, how much RAM they take, and the
//! image's bytes.
#![tactic(auto)]

mod bytes;
mod image;
mod laws;
mod layout;

pub use image::Image;
pub use laws::pieces_stand_apart;
pub use layout::{Addresses, Layout, Sizes, need, place_all};

#[cfg(test)]
mod tests;
