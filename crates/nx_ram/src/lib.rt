//! The bytes of a board's RAM, and the parts of an image that are put into it.
#![tactic(auto)]

mod prog_image;
mod ram;

pub use prog_image::ProgImage;
pub use ram::Ram;

#[cfg(test)]
mod tests;
