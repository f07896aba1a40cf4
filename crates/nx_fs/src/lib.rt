//! The bytes of the kernel's files, by place: each a chain of blocks in any store.
#![tactic(auto)]

mod bytes;
mod chains;
mod files;
mod seek;

pub use bytes::Moved;
pub use files::Files;

#[cfg(test)]
mod tests;
