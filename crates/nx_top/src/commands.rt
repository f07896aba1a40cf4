//! The commands, one file each: what the contents of its files come to.

pub mod gates;
pub mod run;
