//! The configuration of a system, in the form that Kconfig writes: a line for each name and its
//! value. The definition is the list of entries that the lines give; the code keeps a map.
#![tactic(auto)]

mod builds;
mod config;
mod fault;
mod limits;
mod line;
mod number;
mod quoted;
mod read;
mod table;
mod value;

pub use config::{Config, read_config};
pub use fault::{ConfigFault, ConfigKind};
pub use limits::Limits;
pub use value::Value;

#[cfg(test)]
mod tests;
