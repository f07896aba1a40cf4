//! Task groups: what they have open, their children with the codes of those that ended, the values
//! of their threads, and the waits that end for want of a child.
#![tactic(auto)]

mod code;
mod descriptions;
mod descriptors;
mod ends;
mod group;
mod groups;
mod joins;
mod lines;
mod lost;
mod value;

pub use code::{Code, Codes};
pub use descriptions::Descriptions;
pub use descriptors::Descriptors;
pub use ends::{int_bytes, tell_parent};
pub use group::Group;
pub use groups::Groups;
pub use joins::{hand_value, is_joined};
pub use lost::{first_lost, refuse_lost};
pub use value::{ThreadValue, Values};

#[cfg(test)]
mod tests;
