//! The kernel's paths: which path a text names, what stands at each path, and the calls on them.
#![tactic(auto)]

mod boot;
mod calls;
mod entries;
mod lookups;
mod normal;
mod opening;
mod rename;
mod tree;

pub use lookups::{last_name, shown};
pub use normal::{Path, normal_path};
pub use opening::Opening;
pub use tree::Tree;

#[cfg(test)]
mod tests;
