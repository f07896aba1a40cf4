//! The environments of task groups: their variables by group, and the calls on them. Contracts see
//! the definitions of `nx_ksys`.
#![tactic(auto)]

mod environment;
mod environments;
mod variable;
mod variables;

pub use environment::Environment;
pub use environments::Environments;
pub use variables::VariableText;

#[cfg(test)]
mod tests;
