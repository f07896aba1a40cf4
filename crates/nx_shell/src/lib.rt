//! The shell: what it calls next, after each reply. `nx_shrun` says what that is.
#![tactic(auto)]

mod filling;
mod found;
mod keeping;
mod laws;
mod shell;
mod tables;
mod walk;
mod whole;

pub use laws::the_shell_passes_bytes;
pub use shell::Shell;
pub use whole::resumed;

#[cfg(test)]
mod tests;
