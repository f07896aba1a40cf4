//! From the text of a C program to what the program does, or its first fault.
#![tactic(auto)]

mod front;

pub use front::check_text;

#[cfg(test)]
mod tests;
