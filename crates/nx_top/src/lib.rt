//! The top call: it reads the files that the words name, does what the command is for, and puts
//! what it came to.
#![tactic(auto)]

mod answer;
mod command_line;
mod commands;
mod first;
mod image;
mod output;
mod pieces;
mod reading;
mod refusal;
mod report;
mod top;

pub use first::laws::words_keep_the_program;
pub use first::program::one_program;
pub use top::nxsim;

#[cfg(test)]
mod tests;
