//! The tokens of a shell script: words with their quotes and expansions, and the marks between them.
//! Which bytes spell which word stands in `specs/Words.antt`, what a text gives in `specs/Tokens.antt`.
#![tactic(auto)]

mod expansion;
mod fault;
mod part;
mod piece;
mod reader;
mod script_bytes;
mod start;
mod token;
mod tokenize;
mod word;

pub use fault::{ShFault, ShKind};
pub use part::Part;
pub use token::{Token, TokenKind, Word};
pub use tokenize::tokens;

#[cfg(test)]
mod tests;
