//! The parser of C files: from their tokens, or their text, to their trees.
//! Which tokens are a file stands in `nx_ctree`'s definitions.
#![tactic(auto)]

mod parser;
mod text;

pub use parser::parse;
pub use text::parse_text;

#[cfg(test)]
mod function_tests;
#[cfg(test)]
mod tests;
