//! The tokens of a C program: the longest match at each place, comments, `#include` and `#define`.
//! Which bytes spell which token stands in `specs/Spellings.antt`, what a text gives in `specs/Tokens.antt`.
#![tactic(auto)]

mod comment;
mod directive;
mod fault;
mod keyword;
mod laws;
mod mark;
mod number;
mod piece;
mod predefined;
mod reader;
mod scan;
mod table;
mod token;
mod tokenize;
mod value;
mod values;
mod word;

pub use fault::{CFault, CKind};
pub use keyword::Keyword;
pub use laws::{a_place_without_a_token_has_none, a_token_has_no_newline, a_token_is_the_longest};
pub use predefined::Predefined;
pub use token::{Spelling, Token, TokenKind};
pub use tokenize::tokens;

#[cfg(test)]
mod tests;
