//! The tree of a shell script: one type for each rule of the grammar, one variant for each alternative.
//! Which tokens are a script stands in `specs/Grammar.antt`, how they are read in `specs/Reading.antt`.
#![tactic(auto)]

mod copy;
mod grammar;
mod head;
mod keyword;
mod list;
mod nodes;
mod parse;
mod script;
mod simple;
mod stop;
mod tokens;
mod tree;

pub use grammar::{
    Scripts, a_refused_script_goes_wrong_there, a_script_has_one_tree,
    a_script_that_is_read_was_there, a_script_that_was_there_is_read,
};
pub use keyword::Keyword;
pub use parse::parse_script;
pub use script::Script;
pub use tree::{Item, ItemKind, Mode, Redirection, Simple};

#[cfg(test)]
mod tests;
