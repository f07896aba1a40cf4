//! Expressions of C programs, read one token ahead.
//! Which tokens are an expression stands in `nx_ctree`'s definitions, how they are read in `specs/Reading.antt`.
#![tactic(auto)]

pub mod operand;
pub mod parts;
mod reading;
pub mod signs;
mod stop;
pub mod tokens;
pub mod trees;
mod types;

pub use operand::Tall;
pub use reading::{
    Expressions, a_refused_expression_goes_wrong_there, an_expression_has_one_tree,
    an_expression_that_is_read_was_there, an_expression_that_was_there_is_read,
};
pub use stop::ParseStop;
pub use tokens::{Rest, expect};
pub use types::{base, star};
