//! The parser of C programs: declarations and files over the statements of `nx_cstmt`.
//! Which tokens are a file stands in `nx_ctree`'s definitions, how they are read in `specs/Reading.antt`.
#![tactic(auto)]

mod arrays;
mod constant;
mod declaration;
mod external;
mod grammar;
mod parameter;
mod parser;
mod tokens;

pub use grammar::{
    Files, a_file_has_one_tree, a_file_that_is_read_was_there, a_file_that_was_there_is_read,
    a_refused_file_goes_wrong_there,
};
pub use parser::parse_by;
