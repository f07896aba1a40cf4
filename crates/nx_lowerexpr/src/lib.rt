//! Makes slot code of the expressions of checked C programs.
#![tactic(auto)]

mod code;
mod expression;
mod operations;
mod variables;

pub use code::Code;
pub use expression::{put_expr, put_option};
pub use operations::width;
pub use variables::array_bytes;
