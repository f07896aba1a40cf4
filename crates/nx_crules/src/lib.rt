//! The rules of types of C: what each operator and each call gives and does, by the types of its
//! operands, or why it doesn't take them. The rules stand in `specs/Rules.antt`.
#![tactic(auto)]

mod assignments;
mod before;
mod between;
mod calls;
mod elements;
mod taken;
mod types;

pub use assignments::{assign, step};
pub use before::{cast, paren, unary};
pub use between::{binary, conditional};
pub use calls::{call_function, call_row, entry_function, starts_thread};
pub use elements::{address, index, place_at, place_of};
pub use taken::takes;
pub use types::{CType, Function, Held, Target, Typed};
