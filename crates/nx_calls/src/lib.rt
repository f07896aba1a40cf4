//! The call table: its rows, with the numbers and the kinds of parameters of the calls that a
//! configuration has.
#![tactic(auto)]

mod calls;
mod fault;
mod judge;
mod kinds;
mod read;
mod records;
mod row;
mod types;

pub use calls::Calls;
pub use fault::{CallsFault, CallsKind};
pub use kinds::kinds_of;
pub use read::read_calls;
pub use row::{CallRow, ROWS};
pub use types::CallType;

#[cfg(test)]
mod cases;
#[cfg(test)]
mod tests;
