//! How a list of tokens is read one token ahead, and where a list that a grammar refuses goes wrong.
//!
//! The combinators of reading stand in `specs/Reading.antt`, what a fault is in `specs/Faults.antt`.
//! A parser's contract says that it gives what a reading gives, and its grammar's laws come from those in `proofs/`.
//! The smallest parser of this kind reads a number in parentheses (`read_nested`).
#![tactic(auto)]

mod kind;
mod laws;
mod parens;

pub use kind::Kind;
pub use laws::{Grammar, ended_fault_is_first, fault_is_first, one_tree};
pub use parens::{Nested, Nestings, Piece, Refusal, read_nested};
