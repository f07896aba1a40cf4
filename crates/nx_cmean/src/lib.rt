//! What a checked C program does, one step at a time and without addresses: the definitions, and what remains to be done
//! in a call as items on a stack.
#![tactic(auto)]

mod item;
mod stack;

pub use item::{Item, Leaf, another_option, begin, put_expr, put_option, put_rest, put_test};
pub use stack::Stack;
