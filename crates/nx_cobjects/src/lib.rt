//! The values and objects of running C programs: operators, reads and stores, the bytes that go with a call of the
//! kernel and come with its reply. There are no addresses.
#![tactic(auto)]

mod buffers;
mod memory;
mod object;
mod operators;
mod value;

pub use buffers::{inputs, outputs, put_replies, words};
pub use memory::{Objects, cell, end_arrays, load, new_array, put_local, store, value_at};
pub use object::Object;
pub use operators::{apply_infix, apply_prefix, moved};
pub use value::{
    Infix, Name, Prefix, Value, WrongKind, kept, negated, number, operate, size, word,
};

#[cfg(test)]
mod tests;
