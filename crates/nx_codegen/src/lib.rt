//! From slot code to RV32IM words.
#![tactic(auto)]

mod address;
mod calling;
mod emission;
mod frame;
mod jumps;
mod laws;
mod layout;
mod moves;
mod operation;
mod operators;
mod output;

pub use emission::emit;
pub use laws::{
    an_operation_takes_as_many_instructions_wherever_it_stands, instructions_fit_their_words,
    refs_filled_in_give_the_instructions,
};
pub use output::{Ref, Target, Words};

#[cfg(test)]
mod tests;
