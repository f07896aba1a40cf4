//! Instruction words of RV32IM and what they mean: the table that decoding, encoding and execution
//! cite, with a row for each instruction in the manual's order.
#![tactic(auto)]

mod decoding;
mod encoding;
mod fields;
mod inst;
mod laws;

pub use decoding::decode;
pub use encoding::encode;
pub use inst::Inst;
pub use laws::{
    a_decoded_word_encodes_to_itself, an_encoded_instruction_decodes_to_itself,
    an_instruction_halts_in_place, the_table_is_one_to_one,
};

#[cfg(test)]
mod tests;
