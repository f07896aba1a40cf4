//! From checked C programs to slot code.
#![tactic(auto)]

mod laws;

pub use laws::{
    a_word_of_slot_code_is_a_variable, arrays_begin_and_end_alike,
    calls_have_the_same_words_and_bytes, elements_are_read_and_stored_alike, outputs_are_put_alike,
    slot_code_keeps_its_program,
};
