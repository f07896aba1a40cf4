//! What pieces of compiled code do: numbers made, words of a frame and cells read and written. Nothing
//! here runs.
#![tactic(auto)]

mod laws;

pub use laws::{
    a_cell_alone_is_written, a_cell_comes_into_a_register, a_number_comes_into_a_register,
    a_word_of_the_frame_is_read_and_written,
};
