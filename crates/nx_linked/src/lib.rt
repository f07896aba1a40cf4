//! Programs of slot code that a link has placed, and how registers and memory hold their states. Nothing
//! here runs.
#![tactic(auto)]

mod laws;

pub use laws::{
    frames_fill_the_stack, no_object_lies_in_the_words_of_a_frame,
    waiting_calls_stay_where_their_words_do,
};
