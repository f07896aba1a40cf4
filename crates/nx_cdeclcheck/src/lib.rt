//! What the declarations of a function of C give and what the function does, or its first fault.
#![tactic(auto)]

mod function;
mod items;
mod params;
mod refusals;

pub use function::check_function;
pub use params::{add_params, begin, close};
pub use refusals::{constant_of, held_of, is_length, is_long, refuse};
