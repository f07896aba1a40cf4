//! The arithmetic of RV32IM: the operations on two words and the comparisons of branches.
#![tactic(auto)]

mod laws;
mod operations;

pub use laws::{
    branches_come_in_pairs, halves_make_the_product, quotient_and_remainder_make_the_dividend,
};
pub use operations::{alu, taken};

#[cfg(test)]
mod tests;
