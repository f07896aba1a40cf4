//! The threads of programs and the globals of their groups, under their numbers: they begin, make
//! their steps and get replies, whatever it is that makes the steps.
#![tactic(auto)]

mod guests;
mod kept;
mod programs;
mod start;
mod turn;

pub use guests::Guests;
pub use kept::Kept;
pub use programs::Programs;
pub use start::Start;
pub use turn::Turn;

#[cfg(test)]
mod tests;
