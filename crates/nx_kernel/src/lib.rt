//! Parts of the kernel's code: the clock, the choice of the next thread, and the calls on time and
//! on threads that leave the groups alone; what the console shows, and the groups that ended.
#![tactic(auto)]

mod calling;
mod clock;
mod console_calls;
mod due;
mod ends;
mod passing;
mod terminal;
mod thread_calls;
mod time_calls;

pub use calling::Calling;
pub use clock::Clock;
pub use console_calls::{read_console, write_console};
pub use ends::{Ended, Ends};
pub use passing::{advance, choose};
pub use terminal::Terminal;
pub use thread_calls::{errno, set_priority, yield_now};
pub use time_calls::{sleep, ticks};

#[cfg(test)]
mod tests;
