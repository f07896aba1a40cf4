//! The abstract run: kernel, shell and the threads of programs, each step as the definition says,
//! whatever the kernel and the programs are.
#![tactic(auto)]

mod acting;
mod kernel;
mod making;
mod run;
mod stepping;
mod stop;
mod telling;
mod turning;

pub use kernel::{Effect, Kernel, Over, Row};
pub use run::Abstract;
pub use stop::Stop;
pub use turning::Wrong;
