//! What happens to the kernel's tables between calls: the choice of the thread that runs next, the
//! end of a group from outside, and a call of which a pointer leads nowhere. Tables and a store that stand for a state which was reached
//! stand for one again.
#![tactic(auto)]

mod choosing;
mod faulting;
mod killing;
mod laws;

pub use choosing::pick;
pub use faulting::fault;
pub use killing::kill;
pub use laws::boot_stands;
