//! What the kernel takes from a program's view at a call, and what it puts there with a reply.
//! Both are definitions of `nx_base` over registers and a view; here they are made through any space.
#![tactic(auto)]

mod buffer;
mod cooking;
mod delivery;
mod efault;
mod laws;

pub use cooking::cook;
pub use delivery::deliver;
pub use efault::Efault;
pub use laws::what_was_taken_can_be_answered;
