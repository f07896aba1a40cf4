//! What groups have open, and the files, queues and semaphores behind it: which of these live, and
//! what ends with a descriptor that closes. Contracts see the definitions of `nx_ksys`.
#![tactic(auto)]

mod boot;
mod closing;
mod descriptors;
mod idle;
mod living;
mod objects;
mod sweeping;

pub use descriptors::Found;
pub use objects::Objects;

#[cfg(test)]
mod tests;
