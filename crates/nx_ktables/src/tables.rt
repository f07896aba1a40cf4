use nx_base::Text;
use nx_env::Environments;
use nx_group::{Codes, Groups, Values};
use nx_kernel::{Clock, Ends, Terminal};
use nx_objects::Objects;
use nx_sched::Threads;

/// What the kernel keeps. Bytes of files and of messages lie in chains of a store. `state_of` is
/// the state for which the tables stand, where chains have these bytes.
#[derive(Drop)]
pub struct Tables {
    /// The names of the programs, by place.
    pub programs: Vec<Text>,
    /// How many blocks of 64 bytes the store has.
    pub blocks: u32,
    /// The most objects: directories that were made after boot, files, queues and semaphores.
    pub limit: u32,
    /// Threads by slot.
    pub threads: Threads,
    /// The time, and the lateness list.
    pub clock: Clock,
    /// Groups by the slots of their main threads.
    pub groups: Groups,
    /// Their environments.
    pub environments: Environments,
    /// The codes of children that ended.
    pub codes: Codes,
    /// The values of threads that ended.
    pub values: Values,
    /// What is open, and the files, queues and semaphores behind it.
    pub objects: Objects,
    /// The console.
    pub terminal: Terminal,
    /// How many numbers were given to threads.
    pub numbers: u32,
    /// The groups that ended.
    pub ended: Ends,
    /// How many calls were made.
    pub calls: u64,
}
