use nx_fs::Files;
use nx_group::{Descriptions, Descriptors};
use nx_ipc::{Queues, Semaphores};
use nx_path::Tree;

/// What groups have open, and the files, queues and semaphores behind it. Bytes of files and of
/// messages lie in chains of a store; `with_objects` puts what they stand for into a state.
#[derive(Drop)]
pub struct Objects {
    /// The descriptors of all groups.
    pub descriptors: Descriptors,
    /// Open descriptions by place.
    pub descriptions: Descriptions,
    /// What stands at each path.
    pub tree: Tree,
    /// The bytes of files by place.
    pub files: Files,
    /// Queues by place, and the messages that wait to be sent by slot.
    pub queues: Queues,
    /// Semaphores by place.
    pub semaphores: Semaphores,
}
