/// What stands at a path.
#[derive(Clone, Copy, Debug)]
pub enum NodeKind {
    Directory,
    /// The place of its bytes.
    File(u32),
    Console,
    Null,
    /// The program's place, from 0.
    Program(u32),
    /// The queue's place.
    Queue(u32),
}

/// What stands at a path, and whether it was made at boot and stays.
#[derive(Clone, Copy, Debug)]
pub struct Node {
    /// What it is.
    pub kind: NodeKind,
    /// Whether it was made at boot.
    pub fixed: bool,
}

/// What an open description leads to.
#[derive(Clone, Copy, Debug)]
pub enum Target {
    /// The place of its bytes.
    File(u32),
    Console,
    Null,
    /// The queue's place.
    Queue(u32),
    /// The semaphore's place.
    Semaphore(u32),
}

/// An open description.
#[derive(Clone, Copy, Debug)]
pub struct Open {
    /// What it leads to.
    pub target: Target,
    /// The flags with which it was opened.
    pub flags: u32,
    /// Where the next byte is read or written, in bytes from 0.
    pub offset: u32,
}
