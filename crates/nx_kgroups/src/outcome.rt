/// A thread that began.
#[derive(Clone, Copy, Debug)]
pub struct Started {
    /// Its number.
    pub thread: u32,
    /// Its group's number.
    pub group: u32,
    /// The place of its program.
    pub program: u32,
    /// Its slot.
    pub slot: u32,
    /// Whether its group was there already.
    pub is_thread: bool,
    /// Whether no group of its program lived.
    pub fresh: bool,
}

/// What a call did beside its replies.
#[derive(Clone, Copy, Debug)]
pub enum Outcome {
    /// No group ended, and no thread began.
    Stays,
    /// The caller's group ended. Its number.
    GroupEnded(u32),
    /// A thread began.
    Began(Started),
}
