/// What a call of the kernel begins.
#[derive(Clone, Copy, Debug)]
pub struct Start {
    /// The number of the thread that begins.
    pub thread: u32,
    /// That of its group.
    pub group: u32,
    /// The place of its program.
    pub program: u32,
    /// Its slot.
    pub slot: u32,
    /// Whether it begins in a group that there is.
    pub is_thread: bool,
    /// If not, whether no group of its program lived.
    pub fresh: bool,
}
