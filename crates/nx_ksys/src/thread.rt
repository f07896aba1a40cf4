use nx_base::KCall;

/// What a thread waits for.
#[derive(Clone, Copy, Debug)]
pub enum Wait {
    /// Its deadline alone.
    Sleep,
    /// A message of the queue at this place.
    Receive(u32),
    /// Room in the queue at this place.
    Send(u32),
    /// The semaphore at this place.
    Semaphore(u32),
    /// The end of the child of this number.
    Child(u32),
    /// The end of any child.
    AnyChild,
    /// The end of the thread of this number.
    Thread(u32),
}

/// A thread is ready since a moment, or waits since a moment, perhaps up to a deadline. Moments
/// count what the schedule did, from 0; a deadline is a time in ticks.
#[derive(Clone, Copy, Debug)]
pub enum Doing {
    /// The moment since when.
    Ready(u64),
    /// What for, and the moment since when.
    Waits(Wait, u64),
    /// What for, the moment since when, and the deadline.
    Until(Wait, u64, u64),
}

/// The call that a thread made last: which, and its words, with 0 for those that mean nothing to
/// the kernel.
#[derive(Clone, Copy, Debug)]
pub struct Asked {
    /// Which call; none of the kernel's until the first that waits.
    pub call: Option<KCall>,
    /// Its words, in the order of its parameters.
    pub words: [u32; 6],
}

/// A thread. Its slot is its place in the table of threads.
#[derive(Clone, Copy, Debug)]
pub struct Thread {
    /// Its number, which no other thread ever has.
    pub number: u32,
    /// The number of its group's main thread.
    pub group: u32,
    /// 1 to 255, the greatest first.
    pub priority: u8,
    /// The number of its last error.
    pub errno: i32,
    /// Whether it is ready or waits.
    pub doing: Doing,
    /// The call in which it waits.
    pub asked: Asked,
}

/// Which thread is looked for.
#[derive(Clone, Copy, Debug)]
pub enum Search {
    /// The one to run.
    Ready,
    /// The one whose deadline is first.
    Timed,
    /// The one of this group that waits for this child.
    Parent(u32, u32),
    /// The one that waits for the end of this thread.
    Joiner(u32),
    /// The one that waits for a message of the queue at this place.
    Receiver(u32),
    /// The one that waits for room in the queue at this place.
    Sender(u32),
    /// The one that waits for the semaphore at this place.
    Waiter(u32),
}
