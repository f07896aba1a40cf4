/// What runs next.
#[derive(Clone, Copy, Debug)]
pub enum Pick {
    /// The thread of this number.
    Run(u32),
    /// No thread is ready, and no deadline stands.
    Idle,
    /// No group is left.
    Ended,
}
