use thiserror::Error;

/// There are fewer free frames than are needed. Both are numbers of frames of 4096 bytes.
#[derive(Clone, Copy, Debug, PartialEq, Eq, Error)]
#[error("{need} frames are needed and {free} are free")]
pub struct TooFew {
    /// How many frames were wanted.
    pub need: u32,
    /// How many were free.
    pub free: u32,
}
