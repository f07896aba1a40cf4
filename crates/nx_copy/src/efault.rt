use thiserror::Error;

/// A pointer of a call is bad, so the call isn't made.
#[derive(Clone, Copy, Debug, PartialEq, Eq, Error)]
#[error("parameter {param} is a bad pointer")]
pub struct Efault {
    /// The place of the first parameter that is a bad pointer, counted from 0.
    pub param: u8,
}
