ghost use Rattle.std.specs.Prelude.{Option, ℕ, List};
ghost use Rattle.nx_outside.specs.Outside.{Puts, HasCause};

use thiserror::Error;

/// A piece was not put whole: the outside failed.
#[derive(Clone, Copy, Debug, PartialEq, Eq, Error)]
#[error("cannot be written")]
pub struct SinkFail;

/// A sink of bytes.
pub trait Sink {
    /// The bytes written so far, in an implementation that tells them.
    ghost told: { Self → Option (List ℕ) };

    /// How many puts have failed so far. The count may stay at 2^64 - 1 once it is there.
    ghost faults: { Self → ℕ };

    /// Appends the piece. After an error a prefix of it was appended, of a length that is left open.
    fn put(&mut self, piece: &[u8]) -> Result<(), SinkFail>
        ensures puts { Puts result (told self.old) (told self.new) piece.now }
        ensures cause { HasCause (faults self.old) (faults self.new) result };
}
