ghost use Rattle.std.specs.Prelude.{Option, ℕ, ◌≤◌, length, OnOk};
ghost use Rattle.nx_outside.specs.Outside.{Told, Asks, HandsOut, RefusesLong, FailedByCause, longest};

use thiserror::Error;

/// The length in bytes of the longest content that a read hands out.
pub const LONGEST: usize = 1_048_576;

/// Why a file was not read.
#[derive(Clone, Copy, Debug, PartialEq, Eq, Error)]
pub enum FileStop {
    /// The content is longer than `LONGEST` bytes.
    #[error("longer than 1048576 bytes")]
    TooLong,
    /// The outside failed. A missing name is such a fault too.
    #[error("cannot be read")]
    Failed,
    /// The memory doesn't suffice for the content.
    #[error("out of memory")]
    Memory,
}

/// Files by their names.
pub trait Files {
    /// The contents and the names asked so far, in an implementation that tells them.
    ghost told: { Self → Option Told };

    /// How many reads have failed so far. The count may stay at 2^64 - 1 once it is there.
    ghost faults: { Self → ℕ };

    /// Replaces what `into` holds by the content of the file. After an error `into` is of no use.
    fn read(&mut self, name: &str, into: &mut Vec<u8>) -> Result<(), FileStop>
        ensures asks { Asks result (told self.old) (told self.new) name.now }
        ensures reads { HandsOut result (told self.old) name.now into.new.items }
        ensures short { OnOk result (length into.new.items ≤ longest) }
        ensures long { RefusesLong result (told self.old) name.now }
        ensures cause { FailedByCause (faults self.old) (faults self.new) result };
}
