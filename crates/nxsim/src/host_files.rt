// The trusted edge: the files of the host.
ghost use Rattle.std.specs.Prelude.{None, ◌≡◌, ◌+◌, ◌<◌, ◌≤◌, length, OnOk, OnErr, IsErr, IfOk, IfSome};
ghost use Rattle.nx_outside.specs.Outside.{Asks, HandsOut, RefusesLong, FailedByCause, longest};
ghost use Rattle.nx_outside.specs.Fakes.{read_faults};
ghost use Rattle.nxsim.specs.Host.{ReadToEnd, TakesPiece};

use crate::host_reader::HostReader;
use nx_outside::{FileStop, Files, LONGEST};
use std::io::Read;
use std::{fs, rt};

// How many bytes are read at a time, at most: a page of the host.
const PIECE: usize = 4096;

/// Files of the host, by their paths. Neither their contents nor the names asked are told.
#[derive(Drop)]
pub struct HostFiles<'a, R> {
    rt: &'a R,
    failed: u64,
}

impl<'a, R> HostFiles<'a, R> {
    /// The files that this runtime opens.
    pub fn new(rt: &'a R) -> Self
        ensures { result.failed ≡ 0 }
    {
        HostFiles { rt, failed: 0 }
    }
}

impl<R: rt::Files> Files for HostFiles<'_, R> {
    ghost told = { λ _. None };

    ghost faults = { λ h. h.failed };

    fn read(&mut self, name: &str, into: &mut Vec<u8>) -> Result<(), FileStop>
        ensures asks { Asks result None None name.now }
        ensures reads { HandsOut result None name.now into.new.items }
        ensures short { OnOk result (length into.new.items ≤ longest) }
        ensures long { RefusesLong result None name.now }
        ensures cause { FailedByCause self.old.failed self.new.failed result }

        // What is too long was read so far; each fault is counted once.
        ensures past { (result ≡ Err FileStop.TooLong) → length into.new.items ≡ longest + 1 }
        ensures faults { self.new.failed ≡ read_faults result self.old.failed }
    {
        let found = match fs::open(self.rt, name) {
            Ok(file) => read_all(&mut HostReader::new(file), into),
            Err(_) => Err(FileStop::Failed),
        };
        if let Err(FileStop::Failed) = found {
            self.failed = self.failed.saturating_add(1);
        }
        found
    }
}

/// Replaces what `into` holds by what the reader gives to its end, or by one byte more than the
/// longest content.
pub fn read_all<F: Read>(file: &mut HostReader<F>, into: &mut Vec<u8>) -> Result<(), FileStop>
    ensures whole { ReadToEnd result (F.remaining file.old.inner) into.new.items }
    ensures refused { IfSome (F.remaining file.old.inner) (λ left. longest < length left → IsErr result) }
    ensures short { OnOk result (length into.new.items ≤ longest) }
    ensures long { (result ≡ Err FileStop.TooLong) → length into.new.items ≡ longest + 1 }
    ensures most { length into.new.items ≤ longest + 1 }

    // It failed exactly where a read did: out of memory is no failed read.
    ensures faults { file.new.failed ≡ read_faults result file.old.failed }
{
    into.clear();
    while into.len() <= LONGEST {
        if read_piece(file, into)? == 0 {
            return Ok(());
        }
    }
    Err(FileStop::TooLong)
}

// Appends what one read gives, and says how many bytes that was.
fn read_piece<F: Read>(file: &mut HostReader<F>, into: &mut Vec<u8>) -> Result<usize, FileStop>
    requires { length into.old.items ≤ longest }
    ensures gives { IfOk result
        (TakesPiece (F.remaining file.old.inner) (F.remaining file.new.inner) into.old.items into.new.items) }
    ensures kept { OnErr result (into.new.items ≡ into.old.items) }
    ensures most { length into.new.items ≤ longest + 1 }
    ensures stop { (result ≡ Err FileStop.TooLong) → ⊥ }
    ensures faults { file.new.failed ≡ read_faults result file.old.failed }
{
    let mut piece = [0u8; PIECE];
    let most = PIECE.min(LONGEST + 1 - into.len());
    let Ok(count) = file.read(&mut piece[..most]) else {
        return Err(FileStop::Failed);
    };
    into.extend_from_slice(&piece[..count])
        .map_err(|_| FileStop::Memory)?;
    Ok(count)
}
