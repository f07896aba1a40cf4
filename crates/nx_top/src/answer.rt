ghost use Rattle.std.specs.Prelude.{◌≡◌, IfOk};
ghost use Rattle.nx_top.specs.Answers.{IsStopAnswer};

use crate::pieces::Pieces;
use crate::reading::ReadStop;
use crate::refusal::FileFault;
use nx_base::{Bytes, OutOfMemory};
use nx_outside::FileStop;
use std::alloc::Global;

/// An answer of any command, except where a put fails or memory runs out.
#[derive(Debug, Drop)]
pub enum Answer {
    /// The words have no form.
    Usage,
    /// A file can't be read.
    CannotRead(Bytes),
    /// A file is too long.
    TooLong(Bytes),
    /// A file has no reading, or passes a limit.
    Faulty(FileFault),
    /// A file has not the form that is built so far, or is too long.
    NotBuilt(Bytes),
    /// The command did what it is for: its status, and what is to be put.
    Done { status: u8, pieces: Pieces },
}

/// The answer to a file at which reading stopped.
pub fn stopped(alloc: Global, stop: ReadStop<'_>) -> Result<Answer, OutOfMemory>
    ensures { IfOk result (λ a. IsStopAnswer a stop.entry.why stop.entry.name.now) }
{
    let file = Bytes::from_slice(alloc, stop.name.as_bytes())?;
    match stop.why {
        FileStop::Failed => Ok(Answer::CannotRead(file)),
        FileStop::TooLong => Ok(Answer::TooLong(file)),
        FileStop::Memory => Err(OutOfMemory),
    }
}

/// The answer to a file that has not the form that is built so far.
pub fn not_built(alloc: Global, file: &str) -> Result<Answer, OutOfMemory>
    ensures { IfOk result (λ a. a ≡ Answer.NotBuilt file.now) }
{
    let file = Bytes::from_slice(alloc, file.as_bytes())?;
    Ok(Answer::NotBuilt(file))
}
