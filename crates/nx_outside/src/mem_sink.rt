ghost use Rattle.std.specs.Prelude.{Some, ◌≡◌, ◌↔◌, ◌⊎◌, ◌+◌, ◌-◌, ◌≤◌, ◌<◌, [], ◌++◌, min, take, length, IsTrue, IfOk, IsErr, OnErr, Contains, vec_capacity};
ghost use Rattle.nx_outside.specs.Outside.{Puts, HasCause};
ghost use Rattle.nx_outside.specs.Fakes.{next, FailsPut, kept, put_faults};

use crate::mem_files::is_listed;
use crate::sink::{Sink, SinkFail};
use nx_base::OutOfMemory;
use std::alloc::Global;
use std::marker::Model;

/// A sink in memory, of which chosen puts fail.
///
/// The puts are counted from 1; the count stays at 2^64 - 1. A put takes no memory.
#[derive(Drop)]
pub struct MemSink {
    written: Vec<u8>,
    fails: Vec<u32>,
    keep: usize,
    room: usize,
    calls: u64,
    failed: u64,
}

impl Model for MemSink {
    ghost use Rattle.nx_outside.specs.Fakes.{SinkHeld};
    ghost use Rattle.std.specs.Prelude.{◌≤◌, length, vec_capacity};

    ghost Value = { SinkHeld };

    ghost view = { λ m. record {
      bytes = m.written.items;
      fails = m.fails.items;
      keep = m.keep;
      room = m.room;
      calls = m.calls;
      faults = m.failed;
    } };

    ghost invariant = { λ m. (m.room ≤ vec_capacity m.written) × (length m.written.items ≤ m.room) };
}

impl MemSink {
    /// Takes the memory for `room` bytes. The puts of the numbers in `fails` fail, and so does one
    /// whose piece exceeds the room left; of its piece the first `keep` bytes are appended, as far
    /// as the room goes.
    pub fn new(
        alloc: Global,
        fails: Vec<u32>,
        keep: usize,
        room: usize,
    ) -> Result<MemSink, OutOfMemory>
        ensures { IfOk result (λ s. s ≡ record {
          bytes = [];
          fails = fails.items;
          keep = keep;
          room = room;
          calls = 0;
          faults = 0;
        }) }
    {
        let written = Vec::with_capacity(alloc, room)?;
        Ok(MemSink {
            written,
            fails,
            keep,
            room,
            calls: 0,
            failed: 0,
        })
    }

    /// The bytes written.
    pub fn bytes(&self) -> &[u8]
        ensures bytes { result.now ≡ self.now.bytes }
        ensures within { length result.now ≤ self.now.room }
    {
        self.written.as_slice()
    }

    /// How many puts have failed.
    pub fn faults(&self) -> u64
        ensures { result ≡ self.now.faults }
    {
        self.failed
    }

    // Counts a put, and says whether it is to fail.
    fn begin(&mut self, piece: &[u8]) -> bool
        ensures refused { IsTrue result ↔ FailsPut self.old piece.now }
        ensures count { self.new ≡ record self.old { calls = next self.old.calls } }
    {
        self.calls = self.calls.saturating_add(1);
        let left = self.room - self.written.len();
        is_refused(&self.fails, self.calls, piece, left)
    }

    // Appends the first bytes, as many as are kept and as the room goes, and counts a fault.
    fn fail(&mut self, piece: &[u8]) -> Result<(), SinkFail>
        ensures stop { IsErr result }
        ensures puts { Puts result (Some self.old.bytes) (Some self.new.bytes) piece.now }
        ensures cause { HasCause self.old.faults self.new.faults result }
        ensures after { self.new ≡ record self.old {
          bytes = self.old.bytes ++ take (kept self.old) piece.now;
          faults = next self.old.faults;
        } }
    {
        self.failed = self.failed.saturating_add(1);
        let left = self.room - self.written.len();
        append_prefix(&mut self.written, piece, self.keep.min(left));
        Err(SinkFail)
    }

    // Appends the piece, for which there is room.
    fn take(&mut self, piece: &[u8])
        requires { length self.old.bytes + length piece.now ≤ self.old.room }
        ensures { self.new ≡ record self.old { bytes = self.old.bytes ++ piece.now } }
    {
        append(&mut self.written, piece);
    }
}

impl Sink for MemSink {
    ghost told = { λ m. Some m.bytes };

    ghost faults = { λ m. m.faults };

    fn put(&mut self, piece: &[u8]) -> Result<(), SinkFail>
        ensures puts { Puts result (Some self.old.bytes) (Some self.new.bytes) piece.now }
        ensures cause { HasCause self.old.faults self.new.faults result }

        // Exactly the puts that are to fail do, and keep so much of the piece.
        ensures fails { IsErr result ↔ FailsPut self.old piece.now }
        ensures prefix { OnErr result
            (self.new.bytes ≡ self.old.bytes ++ take (kept self.old) piece.now) }

        // Each put has its number, and each fault is counted once.
        ensures calls { self.new.calls ≡ next self.old.calls }
        ensures faults { self.new.faults ≡ put_faults result self.old.faults }
        ensures listed { self.new.fails ≡ self.old.fails }
        ensures limits { (self.new.keep ≡ self.old.keep) × (self.new.room ≡ self.old.room) }
    {
        if self.begin(piece) {
            return self.fail(piece);
        }
        self.take(piece);
        Ok(())
    }
}

// Whether a put is to fail, where the bytes left are the room for its piece.
fn is_refused(fails: &[u32], call: u64, piece: &[u8], left: usize) -> bool
    ensures { IsTrue result ↔ (Contains fails.now call ⊎ (left < length piece.now)) }
{
    is_listed(fails, call) || piece.len() > left
}

// Appends where the capacity holds the bytes.
fn append(written: &mut Vec<u8>, bytes: &[u8])
    requires { length written.old.items + length bytes.now ≤ vec_capacity written.old }
    ensures bytes { written.new.items ≡ written.old.items ++ bytes.now }
    ensures capacity { vec_capacity written.old ≤ vec_capacity written.new }
{
    written.extend_from_slice(bytes).unwrap();
}

// Appends the first of the bytes where the capacity holds them.
fn append_prefix(written: &mut Vec<u8>, bytes: &[u8], most: usize)
    requires { length written.old.items + most ≤ vec_capacity written.old }
    ensures bytes { written.new.items ≡ written.old.items ++ take most bytes.now }
    ensures capacity { vec_capacity written.old ≤ vec_capacity written.new }
{
    append(written, &bytes[..bytes.len().min(most)]);
}
