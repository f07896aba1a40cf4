ghost use Rattle.std.specs.Prelude.{Some, None, ◌≡◌, ◌↔◌, ◌⊎◌, ◌≤◌, ◌<◌, [], ◌∷◌, ◌++◌, IsTrue, IfErr, OnOk, Contains, length, map};
ghost use Rattle.std.specs.Option.{option_map};
ghost use Rattle.std.specs.String.{string_bytes};
ghost use Rattle.nx_outside.specs.Outside.{Asks, HandsOut, RefusesLong, FailedByCause, longest, content_of};
ghost use Rattle.nx_outside.specs.Fakes.{next, files_seen, FailsRead, read_faults};

use crate::files::{FileStop, Files, LONGEST};
use std::alloc::Global;
use std::marker::Model;

/// Files in memory, of which chosen reads fail.
///
/// The reads are counted from 1, also those that end out of memory. The count stays at 2^64 - 1.
#[derive(Drop)]
pub struct MemFiles {
    alloc: Global,
    files: Vec<(String, Vec<u8>)>,
    fails: Vec<u32>,
    names: Vec<String>,
    calls: u64,
    failed: u64,
}

impl Model for MemFiles {
    ghost use Rattle.nx_outside.specs.Fakes.{FilesHeld, files_seen};
    ghost use Rattle.std.specs.Prelude.{map};
    ghost use Rattle.std.specs.String.{string_bytes};

    ghost Value = { FilesHeld };

    ghost view = { λ m. record {
      told = record { contents = files_seen m.files.items; asked = map string_bytes m.names.items };
      fails = m.fails.items;
      calls = m.calls;
      faults = m.failed;
    } };
}

impl MemFiles {
    /// Files of these names and contents; the reads of the numbers in `fails` fail.
    /// Of two entries with one name the first counts. Takes no memory.
    pub fn new(alloc: Global, files: Vec<(String, Vec<u8>)>, fails: Vec<u32>) -> MemFiles
        ensures contents { result.told.contents ≡ files_seen files.items }
        ensures asked { result.told.asked ≡ [] }
        ensures fails { result.fails ≡ fails.items }
        ensures calls { result.calls ≡ 0 }
        ensures faults { result.faults ≡ 0 }
    {
        MemFiles {
            alloc,
            files,
            fails,
            names: Vec::new(alloc),
            calls: 0,
            failed: 0,
        }
    }

    /// How many reads have failed.
    pub fn faults(&self) -> u64
        ensures { result ≡ self.now.faults }
    {
        self.failed
    }

    /// The names asked, in order.
    pub fn asked(&self) -> &[String]
        ensures { map string_bytes result.now ≡ self.now.told.asked }
    {
        self.names.as_slice()
    }

    // Counts a read.
    fn begin(&mut self)
        ensures { self.new ≡ record self.old { calls = next self.old.calls } }
    {
        self.calls = self.calls.saturating_add(1);
    }

    // Adds the name to those asked.
    fn note(&mut self, name: &str) -> Result<(), FileStop>
        ensures ok { OnOk result (self.new ≡ record self.old {
          told =
              record self.old.told { asked = self.old.told.asked ++ name.now ∷ [] };
        }) }
        ensures err { IfErr result (λ e. (e ≡ FileStop.Memory) × (self.new ≡ self.old)) }
    {
        let own = String::from_str(self.alloc, name).map_err(|_| FileStop::Memory)?;
        self.names.push(own).map_err(|_| FileStop::Memory)?;
        Ok(())
    }

    // Whether the number of this read is listed.
    fn is_due(&self) -> bool
        ensures { IsTrue result ↔ Contains self.now.fails self.now.calls }
    {
        is_listed(&self.fails, self.calls)
    }

    // The content under the name.
    fn find(&self, name: &str) -> Option<&[u8]>
        ensures { option_map (λ s. s.now) result ≡ content_of self.now.told.contents name.now }
    {
        content(&self.files, name)
    }

    // Counts a fault.
    fn fail(&mut self) -> Result<(), FileStop>
        ensures stop { result ≡ Err FileStop.Failed }
        ensures cause { FailedByCause self.old.faults self.new.faults result }
        ensures count { self.new ≡ record self.old { faults = next self.old.faults } }
    {
        self.failed = self.failed.saturating_add(1);
        Err(FileStop::Failed)
    }
}

impl Files for MemFiles {
    ghost told = { λ m. Some m.told };

    ghost faults = { λ m. m.faults };

    fn read(&mut self, name: &str, into: &mut Vec<u8>) -> Result<(), FileStop>
        ensures asks { Asks result (Some self.old.told) (Some self.new.told) name.now }
        ensures reads { HandsOut result (Some self.old.told) name.now into.new.items }
        ensures short { OnOk result (length into.new.items ≤ longest) }
        ensures long { RefusesLong result (Some self.old.told) name.now }
        ensures cause { FailedByCause self.old.faults self.new.faults result }

        // Exactly the reads that are to fail do, except those that end out of memory.
        ensures failed { (result ≡ Err FileStop.Failed) → FailsRead self.old name.now }
        ensures fails { FailsRead self.old name.now
            → (result ≡ Err FileStop.Failed) ⊎ (result ≡ Err FileStop.Memory) }

        // Each read has its number, and each fault is counted once.
        ensures calls { self.new.calls ≡ next self.old.calls }
        ensures faults { self.new.faults ≡ read_faults result self.old.faults }
        ensures listed { self.new.fails ≡ self.old.fails }
    {
        self.begin();
        self.note(name)?;
        if self.is_due() {
            return self.fail();
        }
        match self.find(name) {
            None => self.fail(),
            Some(bytes) => hand_out(bytes, into),
        }
    }
}

/// Whether the number is one of these.
pub(crate) fn is_listed(numbers: &[u32], number: u64) -> bool
    ensures { IsTrue result ↔ Contains numbers.now number }
{
    numbers.iter().any(|listed| u64::from(*listed) == number)
}

// The content under the first entry of the name.
fn content<'a>(files: &'a [(String, Vec<u8>)], name: &str) -> Option<&'a [u8]>
    ensures { option_map (λ s. s.now) result ≡ content_of (files_seen files.now) name.now }
{
    for file in files {
        if name == file.0.as_str() {
            return Some(file.1.as_slice());
        }
    }
    None
}

// Replaces what the vector holds by the bytes, if they are not too many.
fn hand_out(bytes: &[u8], into: &mut Vec<u8>) -> Result<(), FileStop>
    ensures ok { OnOk result ((into.new.items ≡ bytes.now) × (length bytes.now ≤ longest)) }
    ensures long { (result ≡ Err FileStop.TooLong) → longest < length bytes.now }
    ensures short { longest < length bytes.now → (result ≡ Err FileStop.TooLong) }
    ensures never { (result ≡ Err FileStop.Failed) → ⊥ }
{
    if bytes.len() > LONGEST {
        return Err(FileStop::TooLong);
    }
    into.clear();
    into.extend_from_slice(bytes).map_err(|_| FileStop::Memory)?;
    Ok(())
}
