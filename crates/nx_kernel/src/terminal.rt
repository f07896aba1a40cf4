ghost use Rattle.std.specs.Prelude.{◌≡◌, ◌≤◌, ◌+◌, ◌-◌, ◌++◌, [], IfOk, length, min, take, drop};

use nx_base::OutOfMemory;
use std::alloc::Global;
use std::marker::Model;

/// What the console shows, and the input that is left. The room for what it shows is taken when it
/// is made.
#[derive(Debug, Drop)]
pub struct Terminal {
    shown: Vec<u8>,
    room: usize,
    input: Vec<u8>,
    read: usize,
}

impl Model for Terminal {
    ghost use Rattle.std.specs.Prelude.{◌≤◌, drop, vec_capacity, vec_len};
    ghost use Rattle.nx_kernel.specs.Parts.{OnTerminal};

    ghost Value = { OnTerminal };

    ghost view = { λ t. record { shown = t.shown.items; room = t.room; input = drop t.read t.input.items } };

    ghost invariant = { λ t. (t.room ≤ vec_capacity t.shown) × (t.read ≤ vec_len t.input) };
}

impl Terminal {
    /// Nothing shown, with room for so many bytes, and an input.
    pub fn new(alloc: Global, room: usize, input: Vec<u8>) -> Result<Terminal, OutOfMemory>
        ensures { IfOk result (λ t. t ≡ record { shown = []; room = room; input = input.items }) }
    {
        let shown = Vec::with_capacity(alloc, room)?;
        Ok(Terminal {
            shown,
            room,
            input,
            read: 0,
        })
    }

    /// What it shows.
    pub fn shown(&self) -> &[u8]
        ensures { result.now ≡ self.now.shown }
    {
        self.shown.as_slice()
    }

    /// How many of so many bytes it has room for.
    pub fn room_for(&self, count: usize) -> usize
        ensures { result ≡ min count (self.now.room - length self.now.shown) }
    {
        count.min(self.room.saturating_sub(self.shown.len()))
    }

    /// Shows bytes that it has room for.
    pub fn show(&mut self, bytes: &[u8])
        requires { length self.old.shown + length bytes.now ≤ self.old.room }
        ensures { self.new ≡ record self.old { shown = self.old.shown ++ bytes.now } }
    {
        self.shown.extend_from_slice(bytes).unwrap();
    }

    /// The first bytes of the input that is left, at most so many.
    pub fn front(&self, most: usize) -> &[u8]
        ensures { result.now ≡ take most self.now.input }
    {
        let left = &self.input.as_slice()[self.read..];
        let count = most.min(left.len());
        &left[..count]
    }

    /// So many bytes of the input that is left are read.
    pub fn skip(&mut self, count: usize)
        requires { count ≤ length self.old.input }
        ensures { self.new ≡ record self.old { input = drop count self.old.input } }
    {
        self.read += count;
    }
}
