ghost use Rattle.std.specs.Prelude.{◌≡◌, ◌<◌, ◌≤◌, ◌++◌, [], ◌∷◌, length, IfOk};

use nx_base::OutOfMemory;
use std::alloc::Global;
use std::marker::Model;

/// The most bytes that one parameter of a call moves.
pub const MOST_MOVED: usize = 4096;

/// The bytes that one parameter of a call moves, at most 4,096. Their room is taken when it is
/// made, so no other call takes memory. Contracts see the bytes.
#[derive(Debug, Drop)]
pub struct MovedBytes {
    items: Vec<u8>,
}

impl Model for MovedBytes {
    ghost use Rattle.std.specs.Prelude.{List, ℕ, ◌≤◌, vec_capacity};

    ghost Value = { List ℕ };

    ghost view = { λ p. p.items.items };

    ghost invariant = { λ p. 4096 ≤ vec_capacity p.items };
}

impl MovedBytes {
    /// No bytes, and room for 4,096.
    pub fn new(alloc: Global) -> Result<MovedBytes, OutOfMemory>
        ensures { IfOk result (λ p. p ≡ []) }
    {
        let items = Vec::with_capacity(alloc, MOST_MOVED)?;
        Ok(MovedBytes { items })
    }

    /// The bytes.
    pub fn as_slice(&self) -> &[u8]
        ensures { result.now ≡ self.now }
    {
        self.items.as_slice()
    }

    /// How many there are.
    pub fn len(&self) -> usize
        ensures { result ≡ length self.now }
    {
        self.items.len()
    }

    /// Drops them all, and keeps the room.
    pub fn clear(&mut self)
        ensures { self.new ≡ [] }
    {
        self.items.clear();
    }

    /// Appends a byte.
    pub fn push(&mut self, byte: u8)
        requires { length self.old < 4096 }
        ensures { self.new ≡ self.old ++ byte ∷ [] }
    {
        self.items.push(byte).unwrap();
    }

    /// Takes these bytes in place of what it has.
    pub fn set(&mut self, bytes: &[u8])
        requires { length bytes.now ≤ 4096 }
        ensures { self.new ≡ bytes.now }
    {
        self.items.clear();
        self.items.extend_from_slice(bytes).unwrap();
    }
}
