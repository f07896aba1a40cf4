ghost use Rattle.std.specs.Prelude.{◌≡◌, [], ◌∷◌, ◌++◌, OnOk};

use nx_base::{Bytes, OutOfMemory};
use std::alloc::Global;
use std::marker::Model;

/// Texts that are put one by one. Contracts see their list.
#[derive(Debug, Drop)]
pub struct Pieces {
    items: Vec<Bytes>,
}

impl Model for Pieces {
    ghost use Rattle.std.specs.Prelude.{List, ℕ};

    ghost Value = { List (List ℕ) };

    ghost view = { λ p. p.items.items };
}

impl Pieces {
    /// No pieces. This takes no memory.
    pub fn new(alloc: Global) -> Pieces
        ensures { result ≡ [] }
    {
        Pieces {
            items: Vec::new(alloc),
        }
    }

    /// Puts a piece after the others.
    pub fn push(&mut self, piece: Bytes) -> Result<(), OutOfMemory>
        ensures { OnOk result (self.new ≡ self.old ++ piece ∷ []) }
    {
        self.items.push(piece)?;
        Ok(())
    }

    /// The pieces, in their order.
    pub fn as_slice(&self) -> &[Bytes]
        ensures { result.now ≡ self.now }
    {
        self.items.as_slice()
    }
}
