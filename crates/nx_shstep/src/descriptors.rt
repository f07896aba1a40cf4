ghost use Rattle.std.specs.Prelude.{◌≡◌, ◌<◌, ◌≤◌, [], ◌∷◌, length, reverse, IfOk};
ghost use Rattle.nx_shrun.specs.Steps.{top, below, without_second};

use nx_base::OutOfMemory;
use std::alloc::Global;
use std::marker::Model;

/// The descriptors that a command has opened and not closed, with room for so many. Contracts see
/// the last one first.
#[derive(Debug, Drop)]
pub struct Descriptors {
    items: Vec<u32>,
    room: usize,
}

impl Model for Descriptors {
    ghost use Rattle.std.specs.Prelude.{◌≤◌, reverse, vec_capacity};
    ghost use Rattle.nx_shstep.specs.Rooms.{HeldDescriptors};

    ghost Value = { HeldDescriptors };

    ghost view = { λ s. record { descriptors = reverse s.items.items; room = s.room } };

    ghost invariant = { λ s. s.room ≤ vec_capacity s.items };
}

fn last_of(items: &[u32]) -> u32
    ensures { result ≡ top (reverse items.now) }
{
    match items {
        [.., last] => *last,
        [] => 0,
    }
}

impl Descriptors {
    /// None, with room for so many.
    pub fn new(alloc: Global, room: usize) -> Result<Descriptors, OutOfMemory>
        ensures { IfOk result (λ s. s ≡ record { descriptors = []; room = room }) }
    {
        let items = Vec::with_capacity(alloc, room)?;
        Ok(Descriptors { items, room })
    }

    /// Drops them all, and keeps the room.
    pub fn clear(&mut self)
        ensures { self.new ≡ record self.old { descriptors = [] } }
    {
        self.items.clear();
    }

    /// How many there are.
    pub fn len(&self) -> usize
        ensures { result ≡ length self.now.descriptors }
    {
        self.items.len()
    }

    /// One more.
    pub fn push(&mut self, fd: u32)
        requires room { length self.old.descriptors < self.old.room }
        ensures { self.new ≡ record self.old { descriptors = fd ∷ self.old.descriptors } }
    {
        self.items.push(fd).unwrap();
    }

    /// Lets the last one go.
    pub fn pop(&mut self)
        ensures { self.new ≡ record self.old { descriptors = below self.old.descriptors } }
    {
        let _ = self.items.pop();
    }

    /// The last one, or 0.
    pub fn last(&self) -> u32
        ensures { result ≡ top self.now.descriptors }
    {
        last_of(self.items.as_slice())
    }

    /// The one before the last, or 0.
    #[tactic(auto, using(crate::proofs::Opened::before_last_is))]
    pub fn before_last(&self) -> u32
        ensures { result ≡ top (below self.now.descriptors) }
    {
        match self.items.as_slice() {
            [front @ .., _] => last_of(front),
            [] => 0,
        }
    }

    /// Lets the one before the last go.
    #[tactic(auto, using(crate::proofs::Opened::without_second_is, crate::proofs::Opened::below_le))]
    pub fn remove_before_last(&mut self)
        requires room { length self.old.descriptors ≤ self.old.room }
        ensures { self.new ≡ record self.old { descriptors = without_second self.old.descriptors } }
    {
        if self.len() == 0 {
            return;
        }
        let last = self.last();
        self.pop();
        self.pop();
        self.push(last);
    }
}
