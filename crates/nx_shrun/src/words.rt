ghost use Rattle.std.specs.Prelude.{◌≡◌, ◌<◌, ◌≤◌, ◌++◌, [], ◌∷◌, length, IfOk};
ghost use Rattle.nx_shrun.specs.Texts.{all_but_last, last_of};

use nx_base::OutOfMemory;
use nx_ksys::MovedBytes;
use std::alloc::Global;
use std::marker::Model;

/// The words of a command. The room for so many is taken when they are made, so no other call
/// takes memory.
#[derive(Debug, Drop)]
pub struct Words {
    items: Vec<MovedBytes>,
    used: usize,
}

impl Model for Words {
    ghost use Rattle.std.specs.Prelude.{◌≤◌, take, vec_len};
    ghost use Rattle.nx_shrun.specs.Rooms.{HeldWords};

    ghost Value = { HeldWords };

    ghost view = { λ w. record { words = take w.used w.items.items; room = vec_len w.items } };

    ghost invariant = { λ w. w.used ≤ vec_len w.items };
}

impl Words {
    /// No words, with room for so many.
    pub fn new(alloc: Global, room: usize) -> Result<Words, OutOfMemory>
        ensures { IfOk result (λ w. w ≡ record { words = []; room = room }) }
    {
        let mut items = Vec::new(alloc);
        for _ in 0..room {
            items.push(MovedBytes::new(alloc)?)?;
        }
        Ok(Words { items, used: 0 })
    }

    /// The words.
    pub fn as_slice(&self) -> &[MovedBytes]
        ensures { result.now ≡ self.now.words }
    {
        &self.items.as_slice()[..self.used]
    }

    /// Drops them all, and keeps the room.
    pub fn clear(&mut self)
        ensures { self.new ≡ record self.old { words = [] } }
    {
        self.used = 0;
    }

    /// Adds a word.
    pub fn push(&mut self, word: &[u8])
        requires room { length self.old.words < self.old.room }
        requires short { length word.now ≤ 4096 }
        ensures { self.new ≡ record self.old { words = self.old.words ++ word.now ∷ [] } }
    {
        let item = &mut self.items[self.used];
        item.set(word);
        self.used += 1;
    }
}
