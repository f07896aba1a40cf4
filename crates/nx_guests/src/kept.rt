ghost use Rattle.std.specs.Prelude.{◌≡◌, ◌<◌, ℕ, [], Some, None, length, OnOk};
ghost use Rattle.nx_guests.specs.Kept.{found, Puts};

use nx_base::OutOfMemory;
use std::alloc::Global;

/// Values under numbers, at most one under each.
#[derive(Debug, Drop)]
pub struct Kept<A> {
    items: Vec<Option<A>>,
}

impl<A> Kept<A> {
    /// No values. This takes no memory.
    pub fn new(alloc: Global) -> Kept<A>
        ensures { result.items.items ≡ [] }
    {
        Kept {
            items: Vec::new(alloc),
        }
    }
}

impl<A: Drop> Kept<A> {
    /// Takes the value under a number away.
    #[tactic(auto, using(crate::proofs::Places::put_at, crate::proofs::Places::none_past, crate::proofs::Places::found_past))]
    pub fn take(&mut self, number: u32) -> Option<A>
        ensures value { result ≡ found self.old.items.items number }
        ensures gone { Puts self.old.items.items self.new.items.items number None }
    {
        let place = number as usize;
        if place < self.items.len() {
            self.items[place].take()
        } else {
            None
        }
    }

    /// Makes places for the numbers up to this one.
    #[tactic(auto, using(crate::proofs::Places::found_more))]
    fn reach(&mut self, number: u32) -> Result<(), OutOfMemory>
        ensures same { (n : ℕ) → found self.new.items.items n ≡ found self.old.items.items n }
        ensures long { OnOk result (number < length self.new.items.items) }
    {
        while self.items.len() <= number as usize {
            self.items.push(None)?;
        }
        Ok(())
    }

    /// Keeps a value under a number, in place of the one that was there.
    #[tactic(auto, using(crate::proofs::Places::put_at, crate::proofs::Places::after_same))]
    pub fn put(&mut self, number: u32, value: A) -> Result<(), OutOfMemory>
        ensures { OnOk result (Puts self.old.items.items self.new.items.items number (Some value)) }
    {
        self.reach(number)?;
        self.items[number as usize] = Some(value);
        Ok(())
    }
}
