ghost use Rattle.std.specs.Prelude.{◌≡◌, ◌<◌, [], ◌∷◌, ◌++◌, length};
ghost use Rattle.nx_frames.specs.declared.frames.Taken.{Taken};
ghost use Rattle.nx_frames.specs.Chains.{AreApart};
ghost use Rattle.nx_frames.specs.Stock.{Holds, SameFrames, KeepsOthers, frames_of};
ghost use Rattle.nx_space.specs.Starts.{has_slot};
ghost use Rattle.nx_paged.specs.Tenants.{Tenant, root_of, place_of};

use arrayvec::ArrayVec;
use nx_frames::{Frames, Taken};
use std::marker::Model;

/// A group that has a view: its program's place, the slot of its main thread, the frame of its root,
/// the slots whose stacks it has, and its frames.
#[derive(Drop)]
pub struct PagedGroup {
    number: u32,
    program: usize,
    slot: u32,
    root: u32,
    slots: ArrayVec<u32, 64>,
    taken: Taken,
}

impl Model for PagedGroup {
    ghost use Rattle.nx_paged.specs.Tenants.{Tenant};

    ghost Value = { Tenant };

    ghost view = { λ g. record { number = g.number; program = g.program; slot = g.slot; root = g.root; slots = g.slots.items; taken = g.taken } };
}

impl PagedGroup {
    /// A group with the stack of its main thread's slot.
    pub fn new(number: u32, program: usize, slot: u32, root: u32, taken: Taken) -> PagedGroup
        ensures { result ≡ record { number = number; program = program; slot = slot; root = root; slots = slot ∷ []; taken = taken } }
    {
        let mut slots = ArrayVec::new();
        slots.push(slot);
        PagedGroup {
            number,
            program,
            slot,
            root,
            slots,
            taken,
        }
    }

    /// The group's number.
    pub fn number(&self) -> u32
        ensures { result ≡ self.now.number }
    {
        self.number
    }

    /// The place of the group's program.
    pub fn program(&self) -> usize
        ensures { result ≡ self.now.program }
    {
        self.program
    }

    /// Whether the group has the stack of a slot.
    pub fn has_slot(&self, slot: u32) -> bool
        ensures { result ≡ has_slot self.now.slots slot }
    {
        self.slots.contains(&slot)
    }

    /// Gives the group the stack of a slot, and the frames that were taken for it.
    pub fn add_stack(&mut self, frames: &mut Frames, slot: u32, more: Taken)
        requires own { Holds frames.old self.old.taken }
        requires more { Holds frames.old more }
        requires apart { AreApart (frames_of frames.old self.old.taken) (frames_of frames.old more) }
        requires room { length self.old.slots < 64 }
        ensures group { self.new ≡ record self.old { slots = self.old.slots ++ slot ∷ []; taken = self.new.taken } }
        ensures joined { frames_of frames.new self.new.taken ≡ frames_of frames.old self.old.taken ++ frames_of frames.old more }
        ensures holds { Holds frames.new self.new.taken }
        ensures free { frames.new.free ≡ frames.old.free }
        ensures same { SameFrames frames.old frames.new }
        ensures others { KeepsOthers frames.old frames.new (frames_of frames.old self.old.taken ++ frames_of frames.old more) }
    {
        frames.join(&mut self.taken, more);
        self.slots.push(slot);
    }

    /// The frame of the group's root, counted from the RAM's start.
    pub fn root(&self) -> u32
        ensures { result ≡ self.now.root }
    {
        self.root
    }

    /// The frames of a group that ends.
    pub fn into_taken(self) -> Taken
        ensures { result ≡ self.taken }
    {
        let PagedGroup {
            number: _,
            program: _,
            slot: _,
            root: _,
            slots: _,
            taken,
        } = self;
        taken
    }
}

/// The frame of the root of the first group of a number, or 0.
pub fn root_of(groups: &[PagedGroup], number: u32) -> u32
    ensures { result ≡ root_of groups.now number }
{
    for i in 0..groups.len() {
        if groups[i].number() == number {
            return groups[i].root();
        }
    }
    0
}

/// Where the first group of a number stands, or how many groups there are.
pub fn find(groups: &[PagedGroup], number: u32) -> usize
    ensures { result ≡ place_of groups.now number }
{
    for i in 0..groups.len() {
        if groups[i].number() == number {
            return i;
        }
    }
    groups.len()
}
