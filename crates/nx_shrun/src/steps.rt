ghost use Rattle.std.specs.Prelude.{◌≡◌, ◌<◌, ◌≤◌, [], ◌∷◌, length, IfOk, MatchOption};

use crate::step::Step;
use nx_base::OutOfMemory;
use std::alloc::Global;
use std::marker::Model;

/// The steps that a command has before it, with room for so many. Contracts see the next one first.
#[derive(Debug, Drop)]
pub struct Steps {
    items: Vec<Step>,
    room: usize,
}

impl Model for Steps {
    ghost use Rattle.std.specs.Prelude.{◌≤◌, reverse, vec_capacity};
    ghost use Rattle.nx_shrun.specs.Rooms.{HeldSteps};

    ghost Value = { HeldSteps };

    ghost view = { λ s. record { steps = reverse s.items.items; room = s.room } };

    ghost invariant = { λ s. s.room ≤ vec_capacity s.items };
}

impl Steps {
    /// No steps, with room for so many.
    pub fn new(alloc: Global, room: usize) -> Result<Steps, OutOfMemory>
        ensures { IfOk result (λ s. s ≡ record { steps = []; room = room }) }
    {
        let items = Vec::with_capacity(alloc, room)?;
        Ok(Steps { items, room })
    }

    /// Drops them all, and keeps the room.
    pub fn clear(&mut self)
        ensures { self.new ≡ record self.old { steps = [] } }
    {
        self.items.clear();
    }

    /// Puts a step before them.
    pub fn push(&mut self, step: Step)
        requires room { length self.old.steps < self.old.room }
        ensures { self.new ≡ record self.old { steps = step ∷ self.old.steps } }
    {
        self.items.push(step).unwrap();
    }

    /// Takes the next step.
    pub fn pop(&mut self) -> Option<Step>
        ensures steps { MatchOption result (self.old.steps ≡ []) (λ step. self.old.steps ≡ step ∷ self.new.steps) }
        ensures room { self.new.room ≡ self.old.room }
    {
        self.items.pop()
    }
}
