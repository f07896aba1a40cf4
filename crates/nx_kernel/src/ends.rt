ghost use Rattle.std.specs.Prelude.{◌≡◌, ◌<◌, ◌≤◌, ◌++◌, [], ◌∷◌, IfOk, length, map};
ghost use Rattle.nx_kernel.specs.Parts.{ending_of};

use nx_base::OutOfMemory;
use std::alloc::Global;
use std::marker::Model;

/// A group that ended.
#[derive(Clone, Copy, Debug)]
pub struct Ended {
    /// The group's number.
    pub pid: u32,
    /// The place of its program: the number of programs for the shell, whose name is `nsh`.
    pub name: usize,
    /// Its code.
    pub code: u8,
}

/// Groups that ended, in their order. Their room is taken when it is made.
#[derive(Debug, Drop)]
pub struct Ends {
    items: Vec<Ended>,
    room: usize,
}

impl Model for Ends {
    ghost use Rattle.std.specs.Prelude.{◌≤◌, map, vec_capacity};
    ghost use Rattle.nx_kernel.specs.Parts.{KeptEnds, ending_of};

    ghost Value = { KeptEnds };

    ghost view = { λ e. record { ends = map ending_of e.items.items; room = e.room } };

    ghost invariant = { λ e. e.room ≤ vec_capacity e.items };
}

impl Ends {
    /// None, and room for so many.
    pub fn new(alloc: Global, room: usize) -> Result<Ends, OutOfMemory>
        ensures { IfOk result (λ e. e ≡ record { ends = []; room = room }) }
    {
        let items = Vec::with_capacity(alloc, room)?;
        Ok(Ends { items, room })
    }

    /// The groups that ended.
    pub fn as_slice(&self) -> &[Ended]
        ensures { map ending_of result.now ≡ self.now.ends }
    {
        self.items.as_slice()
    }

    /// One more group ended.
    pub fn add(&mut self, ended: Ended)
        requires { length self.old.ends < self.old.room }
        ensures { self.new ≡ record self.old { ends = self.old.ends ++ ending_of ended ∷ [] } }
    {
        self.items.push(ended).unwrap();
    }
}
