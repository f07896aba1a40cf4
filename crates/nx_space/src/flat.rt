ghost use Rattle.std.specs.Prelude.{◌≡◌, [], length, IfOk};
ghost use Rattle.nx_space.specs.Shared.{FitsRam, IsSharing};
ghost use Rattle.nx_space.specs.Flat.{flat_world, is_flat_good};

use crate::shared::{RAM_START, SharedRam};
use crate::space::Space;
use nx_base::{Access, OutOfMemory, Regs};
use nx_frames::TooFew;
use nx_ram::{ProgImage, Ram};
use std::alloc::Global;

/// One window over the whole RAM, which every group may read, write and run.
#[derive(Drop)]
pub struct FlatSpace {
    shared: SharedRam,
    ghost lawful: { IsSharing shared },
}

impl FlatSpace {
    /// A space over a RAM as it is, where no group has a view yet. `stacks_at` is the address of
    /// the stacks, `stack` the bytes of each, and `threads` the limit of threads.
    pub fn new(
        alloc: Global,
        ram: Ram,
        programs: Vec<ProgImage>,
        stacks_at: u32,
        stack: u32,
        threads: u32,
    ) -> Result<FlatSpace, OutOfMemory>
        requires { FitsRam (length ram) programs.items stacks_at stack threads }
        ensures { IfOk result (λ space. ⟦<FlatSpace as Space>⟧.world space ≡ flat_world (record { ram = ram; size = length ram; programs = programs.items; stacks_at = stacks_at; stack = stack; threads = threads; live = []; entered = 0 })) }
    {
        let shared = SharedRam::new(alloc, ram, programs, stacks_at, stack, threads)?;
        Ok(FlatSpace { shared })
    }
}

impl Space for FlatSpace {
    ghost use Rattle.nx_space.specs.Flat.{flat_world, flat_lawful, flat_bytes};

    ghost world = { λ s. flat_world s.shared };

    fn fetch(&mut self, at: u32) -> Result<u32, u8> {
        match self.shared.place(at, 4) {
            Some(i) => Ok(self.shared.load(i, 4)),
            None => Err(1),
        }
    }

    fn load(&mut self, at: u32, width: u8) -> Result<u32, u8> {
        match self.shared.place(at, width as u32) {
            Some(i) => Ok(self.shared.load(i, width)),
            None => Err(5),
        }
    }

    fn store(&mut self, at: u32, width: u8, value: u32) -> Result<(), u8> {
        match self.shared.place(at, width as u32) {
            Some(i) => {
                self.shared.store(i, width, value);
                Ok(())
            }
            None => Err(7),
        }
    }

    fn good(&mut self, at: u32, len: u32, access: Access) -> bool {
        len == 0 || self.shared.place(at, len).is_some()
    }

    fn peek(&mut self, at: u32) -> u8 {
        self.shared.load(at - RAM_START, 1) as u8
    }

    fn poke(&mut self, at: u32, value: u8) {
        self.shared.store(at - RAM_START, 1, value as u32);
    }

    fn enter(&mut self, group: u32) {
        self.shared.enter(group);
    }

    fn start(&mut self, group: u32, prog: usize, slot: u32, fresh: bool) -> Result<Regs, TooFew> {
        Ok(self.shared.start(group, prog, slot, fresh))
    }

    fn grow_stack_slot(&mut self, group: u32, slot: u32) -> Result<Regs, TooFew> {
        Ok(self.shared.grow(group, slot))
    }

    fn finish(&mut self, group: u32) {
        self.shared.finish(group);
    }

    ghost lawful = { λ s. flat_lawful s.shared s.lawful };

    ghost bytes = { λ s. flat_bytes s.shared s.lawful };
}
