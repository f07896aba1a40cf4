ghost use Rattle.std.specs.Prelude.{◌≡◌, ◌+◌, ◌*◌, ◌^◌, ◌-◌, ◌<◌, ◌%◌, min, [], true, length, Some, Ok, Err, MatchResult, IfOk, OnErr};
ghost use Rattle.nx_base.specs.declared.access.Access.TheVariants as access;
ghost use Rattle.nx_base.specs.declared.access.Mode.TheVariants as mode;
ghost use Rattle.nx_base.specs.Views.{fetch_word, load_bytes, store_bytes};
ghost use Rattle.nx_ram.specs.Widths.{IsWidth};
ghost use Rattle.nx_space.specs.World.{IsEntered, view_in};
ghost use Rattle.nx_space.specs.Lawful.{OnlyEntered};
ghost use Rattle.nx_space.specs.Shared.{IsSharing};
ghost use Rattle.nx_space.specs.Protected.{entries_of, protected_world, is_protected_good, FitsProtected, IsProtected};

use crate::shared::{RAM_START, SharedRam};
use crate::space::Space;
use nx_base::causes::{FETCH_FAULT, LOAD_FAULT, STORE_FAULT};
use nx_base::{Access, Mode, OutOfMemory, Regs};
use nx_frames::TooFew;
use nx_pmp::{Pmp, PmpEntry, PmpUnit};
use nx_ram::{ProgImage, Ram};
use std::alloc::Global;

/// One window over the texts, which may be read and run, and one over the data and the stacks,
/// which may be read and written: what the entries of its unit allow in user mode. Each fetch, load
/// and store asks the unit.
#[derive(Drop)]
pub struct PmpSpace {
    shared: SharedRam,
    unit: PmpUnit,
    ghost lawful: { IsSharing shared },
    ghost protected: { IsProtected unit.pmp shared },
}

// Whether the bytes at an address lie between two bounds of the entries. No bytes lie anywhere.
fn is_good(pmp: &Pmp, at: u32, len: u32, access: Access) -> bool
    ensures { result ≡ is_protected_good pmp.now at len access }
{
    let (low, top) = match access {
        Access::Fetch => (pmp.entries[0].addr, pmp.entries[1].addr),
        Access::Load => (pmp.entries[0].addr, pmp.entries[2].addr),
        Access::Store => (pmp.entries[1].addr, pmp.entries[2].addr),
    };
    len == 0 || 4 * low as usize <= at as usize && at as usize + len as usize <= 4 * top as usize
}

impl PmpSpace {
    /// A space over a RAM as it is, where no group has a view yet. `text_at` is the address of the
    /// texts, `data_at` of the data, and `stacks_at` of the stacks; `stack` is the bytes of each
    /// stack, and `threads` the limit of threads.
    pub fn new(
        alloc: Global,
        ram: Ram,
        programs: Vec<ProgImage>,
        text_at: u32,
        data_at: u32,
        stacks_at: u32,
        stack: u32,
        threads: u32,
    ) -> Result<PmpSpace, OutOfMemory>
        requires { FitsProtected (length ram) programs.items text_at data_at stacks_at stack threads }
        ensures { IfOk result (λ space. ⟦<PmpSpace as Space>⟧.world space ≡ protected_world (entries_of text_at data_at (stacks_at + threads * stack)) (record { ram = ram; size = length ram; programs = programs.items; stacks_at = stacks_at; stack = stack; threads = threads; live = []; entered = 0 })) }
    {
        let end = stacks_at + threads * stack;
        let mut entries = [PmpEntry { cfg: 0, addr: 0 }; 16];
        entries[0] = PmpEntry {
            cfg: 0x00,
            addr: text_at / 4,
        };
        entries[1] = PmpEntry {
            cfg: 0x0D,
            addr: data_at / 4,
        };
        entries[2] = PmpEntry {
            cfg: 0x0B,
            addr: end / 4,
        };
        let unit = PmpUnit::new(Pmp { entries });
        let shared = SharedRam::new(alloc, ram, programs, stacks_at, stack, threads)?;
        Ok(PmpSpace { shared, unit })
    }

    /// The unit.
    pub fn unit(&self) -> &PmpUnit
        ensures { result.now ≡ self.now.unit }
    {
        &self.unit
    }
}

impl Space for PmpSpace {
    ghost use Rattle.nx_space.specs.Protected.{protected_world, protected_lawful, protected_bytes};

    ghost world = { λ s. protected_world s.unit.pmp s.shared };

    fn fetch(&mut self, at: u32) -> Result<u32, u8>
        requires entered { IsEntered (protected_world self.old.unit.pmp self.old.shared) }
        requires aligned { at % 4 ≡ 0 }
        ensures answer { result ≡ fetch_word (view_in (protected_world self.old.unit.pmp self.old.shared)) at }
        ensures same { protected_world self.new.unit.pmp self.new.shared ≡ protected_world self.old.unit.pmp self.old.shared }
        ensures asked { self.new.unit.asked ≡ min (self.old.unit.asked + 1) (2 ^ 64 - 1) }
        ensures last { self.new.unit.last ≡ Some (record { at = at; len = 4; access = access.Fetch; mode = mode.User }) }
    {
        if self.unit.ask(at, 4, Access::Fetch, Mode::User) {
            Ok(self.shared.load(at - RAM_START, 4))
        } else {
            Err(FETCH_FAULT)
        }
    }

    fn load(&mut self, at: u32, width: u8) -> Result<u32, u8>
        requires entered { IsEntered (protected_world self.old.unit.pmp self.old.shared) }
        requires width { IsWidth width }
        requires aligned { at % width ≡ 0 }
        ensures answer { result ≡ load_bytes (view_in (protected_world self.old.unit.pmp self.old.shared)) at width }
        ensures small { IfOk result (λ n. n < 2 ^ (8 * width)) }
        ensures same { protected_world self.new.unit.pmp self.new.shared ≡ protected_world self.old.unit.pmp self.old.shared }
        ensures asked { self.new.unit.asked ≡ min (self.old.unit.asked + 1) (2 ^ 64 - 1) }
        ensures last { self.new.unit.last ≡ Some (record { at = at; len = width; access = access.Load; mode = mode.User }) }
    {
        if self.unit.ask(at, width as u32, Access::Load, Mode::User) {
            Ok(self.shared.load(at - RAM_START, width))
        } else {
            Err(LOAD_FAULT)
        }
    }

    fn store(&mut self, at: u32, width: u8, value: u32) -> Result<(), u8>
        requires entered { IsEntered (protected_world self.old.unit.pmp self.old.shared) }
        requires width { IsWidth width }
        requires aligned { at % width ≡ 0 }
        ensures answer { MatchResult result
            (λ _. store_bytes (view_in (protected_world self.old.unit.pmp self.old.shared)) at width value ≡ Ok (view_in (protected_world self.new.unit.pmp self.new.shared)))
            (λ cause. store_bytes (view_in (protected_world self.old.unit.pmp self.old.shared)) at width value ≡ Err cause) }
        ensures only { OnlyEntered (protected_world self.old.unit.pmp self.old.shared) (protected_world self.new.unit.pmp self.new.shared) }
        ensures refused { OnErr result (protected_world self.new.unit.pmp self.new.shared ≡ protected_world self.old.unit.pmp self.old.shared) }
        ensures asked { self.new.unit.asked ≡ min (self.old.unit.asked + 1) (2 ^ 64 - 1) }
        ensures last { self.new.unit.last ≡ Some (record { at = at; len = width; access = access.Store; mode = mode.User }) }
    {
        if self.unit.ask(at, width as u32, Access::Store, Mode::User) {
            self.shared.store(at - RAM_START, width, value);
            Ok(())
        } else {
            Err(STORE_FAULT)
        }
    }

    fn good(&mut self, at: u32, len: u32, access: Access) -> bool {
        is_good(self.unit.pmp(), at, len, access)
    }

    fn peek(&mut self, at: u32) -> u8 {
        self.shared.load(at - RAM_START, 1) as u8
    }

    fn poke(&mut self, at: u32, value: u8) {
        self.shared.store(at - RAM_START, 1, value as u32);
    }

    fn enter(&mut self, group: u32) {
        self.shared.enter(group);
    }

    fn start(&mut self, group: u32, prog: usize, slot: u32, fresh: bool) -> Result<Regs, TooFew> {
        Ok(self.shared.start(group, prog, slot, fresh))
    }

    fn grow_stack_slot(&mut self, group: u32, slot: u32) -> Result<Regs, TooFew> {
        Ok(self.shared.grow(group, slot))
    }

    fn finish(&mut self, group: u32) {
        self.shared.finish(group);
    }

    ghost lawful = { λ s. protected_lawful s.unit.pmp s.shared s.lawful s.protected };

    ghost bytes = { λ s. protected_bytes s.unit.pmp s.shared s.lawful };
}
