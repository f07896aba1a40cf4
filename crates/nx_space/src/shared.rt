ghost use Rattle.std.specs.Prelude.{◌≡◌, ◌+◌, ◌-◌, ◌*◌, ◌<◌, ◌≤◌, ◌^◌, true, false, [], length, map, if◌then◌else◌, IfOk};
ghost use Rattle.nx_base.specs.ByteLists.{get_bytes, put_bytes, from_le, to_le, AreBytes};
ghost use Rattle.nx_ram.specs.Widths.{IsWidth};
ghost use Rattle.nx_space.specs.declared.shared.Live.{Live};
ghost use Rattle.nx_space.specs.Starts.{regs_with, start_regs, thread_regs, program_of};
ghost use Rattle.nx_space.specs.Shared.{ram_start, ram_place, has_live, place_of, shared_group, shared_plan, FitsRam, IsSharing, LieInRam, with_stack_zeroed, sharing_started, sharing_finished};

use nx_base::{OutOfMemory, Regs};
use nx_ram::{ProgImage, Ram};
use std::alloc::Global;
use std::marker::Model;

/// The address of the RAM's first byte.
pub const RAM_START: u32 = 0x80000000;

/// A group that has a view, the place of its program, and the slot of its main thread.
#[derive(Clone, Copy, Debug, Drop)]
pub struct Live {
    /// The group's number.
    pub number: u32,
    /// The place of its program, from 0.
    pub program: usize,
    /// The slot of its main thread, from 0.
    pub slot: u32,
}

/// What the groups of a space without pages share: a RAM, programs, and stacks for so many threads;
/// with the groups that have a view, and the one that was entered last.
#[derive(Drop)]
pub struct SharedRam {
    ram: Ram,
    size: u32,
    programs: Vec<ProgImage>,
    stacks_at: u32,
    stack: u32,
    threads: u32,
    live: Vec<Live>,
    entered: u32,
}

impl Model for SharedRam {
    ghost use Rattle.std.specs.Prelude.{◌≤◌, vec_capacity};
    ghost use Rattle.nx_space.specs.Shared.{Sharing, IsSharing};

    ghost Value = { Sharing };

    ghost view = { λ s. record { ram = s.ram; size = s.size; programs = s.programs.items; stacks_at = s.stacks_at; stack = s.stack; threads = s.threads; live = s.live.items; entered = s.entered } };

    ghost invariant = { λ s. IsSharing (record { ram = s.ram; size = s.size; programs = s.programs.items; stacks_at = s.stacks_at; stack = s.stack; threads = s.threads; live = s.live.items; entered = s.entered }) × (s.threads ≤ vec_capacity s.live) };
}

// Where the first group of a number stands, or how many there are.
fn find(live: &[Live], number: u32) -> usize
    ensures { result ≡ place_of live.now number }
{
    for i in 0..live.len() {
        if live[i].number == number {
            return i;
        }
    }
    live.len()
}

// The registers at the start of a thread.
fn regs_with(stub: u32, low: u32, high: u32, entry: u32) -> Regs
    ensures { result ≡ regs_with stub low high entry }
{
    let mut x = [0; 32];
    x[1] = stub;
    x[2] = high;
    x[4] = low;
    Regs { x, pc: entry }
}

// Sets a program's data to their first contents where `fresh`.
fn set_data(ram: &mut Ram, program: &ProgImage, fresh: bool)
    requires { LieInRam (length ram.old) program.now.data_at (length program.now.init) }
    ensures bytes { ram.new ≡ (if fresh then put_bytes ram.old (program.now.data_at - ram_start) program.now.init else ram.old) }
    ensures long { length ram.new ≡ length ram.old }
    ensures small { AreBytes ram.old → AreBytes ram.new }
{
    if fresh {
        ram.put(program.data_at - RAM_START, program.init.as_slice());
    }
}

impl SharedRam {
    /// A RAM as it is, where no group has a view yet. `stacks_at` is the address of the stacks,
    /// `stack` the bytes of each, and `threads` the limit of threads.
    pub fn new(
        alloc: Global,
        ram: Ram,
        programs: Vec<ProgImage>,
        stacks_at: u32,
        stack: u32,
        threads: u32,
    ) -> Result<SharedRam, OutOfMemory>
        requires { FitsRam (length ram) programs.items stacks_at stack threads }
        ensures new { IfOk result (λ s. s ≡ record { ram = ram; size = length ram; programs = programs.items; stacks_at = stacks_at; stack = stack; threads = threads; live = []; entered = 0 }) }
        ensures kept { IfOk result IsSharing }
    {
        let live = Vec::with_capacity(alloc, threads as usize)?;
        let size = ram.len();
        Ok(SharedRam {
            ram,
            size,
            programs,
            stacks_at,
            stack,
            threads,
            live,
            entered: 0,
        })
    }

    /// The place in the RAM of the bytes at an address.
    pub fn place(&self, at: u32, count: u32) -> Option<u32>
        ensures { result ≡ ram_place self.now.size at count }
    {
        let start = RAM_START as usize;
        if start <= at as usize && at as usize + count as usize <= start + self.size as usize {
            Some(at - RAM_START)
        } else {
            None
        }
    }

    /// The number of the `width` bytes at a place of the RAM.
    pub fn load(&self, at: u32, width: u8) -> u32
        requires width { IsWidth width }
        requires inside { at + width ≤ self.now.size }
        ensures value { result ≡ from_le (get_bytes self.now.ram at width) }
        ensures small { result < 2 ^ (8 * width) }
    {
        self.ram.load(at, width)
    }

    /// Writes the low `width` bytes of a number at a place of the RAM.
    pub fn store(&mut self, at: u32, width: u8, value: u32)
        requires width { IsWidth width }
        requires inside { at + width ≤ self.old.size }
        ensures new { self.new ≡ record self.old { ram = put_bytes self.old.ram at (to_le width value) } }
        ensures kept { IsSharing self.new }
    {
        self.ram.store(at, width, value);
    }

    /// Enters a group's view.
    pub fn enter(&mut self, group: u32)
        ensures new { self.new ≡ record self.old { entered = group } }
        ensures kept { IsSharing self.new }
    {
        self.entered = group;
    }

    // The lowest address of a slot's stack.
    fn stack_low(&self, slot: u32) -> u32
        requires { slot < self.now.threads }
        ensures value { result ≡ self.now.stacks_at + slot * self.now.stack }
        ensures inside { LieInRam self.now.size result self.now.stack }
    {
        self.stacks_at + slot * self.stack
    }

    /// A new group, with the stack of `slot` set to zeros, and the data to their first contents
    /// where `fresh`. This answers the registers of its main thread.
    pub fn start(&mut self, group: u32, prog: usize, slot: u32, fresh: bool) -> Regs
        requires new { has_live self.old.live group ≡ false }
        requires room { length self.old.live < self.old.threads }
        requires prog { prog < length self.old.programs }
        requires slot { slot < self.old.threads }
        ensures regs { result ≡ start_regs (shared_plan [] 0 self.old) prog slot }
        ensures new { self.new ≡ sharing_started self.old group prog slot fresh }
        ensures kept { IsSharing self.new }
    {
        let low = self.stack_low(slot);
        let program = &self.programs[prog];
        set_data(&mut self.ram, program, fresh);
        self.ram.zero(low - RAM_START, self.stack);
        let regs = regs_with(program.end_group, low, low + self.stack, program.main);
        // There is room for as many groups as there may be threads.
        let _ = self.live.push(Live {
            number: group,
            program: prog,
            slot,
        });
        regs
    }

    /// Sets the stack of `slot` to zeros for a new thread of a group, and answers its registers.
    pub fn grow(&mut self, group: u32, slot: u32) -> Regs
        requires group { has_live self.old.live group ≡ true }
        requires slot { slot < self.old.threads }
        ensures regs { result ≡ thread_regs (shared_plan [] 0 self.old) (program_of (map (shared_group []) self.old.live) group) slot }
        ensures new { self.new ≡ record self.old { ram = with_stack_zeroed self.old self.old.ram slot } }
        ensures kept { IsSharing self.new }
    {
        let low = self.stack_low(slot);
        let at = find(&self.live, group);
        let stub = self.programs[self.live[at].program].end_thread;
        let from = low - RAM_START;
        self.ram.zero(from, self.stack);
        regs_with(stub, low, low + self.stack, 0)
    }

    /// The group has no view any more.
    pub fn finish(&mut self, group: u32)
        requires { has_live self.old.live group ≡ true }
        ensures new { self.new ≡ sharing_finished self.old group }
        ensures kept { IsSharing self.new }
    {
        let at = find(&self.live, group);
        self.live.remove(at);
    }
}
