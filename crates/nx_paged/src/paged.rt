ghost use Rattle.std.specs.Prelude.{◌≡◌, false, ◌+◌, ◌*◌, ◌%◌, ◌^◌, ◌<◌, ◌≤◌, true, [], length, IfOk, IfErr, Ok, Err, MatchResult, OnOk, OnErr, vec_capacity};
ghost use Rattle.nx_base.specs.declared.access.Access.TheVariants as access;
ghost use Rattle.nx_base.specs.Views.{fetch_word, load_bytes, store_bytes};
ghost use Rattle.nx_base.specs.Good.{is_good};
ghost use Rattle.nx_ram.specs.Widths.{IsWidth};
ghost use Rattle.nx_space.specs.World.{IsEntered, has_view, view_in};
ghost use Rattle.nx_space.specs.Lawful.{OnlyEntered};
ghost use Rattle.nx_space.specs.Starts.{program_of, start_need, start_regs, thread_regs, grow_need, free, started, grown, finished, but_outside};
ghost use Rattle.nx_sv32.specs.Walk.{ram_start};
ghost use Rattle.nx_tables.specs.Maps.{satp_of};
ghost use Rattle.nx_paged.specs.Tenants.{root_of};
ghost use Rattle.nx_paged.specs.Paging.{Paging, IsPlaced, IsPaged, FitsPaged, fresh_world};

use crate::build::{add_pages, frame_number};
use crate::group::{PagedGroup, find, root_of};
use crate::program::{map_program, pages_of, program_need, stack_need};
use crate::regs::regs_with;
use crate::walks::are_walked;
use crate::write::zero_bytes;
use nx_base::causes::{FETCH_PAGE_FAULT, LOAD_PAGE_FAULT, STORE_PAGE_FAULT};
use nx_base::{Access, OutOfMemory, PAGE_BYTES, Regs};
use nx_frames::{Frames, TooFew};
use nx_ram::{ProgImage, Ram};
use nx_space::{RAM_START, Space};
use nx_sv32::walk;
use std::alloc::Global;

// Slot 0's stack, and the bytes from one slot's stack to the next.
const STACKS_AT: u32 = 0x40000000;

const STACK_STRIDE: u32 = 0x200000;

/// Page tables in a RAM. The first bytes of the RAM are the kernel's pool; the frames after it hold
/// the tables and the pages of the groups.
#[derive(Drop)]
pub struct PagedSpace {
    ram: Ram,
    pool: u32,
    programs: Vec<ProgImage>,
    stack: u32,
    threads: u32,
    frames: Frames,
    groups: Vec<PagedGroup>,
    entered: u32,
    root: u32,
    ghost placed: { IsPlaced (record { ram = ram; pool = pool; programs = programs.items; stack = stack; threads = threads; stock = frames; tenants = groups.items; entered = entered }) },
    ghost paged: { ∥ IsPaged (record { ram = ram; pool = pool; programs = programs.items; stack = stack; threads = threads; stock = frames; tenants = groups.items; entered = entered }) ∥₁ },
    ghost root_is: { root ≡ root_of groups.items entered },
    ghost root_low: { root < 524288 },
    ghost room: { threads ≤ vec_capacity groups },
}

impl PagedSpace {
    ghost use Rattle.nx_paged.specs.State.{world_of};

    /// A space over a RAM as it is, where no group has started. `pool` counts the bytes of the
    /// kernel's pool, `stack` those of a stack, and `threads` is the limit of threads.
    pub fn new(
        alloc: Global,
        ram: Ram,
        programs: Vec<ProgImage>,
        pool: u32,
        stack: u32,
        threads: u32,
    ) -> Result<PagedSpace, OutOfMemory>
        requires { FitsPaged (length ram) pool programs.items stack threads }
        ensures { IfOk result (λ space. world_of space ≡ fresh_world ram pool programs.items stack threads) }
    {
        let groups = Vec::with_capacity(alloc, threads as usize)?;
        let count = (ram.len() - pool) / PAGE_BYTES;
        let frames = Frames::new(alloc, RAM_START + pool, count)?;
        Ok(PagedSpace {
            ram,
            pool,
            programs,
            stack,
            threads,
            frames,
            groups,
            entered: 0,
            root: 0,
        })
    }

    /// How many page frames no group has.
    pub fn free(&self) -> u32
        ensures { result ≡ free (world_of self.now) }
    {
        self.frames.free()
    }

    // What names the entered group's tables.
    fn satp(&self) -> u32
        ensures { result ≡ satp_of (root_of self.now.groups.items self.now.entered) }
    {
        0x80000000 + (RAM_START / PAGE_BYTES + self.root)
    }
}

impl Space for PagedSpace {
    ghost use Rattle.nx_paged.specs.State.{state_of, world_of};
    ghost use Rattle.nx_paged.specs.Lawful.{paged_lawful, paged_bytes};

    ghost world = { λ s. world_of s };

    fn fetch(&mut self, at: u32) -> Result<u32, u8> {
        match walk(&self.ram, self.satp(), at, Access::Fetch) {
            Ok(to) => Ok(self.ram.load32(to - RAM_START)),
            Err(_) => Err(FETCH_PAGE_FAULT),
        }
    }

    fn load(&mut self, at: u32, width: u8) -> Result<u32, u8> {
        match walk(&self.ram, self.satp(), at, Access::Load) {
            Ok(to) => Ok(self.ram.load(to - RAM_START, width)),
            Err(_) => Err(LOAD_PAGE_FAULT),
        }
    }

    fn store(&mut self, at: u32, width: u8, value: u32) -> Result<(), u8> {
        match walk(&self.ram, self.satp(), at, Access::Store) {
            Ok(to) => {
                self.ram.store(to - RAM_START, width, value);
                Ok(())
            }
            Err(_) => Err(STORE_PAGE_FAULT),
        }
    }

    fn good(&mut self, at: u32, len: u32, access: Access) -> bool {
        len == 0
            || at as u64 + len as u64 <= 0x100000000
                && are_walked(&self.ram, self.satp(), at, len, access)
    }

    fn peek(&mut self, at: u32) -> u8 {
        match walk(&self.ram, self.satp(), at, Access::Load) {
            Ok(to) => self.ram.load8(to - RAM_START),
            Err(_) => unreachable!(),
        }
    }

    fn poke(&mut self, at: u32, value: u8) {
        match walk(&self.ram, self.satp(), at, Access::Store) {
            Ok(to) => self.ram.store(to - RAM_START, 1, value as u32),
            Err(_) => unreachable!(),
        }
    }

    fn start(&mut self, group: u32, prog: usize, slot: u32, fresh: bool) -> Result<Regs, TooFew> {
        let _always = fresh;
        let program = &self.programs[prog];
        let low = STACKS_AT + slot * STACK_STRIDE;
        let need = program_need(program, low, self.stack);
        match self.frames.take(&mut self.ram, need) {
            Ok(taken) => {
                let root = frame_number(&self.frames, &taken, 0);
                map_program(
                    &mut self.ram,
                    &self.frames,
                    &taken,
                    root,
                    program,
                    low,
                    self.stack,
                );
                let regs = regs_with(program.end_group, low, low + self.stack, program.main);
                // There is room for as many groups as there may be threads.
                let _ = self
                    .groups
                    .push(PagedGroup::new(group, prog, slot, root, taken));
                self.root = root_of(&self.groups, self.entered);
                Ok(regs)
            }
            Err(few) => Err(few),
        }
    }

    fn grow_stack_slot(&mut self, group: u32, slot: u32) -> Result<Regs, TooFew> {
        let at = find(&self.groups, group);
        let root = self.groups[at].root();
        let stack_at = STACKS_AT + slot * STACK_STRIDE;
        let program = &self.programs[self.groups[at].program()];
        let regs = regs_with(program.end_thread, stack_at, stack_at + self.stack, 0);
        if self.groups[at].has_slot(slot) {
            let satp = 0x80000000 + (RAM_START / PAGE_BYTES + root);
            zero_bytes(&mut self.ram, satp, stack_at, self.stack);
            return Ok(regs);
        }
        let need = stack_need(&self.ram, root, stack_at, self.stack);
        match self.frames.take(&mut self.ram, need) {
            Ok(more) => {
                let _all = add_pages(
                    &mut self.ram,
                    &self.frames,
                    &more,
                    0,
                    root,
                    stack_at / PAGE_BYTES,
                    pages_of(self.stack),
                    true,
                );
                let _bytes = self.ram.len();
                self.groups[at].add_stack(&mut self.frames, slot, more);
                Ok(regs)
            }
            Err(few) => Err(few),
        }
    }

    fn enter(&mut self, group: u32) {
        self.root = root_of(&self.groups, group);
        self.entered = group;
    }

    fn finish(&mut self, group: u32) {
        let entered = self.entered;
        let at = find(&self.groups, group);
        let taken = self.groups.remove(at).into_taken();
        self.frames.give(taken);
        self.root = root_of(&self.groups, entered);
    }

    ghost lawful = { λ s. paged_lawful (state_of s) s.placed };

    ghost bytes = { λ s. paged_bytes (state_of s) s.placed };
}
