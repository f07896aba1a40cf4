// nx_system will take its place.

ghost use Rattle.std.specs.Prelude.{◌≡◌, ◌+◌, ◌-◌, ◌<◌, ◌≤◌, ◌%◌, ◌^◌, ◌++◌, ℕ, List, length, OnOk, IfOk, Ok};
ghost use Rattle.nx_base.specs.Registers.{reg, with_reg};
ghost use Rattle.nx_space.specs.World.{view_in, IsEntered};
ghost use Rattle.nx_top.specs.first.ExpectedRuns.{ExpectedRun, LiesAt, Remains, IsDone, AfterTurn, IsWithin, IsExpectedFrom, RanAs};

use crate::first::view_bytes::put_view_bytes;
use nx_base::{Bytes, Count, Regs};
use nx_machine::{Machine, Stop};
use nx_space::Space;
use std::alloc::{AllocError, Global};

const END_GROUP: u32 = 1;

const WRITE: u32 = 16;

const CONSOLE: u32 = 1;

const FUEL: u64 = 100_000_000;

/// How a program's call was answered.
#[derive(Clone, Copy, Debug, PartialEq, Eq)]
pub enum CallOutcome {
    /// A write to the console.
    Wrote,
    /// The end of the group, with its status.
    Ended(u8),
    /// What no program that is built so far comes to: another call, a trap, or no fuel.
    Stray,
}

/// What a program's run came to, once it ended its group.
#[derive(Debug, Drop)]
pub struct GuestRun {
    /// The bytes that it wrote to the console.
    pub console: Bytes,
    /// How many times it called `write`.
    pub writes: u64,
    /// How many instructions it made, those that call included.
    pub instructions: u64,
    /// The value with which it ended, modulo 256.
    pub status: u8,
}

/// A program that runs, and what it wrote to the console so far.
#[derive(Drop)]
pub struct Guest {
    machine: Machine,
    count: Count,
    console: Bytes,
    writes: u64,
}

impl Guest {
    // Writes bytes of the view to the console, and replies their number.
    fn write<S: Space>(
        &mut self,
        space: &mut S,
        at: u32,
        count: u32,
    ) -> Result<CallOutcome, AllocError>
        requires entered { IsEntered (S.world space.old) }
        requires room { self.old.writes < 2 ^ 63 }
        ensures kept { (self.new.count ≡ self.old.count) × (self.new.writes ≤ self.old.writes + 1) }
        ensures same { S.world space.new ≡ S.world space.old }
        ensures written { (string : List ℕ) → length string ≡ count → at + count ≤ 2 ^ 32 → LiesAt (view_in (S.world space.old)) string at
            → OnOk result ((result ≡ Ok CallOutcome.Wrote) × (self.new ≡ record self.old {
              machine = with_reg self.old.machine 10 count;
              console = self.old.console ++ string;
              writes = self.old.writes + 1;
            })) }
    {
        if !put_view_bytes(&mut self.console, space, at, count)? {
            return Ok(CallOutcome::Stray);
        }
        let mut regs = *self.machine.regs();
        regs.set(10, count);
        self.machine.set(regs);
        self.writes += 1;
        Ok(CallOutcome::Wrote)
    }

    // Answers the call that the registers hold.
    fn answer<S: Space>(&mut self, space: &mut S) -> Result<CallOutcome, AllocError>
        requires entered { IsEntered (S.world space.old) }
        requires room { self.old.writes < 2 ^ 63 }
        ensures kept { (self.new.count ≡ self.old.count) × (self.new.writes ≤ self.old.writes + 1) }
        ensures same { S.world space.new ≡ S.world space.old }
        ensures ends { reg self.old.machine 10 ≡ 1 → (result ≡ Ok (CallOutcome.Ended (reg self.old.machine 11 % 256))) × (self.new ≡ self.old) }
        ensures writes { (string : List ℕ) (at : ℕ) → reg self.old.machine 10 ≡ 16 → reg self.old.machine 11 ≡ 1 → reg self.old.machine 12 ≡ at → reg self.old.machine 13 ≡ length string
            → at + length string ≤ 2 ^ 32 → LiesAt (view_in (S.world space.old)) string at → OnOk result ((result ≡ Ok CallOutcome.Wrote) × (self.new ≡ record self.old {
              machine = with_reg self.old.machine 10 (length string);
              console = self.old.console ++ string;
              writes = self.old.writes + 1;
            })) }
    {
        let regs = self.machine.regs();
        let value = regs.get(11);
        let at = regs.get(12);
        let count = regs.get(13);
        match regs.get(10) {
            END_GROUP => Ok(CallOutcome::Ended((value % 256) as u8)),
            WRITE if value == CONSOLE => self.write(space, at, count),
            _ => Ok(CallOutcome::Stray),
        }
    }

    fn done(self, status: u8) -> GuestRun
        ensures { result ≡ record { console = self.console; writes = self.writes; instructions = self.count.used; status = status } }
    {
        let Guest {
            machine: _,
            count,
            console,
            writes,
        } = self;
        GuestRun {
            console,
            writes,
            instructions: count.used(),
            status,
        }
    }

    // Runs up to the next call, and answers it.
    fn turn<S: Space>(&mut self, space: &mut S) -> Result<CallOutcome, AllocError>
        requires entered { IsEntered (S.world space.old) }
        requires room { (self.old.writes ≤ self.old.count.used) × (self.old.count.used ≤ self.old.count.limit) × (self.old.count.limit < 2 ^ 63) }
        ensures limit { self.new.count.limit ≡ self.old.count.limit }
        ensures entered { IsEntered (S.world space.new) }
        ensures made { result ≡ Ok CallOutcome.Wrote → (self.old.count.used < self.new.count.used) × (self.new.writes ≤ self.new.count.used) × (self.new.count.used ≤ self.new.count.limit) }
        ensures planned { IfOk result (λ a. (expected_run : ExpectedRun) → IsWithin expected_run self.old.count.limit → Remains expected_run self.old.machine (view_in (S.world space.old)) self.old.console self.old.writes self.old.count.used
            → AfterTurn expected_run a self.new.machine (view_in (S.world space.new)) self.new.console self.new.writes self.new.count.used) }
    {
        match self.machine.run(space, &mut self.count) {
            Stop::Call => self.answer(space),
            Stop::Trap { .. } | Stop::Fuel => Ok(CallOutcome::Stray),
        }
    }
}

/// Runs the words of the entered view from these registers on, and answers their calls, until they
/// end their group. It comes to nothing where they do what no program that is built so far does.
pub fn run_guest<S: Space>(
    alloc: Global,
    regs: Regs,
    space: &mut S,
) -> Result<Option<GuestRun>, AllocError>
    requires { IsEntered (S.world space.old) }
    ensures { IfOk result (λ run. (expected_run : ExpectedRun) → IsExpectedFrom expected_run regs (view_in (S.world space.old)) → RanAs expected_run run) }
{
    let mut machine = Machine::new();
    machine.set(regs);
    let mut guest = Guest {
        machine,
        count: Count::new(FUEL),
        console: Bytes::new(alloc),
        writes: 0,
    };
    loop {
        match guest.turn(space)? {
            CallOutcome::Wrote => {}
            CallOutcome::Ended(status) => return Ok(Some(guest.done(status))),
            CallOutcome::Stray => return Ok(None),
        }
    }
}
