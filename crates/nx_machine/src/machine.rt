ghost use Rattle.std.specs.Prelude.{◌≡◌, ◌-◌, ◌<◌, ◌≤◌, replicate};
ghost use Rattle.nx_rv.specs.Execution.{stretch, End};
ghost use Rattle.nx_space.specs.World.{view_in, IsEntered};
ghost use Rattle.nx_space.specs.Lawful.{OnlyEntered};
ghost use Rattle.nx_machine.specs.Outcome.{halt_of};

use crate::exec::{Step, make_step};
use nx_base::{Count, Regs};
use nx_space::Space;
use std::marker::Model;

/// Why a stretch of instructions ends.
#[derive(Clone, Copy, Debug, PartialEq, Eq)]
pub enum Stop {
    /// An `ecall` was executed; pc stands after it.
    Call,
    /// An instruction trapped; pc stands at it.
    Trap {
        /// The exception code. RISC-V Privileged Architecture 1.12, section 3.1.15.
        cause: u8,
    },
    /// The count's limit is reached; the instruction at pc isn't made.
    Fuel,
}

/// A hart. Contracts see its registers.
#[derive(Drop)]
pub struct Machine {
    regs: Regs,
}

impl Model for Machine {
    ghost use Rattle.nx_base.specs.declared.regs.Regs.{Regs};

    ghost Value = { Regs };

    ghost view = { λ m. m.regs };
}

impl Machine {
    /// A machine whose registers are all 0.
    pub fn new() -> Machine
        ensures { result ≡ record { x = replicate 32 0; pc = 0 } }
    {
        Machine {
            regs: Regs { x: [0; 32], pc: 0 },
        }
    }

    /// The registers.
    pub fn regs(&self) -> &Regs
        ensures { result.now ≡ self.now }
    {
        &self.regs
    }

    /// Sets the registers.
    pub fn set(&mut self, regs: Regs)
        ensures { self.new ≡ regs }
    {
        self.regs = regs;
    }

    /// Makes instructions until a call, a trap or the count's limit. Each takes a tick, also one
    /// that traps.
    pub fn run<S: Space>(&mut self, space: &mut S, count: &mut Count) -> Stop
        requires { IsEntered (S.world space.old) }
        ensures limit { count.new.limit ≡ count.old.limit }
        ensures within { count.old.used ≤ count.old.limit → count.new.used ≤ count.new.limit }
        ensures made { result ≡ Stop.Call → count.old.used < count.new.used }
        ensures stretch { record { regs = self.new; view = view_in (S.world space.new); left = count.new.limit - count.new.used; halt = halt_of result }
            ≡ stretch (count.old.limit - count.old.used) self.old (view_in (S.world space.old)) }
        ensures only { OnlyEntered (S.world space.old) (S.world space.new) }
    {
        stretch(&mut self.regs, space, count)
    }
}

// Makes instructions until one doesn't go on, or the limit.
fn stretch<S: Space>(regs: &mut Regs, space: &mut S, count: &mut Count) -> Stop
    requires { IsEntered (S.world space.old) }
    ensures limit { count.new.limit ≡ count.old.limit }
    ensures within { count.old.used ≤ count.old.limit → count.new.used ≤ count.new.limit }
    ensures made { result ≡ Stop.Call → count.old.used < count.new.used }
    ensures stretch { record { regs = regs.new; view = view_in (S.world space.new); left = count.new.limit - count.new.used; halt = halt_of result }
        ≡ stretch (count.old.limit - count.old.used) regs.old (view_in (S.world space.old)) }
    ensures only { OnlyEntered (S.world space.old) (S.world space.new) }
{
    while count.tick() {
        match make_step(regs, space) {
            Step::Goes => {}
            Step::Calls => return Stop::Call,
            Step::Traps(cause) => return Stop::Trap { cause },
        }
    }
    Stop::Fuel
}
