ghost use Rattle.std.specs.Prelude.{◌≡◌, ℕ, IfOk, OnOk};
ghost use Rattle.nx_ksys.specs.Gathered.{reply_of};
ghost use Rattle.nx_shrun.specs.AbstractRuns.{Programs as Meaning};
ghost use Rattle.nx_guests.specs.Turns.{IsTold, both_of};

use crate::turn::Turn;
use nx_base::OutOfMemory;
use nx_ksys::{Cooked, Reply};
use std::alloc::Global;

/// Programs by their places. What is kept of a group or a thread isn't used again after an `Err`.
pub trait Programs {
    /// The globals of a group.
    type Globals: Drop;

    /// A thread.
    type Thread: Drop;

    /// Why a run goes wrong.
    type Fault: Drop;

    /// What globals are in the definition.
    ghost AllGlobals: { Type 0 };

    /// What a thread is there.
    ghost AllThreads: { Type 0 };

    /// What a reason is there.
    ghost AllFaults: { Type 0 };

    /// The globals that these stand for.
    ghost globals_of: { Self.Globals → AllGlobals };

    /// The thread that this one stands for.
    ghost thread_of: { Self.Thread → AllThreads };

    /// The reason that this one stands for.
    ghost fault_of: { Self.Fault → AllFaults };

    /// What the programs do.
    ghost meaning: { Self → Meaning AllGlobals AllThreads AllFaults };

    /// The globals of a new group.
    fn globals(&self, alloc: Global, program: u32) -> Result<Self::Globals, OutOfMemory>
        ensures { IfOk result (λ g. globals_of g ≡ (meaning self.now).first program) };

    /// A thread of the main function.
    fn main(&self, alloc: Global, program: u32) -> Result<Self::Thread, OutOfMemory>
        ensures { IfOk result (λ t. thread_of t ≡ (meaning self.now).main program) };

    /// A thread that a call with these words starts.
    fn thread(
        &self,
        alloc: Global,
        program: u32,
        words: &[u32],
    ) -> Result<Self::Thread, OutOfMemory>
        ensures { IfOk result (λ t. thread_of t ≡ (meaning self.now).thread program words.now) };

    /// One step of a thread. A call that it makes is put into `call`.
    fn step(
        &self,
        alloc: Global,
        program: u32,
        globals: &mut Self::Globals,
        thread: &mut Self::Thread,
        call: &mut Cooked,
    ) -> Result<Turn<Self::Fault>, OutOfMemory>
        ensures { IfOk result (λ turn. IsTold (meaning self.now).which fault_of turn call.new (globals_of globals.new) (thread_of thread.new)
            ((meaning self.now).step program (globals_of globals.old) (thread_of thread.old))) };

    /// What a reply to its call leaves.
    fn reply(
        &self,
        alloc: Global,
        program: u32,
        globals: &mut Self::Globals,
        thread: &mut Self::Thread,
        reply: &Reply,
    ) -> Result<(), OutOfMemory>
        ensures { OnOk result ((meaning self.now).reply program (globals_of globals.old) (thread_of thread.old) (reply_of reply.now) ≡ both_of (globals_of globals.new) (thread_of thread.new)) };

    /// Whether a program has globals.
    fn has_globals(&self, program: u32) -> bool
        ensures { result ≡ (meaning self.now).has_globals program };

    /// Whether it is no program of the language.
    fn is_raw(&self, program: u32) -> bool
        ensures { result ≡ (meaning self.now).is_raw program };

    /// Why a second group of a program with globals is wrong.
    fn shared(&self) -> Self::Fault
        ensures { fault_of result ≡ (meaning self.now).shared };

    /// Why a group of a program that is none of the language is wrong.
    fn raw(&self) -> Self::Fault
        ensures { fault_of result ≡ (meaning self.now).raw };
}
