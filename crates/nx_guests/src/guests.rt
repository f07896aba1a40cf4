ghost use Rattle.std.specs.Prelude.{◌≡◌, ℕ, Bool, true, false, List, IfOk, OnOk};
ghost use Rattle.nx_ksys.specs.Gathered.{reply_of};
ghost use Rattle.nx_ksys.specs.ThreadTable.{ThreadRow};
ghost use Rattle.nx_shtree.specs.Trees.{Item};
ghost use Rattle.nx_shrun.specs.AbstractRuns.{Threads, begun, guests, no_threads};
ghost use Rattle.nx_guests.specs.Turns.{IsCall};
ghost use Rattle.nx_guests.specs.Guests.{AreKept, LivesBut, Steps, start_of};

use crate::kept::Kept;
use crate::programs::Programs;
use crate::start::Start;
use crate::turn::Turn;
use nx_base::OutOfMemory;
use nx_ksys::{Cooked, Reply};
use std::alloc::Global;

/// The threads of programs, and the globals of their groups, under their numbers.
#[derive(Drop)]
pub struct Guests<P: Programs> {
    programs: P,
    threads: Kept<P::Thread>,
    globals: Kept<P::Globals>,
}

impl<P: Programs + Drop> Guests<P> {
    /// No threads.
    #[tactic(auto, using(crate::proofs::Keeping::none_kept))]
    pub fn new(alloc: Global, programs: P) -> Guests<P>
        ensures programs { result.programs ≡ programs }
        ensures kept { (live : ℕ → Bool) → AreKept P.thread_of P.globals_of live result.threads.items.items result.globals.items.items no_threads }
    {
        Guests {
            programs,
            threads: Kept::new(alloc),
            globals: Kept::new(alloc),
        }
    }

    /// The programs.
    pub fn programs(&self) -> &P
        ensures { result.now ≡ self.now.programs }
    {
        &self.programs
    }

    /// A group begins with its main thread.
    fn begin_group(&mut self, alloc: Global, start: Start) -> Result<(), OutOfMemory>
        ensures programs { self.new.programs ≡ self.old.programs }
        ensures kept { OnOk result ((script : List Item) (live later : ℕ → Bool) (m : Threads P.AllGlobals P.AllThreads) (words : List ℕ) → start.is_thread ≡ false → LivesBut start.thread live later
            → AreKept P.thread_of P.globals_of live self.old.threads.items.items self.old.globals.items.items m
            → AreKept P.thread_of P.globals_of later self.new.threads.items.items self.new.globals.items.items (begun (P.meaning self.old.programs) script m (start_of start) words)) }
    {
        let globals = self.programs.globals(alloc, start.program)?;
        let thread = self.programs.main(alloc, start.program)?;
        self.globals.put(start.group, globals)?;
        self.threads.put(start.thread, thread)?;
        Ok(())
    }

    /// What a call of the kernel began begins. After an `Err` nothing is said of what is kept.
    pub fn begin(&mut self, alloc: Global, start: Start, words: &[u32]) -> Result<(), OutOfMemory>
        ensures programs { self.new.programs ≡ self.old.programs }
        ensures kept { OnOk result ((script : List Item) (live later : ℕ → Bool) (m : Threads P.AllGlobals P.AllThreads) → LivesBut start.thread live later
            → AreKept P.thread_of P.globals_of live self.old.threads.items.items self.old.globals.items.items m
            → AreKept P.thread_of P.globals_of later self.new.threads.items.items self.new.globals.items.items (begun (P.meaning self.old.programs) script m (start_of start) words.now)) }
    {
        if start.is_thread {
            let thread = self.programs.thread(alloc, start.program, words)?;
            self.threads.put(start.thread, thread)?;
            return Ok(());
        }
        self.begin_group(alloc, start)?;
        Ok(())
    }

    /// A thread of a group gets the reply to its call.
    #[tactic(auto, using(crate::proofs::Keeping::unanswered_kept, crate::proofs::Keeping::put_same, crate::proofs::Keeping::twice))]
    pub fn answer(
        &mut self,
        alloc: Global,
        group: u32,
        program: u32,
        reply: &Reply,
    ) -> Result<(), OutOfMemory>
        ensures programs { self.new.programs ≡ self.old.programs }
        ensures kept { OnOk result ((script : List Item) (live : ℕ → Bool) (m : Threads P.AllGlobals P.AllThreads) (row : ThreadRow) → row.group ≡ group → row.program ≡ program → live reply.now.tid ≡ true
            → AreKept P.thread_of P.globals_of live self.old.threads.items.items self.old.globals.items.items m
            → AreKept P.thread_of P.globals_of live self.new.threads.items.items self.new.globals.items.items ((guests (P.meaning self.old.programs) script).answer m row (reply_of reply.now))) }
    {
        match self.globals.take(group) {
            None => Ok(()),
            Some(mut globals) => match self.threads.take(reply.tid) {
                None => self.globals.put(group, globals),
                Some(mut thread) => {
                    self.programs
                        .reply(alloc, program, &mut globals, &mut thread, reply)?;
                    self.threads.put(reply.tid, thread)?;
                    self.globals.put(group, globals)?;
                    Ok(())
                }
            },
        }
    }

    /// A thread of a group makes its next step. A call that it makes is put into `call`. Nothing
    /// where the thread or its group isn't there.
    #[tactic(auto, using(crate::proofs::Keeping::steps_some, crate::proofs::Keeping::call_formed, crate::proofs::Keeping::steps_none, crate::proofs::Keeping::put_same, crate::proofs::Keeping::twice))]
    pub fn step(
        &mut self,
        alloc: Global,
        thread: u32,
        group: u32,
        program: u32,
        call: &mut Cooked,
    ) -> Result<Option<Turn<P::Fault>>, OutOfMemory>
        ensures programs { self.new.programs ≡ self.old.programs }
        ensures formed { IfOk result (λ turn. IsCall turn call.new) }
        ensures steps { IfOk result (λ turn. (script : List Item) (live : ℕ → Bool) (m : Threads P.AllGlobals P.AllThreads) → live thread ≡ true
            → AreKept P.thread_of P.globals_of live self.old.threads.items.items self.old.globals.items.items m
            → Steps (P.meaning self.old.programs) script P.thread_of P.globals_of P.fault_of live thread group program m self.new.threads.items.items self.new.globals.items.items call.new turn) }
    {
        match self.globals.take(group) {
            None => Ok(None),
            Some(mut globals) => match self.threads.take(thread) {
                None => {
                    self.globals.put(group, globals)?;
                    Ok(None)
                }
                Some(mut own) => {
                    let turn = self
                        .programs
                        .step(alloc, program, &mut globals, &mut own, call)?;
                    self.threads.put(thread, own)?;
                    self.globals.put(group, globals)?;
                    Ok(Some(turn))
                }
            },
        }
    }
}
