ghost use Rattle.std.specs.Prelude.{◌≡◌, ◌<◌, ◌≤◌, ◌+◌, ℕ, true, List, length, IfOk, OnOk};
ghost use Rattle.nx_ksys.specs.Picking.{picked};
ghost use Rattle.nx_shtree.specs.Trees.{Item};
ghost use Rattle.nx_shrun.specs.Systems.{System};
ghost use Rattle.nx_shrun.specs.AbstractRuns.{Threads, Fine, run_step};
ghost use Rattle.nx_abstract.specs.Standing.{StandsFor, lives};
ghost use Rattle.nx_abstract.specs.Running.{IsRunning, IsPicked, HasCome, StandsAt, WhereGoing, is_going, IsBooted, first_over};

use crate::kernel::{Kernel, Over};
use crate::stepping::step;
use crate::stop::Stop;
use nx_base::OutOfMemory;
use nx_guests::{Guests, Programs};
use nx_ksys::{Cooked, Replies};
use nx_shell::Shell;
use nx_shtree::Script;
use std::alloc::Global;

/// Where a run stands over a kernel, as far as that shows.
fn stop_over<K: Kernel, F: Drop>(kernel: &K) -> Stop<F>
    requires { K.keeps kernel.now }
    ensures { IsPicked result (picked (K.state kernel.now)).pick }
{
    match kernel.over() {
        None => Stop::Steps,
        Some(Over::Ended) => Stop::Ended,
        Some(Over::Idle) => Stop::Idle,
    }
}

/// An abstract run. After an `Err` of a call nothing is said of it.
#[derive(Drop)]
pub struct Abstract<K: Kernel, P: Programs> {
    kernel: K,
    shell: Shell,
    guests: Guests<P>,
    replies: Replies,
    call: Cooked,
    steps: u64,
    stop: Stop<P::Fault>,
}

impl<K: Kernel + Drop, P: Programs + Drop> Abstract<K, P> {
    /// A run of a script over a kernel at boot, which has at most so many slots for threads.
    pub fn new(
        alloc: Global,
        kernel: K,
        programs: P,
        script: &Script,
        slots: u32,
    ) -> Result<Abstract<K, P>, OutOfMemory>
        requires keeps { K.keeps kernel }
        requires booted { IsBooted (K.state kernel) }
        requires slots { length (K.state kernel).sched.threads ≤ slots }
        ensures keeps { IfOk result (λ x. K.keeps x.kernel) }
        ensures programs { IfOk result (λ x. x.guests.programs ≡ programs) }
        ensures steps { IfOk result (λ x. x.steps ≡ 0) }
        ensures running { IfOk result (λ x. WhereGoing x.stop (IsRunning P.thread_of P.globals_of (K.state x.kernel) x.shell x.guests.threads.items.items x.guests.globals.items.items x.replies.room x.steps)) }
        ensures comes { IfOk result (λ x. HasCome P.thread_of P.globals_of P.fault_of (P.meaning programs) script.now (first_over (K.state kernel)) (K.state x.kernel) x.shell x.guests.threads.items.items x.guests.globals.items.items x.steps x.stop) }
    {
        let shell = Shell::new(alloc, script)?;
        let replies = Replies::new(alloc, slots)?;
        let call = Cooked::new(alloc)?;
        let stop = stop_over(&kernel);
        let guests = Guests::new(alloc, programs);
        Ok(Abstract {
            kernel,
            shell,
            guests,
            replies,
            call,
            steps: 0,
            stop,
        })
    }

    /// The kernel.
    pub fn kernel(&self) -> &K
        ensures { result.now ≡ self.now.kernel }
    {
        &self.kernel
    }

    /// How many steps were made: up to the first state that is ended or idle, or that is wrong.
    pub fn steps(&self) -> u64
        ensures { result ≡ self.now.steps }
    {
        self.steps
    }

    /// Where the run stands.
    pub fn stop(&self) -> &Stop<P::Fault>
        ensures { result.now ≡ self.now.stop }
    {
        &self.stop
    }

    fn is_going(&self) -> bool
        ensures { result ≡ is_going self.now.stop }
    {
        match &self.stop {
            Stop::Steps => true,
            Stop::Ended => false,
            Stop::Idle => false,
            Stop::Wrong(_) => false,
        }
    }

    /// Makes one step.
    fn make_step(&mut self, alloc: Global) -> Result<(), OutOfMemory>
        requires keeps { K.keeps self.old.kernel }
        requires running { IsRunning P.thread_of P.globals_of (K.state self.old.kernel) self.old.shell self.old.guests.threads.items.items self.old.guests.globals.items.items self.old.replies.room self.old.steps }
        requires steps { self.old.steps < 1000000000 }
        ensures keeps { K.keeps self.new.kernel }
        ensures programs { self.new.guests.programs ≡ self.old.guests.programs }
        ensures count { OnOk result (self.new.steps ≡ self.old.steps + 1) }
        ensures running { OnOk result (WhereGoing self.new.stop (IsRunning P.thread_of P.globals_of (K.state self.new.kernel) self.new.shell self.new.guests.threads.items.items self.new.guests.globals.items.items self.new.replies.room self.new.steps)) }
        ensures comes { OnOk result ((script : List Item) (s : System (Threads P.AllGlobals P.AllThreads))
            → StandsFor P.thread_of P.globals_of script (lives (K.state self.old.kernel)) (K.state self.old.kernel) self.old.shell self.old.guests.threads.items.items self.old.guests.globals.items.items s
            → StandsAt P.thread_of P.globals_of P.fault_of script (K.state self.new.kernel) self.new.shell self.new.guests.threads.items.items self.new.guests.globals.items.items self.new.stop (run_step (P.meaning self.old.guests.programs) script (Fine s))) }
    {
        let wrong = step(
            alloc,
            &mut self.kernel,
            &mut self.shell,
            &mut self.guests,
            &mut self.replies,
            &mut self.call,
        )?;
        self.steps += 1;
        match wrong {
            None => {
                self.stop = stop_over(&self.kernel);
                Ok(())
            }
            Some(wrong) => {
                self.stop = Stop::Wrong(wrong);
                Ok(())
            }
        }
    }

    /// Makes so many steps, or fewer where the run ended, is idle, or went wrong. Then it stays as
    /// it is.
    pub fn run(&mut self, alloc: Global, steps: u64) -> Result<(), OutOfMemory>
        requires keeps { K.keeps self.old.kernel }
        requires running { WhereGoing self.old.stop (IsRunning P.thread_of P.globals_of (K.state self.old.kernel) self.old.shell self.old.guests.threads.items.items self.old.guests.globals.items.items self.old.replies.room self.old.steps) }
        requires steps { self.old.steps + steps ≤ 1000000000 }
        ensures keeps { K.keeps self.new.kernel }
        ensures programs { self.new.guests.programs ≡ self.old.guests.programs }
        ensures running { OnOk result (WhereGoing self.new.stop (IsRunning P.thread_of P.globals_of (K.state self.new.kernel) self.new.shell self.new.guests.threads.items.items self.new.guests.globals.items.items self.new.replies.room self.new.steps)) }
        ensures comes { OnOk result ((script : List Item) (first : System (Threads P.AllGlobals P.AllThreads))
            → HasCome P.thread_of P.globals_of P.fault_of (P.meaning self.old.guests.programs) script first (K.state self.old.kernel) self.old.shell self.old.guests.threads.items.items self.old.guests.globals.items.items self.old.steps self.old.stop
            → HasCome P.thread_of P.globals_of P.fault_of (P.meaning self.old.guests.programs) script first (K.state self.new.kernel) self.new.shell self.new.guests.threads.items.items self.new.guests.globals.items.items self.new.steps self.new.stop) }
        ensures most { OnOk result (self.new.steps ≤ self.old.steps + steps) }
        ensures all { OnOk result (is_going self.new.stop ≡ true → self.new.steps ≡ self.old.steps + steps) }
    {
        for _ in 0..steps {
            let going = self.is_going();
            if going {
                self.make_step(alloc)?;
            } else {
                return Ok(());
            }
        }
        Ok(())
    }
}
