// One step of the run.
ghost use Rattle.std.specs.Prelude.{◌≡◌, ◌<◌, ◌≤◌, ℕ, Bool, true, List, Some, length, IfOk, IfNone};
ghost use Rattle.nx_ksys.specs.ThreadTable.{threads};
ghost use Rattle.nx_shtree.specs.Trees.{Item};
ghost use Rattle.nx_shrun.specs.Calls.{IsWellFormed};
ghost use Rattle.nx_shrun.specs.Systems.{System};
ghost use Rattle.nx_shrun.specs.AbstractRuns.{Threads, Fine, run_step, turn as turn_of};
ghost use Rattle.nx_shell.specs.Shells.{IsReady};
ghost use Rattle.nx_abstract.specs.Kernels.{is_ready_at};
ghost use Rattle.nx_abstract.specs.Standing.{StandsFor, Waits, lives};
ghost use Rattle.nx_abstract.specs.Coming.{Comes};
ghost use Rattle.nx_abstract.specs.Running.{IsRunning};

use crate::acting::guest_turn;
use crate::kernel::Kernel;
use crate::telling::{SHELL_THREAD, tell_all};
use crate::turning::{Wrong, shell_turn};
use nx_base::OutOfMemory;
use nx_guests::{Guests, Programs};
use nx_ksys::{Cooked, Pick, Replies};
use nx_shell::Shell;
use std::alloc::Global;

/// The turn of the thread that was chosen.
fn turn<K: Kernel, P: Programs + Drop>(
    alloc: Global,
    kernel: &mut K,
    shell: &mut Shell,
    guests: &mut Guests<P>,
    replies: &mut Replies,
    call: &mut Cooked,
    thread: u32,
) -> Result<Option<Wrong<P::Fault>>, OutOfMemory>
    requires keeps { K.keeps kernel.old }
    requires runs { is_ready_at (K.state kernel.old) thread ≡ true }
    requires calls { (K.state kernel.old).calls < 1000000000 }
    requires room { length (K.state kernel.old).sched.threads ≤ replies.old.room }
    requires ready { IsReady shell.old }
    requires formed { IsWellFormed shell.old.walk.command.call }
    requires waits { Waits (threads (K.state kernel.old)) shell.old.walk.command.call }
    ensures keeps { K.keeps kernel.new }
    ensures room { replies.new.room ≡ replies.old.room }
    ensures slots { length (K.state kernel.new).sched.threads ≡ length (K.state kernel.old).sched.threads }
    ensures ready { IsReady shell.new }
    ensures waits { IfOk result (λ w. IfNone w (Waits (threads (K.state kernel.new)) shell.new.walk.command.call)) }
    ensures programs { guests.new.programs ≡ guests.old.programs }
    ensures comes { IfOk result (λ w. (script : List Item) (s : System (Threads P.AllGlobals P.AllThreads))
        → StandsFor P.thread_of P.globals_of script (lives (K.state kernel.old)) (K.state kernel.old) shell.old guests.old.threads.items.items guests.old.globals.items.items s
        → Comes P.thread_of P.globals_of P.fault_of script (K.state kernel.new) shell.new guests.new.threads.items.items guests.new.globals.items.items w (turn_of (P.meaning guests.old.programs) script s thread)) }
{
    if thread == SHELL_THREAD {
        let wrong = shell_turn(alloc, kernel, shell, guests, replies)?;
        return Ok(wrong);
    }
    let wrong = guest_turn(alloc, kernel, shell, guests, replies, call, thread)?;
    Ok(wrong)
}

/// One step: a thread is chosen, the replies of those that wake go to them, and it makes its turn.
pub(crate) fn step<K: Kernel, P: Programs + Drop>(
    alloc: Global,
    kernel: &mut K,
    shell: &mut Shell,
    guests: &mut Guests<P>,
    replies: &mut Replies,
    call: &mut Cooked,
) -> Result<Option<Wrong<P::Fault>>, OutOfMemory>
    requires keeps { K.keeps kernel.old }
    requires running { IsRunning P.thread_of P.globals_of (K.state kernel.old) shell.old guests.old.threads.items.items guests.old.globals.items.items replies.old.room (K.state kernel.old).calls }
    requires calls { (K.state kernel.old).calls < 1000000000 }
    ensures keeps { K.keeps kernel.new }
    ensures room { replies.new.room ≡ replies.old.room }
    ensures programs { guests.new.programs ≡ guests.old.programs }
    ensures slots { IfOk result (λ w. length (K.state kernel.new).sched.threads ≡ length (K.state kernel.old).sched.threads) }
    ensures ready { IsReady shell.new }
    ensures waits { IfOk result (λ w. IfNone w (Waits (threads (K.state kernel.new)) shell.new.walk.command.call)) }
    ensures comes { IfOk result (λ w. (script : List Item) (s : System (Threads P.AllGlobals P.AllThreads))
        → StandsFor P.thread_of P.globals_of script (lives (K.state kernel.old)) (K.state kernel.old) shell.old guests.old.threads.items.items guests.old.globals.items.items s
        → Comes P.thread_of P.globals_of P.fault_of script (K.state kernel.new) shell.new guests.new.threads.items.items guests.new.globals.items.items w (run_step (P.meaning guests.old.programs) script (Fine s))) }
{
    let choice = kernel.pick(replies);
    match choice {
        Pick::Run(thread) => {
            tell_all(alloc, kernel, shell, guests, replies.as_slice())?;
            let wrong = turn(alloc, kernel, shell, guests, replies, call, thread)?;
            Ok(wrong)
        }
        Pick::Idle => Ok(None),
        Pick::Ended => Ok(None),
    }
}
