// The turn of a program's thread.
ghost use Rattle.std.specs.Prelude.{◌≡◌, ◌≢◌, ◌<◌, ◌≤◌, ℕ, Bool, true, List, Some, length, IfOk, IfNone};
ghost use Rattle.nx_ksys.specs.ThreadTable.{ThreadRow, threads};
ghost use Rattle.nx_shtree.specs.Trees.{Item};
ghost use Rattle.nx_shrun.specs.Systems.{System, with_guests};
ghost use Rattle.nx_shrun.specs.AbstractRuns.{Answer, Threads, acted, guest_turn as guest_turn_of};
ghost use Rattle.nx_shell.specs.Shells.{IsReady};
ghost use Rattle.nx_guests.specs.Turns.{IsTold, IsCall};
ghost use Rattle.nx_guests.specs.Guests.{UnlessWrong, left_by, after_step};
ghost use Rattle.nx_abstract.specs.Kernels.{is_ready_at};
ghost use Rattle.nx_abstract.specs.Standing.{StandsFor, Waits, lives};
ghost use Rattle.nx_abstract.specs.Coming.{Comes};

use crate::kernel::Kernel;
use crate::turning::{Wrong, guest_call, put_last_call};
use nx_base::OutOfMemory;
use nx_guests::{Guests, Programs, Turn};
use nx_ksys::{Cooked, Replies};
use nx_shell::Shell;
use std::alloc::Global;

/// What follows a step of a thread.
fn act<K: Kernel, P: Programs + Drop>(
    alloc: Global,
    kernel: &mut K,
    shell: &mut Shell,
    guests: &mut Guests<P>,
    replies: &mut Replies,
    call: &mut Cooked,
    thread: u32,
    group: u32,
    turn: Turn<P::Fault>,
) -> Result<Option<Wrong<P::Fault>>, OutOfMemory>
    requires keeps { K.keeps kernel.old }
    requires runs { is_ready_at (K.state kernel.old) thread ≡ true }
    requires other { thread ≢ 1 }
    requires formed { IsCall (Some turn) call.old }
    requires calls { (K.state kernel.old).calls < 1000000000 }
    requires room { length (K.state kernel.old).sched.threads ≤ replies.old.room }
    requires ready { IsReady shell.old }
    requires words { length shell.old.walk.command.call.words ≡ 6 }
    requires waits { Waits (threads (K.state kernel.old)) shell.old.walk.command.call }
    ensures keeps { K.keeps kernel.new }
    ensures room { replies.new.room ≡ replies.old.room }
    ensures slots { length (K.state kernel.new).sched.threads ≡ length (K.state kernel.old).sched.threads }
    ensures ready { IsReady shell.new }
    ensures waits { IfOk result (λ w. IfNone w (Waits (threads (K.state kernel.new)) shell.new.walk.command.call)) }
    ensures programs { guests.new.programs ≡ guests.old.programs }
    ensures comes { IfOk result (λ w. (script : List Item) (s : System (Threads P.AllGlobals P.AllThreads)) (row : ThreadRow) (g : P.AllGlobals) (t : P.AllThreads) (a : Answer P.AllGlobals P.AllThreads P.AllFaults) → row.group ≡ group
        → IsTold (P.meaning guests.old.programs).which P.fault_of turn call.old g t a
        → UnlessWrong turn (StandsFor P.thread_of P.globals_of script (left_by turn thread (lives (K.state kernel.old))) (K.state kernel.old) shell.old guests.old.threads.items.items guests.old.globals.items.items
        (with_guests s (after_step (P.meaning guests.old.programs) script s.guests thread group a)))
        → Comes P.thread_of P.globals_of P.fault_of script (K.state kernel.new) shell.new guests.new.threads.items.items guests.new.globals.items.items w (acted (P.meaning guests.old.programs) script s thread row a)) }
{
    match turn {
        Turn::Next => Ok(None),
        Turn::Calls => {
            let wrong = guest_call(alloc, kernel, shell, guests, replies, thread, group, call)?;
            Ok(wrong)
        }
        Turn::Ends(value) => {
            put_last_call(call, thread == group, value);
            let wrong = guest_call(alloc, kernel, shell, guests, replies, thread, group, call)?;
            Ok(wrong)
        }
        Turn::Wrong(why) => Ok(Some(Wrong { pid: group, why })),
    }
}

/// A thread of a program makes its next step.
pub(crate) fn guest_turn<K: Kernel, P: Programs + Drop>(
    alloc: Global,
    kernel: &mut K,
    shell: &mut Shell,
    guests: &mut Guests<P>,
    replies: &mut Replies,
    call: &mut Cooked,
    thread: u32,
) -> Result<Option<Wrong<P::Fault>>, OutOfMemory>
    requires keeps { K.keeps kernel.old }
    requires runs { is_ready_at (K.state kernel.old) thread ≡ true }
    requires other { thread ≢ 1 }
    requires calls { (K.state kernel.old).calls < 1000000000 }
    requires room { length (K.state kernel.old).sched.threads ≤ replies.old.room }
    requires ready { IsReady shell.old }
    requires words { length shell.old.walk.command.call.words ≡ 6 }
    requires waits { Waits (threads (K.state kernel.old)) shell.old.walk.command.call }
    ensures keeps { K.keeps kernel.new }
    ensures room { replies.new.room ≡ replies.old.room }
    ensures slots { length (K.state kernel.new).sched.threads ≡ length (K.state kernel.old).sched.threads }
    ensures ready { IsReady shell.new }
    ensures waits { IfOk result (λ w. IfNone w (Waits (threads (K.state kernel.new)) shell.new.walk.command.call)) }
    ensures programs { guests.new.programs ≡ guests.old.programs }
    ensures comes { IfOk result (λ w. (script : List Item) (s : System (Threads P.AllGlobals P.AllThreads))
        → StandsFor P.thread_of P.globals_of script (lives (K.state kernel.old)) (K.state kernel.old) shell.old guests.old.threads.items.items guests.old.globals.items.items s
        → Comes P.thread_of P.globals_of P.fault_of script (K.state kernel.new) shell.new guests.new.threads.items.items guests.new.globals.items.items w (guest_turn_of (P.meaning guests.old.programs) script s thread (threads s.kernel thread))) }
{
    let Some(row) = kernel.thread(thread) else {
        return Ok(None);
    };
    match guests.step(alloc, thread, row.group, row.program, call)? {
        None => Ok(None),
        Some(turn) => {
            let wrong = act(
                alloc, kernel, shell, guests, replies, call, thread, row.group, turn,
            )?;
            Ok(wrong)
        }
    }
}
