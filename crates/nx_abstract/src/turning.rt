// The turn of the chosen thread.
ghost use Rattle.std.specs.Prelude.{◌≡◌, ◌≢◌, ◌<◌, ◌≤◌, ℕ, Bool, true, List, [], ◌∷◌, Some, if◌then◌else◌, length, IfOk, IfNone};
ghost use Rattle.nx_base.specs.declared.calls.KCall.TheVariants as kernel;
ghost use Rattle.nx_ksys.specs.Telling.{both};
ghost use Rattle.nx_ksys.specs.TableLaws.{is_last};
ghost use Rattle.nx_ksys.specs.ThreadTable.{threads};
ghost use Rattle.nx_shtree.specs.Trees.{Item};
ghost use Rattle.nx_shrun.specs.Calls.{IsWellFormed};
ghost use Rattle.nx_shrun.specs.Systems.{System, next_call};
ghost use Rattle.nx_shrun.specs.AbstractRuns.{Threads, shell_turn as shell_turn_of, guest_turn as guest_turn_of, calls as calls_of};
ghost use Rattle.nx_shell.specs.Shells.{IsReady};
ghost use Rattle.nx_guests.specs.Turns.{IsFormed};
ghost use Rattle.nx_abstract.specs.Kernels.{is_ready_at};
ghost use Rattle.nx_abstract.specs.Standing.{StandsFor, Waits, lives};
ghost use Rattle.nx_abstract.specs.Coming.{Comes};

use crate::kernel::Kernel;
use crate::making::make;
use crate::telling::{SHELL_THREAD, tell_all};
use nx_base::{KCall, OutOfMemory};
use nx_guests::{Guests, Programs, Turn};
use nx_ksys::{Cooked, Replies};
use nx_shell::Shell;
use std::alloc::Global;

/// Where a run went wrong.
#[derive(Debug, Drop)]
pub struct Wrong<F> {
    /// The number of the group.
    pub pid: u32,
    /// Why.
    pub why: F,
}

/// The shell makes its next call.
pub(crate) fn shell_turn<K: Kernel, P: Programs + Drop>(
    alloc: Global,
    kernel: &mut K,
    shell: &mut Shell,
    guests: &mut Guests<P>,
    replies: &mut Replies,
) -> Result<Option<Wrong<P::Fault>>, OutOfMemory>
    requires keeps { K.keeps kernel.old }
    requires runs { is_ready_at (K.state kernel.old) 1 ≡ true }
    requires calls { (K.state kernel.old).calls < 1000000000 }
    requires room { length (K.state kernel.old).sched.threads ≤ replies.old.room }
    requires ready { IsReady shell.old }
    requires formed { IsWellFormed shell.old.walk.command.call }
    requires waits { Waits (threads (K.state kernel.old)) shell.old.walk.command.call }
    ensures keeps { K.keeps kernel.new }
    ensures room { replies.new.room ≡ replies.old.room }
    ensures slots { length (K.state kernel.new).sched.threads ≡ length (K.state kernel.old).sched.threads }
    ensures ready { IsReady shell.new }
    ensures waits { IfOk result (λ w. IfNone w (Waits (threads (K.state kernel.new)) shell.new.walk.command.call)) }
    ensures programs { guests.new.programs ≡ guests.old.programs }
    ensures comes { IfOk result (λ w. (script : List Item) (s : System (Threads P.AllGlobals P.AllThreads))
        → StandsFor P.thread_of P.globals_of script (lives (K.state kernel.old)) (K.state kernel.old) shell.old guests.old.threads.items.items guests.old.globals.items.items s
        → Comes P.thread_of P.globals_of P.fault_of script (K.state kernel.new) shell.new guests.new.threads.items.items guests.new.globals.items.items w (shell_turn_of (P.meaning guests.old.programs) script s (next_call script s.said))) }
{
    match make(alloc, kernel, guests, replies, SHELL_THREAD, shell.call())? {
        Some(why) => Ok(Some(Wrong {
            pid: SHELL_THREAD,
            why,
        })),
        None => {
            tell_all(alloc, kernel, shell, guests, replies.as_slice())?;
            Ok(None)
        }
    }
}

/// A thread of a group makes a call.
pub(crate) fn guest_call<K: Kernel, P: Programs + Drop>(
    alloc: Global,
    kernel: &mut K,
    shell: &mut Shell,
    guests: &mut Guests<P>,
    replies: &mut Replies,
    thread: u32,
    group: u32,
    call: &Cooked,
) -> Result<Option<Wrong<P::Fault>>, OutOfMemory>
    requires keeps { K.keeps kernel.old }
    requires runs { is_ready_at (K.state kernel.old) thread ≡ true }
    requires other { thread ≢ 1 }
    requires formed { IsFormed call.now }
    requires calls { (K.state kernel.old).calls < 1000000000 }
    requires room { length (K.state kernel.old).sched.threads ≤ replies.old.room }
    requires ready { IsReady shell.old }
    requires words { length shell.old.walk.command.call.words ≡ 6 }
    requires waits { Waits (threads (K.state kernel.old)) shell.old.walk.command.call }
    ensures keeps { K.keeps kernel.new }
    ensures room { replies.new.room ≡ replies.old.room }
    ensures slots { length (K.state kernel.new).sched.threads ≡ length (K.state kernel.old).sched.threads }
    ensures ready { IsReady shell.new }
    ensures waits { IfOk result (λ w. IfNone w (Waits (threads (K.state kernel.new)) shell.new.walk.command.call)) }
    ensures programs { guests.new.programs ≡ guests.old.programs }
    ensures comes { IfOk result (λ w. (script : List Item) (s : System (Threads P.AllGlobals P.AllThreads)) (live : ℕ → Bool) (inputs : List (List ℕ)) → call.now.first ∷ call.now.second ∷ [] ≡ both inputs
        → ((n : ℕ) → lives (K.state kernel.old) n ≡ true → (is_last call.now.call ≡ true → n ≢ thread) → live n ≡ true)
        → StandsFor P.thread_of P.globals_of script live (K.state kernel.old) shell.old guests.old.threads.items.items guests.old.globals.items.items s
        → Comes P.thread_of P.globals_of P.fault_of script (K.state kernel.new) shell.new guests.new.threads.items.items guests.new.globals.items.items w (calls_of (P.meaning guests.old.programs) script s thread group call.now.call call.now.words inputs)) }
{
    match make(alloc, kernel, guests, replies, thread, call)? {
        Some(why) => Ok(Some(Wrong { pid: group, why })),
        None => {
            tell_all(alloc, kernel, shell, guests, replies.as_slice())?;
            Ok(None)
        }
    }
}

/// The last call of a thread whose function ended with a value.
pub(crate) fn put_last_call(call: &mut Cooked, is_main: bool, value: u32)
    ensures call { call.new.call ≡ Some (if is_main then kernel.Exit else kernel.NxThreadExit) }
    ensures words { call.new.words ≡ value ∷ 0 ∷ 0 ∷ 0 ∷ 0 ∷ 0 ∷ [] }
    ensures inputs { (call.new.first ≡ []) × (call.new.second ≡ []) }
{
    call.call = Some(if is_main {
        KCall::Exit
    } else {
        KCall::NxThreadExit
    });
    call.words = [value, 0, 0, 0, 0, 0];
    call.first.clear();
    call.second.clear();
}
