// A call of a thread, and what it begins.
ghost use Rattle.std.specs.Prelude.{◌≡◌, ◌<◌, ◌≤◌, ℕ, Bool, true, false, List, None, length, IfOk};
ghost use Rattle.nx_ksys.specs.Gathered.{replies_of};
ghost use Rattle.nx_shtree.specs.Trees.{Item};
ghost use Rattle.nx_shrun.specs.Calls.{Call};
ghost use Rattle.nx_shrun.specs.Systems.{affected};
ghost use Rattle.nx_shrun.specs.AbstractRuns.{Threads, guests as guests_by, wrong_group, wrong_start};
ghost use Rattle.nx_guests.specs.Kept.{seen};
ghost use Rattle.nx_guests.specs.Guests.{AreKept, LivesBut, start_of};
ghost use Rattle.nx_guests.specs.Turns.{IsFormed};
ghost use Rattle.nx_abstract.specs.Kernels.{effect_of, is_ready_at, step_of};
ghost use Rattle.nx_ksys.specs.Answers as answers;
ghost use Rattle.nx_abstract.specs.Living.{LivesAfter, IsBeside, Leaves};

use crate::kernel::{Effect, Kernel};
use nx_base::OutOfMemory;
use nx_guests::{Guests, Programs, Start};
use nx_ksys::{Cooked, Replies};
use std::alloc::Global;

/// Why a new group is wrong, if it is.
fn wrong_of<P: Programs>(programs: &P, start: Start) -> Option<P::Fault>
    ensures { (script : List Item) → seen P.fault_of result ≡ wrong_group (P.meaning programs.now) script (start_of start) }
{
    if programs.is_raw(start.program) {
        return Some(programs.raw());
    }
    if programs.has_globals(start.program) && !start.fresh {
        return Some(programs.shared());
    }
    None
}

/// A thread or a group begins, unless it is wrong.
#[tactic(auto, using(crate::proofs::Beginning::wrong_thread, crate::proofs::Beginning::wrong_other))]
fn begin_one<P: Programs + Drop>(
    alloc: Global,
    guests: &mut Guests<P>,
    start: Start,
    words: &[u32],
) -> Result<Option<P::Fault>, OutOfMemory>
    ensures programs { guests.new.programs ≡ guests.old.programs }
    ensures wrong { IfOk result (λ w. (script : List Item) → seen P.fault_of w ≡ wrong_start (P.meaning guests.old.programs) script (answers.Begins (start_of start))) }
    ensures kept { IfOk result (λ w. w ≡ None → (script : List Item) (live later : ℕ → Bool) (m : Threads P.AllGlobals P.AllThreads) → LivesBut start.thread live later
        → AreKept P.thread_of P.globals_of live guests.old.threads.items.items guests.old.globals.items.items m
        → AreKept P.thread_of P.globals_of later guests.new.threads.items.items guests.new.globals.items.items (affected (guests_by (P.meaning guests.old.programs) script) m (answers.Begins (start_of start)) words.now)) }
{
    if start.is_thread {
        guests.begin(alloc, start, words)?;
        return Ok(None);
    }
    match wrong_of(guests.programs(), start) {
        Some(why) => Ok(Some(why)),
        None => {
            guests.begin(alloc, start, words)?;
            Ok(None)
        }
    }
}

/// What a call began begins, unless it is wrong.
fn begin<P: Programs + Drop>(
    alloc: Global,
    guests: &mut Guests<P>,
    effect: Effect,
    words: &[u32],
) -> Result<Option<P::Fault>, OutOfMemory>
    ensures programs { guests.new.programs ≡ guests.old.programs }
    ensures wrong { IfOk result (λ w. (script : List Item) → seen P.fault_of w ≡ wrong_start (P.meaning guests.old.programs) script (effect_of effect)) }
    ensures kept { IfOk result (λ w. w ≡ None → (script : List Item) (live later : ℕ → Bool) (m : Threads P.AllGlobals P.AllThreads) → LivesAfter (effect_of effect) live later
        → AreKept P.thread_of P.globals_of live guests.old.threads.items.items guests.old.globals.items.items m
        → AreKept P.thread_of P.globals_of later guests.new.threads.items.items guests.new.globals.items.items (affected (guests_by (P.meaning guests.old.programs) script) m (effect_of effect) words.now)) }
{
    match effect {
        Effect::Stays => Ok(None),
        Effect::EndsGroup(_) => Ok(None),
        Effect::Begins(start) => {
            let wrong = begin_one(alloc, guests, start, words)?;
            Ok(wrong)
        }
    }
}

/// There are six words.
fn are_six(words: [u32; 6])
    ensures { length words ≡ 6 }
{}

/// A thread makes a call of the kernel. The replies are there.
fn ask<K: Kernel>(kernel: &mut K, replies: &mut Replies, thread: u32, call: &Cooked) -> Effect
    requires keeps { K.keeps kernel.old }
    requires ready { is_ready_at (K.state kernel.old) thread ≡ true }
    requires formed { IsFormed call.now }
    requires calls { (K.state kernel.old).calls < 1000000000 }
    requires room { length (K.state kernel.old).sched.threads ≤ replies.old.room }
    ensures keeps { K.keeps kernel.new }
    ensures state { (step_of (K.state kernel.old) thread call.now).to ≡ K.state kernel.new }
    ensures effect { (step_of (K.state kernel.old) thread call.now).effect ≡ effect_of result }
    ensures replies { (step_of (K.state kernel.old) thread call.now).replies ≡ replies_of replies.new.replies }
    ensures room { replies.new.room ≡ replies.old.room }
    ensures slots { length (K.state kernel.new).sched.threads ≡ length (K.state kernel.old).sched.threads }
    ensures leaves { (q : Call) → length q.words ≡ 6 → IsBeside (K.state kernel.old) thread call.now q
        → Leaves (K.state kernel.old) thread call.now q (K.state kernel.new) (step_of (K.state kernel.old) thread call.now).effect (replies_of replies.new.replies) }
{
    are_six(call.words);
    kernel.step(thread, call, replies)
}

/// A thread makes a call, and what it began begins, unless it is wrong. The replies are there.
pub(crate) fn make<K: Kernel, P: Programs + Drop>(
    alloc: Global,
    kernel: &mut K,
    guests: &mut Guests<P>,
    replies: &mut Replies,
    thread: u32,
    call: &Cooked,
) -> Result<Option<P::Fault>, OutOfMemory>
    requires keeps { K.keeps kernel.old }
    requires ready { is_ready_at (K.state kernel.old) thread ≡ true }
    requires formed { IsFormed call.now }
    requires calls { (K.state kernel.old).calls < 1000000000 }
    requires room { length (K.state kernel.old).sched.threads ≤ replies.old.room }
    ensures keeps { K.keeps kernel.new }
    ensures state { (step_of (K.state kernel.old) thread call.now).to ≡ K.state kernel.new }
    ensures replies { (step_of (K.state kernel.old) thread call.now).replies ≡ replies_of replies.new.replies }
    ensures room { replies.new.room ≡ replies.old.room }
    ensures slots { length (K.state kernel.new).sched.threads ≡ length (K.state kernel.old).sched.threads }
    ensures leaves { (q : Call) → length q.words ≡ 6 → IsBeside (K.state kernel.old) thread call.now q
        → Leaves (K.state kernel.old) thread call.now q (K.state kernel.new) (step_of (K.state kernel.old) thread call.now).effect (replies_of replies.new.replies) }
    ensures programs { guests.new.programs ≡ guests.old.programs }
    ensures wrong { IfOk result (λ w. (script : List Item) → seen P.fault_of w ≡ wrong_start (P.meaning guests.old.programs) script (step_of (K.state kernel.old) thread call.now).effect) }
    ensures kept { IfOk result (λ w. w ≡ None → (script : List Item) (live later : ℕ → Bool) (m : Threads P.AllGlobals P.AllThreads) → LivesAfter (step_of (K.state kernel.old) thread call.now).effect live later
        → AreKept P.thread_of P.globals_of live guests.old.threads.items.items guests.old.globals.items.items m
        → AreKept P.thread_of P.globals_of later guests.new.threads.items.items guests.new.globals.items.items (affected (guests_by (P.meaning guests.old.programs) script) m (step_of (K.state kernel.old) thread call.now).effect call.now.words)) }
{
    let effect = ask(kernel, replies, thread, call);
    let wrong = begin(alloc, guests, effect, &call.words)?;
    Ok(wrong)
}
