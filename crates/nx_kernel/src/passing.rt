// How time passes, and which thread runs next.
ghost use Rattle.std.specs.Prelude.{◌≡◌, ◌<◌, ◌≤◌, ◌+◌, ◌^◌, ◌++◌, length, drop};
ghost use Rattle.nx_ksys.specs.declared.thread.Search.TheVariants as search;
ghost use Rattle.nx_ksys.specs.Threads.{first_of};
ghost use Rattle.nx_ksys.specs.State.{KernelState};
ghost use Rattle.nx_ksys.specs.Gathered.{replies_of};
ghost use Rattle.nx_ksys.specs.Picking.{next_late, wake_due as woken_due, passed, advanced, runs};
ghost use Rattle.nx_kbounds.specs.Counts.{waiting, AreNear};
ghost use Rattle.nx_kernel.specs.Waking.{timed, HasPassed};

use crate::clock::Clock;
use crate::due::wake_due;
use nx_ksys::{Pick, Replies, Search};
use nx_sched::{Threads, deadline};

// Time passes to a deadline and by the next lateness beyond it, and who is due by then wakes.
fn pass(deadline: u64, clock: &mut Clock, threads: &mut Threads, replies: &mut Replies)
    requires near { deadline + next_late clock.old.late < 2 ^ 64 }
    requires moments { threads.old.moments + waiting threads.old.threads < 2 ^ 64 }
    requires room { length replies.old.replies + waiting threads.old.threads ≤ replies.old.room }
    ensures time { clock.new ≡ record { time = deadline + next_late clock.old.late; late = drop 1 clock.old.late } }
    ensures state { threads.new ≡ (woken_due (deadline + next_late clock.old.late) (length threads.old.threads) threads.old).sched }
    ensures told { replies_of replies.new.replies ≡ replies_of replies.old.replies ++ (woken_due (deadline + next_late clock.old.late) (length threads.old.threads) threads.old).replies }
    ensures room { replies.new.room ≡ replies.old.room }
{
    clock.pass_to(deadline);
    let count = threads.as_slice().len();
    wake_due(clock.time(), count, threads, replies);
}

// Time passes to the first deadline, if there is one.
fn pass_to_first(clock: &mut Clock, threads: &mut Threads, replies: &mut Replies) -> bool
    requires near { AreNear clock.old.time clock.old.late threads.old }
    requires few { threads.old.moments + waiting threads.old.threads < 2 ^ 32 }
    requires room { length replies.old.replies + waiting threads.old.threads ≤ replies.old.room }
    ensures passed { (k : KernelState) → HasPassed (timed k clock.new threads.new) result (replies_of replies.old.replies) (replies_of replies.new.replies) (passed (timed k clock.old threads.old) (first_of search.Timed threads.old.threads)) }
    ensures room { replies.new.room ≡ replies.old.room }
{
    match threads.first(Search::Timed) {
        None => false,
        Some(thread) => {
            pass(deadline(thread.doing), clock, threads, replies);
            true
        }
    }
}

/// Where no thread is ready, time passes to the first deadline and by the next lateness beyond it,
/// and the threads that are due by then wake, one after the other, and are told so. The answer is
/// whether time passed; then what lived by the wait of one of these alone ends.
#[tactic(auto, unfolding(nx_ksys::specs::Picking::advanced))]
pub fn advance(clock: &mut Clock, threads: &mut Threads, replies: &mut Replies) -> bool
    requires near { AreNear clock.old.time clock.old.late threads.old }
    requires few { threads.old.moments + waiting threads.old.threads < 2 ^ 32 }
    requires room { length replies.old.replies + waiting threads.old.threads ≤ replies.old.room }
    ensures passed { (k : KernelState) → HasPassed (timed k clock.new threads.new) result (replies_of replies.old.replies) (replies_of replies.new.replies) (advanced (timed k clock.old threads.old)) }
    ensures room { replies.new.room ≡ replies.old.room }
{
    match threads.first(Search::Ready) {
        Some(_) => false,
        None => pass_to_first(clock, threads, replies),
    }
}

/// The thread that runs next: the ready one of greatest priority that became ready first.
pub fn choose(threads: &Threads) -> Pick
    ensures { result ≡ runs (first_of search.Ready threads.now.threads) }
{
    match threads.first(Search::Ready) {
        None => Pick::Idle,
        Some(thread) => Pick::Run(thread.number),
    }
}
