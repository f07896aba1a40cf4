// Threads whose deadlines have come.
ghost use Rattle.std.specs.Prelude.{◌≡◌, ◌<◌, ◌≤◌, ◌+◌, ◌^◌, ◌++◌, length};
ghost use Rattle.nx_ksys.specs.Threads.{awaited as awaited_by};
ghost use Rattle.nx_ksys.specs.Gathered.{replies_of};
ghost use Rattle.nx_ksys.specs.Picking.{timed_out, if_due, first_due as first_due_of, wake_due as woken_due};
ghost use Rattle.nx_kbounds.specs.Counts.{waiting};
ghost use Rattle.nx_kernel.specs.Waking.{is_sleep};

use nx_base::Errno;
use nx_ksys::{Replies, Search, Thread, Wait};
use nx_sched::{Threads, awaited, deadline};

fn sleeps(wait: Option<Wait>) -> bool
    ensures { result ≡ is_sleep wait }
{
    match wait {
        Some(Wait::Sleep) => true,
        _ => false,
    }
}

// A sleeping thread goes on; the wait of any other that has a deadline fails.
fn time_out(thread: Thread, threads: &mut Threads, replies: &mut Replies)
    requires moments { threads.old.moments + 1 < 2 ^ 64 }
    requires room { length replies.old.replies < replies.old.room }
    ensures state { threads.new ≡ (timed_out threads.old thread (awaited_by thread.doing)).sched }
    ensures told { replies_of replies.new.replies ≡ replies_of replies.old.replies ++ (timed_out threads.old thread (awaited_by thread.doing)).replies }
    ensures len { length replies.new.replies ≡ length replies.old.replies + 1 }
    ensures room { replies.new.room ≡ replies.old.room }
{
    threads.wake(thread.number);
    if sleeps(awaited(thread.doing)) {
        replies.tell(thread.number, 0, b"", b"");
        return;
    }
    threads.fail(thread.number, Errno::Etimedout);
    replies.fail(thread.number, Errno::Etimedout);
}

fn if_come(time: u64, thread: Option<Thread>) -> Option<Thread>
    ensures { result ≡ if_due time thread }
{
    match thread {
        None => None,
        Some(thread) => {
            if deadline(thread.doing) <= time {
                Some(thread)
            } else {
                None
            }
        }
    }
}

// The thread whose deadline is first, if it has come.
#[tactic(auto, unfolding(nx_ksys::specs::Picking::first_due))]
fn first_due(time: u64, threads: &Threads) -> Option<Thread>
    ensures { result ≡ first_due_of time threads.now }
{
    if_come(time, threads.first(Search::Timed))
}

/// At most so many due threads wake, one after the other, and are told so.
pub fn wake_due(time: u64, count: usize, threads: &mut Threads, replies: &mut Replies)
    requires moments { threads.old.moments + waiting threads.old.threads < 2 ^ 64 }
    requires room { length replies.old.replies + waiting threads.old.threads ≤ replies.old.room }
    ensures state { threads.new ≡ (woken_due time count threads.old).sched }
    ensures told { replies_of replies.new.replies ≡ replies_of replies.old.replies ++ (woken_due time count threads.old).replies }
    ensures room { replies.new.room ≡ replies.old.room }
{
    for _ in 0..count {
        match first_due(time, threads) {
            None => return,
            Some(thread) => time_out(thread, threads, replies),
        }
    }
}
