// Calls on time, each by its row.
ghost use Rattle.std.specs.Prelude.{◌≡◌, ◌<◌, ◌+◌, ◌^◌, ℕ, length};
ghost use Rattle.nx_ksys.specs.Threads.{Schedule};
ghost use Rattle.nx_ksys.specs.State.{Group, KernelState};
ghost use Rattle.nx_ksys.specs.Gathered.{replies_of};
ghost use Rattle.nx_ksys.specs.TimeCalls.{sleep_row, ticks_row};
ghost use Rattle.nx_kernel.specs.Waking.{timed};
ghost use Rattle.nx_kernel.specs.Doing.{Does, caller_of};

use crate::calling::{Calling, refuse, succeed};
use crate::clock::Clock;
use nx_base::Errno;
use nx_ksys::{Replies, Wait};
use nx_sched::Threads;

/// `nx_ticks`: the time modulo 2^31.
#[tactic(auto, unfolding(nx_ksys::specs::TimeCalls::ticks_row))]
pub fn ticks(caller: Calling, clock: &Clock, replies: &mut Replies)
    requires room { length replies.old.replies < replies.old.room }
    ensures does { (k : KernelState) (place : ℕ) (group : Group) (sched : Schedule) → Does (timed k clock.now sched) (replies_of replies.old.replies) (replies_of replies.new.replies) (ticks_row (timed k clock.now sched) (caller_of caller place group)) }
    ensures room { replies.new.room ≡ replies.old.room }
{
    succeed(caller, (clock.time() % 2147483648) as u32, replies);
}

/// `nx_sleep`: the caller waits for so many ticks. EINVAL for a number below 0; with 0 it goes on.
#[tactic(auto, unfolding(nx_ksys::specs::TimeCalls::sleep_row))]
pub fn sleep(
    caller: Calling,
    ticks: u32,
    clock: &Clock,
    threads: &mut Threads,
    replies: &mut Replies,
)
    requires time { clock.now.time + ticks < 2 ^ 64 }
    requires moments { threads.old.moments + 1 < 2 ^ 64 }
    requires room { length replies.old.replies < replies.old.room }
    ensures does { (k : KernelState) (place : ℕ) (group : Group) → Does (timed k clock.now threads.new) (replies_of replies.old.replies) (replies_of replies.new.replies) (sleep_row (timed k clock.now threads.old) (caller_of caller place group) ticks) }
    ensures room { replies.new.room ≡ replies.old.room }
{
    if ticks >= 2147483648 {
        refuse(caller, Errno::Einval, threads, replies);
        return;
    }
    if ticks == 0 {
        succeed(caller, 0, replies);
        return;
    }
    let deadline = clock.time() + ticks as u64;
    threads.block(
        caller.thread.number,
        caller.asked,
        Wait::Sleep,
        Some(deadline),
    );
}
