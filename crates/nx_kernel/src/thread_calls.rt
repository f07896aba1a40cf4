// Calls on threads that leave the groups alone, each by its row.
ghost use Rattle.std.specs.Prelude.{◌≡◌, ◌<◌, ◌≤◌, ◌+◌, ◌^◌, ◌==◌, ℕ, nat_abs, length, if◌then◌else◌};
ghost use Rattle.nx_ksys.specs.State.{Group, KernelState};
ghost use Rattle.nx_ksys.specs.Gathered.{replies_of};
ghost use Rattle.nx_ksys.specs.ThreadCalls.{yield_row, errno_row, setpriority_row};
ghost use Rattle.nx_kernel.specs.Doing.{Does, caller_of};
ghost use Rattle.nx_kernel.specs.Waking.{scheduled};

use crate::calling::{Calling, refuse, succeed};
use nx_base::Errno;
use nx_ksys::Replies;
use nx_sched::Threads;

/// `sched_yield`: a ready caller stands after its equals.
#[tactic(auto, unfolding(nx_ksys::specs::ThreadCalls::yield_row))]
pub fn yield_now(caller: Calling, threads: &mut Threads, replies: &mut Replies)
    requires moments { threads.old.moments + 1 < 2 ^ 64 }
    requires room { length replies.old.replies < replies.old.room }
    ensures does { (k : KernelState) (place : ℕ) (group : Group) → Does (scheduled k threads.new) (replies_of replies.old.replies) (replies_of replies.new.replies) (yield_row (scheduled k threads.old) (caller_of caller place group)) }
    ensures room { replies.new.room ≡ replies.old.room }
{
    threads.yield_now(caller.thread.number);
    succeed(caller, 0, replies);
}

/// `nx_setpriority`: a thread of the caller's group, the caller for 0, has this priority, and stands
/// after its new equals. EINVAL where it is no live thread of the group, and for a priority of 0 or
/// over 255.
#[tactic(auto, unfolding(nx_ksys::specs::ThreadCalls::setpriority_row))]
pub fn set_priority(
    caller: Calling,
    group: u32,
    thread: u32,
    priority: u32,
    threads: &mut Threads,
    replies: &mut Replies,
)
    requires moments { threads.old.moments + 1 < 2 ^ 64 }
    requires room { length replies.old.replies < replies.old.room }
    ensures does { (k : KernelState) (place : ℕ) (g : Group) → g.number ≡ group → Does (scheduled k threads.new) (replies_of replies.old.replies) (replies_of replies.new.replies) (setpriority_row (scheduled k threads.old) (caller_of caller place g) thread priority) }
    ensures room { replies.new.room ≡ replies.old.room }
{
    let number = if thread == 0 {
        caller.thread.number
    } else {
        thread
    };
    match threads.thread(number) {
        None => refuse(caller, Errno::Einval, threads, replies),
        Some(other) => {
            if other.group != group || priority == 0 || priority > 255 {
                refuse(caller, Errno::Einval, threads, replies);
                return;
            }
            threads.prioritise(other.number, priority as u8);
            succeed(caller, 0, replies);
        }
    }
}

/// `get_errno`: the caller's last error number.
#[tactic(auto, unfolding(nx_ksys::specs::ThreadCalls::errno_row))]
pub fn errno(caller: Calling, replies: &mut Replies)
    requires errno { nat_abs caller.thread.errno < 2 ^ 31 }
    requires room { length replies.old.replies < replies.old.room }
    ensures does { (k : KernelState) (place : ℕ) (group : Group) → Does k (replies_of replies.old.replies) (replies_of replies.new.replies) (errno_row k (caller_of caller place group)) }
    ensures room { replies.new.room ≡ replies.old.room }
{
    succeed(caller, caller.thread.errno.unsigned_abs(), replies);
}
