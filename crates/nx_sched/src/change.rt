ghost use Rattle.std.specs.Prelude.{◌≡◌, Option, map};
ghost use Rattle.nx_ksys.specs.Threads.{begin_wait, changed, change_thread};
ghost use Rattle.nx_ksys.specs.ThreadCalls.{at_the_end};
ghost use Rattle.nx_sched.specs.Changes.{change_of, left_by};

use nx_base::Errno;
use nx_ksys::{Asked, Doing, Thread, Wait};

/// What is done to a thread.
#[derive(Clone, Copy, Debug)]
pub enum Change {
    /// It is ready, after all that are.
    Wake,
    /// It waits in this call, for this, perhaps up to a deadline.
    Block(Asked, Wait, Option<u64>),
    /// Its last error is this.
    Fail(Errno),
    /// It has this priority, and stands after its new equals.
    Prioritise(u8),
    /// It stands after its equals.
    Yield,
}

/// Which threads go.
#[derive(Clone, Copy, Debug)]
pub enum Removal {
    /// Those of the group of this number.
    Group(u32),
    /// The one of this number.
    Thread(u32),
}

fn waiting(moment: u64, wait: Wait, deadline: Option<u64>) -> Doing
    ensures { result ≡ begin_wait moment wait deadline }
{
    match deadline {
        None => Doing::Waits(wait, moment),
        Some(deadline) => Doing::Until(wait, moment, deadline),
    }
}

fn at_end(moment: u64, doing: Doing) -> Doing
    ensures { result ≡ at_the_end moment doing }
{
    match doing {
        Doing::Ready(_) => Doing::Ready(moment),
        Doing::Waits(wait, since) => Doing::Waits(wait, since),
        Doing::Until(wait, since, deadline) => Doing::Until(wait, since, deadline),
    }
}

fn with_change(change: Change, moment: u64, thread: Thread) -> Thread
    ensures { result ≡ change_of change moment thread }
{
    match change {
        Change::Wake => Thread {
            doing: Doing::Ready(moment),
            ..thread
        },
        Change::Block(asked, wait, deadline) => Thread {
            doing: waiting(moment, wait, deadline),
            asked,
            ..thread
        },
        Change::Fail(errno) => Thread {
            errno: errno.number(),
            ..thread
        },
        Change::Prioritise(priority) => Thread {
            priority,
            doing: at_end(moment, thread.doing),
            ..thread
        },
        Change::Yield => Thread {
            doing: at_end(moment, thread.doing),
            ..thread
        },
    }
}

fn changed_if(number: u32, change: Change, moment: u64, slot: Option<Thread>) -> Option<Thread>
    ensures { result ≡ changed number (change_of change moment) slot }
{
    match slot {
        None => None,
        Some(thread) => {
            if thread.number == number {
                Some(with_change(change, moment, thread))
            } else {
                Some(thread)
            }
        }
    }
}

/// Changes the thread of a number.
#[tactic(auto, unfolding(nx_ksys::specs::Threads::change_thread))]
pub fn change_one(number: u32, change: Change, moment: u64, slots: &mut [Option<Thread>])
    ensures { slots.new ≡ change_thread number (change_of change moment) slots.old }
{
    for i in 0..slots.len() {
        slots[i] = changed_if(number, change, moment, slots[i]);
    }
}

fn left(removal: Removal, slot: Option<Thread>) -> Option<Thread>
    ensures { result ≡ left_by removal slot }
{
    match slot {
        None => None,
        Some(thread) => {
            let goes = match removal {
                Removal::Group(group) => thread.group == group,
                Removal::Thread(number) => thread.number == number,
            };
            if goes { None } else { Some(thread) }
        }
    }
}

/// Takes threads away.
pub fn remove(removal: Removal, slots: &mut [Option<Thread>])
    ensures { slots.new ≡ map (left_by removal) slots.old }
{
    for i in 0..slots.len() {
        slots[i] = left(removal, slots[i]);
    }
}
