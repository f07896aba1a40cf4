// Threads that wait for a child where there is none.
ghost use Rattle.std.specs.Prelude.{◌≡◌, ◌<◌, ◌≤◌, ◌+◌, ◌^◌, ◌++◌, None, length};
ghost use Rattle.nx_ksys.specs.Threads.{comes_before, better, best_step, best_from};
ghost use Rattle.nx_ksys.specs.Gathered.{replies_of};
ghost use Rattle.nx_ksys.specs.Ends.{is_lost, is_lost_wait, first_lost as first_lost_of, refuse_lost as refused_lost};
ghost use Rattle.nx_group.specs.Waiting.{waiting};

use crate::code::Codes;
use crate::groups::Groups;
use nx_base::Errno;
use nx_ksys::{Replies, Thread, Wait};
use nx_sched::{Threads, awaited, runs_before};

// Whether a group's thread waits for a child where there is none.
fn waits_in_vain(groups: &Groups, codes: &Codes, parent: u32, wait: Option<Wait>) -> bool
    ensures { result ≡ is_lost_wait groups.now codes.now.codes parent wait }
{
    match wait {
        Some(Wait::Child(child)) => {
            !(groups.has_child(parent, child) || codes.has(parent, child))
        }
        Some(Wait::AnyChild) => !(groups.has_any_child(parent) || codes.has_any(parent)),
        _ => false,
    }
}

fn is_lost_thread(groups: &Groups, codes: &Codes, parent: u32, thread: &Thread) -> bool
    ensures { result ≡ is_lost groups.now codes.now.codes parent thread.now }
{
    thread.group == parent && waits_in_vain(groups, codes, parent, awaited(thread.doing))
}

fn better_of(thread: Thread, best: Option<Thread>) -> Option<Thread>
    ensures { result ≡ better comes_before thread best }
{
    match best {
        None => Some(thread),
        Some(other) => {
            if runs_before(&thread, &other) {
                Some(thread)
            } else {
                Some(other)
            }
        }
    }
}

fn step(
    groups: &Groups,
    codes: &Codes,
    parent: u32,
    best: Option<Thread>,
    slot: Option<Thread>,
) -> Option<Thread>
    ensures { result ≡ best_step (is_lost groups.now codes.now.codes parent) comes_before best slot }
{
    match slot {
        None => best,
        Some(thread) => {
            if is_lost_thread(groups, codes, parent, &thread) {
                better_of(thread, best)
            } else {
                best
            }
        }
    }
}

fn first_of(groups: &Groups, codes: &Codes, parent: u32, slots: &[Option<Thread>]) -> Option<Thread>
    ensures { result ≡ best_from (is_lost groups.now codes.now.codes parent) comes_before None slots.now }
{
    let mut best = None;
    for slot in slots {
        best = step(groups, codes, parent, best, *slot);
    }
    best
}

/// Of a group's threads that wait for a child where there is none, the first by the schedule's
/// order.
#[tactic(auto, unfolding(nx_ksys::specs::Ends::first_lost))]
pub fn first_lost(groups: &Groups, codes: &Codes, parent: u32, threads: &Threads) -> Option<Thread>
    ensures { result ≡ first_lost_of groups.now codes.now.codes parent threads.now }
{
    first_of(groups, codes, parent, threads.as_slice())
}

// At most so many of them go on.
fn refuse_some(
    count: usize,
    groups: &Groups,
    codes: &Codes,
    parent: u32,
    threads: &mut Threads,
    replies: &mut Replies,
)
    requires moments { threads.old.moments + waiting threads.old.threads < 2 ^ 64 }
    requires room { length replies.old.replies + waiting threads.old.threads ≤ replies.old.room }
    ensures state { threads.new ≡ (refused_lost groups.now codes.now.codes parent count threads.old).sched }
    ensures told { replies_of replies.new.replies ≡ replies_of replies.old.replies ++ (refused_lost groups.now codes.now.codes parent count threads.old).replies }
    ensures room { replies.new.room ≡ replies.old.room }
{
    for _ in 0..count {
        match first_lost(groups, codes, parent, threads) {
            None => return,
            Some(thread) => {
                threads.wake(thread.number);
                threads.fail(thread.number, Errno::Echild);
                replies.fail(thread.number, Errno::Echild);
            }
        }
    }
}

/// A group's threads that wait for a child where there is none go on, one after the other, and
/// their calls fail with ECHILD.
pub fn refuse_lost(
    groups: &Groups,
    codes: &Codes,
    parent: u32,
    threads: &mut Threads,
    replies: &mut Replies,
)
    requires moments { threads.old.moments + waiting threads.old.threads < 2 ^ 64 }
    requires room { length replies.old.replies + waiting threads.old.threads ≤ replies.old.room }
    ensures state { threads.new ≡ (refused_lost groups.now codes.now.codes parent (length threads.old.threads) threads.old).sched }
    ensures told { replies_of replies.new.replies ≡ replies_of replies.old.replies ++ (refused_lost groups.now codes.now.codes parent (length threads.old.threads) threads.old).replies }
    ensures room { replies.new.room ≡ replies.old.room }
{
    let count = threads.as_slice().len();
    refuse_some(count, groups, codes, parent, threads, replies);
}
