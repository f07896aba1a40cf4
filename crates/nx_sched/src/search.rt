ghost use Rattle.std.specs.Prelude.{◌≡◌, Option, None};
ghost use Rattle.nx_ksys.specs.Threads.{since_of, deadline_of, is_ready, is_timed, awaited as awaited_by, is_for_child, is_for_thread, is_for_message, is_for_room, is_for_semaphore, is_sought, comes_before, is_due_before, precedes, better, best_step, best_from, first_of, is_numbered, flat};
ghost use Rattle.std.specs.List.{find as find_first, position_from};
ghost use Rattle.std.specs.Option.{is_none};

use nx_ksys::{Doing, Search, Thread, Wait};

fn since(doing: Doing) -> u64
    ensures { result ≡ since_of doing }
{
    match doing {
        Doing::Ready(since) => since,
        Doing::Waits(_, since) => since,
        Doing::Until(_, since, _) => since,
    }
}

/// A deadline in ticks, 0 where there is none.
pub fn deadline(doing: Doing) -> u64
    ensures { result ≡ deadline_of doing }
{
    match doing {
        Doing::Ready(_) => 0,
        Doing::Waits(_, _) => 0,
        Doing::Until(_, _, deadline) => deadline,
    }
}

fn is_ready_now(doing: Doing) -> bool
    ensures { result ≡ is_ready doing }
{
    matches!(doing, Doing::Ready(_))
}

fn has_deadline(doing: Doing) -> bool
    ensures { result ≡ is_timed doing }
{
    matches!(doing, Doing::Until(_, _, _))
}

/// What a thread waits for.
pub fn awaited(doing: Doing) -> Option<Wait>
    ensures { result ≡ awaited_by doing }
{
    match doing {
        Doing::Ready(_) => None,
        Doing::Waits(wait, _) => Some(wait),
        Doing::Until(wait, _, _) => Some(wait),
    }
}

fn awaits_child(child: u32, wait: Option<Wait>) -> bool
    ensures { result ≡ is_for_child child wait }
{
    match wait {
        Some(Wait::Child(number)) => number == child,
        Some(Wait::AnyChild) => true,
        _ => false,
    }
}

fn awaits_thread(number: u32, wait: Option<Wait>) -> bool
    ensures { result ≡ is_for_thread number wait }
{
    match wait {
        Some(Wait::Thread(thread)) => thread == number,
        _ => false,
    }
}

fn awaits_message(place: u32, wait: Option<Wait>) -> bool
    ensures { result ≡ is_for_message place wait }
{
    match wait {
        Some(Wait::Receive(queue)) => queue == place,
        _ => false,
    }
}

fn awaits_room(place: u32, wait: Option<Wait>) -> bool
    ensures { result ≡ is_for_room place wait }
{
    match wait {
        Some(Wait::Send(queue)) => queue == place,
        _ => false,
    }
}

fn awaits_semaphore(place: u32, wait: Option<Wait>) -> bool
    ensures { result ≡ is_for_semaphore place wait }
{
    match wait {
        Some(Wait::Semaphore(semaphore)) => semaphore == place,
        _ => false,
    }
}

/// Whether a thread is of the sort that is looked for.
fn passes(search: Search, thread: &Thread) -> bool
    ensures { result ≡ is_sought search thread.now }
{
    match search {
        Search::Ready => is_ready_now(thread.doing),
        Search::Timed => has_deadline(thread.doing),
        Search::Parent(group, child) => {
            thread.group == group && awaits_child(child, awaited(thread.doing))
        }
        Search::Joiner(number) => awaits_thread(number, awaited(thread.doing)),
        Search::Receiver(place) => awaits_message(place, awaited(thread.doing)),
        Search::Sender(place) => awaits_room(place, awaited(thread.doing)),
        Search::Waiter(place) => awaits_semaphore(place, awaited(thread.doing)),
    }
}

/// Whether a thread has the greater priority, or the same and the earlier moment.
pub fn runs_before(thread: &Thread, other: &Thread) -> bool
    ensures { result ≡ comes_before thread.now other.now }
{
    let earlier = since(thread.doing) < since(other.doing);
    other.priority < thread.priority || (thread.priority == other.priority && earlier)
}

fn due_before(thread: &Thread, other: &Thread) -> bool
    ensures { result ≡ is_due_before thread.now other.now }
{
    let earlier = since(thread.doing) < since(other.doing);
    let mine = deadline(thread.doing);
    let others = deadline(other.doing);
    mine < others || (mine == others && earlier)
}

fn is_before(search: Search, thread: &Thread, other: &Thread) -> bool
    ensures { result ≡ precedes search thread.now other.now }
{
    match search {
        Search::Timed => due_before(thread, other),
        Search::Ready => runs_before(thread, other),
        Search::Parent(_, _) => runs_before(thread, other),
        Search::Joiner(_) => runs_before(thread, other),
        Search::Receiver(_) => runs_before(thread, other),
        Search::Sender(_) => runs_before(thread, other),
        Search::Waiter(_) => runs_before(thread, other),
    }
}

fn better_of(search: Search, thread: Thread, best: Option<Thread>) -> Option<Thread>
    ensures { result ≡ better (precedes search) thread best }
{
    match best {
        None => Some(thread),
        Some(other) => {
            if is_before(search, &thread, &other) {
                Some(thread)
            } else {
                Some(other)
            }
        }
    }
}

fn step(search: Search, best: Option<Thread>, slot: Option<Thread>) -> Option<Thread>
    ensures { result ≡ best_step (is_sought search) (precedes search) best slot }
{
    match slot {
        None => best,
        Some(thread) => {
            if passes(search, &thread) {
                better_of(search, thread, best)
            } else {
                best
            }
        }
    }
}

/// The first thread of a sort.
#[tactic(auto, unfolding(nx_ksys::specs::Threads::first_of))]
pub fn first(search: Search, slots: &[Option<Thread>]) -> Option<Thread>
    ensures { result ≡ first_of search slots.now }
{
    let mut best = None;
    for slot in slots {
        best = step(search, best, *slot);
    }
    best
}

fn has_number(number: u32, slot: Option<Thread>) -> bool
    ensures { result ≡ is_numbered number slot }
{
    match slot {
        None => false,
        Some(thread) => thread.number == number,
    }
}

/// The thread of a number.
pub fn find(number: u32, slots: &[Option<Thread>]) -> Option<Thread>
    ensures { result ≡ flat (find_first (is_numbered number) slots.now) }
{
    for slot in slots {
        if has_number(number, *slot) {
            return *slot;
        }
    }
    None
}

/// The slot of the thread of a number.
pub fn find_slot(number: u32, slots: &[Option<Thread>]) -> Option<usize>
    ensures { result ≡ position_from (is_numbered number) 0 slots.now }
{
    for (i, slot) in slots.iter().enumerate() {
        if has_number(number, *slot) {
            return Some(i);
        }
    }
    None
}

/// The first slot without a thread.
pub fn find_free(slots: &[Option<Thread>]) -> Option<usize>
    ensures { result ≡ position_from is_none 0 slots.now }
{
    for (i, slot) in slots.iter().enumerate() {
        if slot.is_none() {
            return Some(i);
        }
    }
    None
}
