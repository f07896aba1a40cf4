// Which queues and semaphores something leads to, or some thread waits on.
ghost use Rattle.std.specs.Prelude.{◌≡◌, ◌≤◌, ℕ, Option, length};
ghost use Rattle.std.specs.List.{list_any};
ghost use Rattle.nx_ksys.specs.Descriptors.{leads_to_queue as leads_to_queue_of, is_open_queue, awaits_queue as awaits_queue_of, leads_to_semaphore as leads_to_semaphore_of, is_open_semaphore, awaits_semaphore as awaits_semaphore_of};
ghost use Rattle.nx_ksys.specs.Threads.{is_for_message, is_for_room, is_for_semaphore};

use nx_group::Descriptions;
use nx_ksys::{Open, Target, Thread, Wait};
use nx_sched::awaited;

fn leads_to_queue(place: u32, target: Target) -> bool
    ensures { result ≡ leads_to_queue_of place target }
{
    match target {
        Target::Queue(other) => other == place,
        _ => false,
    }
}

fn opens_queue(place: u32, description: Option<Open>) -> bool
    ensures { result ≡ is_open_queue place description }
{
    match description {
        None => false,
        Some(description) => leads_to_queue(place, description.target),
    }
}

/// Whether some description leads to the queue at a place.
pub fn is_queue_open(place: u32, descriptions: &Descriptions, count: usize) -> bool
    requires { length descriptions.now ≤ count }
    ensures { result ≡ list_any (is_open_queue place) descriptions.now }
{
    for at in 0..count {
        if opens_queue(place, descriptions.get(at)) {
            return true;
        }
    }
    false
}

fn leads_to_semaphore(place: u32, target: Target) -> bool
    ensures { result ≡ leads_to_semaphore_of place target }
{
    match target {
        Target::Semaphore(other) => other == place,
        _ => false,
    }
}

fn opens_semaphore(place: u32, description: Option<Open>) -> bool
    ensures { result ≡ is_open_semaphore place description }
{
    match description {
        None => false,
        Some(description) => leads_to_semaphore(place, description.target),
    }
}

/// Whether some description leads to the semaphore at a place.
pub fn is_semaphore_open(place: u32, descriptions: &Descriptions, count: usize) -> bool
    requires { length descriptions.now ≤ count }
    ensures { result ≡ list_any (is_open_semaphore place) descriptions.now }
{
    for at in 0..count {
        if opens_semaphore(place, descriptions.get(at)) {
            return true;
        }
    }
    false
}

fn awaits_message(place: u32, wait: Option<Wait>) -> bool
    ensures { result ≡ is_for_message place wait }
{
    match wait {
        Some(Wait::Receive(queue)) => queue == place,
        _ => false,
    }
}

fn awaits_room(place: u32, wait: Option<Wait>) -> bool
    ensures { result ≡ is_for_room place wait }
{
    match wait {
        Some(Wait::Send(queue)) => queue == place,
        _ => false,
    }
}

fn awaits_queue(place: u32, thread: &Option<Thread>) -> bool
    ensures { result ≡ awaits_queue_of place thread.now }
{
    match thread {
        None => false,
        Some(thread) => {
            awaits_message(place, awaited(thread.doing))
                || awaits_room(place, awaited(thread.doing))
        }
    }
}

/// Whether some thread waits on the queue at a place.
pub fn is_queue_awaited(place: u32, threads: &[Option<Thread>]) -> bool
    ensures { result ≡ list_any (awaits_queue_of place) threads.now }
{
    for thread in threads {
        if awaits_queue(place, thread) {
            return true;
        }
    }
    false
}

fn is_for_semaphore_at(place: u32, wait: Option<Wait>) -> bool
    ensures { result ≡ is_for_semaphore place wait }
{
    match wait {
        Some(Wait::Semaphore(semaphore)) => semaphore == place,
        _ => false,
    }
}

fn awaits_semaphore(place: u32, thread: &Option<Thread>) -> bool
    ensures { result ≡ awaits_semaphore_of place thread.now }
{
    match thread {
        None => false,
        Some(thread) => is_for_semaphore_at(place, awaited(thread.doing)),
    }
}

/// Whether some thread waits on the semaphore at a place.
pub fn is_semaphore_awaited(place: u32, threads: &[Option<Thread>]) -> bool
    ensures { result ≡ list_any (awaits_semaphore_of place) threads.now }
{
    for thread in threads {
        if awaits_semaphore(place, thread) {
            return true;
        }
    }
    false
}
