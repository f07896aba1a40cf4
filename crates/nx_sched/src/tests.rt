use super::*;
use nx_base::{Errno, KCall};
use nx_ksys::{Asked, Doing, Search, Thread, Wait};
use std::test::Fail;

fn thread(number: u32, priority: u8) -> Thread {
    Thread {
        number,
        group: 1,
        priority,
        errno: 0,
        doing: Doing::Ready(0),
        asked: Asked {
            call: None,
            words: [0; 6],
        },
    }
}

/// The number of the first thread of a sort, 0 where there is none.
fn first(threads: &Threads, search: Search) -> u32 {
    match threads.first(search) {
        Some(thread) => thread.number,
        None => 0,
    }
}

#[test]
fn the_greatest_priority_that_became_ready_first_runs(rt: HostRuntime) -> Result<(), Fail> {
    let mut threads = Threads::new(rt.alloc(), 4)?;
    assert_eq!(rt; first(&threads, Search::Ready), 0);
    assert_eq!(rt; threads.free_slot(), Some(0));
    threads.begin(0, thread(1, 100));
    threads.begin(1, thread(2, 100));
    threads.begin(3, thread(3, 50));
    assert_eq!(rt; threads.free_slot(), Some(2));
    assert_eq!(rt; threads.slot_of(3), Some(3));
    assert_eq!(rt; first(&threads, Search::Ready), 1);
    threads.yield_now(1);
    assert_eq!(rt; first(&threads, Search::Ready), 2);
    threads.prioritise(3, 200);
    assert_eq!(rt; first(&threads, Search::Ready), 3);
    Ok(())
}

#[test]
#[tactic(auto, unfolding(nx_ksys::specs::Threads::block, nx_ksys::specs::Threads::wake, nx_ksys::specs::Threads::with_error))]
fn waiters_are_served_by_priority_and_wake_after_their_equals(rt: HostRuntime) -> Result<(), Fail> {
    let mut threads = Threads::new(rt.alloc(), 4)?;
    let asked = Asked {
        call: Some(KCall::NxSemWait),
        words: [3, 0, 0, 0, 0, 0],
    };
    threads.begin(0, thread(1, 100));
    threads.begin(1, thread(2, 90));
    threads.begin(2, thread(3, 100));
    threads.block(2, asked, Wait::Semaphore(7), None);
    threads.block(1, asked, Wait::Semaphore(7), Some(12));
    assert_eq!(rt; first(&threads, Search::Waiter(7)), 1);
    assert_eq!(rt; first(&threads, Search::Waiter(6)), 0);
    assert_eq!(rt; first(&threads, Search::Timed), 1);
    threads.wake(1);
    threads.fail(1, Errno::Etimedout);
    assert_eq!(rt; first(&threads, Search::Waiter(7)), 2);
    assert_eq!(rt; first(&threads, Search::Ready), 3);
    match threads.thread(1) {
        Some(found) => assert_eq!(rt; found.errno, 110),
        None => assert!(rt; false),
    }
    threads.end_thread(3);
    assert_eq!(rt; first(&threads, Search::Ready), 1);
    threads.end_group(1);
    assert!(rt; threads.thread(1).is_none() && threads.thread(2).is_none());
    Ok(())
}
