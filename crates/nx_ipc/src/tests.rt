ghost use Rattle.std.specs.Prelude.{◌≤◌, length, IfOk};
ghost use Rattle.nx_pool.specs.Moves.{AreHeld};
ghost use Rattle.nx_ipc.specs.Tables.{chains_of};

use super::*;
use nx_base::{Errno, OutOfMemory};
use nx_ksys::{Asked, Doing, Node, NodeKind, Thread, Wait};
use nx_pool::{BlockStore, VecBlocks};
use std::alloc::Global;
use std::test::Fail;

// A store of so many blocks, and one queue at place 0 for so many messages of so many bytes.
#[tactic(auto, using(crate::proofs::Messages::held_at_first))]
fn with_queue(
    alloc: Global,
    blocks: u32,
    limit: u32,
    size: u32,
) -> Result<(VecBlocks, Queues), OutOfMemory>
    requires { blocks ≤ 65536 }
    ensures { IfOk result (λ p. AreHeld (⟦<VecBlocks as BlockStore>⟧.holds p.0) (chains_of p.1)) }
{
    let store = VecBlocks::new(alloc, blocks)?;
    let mut queues = Queues::new(alloc, 2, 3)?;
    queues.make(0, limit, size);
    Ok((store, queues))
}

fn joins(queues: &mut Queues, bytes: &[u8], priority: u32, store: &mut VecBlocks) -> bool
    requires held { AreHeld (⟦<VecBlocks as BlockStore>⟧.holds store.old) (chains_of queues.old) }
    requires short { length bytes.now ≤ 64 }
    ensures { AreHeld (⟦<VecBlocks as BlockStore>⟧.holds store.new) (chains_of queues.new) }
{
    let sent = queues.send(0, 2, bytes, bytes.len() as u32, priority, None, None, store);
    matches!(sent, Ok(Sent::Joined))
}

fn four_join(queues: &mut Queues, bytes: &[u8], store: &mut VecBlocks) -> bool
    requires held { AreHeld (⟦<VecBlocks as BlockStore>⟧.holds store.old) (chains_of queues.old) }
    requires short { length bytes.now ≤ 64 }
    ensures { AreHeld (⟦<VecBlocks as BlockStore>⟧.holds store.new) (chains_of queues.new) }
{
    let first = joins(queues, bytes, 0, store);
    let second = joins(queues, bytes, 0, store);
    let third = joins(queues, bytes, 0, store);
    let fourth = joins(queues, bytes, 0, store);
    first && second && third && fourth
}

// Why a message of no bytes is refused.
fn refusal(
    queues: &mut Queues,
    place: u32,
    flags: u32,
    size: u32,
    priority: u32,
    store: &mut VecBlocks,
) -> Option<Errno>
    requires { AreHeld (⟦<VecBlocks as BlockStore>⟧.holds store.old) (chains_of queues.old) }
    ensures { AreHeld (⟦<VecBlocks as BlockStore>⟧.holds store.new) (chains_of queues.new) }
{
    match queues.send(place, flags, b"", size, priority, None, None, store) {
        Err(fault) => Some(fault),
        Ok(_) => None,
    }
}

// The first byte of the message that a call with room for 8 receives, and its priority.
fn receives(queues: &mut Queues, store: &mut VecBlocks) -> Option<(u8, u32)>
    requires { AreHeld (⟦<VecBlocks as BlockStore>⟧.holds store.old) (chains_of queues.old) }
    ensures { AreHeld (⟦<VecBlocks as BlockStore>⟧.holds store.new) (chains_of queues.new) }
{
    let mut buffer = [0; 8];
    match queues.receive(0, 1, 8, None, None, None, &mut buffer, store) {
        Ok(Received::Message(taken)) => Some((buffer[0], taken.priority)),
        _ => None,
    }
}

// What a call that receives up to 8 bytes comes to: the number of its error, 0 where it waits.
fn comes_to(queues: &mut Queues, flags: u32, size: u32, ticks: u32, store: &mut VecBlocks) -> i32
    requires held { AreHeld (⟦<VecBlocks as BlockStore>⟧.holds store.old) (chains_of queues.old) }
    requires size { size ≤ 8 }
    ensures { AreHeld (⟦<VecBlocks as BlockStore>⟧.holds store.new) (chains_of queues.new) }
{
    let mut buffer = [0; 8];
    match queues.receive(0, flags, size, Some(ticks), None, None, &mut buffer, store) {
        Err(fault) => fault.number(),
        Ok(Received::Waits) => 0,
        Ok(Received::Message(_)) => -1,
    }
}

fn waiting(number: u32, group: u32, wait: Wait) -> Thread {
    Thread {
        number,
        group,
        priority: 100,
        errno: 0,
        doing: Doing::Waits(wait, 1),
        asked: Asked {
            call: None,
            words: [0; 6],
        },
    }
}

#[test]
fn messages_come_by_priority_and_then_by_age(rt: HostRuntime) -> Result<(), Fail> {
    let (mut store, mut queues) = with_queue(rt.alloc(), 16, 4, 8)?;
    assert!(rt; joins(&mut queues, b"a", 1, &mut store));
    assert!(rt; joins(&mut queues, b"b", 5, &mut store));
    assert!(rt; joins(&mut queues, b"c", 5, &mut store));
    assert_eq!(rt; store.free(), 13);
    assert_eq!(rt; receives(&mut queues, &mut store), Some((b'b', 5)));
    assert_eq!(rt; receives(&mut queues, &mut store), Some((b'c', 5)));
    assert_eq!(rt; receives(&mut queues, &mut store), Some((b'a', 1)));
    assert_eq!(rt; store.free(), 16);
    Ok(())
}

#[test]
fn the_seventeenth_block_is_refused(rt: HostRuntime) -> Result<(), Fail> {
    let (mut store, mut queues) = with_queue(rt.alloc(), 16, 32, 64)?;
    let long = [b'x'; 64];
    assert!(rt; four_join(&mut queues, &long, &mut store));
    assert!(rt; four_join(&mut queues, &long, &mut store));
    assert!(rt; four_join(&mut queues, &long, &mut store));
    assert!(rt; four_join(&mut queues, &long, &mut store));
    assert!(rt;
        matches!(
            queues.send(0, 2, &long, 64, 0, None, None, &mut store),
            Err(Errno::Enospc)
        )
    );
    let receiver = waiting(7, 1, Wait::Receive(0));
    match queues.send(0, 2, &long, 64, 0, Some(receiver), None, &mut store) {
        Ok(Sent::Delivered(thread)) => assert_eq!(rt; thread.number, 7),
        _ => assert!(rt; false),
    }
    queues.sweep(0, true, &mut store);
    assert_eq!(rt; (queues.count(), store.free()), (1, 0));
    queues.sweep(0, false, &mut store);
    assert_eq!(rt; (queues.count(), store.free()), (0, 16));
    Ok(())
}

#[test]
fn a_full_queue_makes_its_senders_wait(rt: HostRuntime) -> Result<(), Fail> {
    let (mut store, mut queues) = with_queue(rt.alloc(), 16, 1, 8)?;
    assert!(rt; joins(&mut queues, b"a", 0, &mut store));
    assert!(rt;
        matches!(
            queues.send(0, 66, b"b", 1, 0, None, Some(0), &mut store),
            Err(Errno::Eagain)
        )
    );
    assert!(rt;
        matches!(
            queues.send(0, 2, b"b", 1, 9, None, Some(1), &mut store),
            Ok(Sent::Waits)
        )
    );
    assert!(rt;
        matches!(
            queues.send(0, 2, b"c", 1, 9, None, Some(2), &mut store),
            Ok(Sent::Waits)
        )
    );
    assert_eq!(rt; store.free(), 13);
    let mut buffer = [0; 8];
    let sender = waiting(5, 4, Wait::Send(0));
    let first = queues.receive(
        0,
        1,
        8,
        None,
        Some(sender),
        Some(1),
        &mut buffer,
        &mut store,
    );
    assert!(rt; matches!(first, Ok(Received::Message(_))));
    assert_eq!(rt; receives(&mut queues, &mut store), Some((b'b', 9)));
    assert_eq!(rt; store.free(), 15);
    let threads = [None, None, Some(waiting(6, 4, Wait::Send(0)))];
    queues.give_up(3, &threads, &mut store);
    assert_eq!(rt; store.free(), 15);
    queues.give_up(4, &threads, &mut store);
    assert_eq!(rt; store.free(), 16);
    Ok(())
}

#[test]
fn refusals_of_sends_and_receives(rt: HostRuntime) -> Result<(), Fail> {
    let (mut store, mut queues) = with_queue(rt.alloc(), 16, 4, 8)?;
    assert_eq!(rt;
        refusal(&mut queues, 1, 3, 1, 0, &mut store),
        Some(Errno::Ebadf)
    );
    assert_eq!(rt;
        refusal(&mut queues, 0, 1, 9, 32, &mut store),
        Some(Errno::Ebadf)
    );
    assert_eq!(rt;
        refusal(&mut queues, 0, 2, 9, 32, &mut store),
        Some(Errno::Einval)
    );
    assert_eq!(rt;
        refusal(&mut queues, 0, 2, 9, 31, &mut store),
        Some(Errno::Emsgsize)
    );
    assert_eq!(rt; comes_to(&mut queues, 2, 7, 4294967295, &mut store), 9);
    assert_eq!(rt; comes_to(&mut queues, 1, 7, 4294967295, &mut store), 22);
    assert_eq!(rt; comes_to(&mut queues, 1, 7, 0, &mut store), 90);
    assert_eq!(rt; comes_to(&mut queues, 65, 8, 0, &mut store), 11);
    assert_eq!(rt; comes_to(&mut queues, 1, 8, 0, &mut store), 110);
    assert_eq!(rt; comes_to(&mut queues, 1, 8, 5, &mut store), 0);
    Ok(())
}

#[test]
fn names_and_openings_of_queues(rt: HostRuntime) -> Result<(), Fail> {
    match opening_path(b"/q", 7) {
        Ok(path) => assert_eq!(rt; path.as_slice(), b"/var/mqueue/q".as_slice()),
        Err(_) => assert!(rt; false),
    }
    for (name, flags) in [
        (b"q".as_slice(), 7),
        (b"/", 7),
        (b"//q", 7),
        (b"/q/", 7),
        (b"/..", 7),
        (b"/123456789012345678901234567890123", 7),
        (b"/q", 4),
        (b"/q", 17),
        (b"/q", 128),
    ] {
        assert!(rt; matches!(opening_path(name, flags), Err(Errno::Einval)));
    }
    assert!(rt;
        unlinking_path(b"/12345678901234567890123456789012").is_ok()
            && unlinking_path(b"/a/b").is_err()
    );
    let (_store, queues) = with_queue(rt.alloc(), 16, 4, 8)?;
    let there = Node {
        kind: NodeKind::Queue(0),
        fixed: false,
    };
    assert!(rt;
        matches!(
            queues.open(Some(there), 7, 0, 0, true),
            Ok(Opening::Found(0))
        )
    );
    assert!(rt;
        matches!(
            queues.open(Some(there), 15, 1, 1, false),
            Err(Errno::Eexist)
        )
    );
    assert!(rt; matches!(queues.open(None, 7, 64, 4096, false), Ok(Opening::Made(1))));
    for (flags, limit, size, is_full, wanted) in [
        (3, 0, 0, true, Errno::Enoent),
        (7, 65, 1, true, Errno::Einval),
        (7, 1, 4097, true, Errno::Einval),
        (7, 0, 1, false, Errno::Einval),
        (7, 1, 1, true, Errno::Enospc),
    ] {
        match queues.open(None, flags, limit, size, is_full) {
            Err(fault) => assert_eq!(rt; fault, wanted),
            Ok(_) => assert!(rt; false),
        }
    }
    Ok(())
}

#[test]
fn a_post_wakes_or_counts(rt: HostRuntime) -> Result<(), Fail> {
    let mut semaphores = Semaphores::new(rt.alloc(), 2)?;
    assert!(rt; matches!(semaphores.open(b"s", 4, 32767, false), Ok(Opening::Made(0))));
    assert!(rt; matches!(semaphores.open(b"s", 0, 0, false), Err(Errno::Enoent)));
    assert!(rt; matches!(semaphores.open(b"s", 4, 32768, true), Err(Errno::Einval)));
    assert!(rt; matches!(semaphores.open(b"s", 4, 0, true), Err(Errno::Enospc)));
    assert!(rt; matches!(semaphores.open(b"/s", 4, 0, false), Err(Errno::Einval)));
    assert!(rt; matches!(semaphores.open(b"s", 5, 0, false), Err(Errno::Einval)));
    semaphores.make(0, b"s", 32767);
    semaphores.make(1, b"t", 1);
    assert!(rt; matches!(semaphores.open(b"s", 4, 99999, true), Ok(Opening::Found(0))));
    assert!(rt; matches!(semaphores.open(b"s", 12, 0, false), Err(Errno::Eexist)));
    assert!(rt; matches!(semaphores.post(0, None), Err(Errno::Einval)));
    assert!(rt; matches!(semaphores.wait(0), Ok(Waited::Taken)));
    assert!(rt; matches!(semaphores.post(0, None), Ok(Posted::Counted)));
    assert!(rt; matches!(semaphores.post(2, None), Err(Errno::Ebadf)));
    assert!(rt; matches!(semaphores.try_wait(1), Ok(())));
    assert!(rt; matches!(semaphores.try_wait(1), Err(Errno::Eagain)));
    assert!(rt; matches!(semaphores.wait(1), Ok(Waited::Waits)));
    match semaphores.post(1, Some(waiting(7, 1, Wait::Semaphore(1)))) {
        Ok(Posted::Woke(thread)) => assert_eq!(rt; thread.number, 7),
        _ => assert!(rt; false),
    }
    assert!(rt; matches!(semaphores.try_wait(1), Err(Errno::Eagain)));
    semaphores.sweep(0, true);
    semaphores.sweep(1, false);
    assert!(rt; semaphores.count() == 1 && semaphores.has(0) && !semaphores.has(1));
    Ok(())
}
