// By slot, the messages that threads wait to send.
ghost use Rattle.std.specs.Prelude.{◌≡◌, ◌≤◌, ◌<◌, ◌^◌, ◌++◌, ℕ, List, [], Option, Some, None, IsSome, IfOk, length, flat_map, slice_get, slice_set, replicate};
ghost use Rattle.nx_pool.specs.declared.chain.Chain.{Chain};
ghost use Rattle.nx_pool.specs.Chains.{blocks_for};
ghost use Rattle.nx_pool.specs.Moves.{AreHeld, Moves};
ghost use Rattle.nx_ksys.specs.Threads.{flat};
ghost use Rattle.nx_ksys.specs.State as state;
ghost use Rattle.nx_ksys.specs.QueueCalls.{with_sent};
ghost use Rattle.nx_ksys.specs.Ends.{kept_messages};
ghost use Rattle.nx_ipc.specs.declared.queue.Queue.{Queue};
ghost use Rattle.nx_ipc.specs.Tables.{chains_in, chains_sent, queues_of, sending_of, joined_to, is_of, without_sent};

use crate::message::{Message, store};
use crate::queue::Queue;
use crate::table::push_at;
use nx_ksys::Thread;
use nx_pool::BlockStore;
use std::alloc::{AllocError, Global};

/// So many slots, and no message.
#[tactic(auto, using(crate::proofs::Messages::no_chains_sent))]
pub fn no_messages(alloc: Global, threads: u32) -> Result<Vec<Option<Message>>, AllocError>
    ensures slots { IfOk result (λ v. v.items ≡ replicate threads None) }
    ensures empty { IfOk result (λ v. flat_map chains_sent v.items ≡ []) }
{
    let mut sending = Vec::new(alloc);
    for _ in 0..threads {
        sending.push(None)?;
    }
    Ok(sending)
}

// The message at a slot is given up.
fn give_at<B: BlockStore>(sending: &mut [Option<Message>], slot: usize, blocks: &mut B)
    requires inside { slot < length sending.old }
    requires held { AreHeld (B.holds blocks.old) (flat_map chains_sent sending.old) }
    ensures sending { sending_of (B.content blocks.new) sending.new ≡ slice_set (sending_of (B.content blocks.old) sending.old) slot None }
    ensures moves { Moves (B.holds blocks.old) (B.holds blocks.new) (B.content blocks.old) (B.content blocks.new) (flat_map chains_sent sending.old) (flat_map chains_sent sending.new) }
    ensures alike { B.alike blocks.old blocks.new }
    ensures len { length sending.new ≡ length sending.old }
{
    match std::mem::replace(&mut sending[slot], None) {
        None => {}
        Some(message) => {
            let Message { chain, .. } = message;
            blocks.give(chain);
        }
    }
}

/// Puts a message into blocks, to wait at a slot. What stood there is given up.
pub fn hold_at<B: BlockStore>(
    sending: &mut [Option<Message>],
    slot: Option<usize>,
    priority: u32,
    bytes: &[u8],
    blocks: &mut B,
)
    requires held { AreHeld (B.holds blocks.old) (flat_map chains_sent sending.old) }
    requires short { length bytes.now < 2 ^ 32 }
    requires fits { blocks_for (length bytes.now) ≤ B.free_blocks blocks.old }
    ensures sending { sending_of (B.content blocks.new) sending.new ≡ with_sent (sending_of (B.content blocks.old) sending.old) slot (Some (record { priority = priority; bytes = bytes.now })) }
    ensures moves { Moves (B.holds blocks.old) (B.holds blocks.new) (B.content blocks.old) (B.content blocks.new) (flat_map chains_sent sending.old) (flat_map chains_sent sending.new) }
    ensures alike { B.alike blocks.old blocks.new }
{
    match slot {
        None => {}
        Some(slot) => hold(sending, slot, priority, bytes, blocks),
    }
}

fn hold<B: BlockStore>(
    sending: &mut [Option<Message>],
    slot: usize,
    priority: u32,
    bytes: &[u8],
    blocks: &mut B,
)
    requires held { AreHeld (B.holds blocks.old) (flat_map chains_sent sending.old) }
    requires short { length bytes.now < 2 ^ 32 }
    requires fits { blocks_for (length bytes.now) ≤ B.free_blocks blocks.old }
    ensures sending { sending_of (B.content blocks.new) sending.new ≡ slice_set (sending_of (B.content blocks.old) sending.old) slot (Some (record { priority = priority; bytes = bytes.now })) }
    ensures moves { Moves (B.holds blocks.old) (B.holds blocks.new) (B.content blocks.old) (B.content blocks.new) (flat_map chains_sent sending.old) (flat_map chains_sent sending.new) }
    ensures alike { B.alike blocks.old blocks.new }
{
    if slot >= sending.len() {
        return;
    }
    let message = store(priority, bytes, blocks);
    match std::mem::replace(&mut sending[slot], Some(message)) {
        None => {}
        Some(old) => {
            let Message { chain, .. } = old;
            blocks.give(chain);
        }
    }
}

/// The message that waits at a slot joins the queue at a place.
pub fn join_at<B: BlockStore>(
    queues: &mut [Option<Queue>],
    sending: &mut [Option<Message>],
    slot: Option<usize>,
    place: u32,
    blocks: &B,
)
    requires inside { place < length queues.old }
    requires there { IsSome (flat (slice_get queues.old place)) }
    requires few { (q : Queue) → flat (slice_get queues.old place) ≡ Some q → length q.messages.items < 64 }
    ensures queues { (q : state.Queue) → slice_get (queues_of (B.content blocks.now) queues.old) place ≡ Some (Some q)
        → queues_of (B.content blocks.now) queues.new ≡ slice_set (queues_of (B.content blocks.now) queues.old) place (Some (joined_to q (sending_of (B.content blocks.now) sending.old) slot)) }
    ensures sending { sending_of (B.content blocks.now) sending.new ≡ with_sent (sending_of (B.content blocks.now) sending.old) slot None }
    ensures moves { Moves (B.holds blocks.now) (B.holds blocks.now) (B.content blocks.now) (B.content blocks.now) (flat_map chains_in queues.old ++ flat_map chains_sent sending.old) (flat_map chains_in queues.new ++ flat_map chains_sent sending.new) }
{
    match slot {
        None => {}
        Some(slot) => join(queues, sending, slot, place, blocks),
    }
}

fn join<B: BlockStore>(
    queues: &mut [Option<Queue>],
    sending: &mut [Option<Message>],
    slot: usize,
    place: u32,
    blocks: &B,
)
    requires inside { place < length queues.old }
    requires there { IsSome (flat (slice_get queues.old place)) }
    requires few { (q : Queue) → flat (slice_get queues.old place) ≡ Some q → length q.messages.items < 64 }
    ensures queues { (q : state.Queue) → slice_get (queues_of (B.content blocks.now) queues.old) place ≡ Some (Some q)
        → queues_of (B.content blocks.now) queues.new ≡ slice_set (queues_of (B.content blocks.now) queues.old) place (Some (joined_to q (sending_of (B.content blocks.now) sending.old) (Some slot))) }
    ensures sending { sending_of (B.content blocks.now) sending.new ≡ slice_set (sending_of (B.content blocks.now) sending.old) slot None }
    ensures moves { Moves (B.holds blocks.now) (B.holds blocks.now) (B.content blocks.now) (B.content blocks.now) (flat_map chains_in queues.old ++ flat_map chains_sent sending.old) (flat_map chains_in queues.new ++ flat_map chains_sent sending.new) }
{
    let _blocks = blocks;
    if slot >= sending.len() {
        return;
    }
    match std::mem::replace(&mut sending[slot], None) {
        None => {}
        Some(message) => push_at(queues, place, message),
    }
}

fn is_of_group(group: u32, thread: Option<Thread>) -> bool
    ensures { result ≡ is_of group thread }
{
    match thread {
        None => false,
        Some(thread) => thread.group == group,
    }
}

// The message at a slot is given up, if its thread is of a group.
fn give_if<B: BlockStore>(
    sending: &mut [Option<Message>],
    slot: usize,
    group: u32,
    thread: Option<Thread>,
    blocks: &mut B,
)
    requires inside { slot < length sending.old }
    requires held { AreHeld (B.holds blocks.old) (flat_map chains_sent sending.old) }
    ensures sending { sending_of (B.content blocks.new) sending.new ≡ without_sent group thread slot (sending_of (B.content blocks.old) sending.old) }
    ensures moves { Moves (B.holds blocks.old) (B.holds blocks.new) (B.content blocks.old) (B.content blocks.new) (flat_map chains_sent sending.old) (flat_map chains_sent sending.new) }
    ensures alike { B.alike blocks.old blocks.new }
    ensures len { length sending.new ≡ length sending.old }
{
    if !is_of_group(group, thread) {
        return;
    }
    give_at(sending, slot, blocks);
}

/// The messages that the threads of a group wait to send are given up.
pub fn give_group<B: BlockStore>(
    sending: &mut [Option<Message>],
    group: u32,
    threads: &[Option<Thread>],
    blocks: &mut B,
)
    requires held { AreHeld (B.holds blocks.old) (flat_map chains_sent sending.old) }
    ensures sending { sending_of (B.content blocks.new) sending.new ≡ kept_messages group threads.now (sending_of (B.content blocks.old) sending.old) }
    ensures moves { Moves (B.holds blocks.old) (B.holds blocks.new) (B.content blocks.old) (B.content blocks.new) (flat_map chains_sent sending.old) (flat_map chains_sent sending.new) }
    ensures alike { B.alike blocks.old blocks.new }
{
    for slot in 0..threads.len().min(sending.len()) {
        give_if(sending, slot, group, threads[slot], blocks);
    }
}
