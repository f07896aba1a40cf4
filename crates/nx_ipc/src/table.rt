// Queues by place.
ghost use Rattle.std.specs.Prelude.{◌≡◌, ◌≤◌, ◌<◌, ◌^◌, ℕ, List, [], Option, Some, None, IsSome, IfSome, IfNone, false, length, flat_map, map, slice_get, slice_set, if◌then◌else◌, replicate, IfOk};
ghost use Rattle.std.specs.List.{position_from, count_by};
ghost use Rattle.std.specs.Option.{is_some, is_none};
ghost use Rattle.nx_pool.specs.declared.chain.Chain.{Chain};
ghost use Rattle.nx_pool.specs.Chains.{blocks_for};
ghost use Rattle.nx_pool.specs.Moves.{AreHeld, Moves};
ghost use Rattle.nx_ksys.specs.Threads.{flat};
ghost use Rattle.nx_ksys.specs.State as state;
ghost use Rattle.nx_ksys.specs.Descriptors.{kept_if};
ghost use Rattle.nx_ksys.specs.QueueCalls.{is_full as is_full_queue, with_message, next_message};
ghost use Rattle.nx_ipc.specs.declared.queue.Queue.{Queue};
ghost use Rattle.nx_ipc.specs.Tables.{chains_in, queues_of, queue_in, message_of, IsNextAt, Pushed};

use crate::message::{Message, Taken, store};
use crate::queue::{Queue, give_all, receive};
use crate::sent::Limits;
use nx_pool::BlockStore;
use std::alloc::{AllocError, Global};

/// So many free places.
#[tactic(auto, using(crate::proofs::Messages::no_chains_in))]
pub fn no_queues(alloc: Global, places: u32) -> Result<Vec<Option<Queue>>, AllocError>
    ensures places { IfOk result (λ v. v.items ≡ replicate places None) }
    ensures empty { IfOk result (λ v. flat_map chains_in v.items ≡ []) }
{
    let mut queues = Vec::new(alloc);
    for _ in 0..places {
        queues.push(None)?;
    }
    Ok(queues)
}

/// The least place without a queue.
pub fn first_free(queues: &[Option<Queue>]) -> Option<u32>
    requires { length queues.now ≤ 65536 }
    ensures { result ≡ position_from is_none 0 queues.now }
{
    for (place, queue) in queues.iter().enumerate() {
        if queue.is_none() {
            return Some(place as u32);
        }
    }
    None
}

fn count_one(queue: &Option<Queue>) -> usize
    ensures count { result ≡ (if is_some queue.now then 1 else 0) }
    ensures few { result ≤ 1 }
{
    match queue {
        None => 0,
        Some(_) => 1,
    }
}

/// How many queues there are.
pub fn count_queues(queues: &[Option<Queue>]) -> usize
    ensures { result ≡ count_by is_some queues.now }
{
    let mut count = 0;
    for queue in queues {
        count += count_one(queue);
    }
    count
}

/// What the queue at a place takes.
pub fn limits_at(queues: &[Option<Queue>], place: u32) -> Option<Limits>
    ensures none { IfNone result (flat (slice_get queues.now place) ≡ None) }
    ensures some { IfSome result (λ l. IsSome (flat (slice_get queues.now place))) }
    ensures limits { IfSome result (λ l. (q : Queue) → flat (slice_get queues.now place) ≡ Some q → (content : Chain → List ℕ) → (q.size ≡ l.size) × (is_full_queue (queue_in content q) ≡ l.is_full)) }
    ensures inside { IfSome result (λ l. place < length queues.now) }
    ensures few { IfSome result (λ l. (q : Queue) → flat (slice_get queues.now place) ≡ Some q → l.is_full ≡ false → length q.messages.items < 64) }
{
    match queues.get(place as usize) {
        Some(Some(queue)) => {
            let count = queue.messages.len();
            Some(Limits {
                size: queue.size,
                is_full: queue.limit as usize <= count || 64 <= count,
            })
        }
        _ => None,
    }
}

/// Puts a message behind those of the queue at a place.
pub fn push_at(queues: &mut [Option<Queue>], place: u32, message: Message)
    requires inside { place < length queues.old }
    requires there { IsSome (flat (slice_get queues.old place)) }
    requires few { (q : Queue) → flat (slice_get queues.old place) ≡ Some q → length q.messages.items < 64 }
    ensures queues { (content : Chain → List ℕ) (q : state.Queue) → slice_get (queues_of content queues.old) place ≡ Some (Some q)
        → queues_of content queues.new ≡ slice_set (queues_of content queues.old) place (Some (with_message q (message_of content message))) }
    ensures pushed { Pushed (flat_map chains_in queues.old) (flat_map chains_in queues.new) message.chain }
{
    match &mut queues[place as usize] {
        None => {}
        Some(queue) => queue.messages.push(message),
    }
}

/// Puts a message into blocks and behind those of the queue at a place.
pub fn add_at<B: BlockStore>(
    queues: &mut [Option<Queue>],
    place: u32,
    priority: u32,
    bytes: &[u8],
    blocks: &mut B,
)
    requires held { AreHeld (B.holds blocks.old) (flat_map chains_in queues.old) }
    requires short { length bytes.now < 2 ^ 32 }
    requires fits { blocks_for (length bytes.now) ≤ B.free_blocks blocks.old }
    requires inside { place < length queues.old }
    requires there { IsSome (flat (slice_get queues.old place)) }
    requires few { (q : Queue) → flat (slice_get queues.old place) ≡ Some q → length q.messages.items < 64 }
    ensures queues { (q : state.Queue) → slice_get (queues_of (B.content blocks.old) queues.old) place ≡ Some (Some q)
        → queues_of (B.content blocks.new) queues.new ≡ slice_set (queues_of (B.content blocks.old) queues.old) place (Some (with_message q (record { priority = priority; bytes = bytes.now }))) }
    ensures moves { Moves (B.holds blocks.old) (B.holds blocks.new) (B.content blocks.old) (B.content blocks.new) (flat_map chains_in queues.old) (flat_map chains_in queues.new) }
    ensures alike { B.alike blocks.old blocks.new }
{
    let message = store(priority, bytes, blocks);
    push_at(queues, place, message);
}

/// Takes the oldest message of the greatest priority out of the queue at a place.
pub fn receive_at<B: BlockStore>(
    queues: &mut [Option<Queue>],
    place: u32,
    room: usize,
    into: &mut [u8],
    blocks: &mut B,
) -> Option<Taken>
    requires inside { place < length queues.old }
    requires room { room ≤ length into.old }
    requires held { AreHeld (B.holds blocks.old) (flat_map chains_in queues.old) }
    ensures some { IfSome result (λ t. (q : state.Queue) → slice_get (queues_of (B.content blocks.old) queues.old) place ≡ Some (Some q)
        → IsNextAt room into.new place q (queues_of (B.content blocks.old) queues.old) (queues_of (B.content blocks.new) queues.new) t) }
    ensures few { IfSome result (λ t. (q : Queue) → flat (slice_get queues.new place) ≡ Some q → length q.messages.items < 64) }
    ensures there { IsSome (flat (slice_get queues.old place)) → IsSome (flat (slice_get queues.new place)) }
    ensures none { IfNone result ((q : state.Queue) → slice_get (queues_of (B.content blocks.old) queues.old) place ≡ Some (Some q) → next_message q.messages ≡ None) }
    ensures same { IfNone result ((queues.new ≡ queues.old) × (blocks.new ≡ blocks.old)) }
    ensures moves { Moves (B.holds blocks.old) (B.holds blocks.new) (B.content blocks.old) (B.content blocks.new) (flat_map chains_in queues.old) (flat_map chains_in queues.new) }
    ensures alike { B.alike blocks.old blocks.new }
    ensures len { length queues.new ≡ length queues.old }
{
    match &mut queues[place as usize] {
        None => None,
        Some(queue) => receive(queue, room, into, blocks),
    }
}

/// The queue at a place goes, if it lives no more, and its messages are given back.
pub fn sweep_at<B: BlockStore>(
    queues: &mut [Option<Queue>],
    place: u32,
    lives: bool,
    blocks: &mut B,
)
    requires held { AreHeld (B.holds blocks.old) (flat_map chains_in queues.old) }
    ensures queues { queues_of (B.content blocks.new) queues.new ≡ kept_if lives (queues_of (B.content blocks.old) queues.old) place }
    ensures moves { Moves (B.holds blocks.old) (B.holds blocks.new) (B.content blocks.old) (B.content blocks.new) (flat_map chains_in queues.old) (flat_map chains_in queues.new) }
    ensures alike { B.alike blocks.old blocks.new }
    ensures len { length queues.new ≡ length queues.old }
{
    if lives {
        return;
    }
    if place as usize >= queues.len() {
        return;
    }
    match std::mem::replace(&mut queues[place as usize], None) {
        None => {}
        Some(queue) => {
            let Queue { messages, .. } = queue;
            give_all(messages, blocks);
        }
    }
}
