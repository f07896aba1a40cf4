// A queue of messages.
ghost use Rattle.std.specs.Prelude.{◌≡◌, ◌≤◌, ◌<◌, [], None, IfSome, IfNone, length, flat_map};
ghost use Rattle.nx_pool.specs.Moves.{AreHeld, Moves};
ghost use Rattle.nx_ksys.specs.QueueCalls.{next_message};
ghost use Rattle.nx_ipc.specs.Tables.{chain_in, messages_of, queue_in, IsNext};

use crate::message::{Message, Taken, find_next, take_out};
use arrayvec::ArrayVec;
use nx_pool::BlockStore;

/// A queue: how many messages and of how many bytes it takes, and its messages in the order of
/// their sending.
#[derive(Debug, Drop)]
pub struct Queue {
    pub limit: u32,
    pub size: u32,
    pub messages: ArrayVec<Message, 64>,
}

/// Takes the oldest message of the greatest priority out of a queue.
pub fn receive<B: BlockStore>(
    queue: &mut Queue,
    room: usize,
    into: &mut [u8],
    blocks: &mut B,
) -> Option<Taken>
    requires room { room ≤ length into.old }
    requires held { AreHeld (B.holds blocks.old) (flat_map chain_in queue.old.messages.items) }
    ensures some { IfSome result (IsNext room into.new (queue_in (B.content blocks.old) queue.old) (queue_in (B.content blocks.new) queue.new)) }
    ensures few { IfSome result (λ t. length queue.new.messages.items < 64) }
    ensures none { IfNone result (next_message (messages_of (B.content blocks.old) queue.old.messages.items) ≡ None) }
    ensures same { IfNone result ((queue.new ≡ queue.old) × (blocks.new ≡ blocks.old)) }
    ensures moves { Moves (B.holds blocks.old) (B.holds blocks.new) (B.content blocks.old) (B.content blocks.new) (flat_map chain_in queue.old.messages.items) (flat_map chain_in queue.new.messages.items) }
    ensures alike { B.alike blocks.old blocks.new }
{
    match find_next(queue.messages.as_slice()) {
        None => None,
        Some(i) => Some(take_out(&mut queue.messages, i, room, into, blocks)),
    }
}

/// Gives back the blocks of messages.
pub fn give_all<B: BlockStore>(messages: ArrayVec<Message, 64>, blocks: &mut B)
    requires held { AreHeld (B.holds blocks.old) (flat_map chain_in messages.items) }
    ensures moves { Moves (B.holds blocks.old) (B.holds blocks.new) (B.content blocks.old) (B.content blocks.new) (flat_map chain_in messages.items) [] }
    ensures alike { B.alike blocks.old blocks.new }
{
    let mut left = messages;
    while let Some(message) = left.pop() {
        let Message { chain, .. } = message;
        blocks.give(chain);
    }
}
