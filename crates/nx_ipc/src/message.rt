// Messages whose bytes lie in blocks.
ghost use Rattle.std.specs.Prelude.{◌≡◌, ◌≤◌, ◌<◌, ◌^◌, ℕ, List, [], IfSome, length, flat_map, remove};
ghost use Rattle.std.specs.List.{position_from};
ghost use Rattle.nx_pool.specs.declared.chain.Chain.{Chain};
ghost use Rattle.nx_pool.specs.Chains.{blocks_for};
ghost use Rattle.nx_pool.specs.Effects.{Comes};
ghost use Rattle.nx_pool.specs.Moves.{AreHeld, Moves};
ghost use Rattle.nx_ksys.specs.QueueCalls.{top_priority, has_priority};
ghost use Rattle.nx_ipc.specs.Tables.{chain_in, messages_of, IsTakenAt};

use arrayvec::ArrayVec;
use nx_pool::{BlockStore, Chain};

/// A message: its priority, the greatest first, and its bytes in blocks.
#[derive(Debug, Default, Drop)]
pub struct Message {
    pub priority: u32,
    pub chain: Chain,
}

/// What was taken of a message.
#[derive(Clone, Copy, Debug)]
pub struct Taken {
    /// How many of its bytes.
    pub count: usize,
    /// Its priority, 0 to 31.
    pub priority: u32,
}

/// Puts bytes into blocks. There are as many free.
pub fn store<B: BlockStore>(priority: u32, bytes: &[u8], blocks: &mut B) -> Message
    requires held { AreHeld (B.holds blocks.old) [] }
    requires few { length bytes.now < 2 ^ 32 }
    requires fits { blocks_for (length bytes.now) ≤ B.free_blocks blocks.old }
    ensures priority { result.priority ≡ priority }
    ensures comes { Comes (B.holds blocks.old) (B.holds blocks.new) (B.content blocks.old) (B.content blocks.new) result.chain bytes.now }
    ensures alike { B.alike blocks.old blocks.new }
{
    let chain = blocks.take_chain(bytes.len() as u32).unwrap();
    blocks.write(&chain, 0, bytes);
    Message { priority, chain }
}

fn top_of(messages: &[Message]) -> u32
    ensures { (content : Chain → List ℕ) → result ≡ top_priority (messages_of content messages.now) }
{
    let mut top = 0;
    for message in messages {
        top = top.max(message.priority);
    }
    top
}

fn first_with(priority: u32, messages: &[Message]) -> Option<usize>
    ensures first { (content : Chain → List ℕ) → result ≡ position_from (has_priority priority) 0 (messages_of content messages.now) }
    ensures inside { IfSome result (λ i. i < length messages.now) }
{
    for (i, message) in messages.iter().enumerate() {
        if message.priority == priority {
            return Some(i);
        }
    }
    None
}

/// The place of the oldest message of the greatest priority.
pub fn find_next(messages: &[Message]) -> Option<usize>
    ensures first { (content : Chain → List ℕ) → result ≡ position_from (has_priority (top_priority (messages_of content messages.now))) 0 (messages_of content messages.now) }
    ensures inside { IfSome result (λ i. i < length messages.now) }
{
    first_with(top_of(messages), messages)
}

/// Takes a message out, and hands out as many of its bytes as there is room for.
pub fn take_out<B: BlockStore>(
    messages: &mut ArrayVec<Message, 64>,
    i: usize,
    room: usize,
    into: &mut [u8],
    blocks: &mut B,
) -> Taken
    requires inside { i < length messages.old.items }
    requires few { length messages.old.items ≤ 64 }
    requires room { room ≤ length into.old }
    requires held { AreHeld (B.holds blocks.old) (flat_map chain_in messages.old.items) }
    ensures taken { IsTakenAt room into.new (messages_of (B.content blocks.old) messages.old.items) i result }
    ensures rest { messages_of (B.content blocks.new) messages.new.items ≡ remove (messages_of (B.content blocks.old) messages.old.items) i }
    ensures len { length messages.new.items < 64 }
    ensures moves { Moves (B.holds blocks.old) (B.holds blocks.new) (B.content blocks.old) (B.content blocks.new) (flat_map chain_in messages.old.items) (flat_map chain_in messages.new.items) }
    ensures alike { B.alike blocks.old blocks.new }
{
    let Message { priority, chain } = messages.remove(i);
    let count = (chain.bytes() as usize).min(room);
    blocks.read(&chain, 0, &mut into[..count]);
    blocks.give(chain);
    Taken { count, priority }
}
