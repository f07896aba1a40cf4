ghost use Rattle.std.specs.Prelude.{◌≡◌, ◌+◌, List, [], Some, None};
ghost use Rattle.nx_pool.specs.Chains.{total_blocks};
ghost use Rattle.nx_ksys.specs.State as state;
ghost use Rattle.nx_ksys.specs.State.{queue_blocks, sending_blocks};
ghost use Rattle.nx_ksys.specs.QueueCalls.{next_message};
ghost use Rattle.nx_ipc.specs.Tables.{Tables, chains_of, queues_of, sending_of};
ghost use Rattle.nx_ipc.specs.NextMessage.{IsOldestOfGreatest};

use nx_pool::BlockStore;

/// A law: messages, those that wait to be sent included, count for as many blocks as their chains
/// fill.
pub fn messages_fill_their_blocks<B: BlockStore>()
    ensures { (s : B) (t : Tables) → queue_blocks (queues_of (B.content s) t.queues) + sending_blocks (sending_of (B.content s) t.sending) ≡ total_blocks (chains_of t) }
{}

/// A law: the message that comes next is the oldest of those of the greatest priority, and one
/// comes next unless there is none.
pub fn the_oldest_of_the_greatest_priority_comes_next()
    ensures next { (messages : List state.Message) (m : state.Message) → next_message messages ≡ Some m → IsOldestOfGreatest messages m }
    ensures none { (messages : List state.Message) → next_message messages ≡ None → messages ≡ [] }
{}
