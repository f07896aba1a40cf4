// `mq_send` and the calls that receive, on the queue to which a descriptor leads.
ghost use Rattle.std.specs.Prelude.{◌≡◌, ◌<◌, ◌≤◌, ◌^◌, Some, IfOk, IfSome, min, length};
ghost use Rattle.nx_ksys.specs.declared.thread.Search.TheVariants as search;
ghost use Rattle.nx_ksys.specs.Threads.{Schedule, first_of, slot_of};
ghost use Rattle.nx_ksys.specs.State.{KernelState, free_blocks};
ghost use Rattle.nx_ksys.specs.Answers.{Caller};
ghost use Rattle.nx_ksys.specs.QueueCalls.{send_on, receive_on};
ghost use Rattle.nx_ipc.specs.Rows.{send_told, receive_told, is_within};
ghost use Rattle.nx_objects.specs.Tables.{chains_of, with_objects};
ghost use Rattle.nx_objectcalls.specs.Rows.{queue_led};

use crate::leading::Led;
use nx_base::Errno;
use nx_ipc::{Received, Sent};
use nx_ksys::Thread;
use nx_objects::Objects;
use nx_pool::BlockStore;

/// A message is sent to a queue; `receiver` is the first thread that waits for one of it, and
/// `slot` the caller's.
#[tactic(auto, using(nx_objects::proofs::Chains::queues_held, nx_objects::proofs::Chains::queues_moved))]
pub fn send_message<B: BlockStore>(
    objects: &mut Objects,
    led: Led,
    bytes: &[u8],
    size: u32,
    priority: u32,
    receiver: Option<Thread>,
    slot: Option<usize>,
    blocks: &mut B,
) -> Result<Sent, Errno>
    requires few { length bytes.now < 2 ^ 32 }
    requires held { B.holds blocks.old (chains_of objects.old) }
    ensures row { (k : KernelState) (s : Schedule) (c : Caller) → let old = with_objects k s (B.content blocks.old) objects.old in free_blocks old ≡ B.free_blocks blocks.old
        → first_of (search.Receiver led.place) s.threads ≡ receiver → slot_of s.threads c.thread.number ≡ slot
        → send_on old c (record { priority = priority; bytes = bytes.now }) size (queue_led old (Some led)) ≡ send_told (with_objects k s (B.content blocks.new) objects.new) c led.place (record { priority = priority; bytes = bytes.now }) result }
    ensures limit { objects.new.tree.limit ≡ objects.old.tree.limit }
    ensures held { B.holds blocks.new (chains_of objects.new) }
    ensures alike { B.alike blocks.old blocks.new }
{
    objects.queues.send(
        led.place, led.flags, bytes, size, priority, receiver, slot, blocks,
    )
}

/// A message is received from a queue into a buffer; `sender` is the first thread that waits to
/// send to it, and `slot` that thread's.
#[tactic(auto, using(nx_objects::proofs::Chains::queues_held, nx_objects::proofs::Chains::queues_moved))]
pub fn receive_message<B: BlockStore>(
    objects: &mut Objects,
    led: Led,
    size: u32,
    ticks: Option<u32>,
    sender: Option<Thread>,
    slot: Option<usize>,
    into: &mut [u8],
    blocks: &mut B,
) -> Result<Received, Errno>
    requires room { min size 4096 ≤ length into.old }
    requires held { B.holds blocks.old (chains_of objects.old) }
    ensures row { (k : KernelState) (s : Schedule) (c : Caller) → let old = with_objects k s (B.content blocks.old) objects.old in
        first_of (search.Sender led.place) s.threads ≡ sender → IfSome sender (λ t. slot_of s.threads t.number ≡ slot)
        → receive_on old c size ticks (queue_led old (Some led)) ≡ receive_told (with_objects k s (B.content blocks.new) objects.new) c led.place ticks into.new sender result }
    ensures within { IfOk result (is_within (min size 4096)) }
    ensures same { length into.new ≡ length into.old }
    ensures limit { objects.new.tree.limit ≡ objects.old.tree.limit }
    ensures held { B.holds blocks.new (chains_of objects.new) }
    ensures alike { B.alike blocks.old blocks.new }
{
    objects.queues.receive(
        led.place, led.flags, size, ticks, sender, slot, into, blocks,
    )
}
