ghost use Rattle.std.specs.Prelude.{◌≡◌, ◌<◌, ◌≤◌, ◌^◌, ℕ, List, [], Bool, Option, Some, None, Ok, IfOk, IfSome, IfNone, IsSome, false, min, length, map, nat_le, replicate, slice_get, slice_set};
ghost use Rattle.std.specs.List.{list_any, position_from, count_by};
ghost use Rattle.std.specs.Option.{is_some, is_none};
ghost use Rattle.nx_pool.specs.declared.chain.Chain.{Chain};
ghost use Rattle.nx_pool.specs.Chains.{blocks_for};
ghost use Rattle.nx_pool.specs.Moves.{AreHeld, Moves};
ghost use Rattle.nx_ksys.specs.declared.thread.Search.TheVariants as search;
ghost use Rattle.nx_ksys.specs.Threads.{flat, first_of, slot_of};
ghost use Rattle.nx_ksys.specs.State as state;
ghost use Rattle.nx_ksys.specs.State.{KernelState, free_blocks, objects};
ghost use Rattle.nx_ksys.specs.Answers.{Caller};
ghost use Rattle.nx_ksys.specs.Descriptors.{kept_if};
ghost use Rattle.nx_ksys.specs.Ends.{kept_messages};
ghost use Rattle.nx_ksys.specs.QueueCalls.{mq_open_node, queue_there, send_on, receive_on, with_message, with_sent, next_message};
ghost use Rattle.nx_ipc.specs.declared.opening.Opening.TheVariants as opening;
ghost use Rattle.nx_ipc.specs.declared.queue.Queue.{Queue};
ghost use Rattle.nx_ipc.specs.Tables.{Tables, chains_of, queues_of, sending_of, with_tables, joined_to, left_with, sending_with, IsNextAt, GivesNext};
ghost use Rattle.nx_ipc.specs.Rows.{opens_told, send_told, receive_told, is_within};

use crate::message::{Message, Taken};
use crate::opening::{Opening, open_node};
use crate::queue::Queue;
use crate::received::{Received, may_receive, receive_none};
use crate::sending::{give_group, hold_at, join_at, no_messages};
use crate::sent::{Letter, Sent, way_to_send};
use crate::table::{add_at, count_queues, first_free, limits_at, no_queues, receive_at, sweep_at};
use arrayvec::ArrayVec;
use nx_base::{Errno, OutOfMemory};
use nx_ksys::{MOST_MOVED, Node, Thread};
use nx_pool::BlockStore;
use std::alloc::Global;
use std::marker::Model;

/// Queues by place, and by slot the messages that threads wait to send; their bytes lie in chains of
/// a store. The places are taken when it is made. Contracts see the tables; `with_tables` puts what
/// they stand for into a state.
#[derive(Drop)]
pub struct Queues {
    queues: Vec<Option<Queue>>,
    sending: Vec<Option<Message>>,
}

impl Model for Queues {
    ghost use Rattle.std.specs.Prelude.{◌≤◌, vec_len};
    ghost use Rattle.nx_ipc.specs.declared.opening.Opening.TheVariants as opening;
    ghost use Rattle.nx_ipc.specs.declared.queue.Queue.{Queue};
    ghost use Rattle.nx_ipc.specs.Tables.{Tables};

    ghost Value = { Tables };

    ghost view = { λ q. record { queues = q.queues.items; sending = q.sending.items } };

    ghost invariant = { λ q. vec_len q.queues ≤ 65536 };
}

impl Queues {
    /// No queue and no message that waits; so many places, at most 65,536, and so many slots.
    pub fn new(alloc: Global, places: u32, threads: u32) -> Result<Queues, OutOfMemory>
        requires { places ≤ 65536 }
        ensures empty { IfOk result (λ q. q ≡ record { queues = replicate places None; sending = replicate threads None }) }
        ensures chains { IfOk result (λ q. chains_of q ≡ []) }
    {
        let queues = no_queues(alloc, places)?;
        let sending = no_messages(alloc, threads)?;
        Ok(Queues { queues, sending })
    }

    /// How many places there are.
    pub fn places(&self) -> usize
        ensures { result ≡ length self.now.queues }
    {
        self.queues.len()
    }

    /// How many queues live.
    pub fn count(&self) -> usize
        ensures { (content : Chain → List ℕ) → result ≡ count_by is_some (queues_of content self.now.queues) }
    {
        count_queues(self.queues.as_slice())
    }

    /// Whether there is a queue at a place.
    pub fn has(&self, place: u32) -> bool
        ensures { (content : Chain → List ℕ) → result ≡ is_some (flat (slice_get (queues_of content self.now.queues) place)) }
    {
        limits_at(self.queues.as_slice(), place).is_some()
    }

    /// What `nx_mq_open` finds or makes, by what stands at its path: EEXIST under O_CREAT and
    /// O_EXCL; where nothing stands there ENOENT without O_CREAT, EINVAL for a limit outside 1 to 64
    /// messages or 1 to 4,096 bytes, ENOSPC where the objects are at their limit.
    pub fn open(
        &self,
        node: Option<Node>,
        flags: u32,
        limit: u32,
        size: u32,
        is_full: bool,
    ) -> Result<Opening, Errno>
        ensures row { (content : Chain → List ℕ) (k : KernelState) (c : Caller) (path : List ℕ) → nat_le k.limits.objects (objects (with_tables k content self.now)) ≡ is_full
            → mq_open_node (with_tables k content self.now) c path flags limit size node ≡ opens_told (with_tables k content self.now) c path flags limit size result }
        ensures free { (made : ℕ) → result ≡ Ok (opening.Made made) → slice_get self.now.queues made ≡ Some None }
    {
        let free = first_free(self.queues.as_slice());
        open_node(node, flags, limit, size, is_full, free)
    }

    /// A new empty queue comes to a free place. It takes so many messages of so many bytes.
    pub fn make(&mut self, place: u32, limit: u32, size: u32)
        requires { slice_get self.old.queues place ≡ Some None }
        ensures queues { (content : Chain → List ℕ) → queues_of content self.new.queues ≡ slice_set (queues_of content self.old.queues) place (Some (record { limit = limit; size = size; messages = [] })) }
        ensures sending { self.new.sending ≡ self.old.sending }
        ensures chains { chains_of self.new ≡ chains_of self.old }
    {
        self.queues[place as usize] = Some(Queue {
            limit,
            size,
            messages: ArrayVec::new(),
        });
    }

    /// `mq_send` to the queue at a place, opened with these flags; `receiver` is the first thread
    /// that waits for a message of it, and `slot` the caller's. EBADF where there is no queue or
    /// without O_WRONLY, EINVAL for a priority over 31, EMSGSIZE for a size over the queue's; where
    /// nobody waits, EAGAIN for a full queue under O_NONBLOCK, and ENOSPC for want of blocks.
    pub fn send<B: BlockStore>(
        &mut self,
        place: u32,
        flags: u32,
        bytes: &[u8],
        size: u32,
        priority: u32,
        receiver: Option<Thread>,
        slot: Option<usize>,
        blocks: &mut B,
    ) -> Result<Sent, Errno>
        requires held { AreHeld (B.holds blocks.old) (chains_of self.old) }
        requires few { length bytes.now < 2 ^ 32 }
        ensures row { (k : KernelState) (c : Caller) → free_blocks (with_tables k (B.content blocks.old) self.old) ≡ B.free_blocks blocks.old
            → first_of (search.Receiver place) k.sched.threads ≡ receiver → slot_of k.sched.threads c.thread.number ≡ slot
            → send_on (with_tables k (B.content blocks.old) self.old) c (record { priority = priority; bytes = bytes.now }) size (queue_there place flags (flat (slice_get (queues_of (B.content blocks.old) self.old.queues) place)))
            ≡ send_told (with_tables k (B.content blocks.new) self.new) c place (record { priority = priority; bytes = bytes.now }) result }
        ensures moves { Moves (B.holds blocks.old) (B.holds blocks.new) (B.content blocks.old) (B.content blocks.new) (chains_of self.old) (chains_of self.new) }
        ensures held { AreHeld (B.holds blocks.new) (chains_of self.new) }
        ensures alike { B.alike blocks.old blocks.new }
    {
        match limits_at(self.queues.as_slice(), place) {
            None => Err(Errno::Ebadf),
            Some(limits) => {
                let letter = Letter {
                    bytes: bytes.len(),
                    size,
                    priority,
                };
                match way_to_send(limits, flags, letter, receiver, blocks.free()) {
                    Err(fault) => Err(fault),
                    Ok(Sent::Delivered(thread)) => Ok(Sent::Delivered(thread)),
                    Ok(Sent::Joined) => {
                        self.add(place, priority, bytes, blocks);
                        Ok(Sent::Joined)
                    }
                    Ok(Sent::Waits) => {
                        self.hold(slot, priority, bytes, blocks);
                        Ok(Sent::Waits)
                    }
                }
            }
        }
    }

    // A message comes into blocks and behind those of a queue.
    fn add<B: BlockStore>(&mut self, place: u32, priority: u32, bytes: &[u8], blocks: &mut B)
        requires held { AreHeld (B.holds blocks.old) (chains_of self.old) }
        requires short { length bytes.now < 2 ^ 32 }
        requires fits { blocks_for (length bytes.now) ≤ B.free_blocks blocks.old }
        requires inside { place < length self.old.queues }
        requires there { IsSome (flat (slice_get self.old.queues place)) }
        requires few { (q : Queue) → flat (slice_get self.old.queues place) ≡ Some q → length q.messages.items < 64 }
        ensures queues { (q : state.Queue) → slice_get (queues_of (B.content blocks.old) self.old.queues) place ≡ Some (Some q)
            → queues_of (B.content blocks.new) self.new.queues ≡ slice_set (queues_of (B.content blocks.old) self.old.queues) place (Some (with_message q (record { priority = priority; bytes = bytes.now }))) }
        ensures sending { sending_of (B.content blocks.new) self.new.sending ≡ sending_of (B.content blocks.old) self.old.sending }
        ensures moves { Moves (B.holds blocks.old) (B.holds blocks.new) (B.content blocks.old) (B.content blocks.new) (chains_of self.old) (chains_of self.new) }
        ensures alike { B.alike blocks.old blocks.new }
    {
        add_at(&mut self.queues, place, priority, bytes, blocks);
    }

    // A message comes into blocks, and waits at a slot.
    fn hold<B: BlockStore>(
        &mut self,
        slot: Option<usize>,
        priority: u32,
        bytes: &[u8],
        blocks: &mut B,
    )
        requires held { AreHeld (B.holds blocks.old) (chains_of self.old) }
        requires short { length bytes.now < 2 ^ 32 }
        requires fits { blocks_for (length bytes.now) ≤ B.free_blocks blocks.old }
        ensures queues { queues_of (B.content blocks.new) self.new.queues ≡ queues_of (B.content blocks.old) self.old.queues }
        ensures sending { sending_of (B.content blocks.new) self.new.sending ≡ with_sent (sending_of (B.content blocks.old) self.old.sending) slot (Some (record { priority = priority; bytes = bytes.now })) }
        ensures moves { Moves (B.holds blocks.old) (B.holds blocks.new) (B.content blocks.old) (B.content blocks.new) (chains_of self.old) (chains_of self.new) }
        ensures alike { B.alike blocks.old blocks.new }
    {
        hold_at(&mut self.sending, slot, priority, bytes, blocks);
    }

    // The queue at a place gives its next message.
    fn take<B: BlockStore>(
        &mut self,
        place: u32,
        room: usize,
        into: &mut [u8],
        blocks: &mut B,
    ) -> Option<Taken>
        requires inside { place < length self.old.queues }
        requires room { room ≤ length into.old }
        requires held { AreHeld (B.holds blocks.old) (chains_of self.old) }
        ensures some { IfSome result (λ t. (q : state.Queue) → slice_get (queues_of (B.content blocks.old) self.old.queues) place ≡ Some (Some q)
            → IsNextAt room into.new place q (queues_of (B.content blocks.old) self.old.queues) (queues_of (B.content blocks.new) self.new.queues) t) }
        ensures few { IfSome result (λ t. (q : Queue) → flat (slice_get self.new.queues place) ≡ Some q → length q.messages.items < 64) }
        ensures there { IsSome (flat (slice_get self.old.queues place)) → IsSome (flat (slice_get self.new.queues place)) }
        ensures none { IfNone result ((q : state.Queue) → slice_get (queues_of (B.content blocks.old) self.old.queues) place ≡ Some (Some q) → next_message q.messages ≡ None) }
        ensures same { IfNone result ((self.new ≡ self.old) × (blocks.new ≡ blocks.old)) }
        ensures sending { sending_of (B.content blocks.new) self.new.sending ≡ sending_of (B.content blocks.old) self.old.sending }
        ensures moves { Moves (B.holds blocks.old) (B.holds blocks.new) (B.content blocks.old) (B.content blocks.new) (chains_of self.old) (chains_of self.new) }
        ensures held { AreHeld (B.holds blocks.new) (chains_of self.new) }
        ensures alike { B.alike blocks.old blocks.new }
        ensures len { length self.new.queues ≡ length self.old.queues }
    {
        receive_at(&mut self.queues, place, room, into, blocks)
    }

    // The message that waits at a slot joins a queue.
    fn join<B: BlockStore>(&mut self, slot: Option<usize>, place: u32, blocks: &B)
        requires inside { place < length self.old.queues }
        requires there { IsSome (flat (slice_get self.old.queues place)) }
        requires few { (q : Queue) → flat (slice_get self.old.queues place) ≡ Some q → length q.messages.items < 64 }
        ensures queues { (q : state.Queue) → slice_get (queues_of (B.content blocks.now) self.old.queues) place ≡ Some (Some q)
            → queues_of (B.content blocks.now) self.new.queues ≡ slice_set (queues_of (B.content blocks.now) self.old.queues) place (Some (joined_to q (sending_of (B.content blocks.now) self.old.sending) slot)) }
        ensures sending { sending_of (B.content blocks.now) self.new.sending ≡ with_sent (sending_of (B.content blocks.now) self.old.sending) slot None }
        ensures moves { Moves (B.holds blocks.now) (B.holds blocks.now) (B.content blocks.now) (B.content blocks.now) (chains_of self.old) (chains_of self.new) }
    {
        join_at(&mut self.queues, &mut self.sending, slot, place, blocks);
    }

    // The message of the first sender that waits, if there is one, joins a queue.
    fn join_if<B: BlockStore>(
        &mut self,
        sender: Option<Thread>,
        slot: Option<usize>,
        place: u32,
        blocks: &B,
    )
        requires inside { place < length self.old.queues }
        requires there { IsSome (flat (slice_get self.old.queues place)) }
        requires few { (q : Queue) → flat (slice_get self.old.queues place) ≡ Some q → length q.messages.items < 64 }
        ensures queues { (q : state.Queue) → slice_get (queues_of (B.content blocks.now) self.old.queues) place ≡ Some (Some q)
            → queues_of (B.content blocks.now) self.new.queues ≡ slice_set (queues_of (B.content blocks.now) self.old.queues) place (Some (left_with q (sending_of (B.content blocks.now) self.old.sending) sender slot)) }
        ensures sending { sending_of (B.content blocks.now) self.new.sending ≡ sending_with (sending_of (B.content blocks.now) self.old.sending) sender slot }
        ensures moves { Moves (B.holds blocks.now) (B.holds blocks.now) (B.content blocks.now) (B.content blocks.now) (chains_of self.old) (chains_of self.new) }
    {
        match sender {
            None => {}
            Some(_) => self.join(slot, place, blocks),
        }
    }

    // A queue gives its next message, and that of the first sender that waits joins it.
    fn take_and_join<B: BlockStore>(
        &mut self,
        place: u32,
        room: usize,
        sender: Option<Thread>,
        slot: Option<usize>,
        into: &mut [u8],
        blocks: &mut B,
    ) -> Option<Taken>
        requires inside { place < length self.old.queues }
        requires there { IsSome (flat (slice_get self.old.queues place)) }
        requires room { room ≤ length into.old }
        requires held { AreHeld (B.holds blocks.old) (chains_of self.old) }
        ensures some { IfSome result (λ t. (q : state.Queue) → slice_get (queues_of (B.content blocks.old) self.old.queues) place ≡ Some (Some q)
            → GivesNext room into.new place q (sending_of (B.content blocks.old) self.old.sending) sender slot (queues_of (B.content blocks.old) self.old.queues) (queues_of (B.content blocks.new) self.new.queues) (sending_of (B.content blocks.new) self.new.sending) t) }
        ensures none { IfNone result ((q : state.Queue) → slice_get (queues_of (B.content blocks.old) self.old.queues) place ≡ Some (Some q) → next_message q.messages ≡ None) }
        ensures same { IfNone result ((self.new ≡ self.old) × (blocks.new ≡ blocks.old)) }
        ensures moves { Moves (B.holds blocks.old) (B.holds blocks.new) (B.content blocks.old) (B.content blocks.new) (chains_of self.old) (chains_of self.new) }
        ensures alike { B.alike blocks.old blocks.new }
    {
        match self.take(place, room, into, blocks) {
            None => None,
            Some(taken) => {
                self.join_if(sender, slot, place, blocks);
                Some(taken)
            }
        }
    }

    /// `mq_receive` and `nx_mq_timedreceive` from the queue at a place, opened with these flags, into
    /// a buffer; `ticks` is none for the first; `sender` is the first thread that waits to send to
    /// it, and `slot` that thread's. The message of that sender joins the queue. EBADF where there is
    /// no queue or without O_RDONLY, EINVAL for ticks below 0, EMSGSIZE for a size below the
    /// queue's; where there is no message EAGAIN under O_NONBLOCK, and ETIMEDOUT for 0 ticks.
    pub fn receive<B: BlockStore>(
        &mut self,
        place: u32,
        flags: u32,
        size: u32,
        ticks: Option<u32>,
        sender: Option<Thread>,
        slot: Option<usize>,
        into: &mut [u8],
        blocks: &mut B,
    ) -> Result<Received, Errno>
        requires held { AreHeld (B.holds blocks.old) (chains_of self.old) }
        requires room { min size 4096 ≤ length into.old }
        ensures row { (k : KernelState) (c : Caller) → first_of (search.Sender place) k.sched.threads ≡ sender → IfSome sender (λ t. slot_of k.sched.threads t.number ≡ slot)
            → receive_on (with_tables k (B.content blocks.old) self.old) c size ticks (queue_there place flags (flat (slice_get (queues_of (B.content blocks.old) self.old.queues) place)))
            ≡ receive_told (with_tables k (B.content blocks.new) self.new) c place ticks into.new sender result }
        ensures within { IfOk result (is_within (min size 4096)) }
        ensures moves { Moves (B.holds blocks.old) (B.holds blocks.new) (B.content blocks.old) (B.content blocks.new) (chains_of self.old) (chains_of self.new) }
        ensures held { AreHeld (B.holds blocks.new) (chains_of self.new) }
        ensures alike { B.alike blocks.old blocks.new }
    {
        match limits_at(self.queues.as_slice(), place) {
            None => Err(Errno::Ebadf),
            Some(limits) => match may_receive(limits.size, flags, size, ticks) {
                Err(fault) => Err(fault),
                Ok(()) => {
                    let room = size.min(MOST_MOVED as u32) as usize;
                    match self.take_and_join(place, room, sender, slot, into, blocks) {
                        None => receive_none(flags, ticks),
                        Some(taken) => Ok(Received::Message(taken)),
                    }
                }
            },
        }
    }

    /// The queue at a place goes, if it lives no more, and the blocks of its messages are free
    /// again.
    pub fn sweep<B: BlockStore>(&mut self, place: u32, lives: bool, blocks: &mut B)
        requires held { AreHeld (B.holds blocks.old) (chains_of self.old) }
        ensures queues { queues_of (B.content blocks.new) self.new.queues ≡ kept_if lives (queues_of (B.content blocks.old) self.old.queues) place }
        ensures sending { sending_of (B.content blocks.new) self.new.sending ≡ sending_of (B.content blocks.old) self.old.sending }
        ensures moves { Moves (B.holds blocks.old) (B.holds blocks.new) (B.content blocks.old) (B.content blocks.new) (chains_of self.old) (chains_of self.new) }
        ensures held { AreHeld (B.holds blocks.new) (chains_of self.new) }
        ensures alike { B.alike blocks.old blocks.new }
        ensures places { length self.new.queues ≡ length self.old.queues }
    {
        sweep_at(&mut self.queues, place, lives, blocks);
    }

    /// The messages that the threads of a group wait to send are given up, and their blocks are
    /// free again.
    pub fn give_up<B: BlockStore>(&mut self, group: u32, threads: &[Option<Thread>], blocks: &mut B)
        requires held { AreHeld (B.holds blocks.old) (chains_of self.old) }
        ensures sending { sending_of (B.content blocks.new) self.new.sending ≡ kept_messages group threads.now (sending_of (B.content blocks.old) self.old.sending) }
        ensures queues { queues_of (B.content blocks.new) self.new.queues ≡ queues_of (B.content blocks.old) self.old.queues }
        ensures moves { Moves (B.holds blocks.old) (B.holds blocks.new) (B.content blocks.old) (B.content blocks.new) (chains_of self.old) (chains_of self.new) }
        ensures held { AreHeld (B.holds blocks.new) (chains_of self.new) }
        ensures alike { B.alike blocks.old blocks.new }
        ensures places { length self.new.queues ≡ length self.old.queues }
    {
        give_group(&mut self.sending, group, threads, blocks);
    }
}
