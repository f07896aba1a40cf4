// Calls on message queues, each by its row.
ghost use Rattle.std.specs.Prelude.{◌≡◌, ◌<◌, ◌≤◌, ◌+◌, ◌^◌, ℕ, List, Some, IfSome, false, nat_le, length};
ghost use Rattle.nx_pool.specs.declared.chain.Chain.{Chain};
ghost use Rattle.nx_ksys.specs.State.{Group, free_blocks, objects};
ghost use Rattle.nx_ksys.specs.QueueCalls.{mq_open_row, mq_close_row, mq_unlink_row, mq_send_row, send_on, receive_on};
ghost use Rattle.nx_ksys.specs.Gathered.{replies_of};
ghost use Rattle.nx_kernel.specs.Doing.{Does, caller_of};
ghost use Rattle.nx_objects.specs.Tables.{chains_of};
ghost use Rattle.nx_ksys.specs.Threads.{slot_of as slot_in};
ghost use Rattle.nx_objectcalls.specs.Rows.{queue_led};
ghost use Rattle.nx_kcalls.specs.Rows.{receives};
ghost use Rattle.nx_ktables.specs.State.{state_of, rooms_of, IsPlaced};

use crate::telling::{tell_received, tell_sent};
use nx_base::Errno;
use nx_kernel::Calling;
use nx_ksys::{Replies, Search, Thread};
use nx_ktables::{Tables, answer, done};
use nx_objectcalls::{Led, is_full, queue_at, receive_message, send_message};
use nx_pool::BlockStore;
use nx_sched::Threads;

/// `nx_mq_open` by a thread of the group at a place.
pub fn open_queue(
    tables: &mut Tables,
    caller: Calling,
    place: u32,
    name: &[u8],
    flags: u32,
    limit: u32,
    size: u32,
    replies: &mut Replies,
)
    requires place { place < length tables.old.threads.threads }
    requires placed { IsPlaced tables.old }
    requires paths { (content : Chain → List ℕ) → nat_le tables.old.limit (objects (state_of content tables.old)) ≡ false → length tables.old.objects.tree.entries < tables.old.objects.tree.limit }
    requires room { length replies.old.replies < replies.old.room }
    ensures does { (content : Chain → List ℕ) (group : Group) → Does (state_of content tables.new) (replies_of replies.old.replies) (replies_of replies.new.replies) (mq_open_row (state_of content tables.old) (caller_of caller place group) name.now flags limit size) }
    ensures chains { chains_of tables.new.objects ≡ chains_of tables.old.objects }
    ensures rooms { rooms_of tables.new ≡ rooms_of tables.old }
    ensures room { replies.new.room ≡ replies.old.room }
{
    let full = is_full(&tables.objects, tables.limit);
    let new = nx_objectcalls::open_queue(
        &mut tables.objects,
        place,
        name,
        flags,
        limit,
        size,
        full,
    );
    answer(caller, new, &mut tables.threads, replies);
}

/// `mq_close` by a thread of the group at a place.
pub fn close_queue<B: BlockStore>(
    tables: &mut Tables,
    caller: Calling,
    place: u32,
    fd: u32,
    blocks: &mut B,
    replies: &mut Replies,
)
    requires place { place < length tables.old.threads.threads }
    requires placed { IsPlaced tables.old }
    requires held { B.holds blocks.old (chains_of tables.old.objects) }
    requires room { length replies.old.replies < replies.old.room }
    ensures does { (group : Group) → Does (state_of (B.content blocks.new) tables.new) (replies_of replies.old.replies) (replies_of replies.new.replies) (mq_close_row (state_of (B.content blocks.old) tables.old) (caller_of caller place group) fd) }
    ensures held { B.holds blocks.new (chains_of tables.new.objects) }
    ensures alike { B.alike blocks.old blocks.new }
    ensures rooms { rooms_of tables.new ≡ rooms_of tables.old }
    ensures room { replies.new.room ≡ replies.old.room }
{
    let outcome = nx_objectcalls::close_queue(
        &mut tables.objects,
        place,
        fd,
        &tables.threads,
        blocks,
    );
    done(caller, outcome, &mut tables.threads, replies);
}

/// `mq_unlink`.
pub fn unlink_queue<B: BlockStore>(
    tables: &mut Tables,
    caller: Calling,
    name: &[u8],
    blocks: &mut B,
    replies: &mut Replies,
)
    requires placed { IsPlaced tables.old }
    requires held { B.holds blocks.old (chains_of tables.old.objects) }
    requires room { length replies.old.replies < replies.old.room }
    ensures does { (place : ℕ) (group : Group) → Does (state_of (B.content blocks.new) tables.new) (replies_of replies.old.replies) (replies_of replies.new.replies) (mq_unlink_row (state_of (B.content blocks.old) tables.old) (caller_of caller place group) name.now) }
    ensures held { B.holds blocks.new (chains_of tables.new.objects) }
    ensures alike { B.alike blocks.old blocks.new }
    ensures rooms { rooms_of tables.new ≡ rooms_of tables.old }
    ensures room { replies.new.room ≡ replies.old.room }
{
    let outcome = nx_objectcalls::unlink_queue(&mut tables.objects, name, &tables.threads, blocks);
    done(caller, outcome, &mut tables.threads, replies);
}

// A message is sent to a queue to which a descriptor leads.
fn send_to<B: BlockStore>(
    tables: &mut Tables,
    caller: Calling,
    led: Led,
    bytes: &[u8],
    size: u32,
    priority: u32,
    blocks: &mut B,
    replies: &mut Replies,
)
    requires few { length bytes.now ≤ 4096 }
    requires moments { tables.old.threads.moments + 1 < 2 ^ 64 }
    requires held { B.holds blocks.old (chains_of tables.old.objects) }
    requires free { free_blocks (state_of (B.content blocks.old) tables.old) ≡ B.free_blocks blocks.old }
    requires room { length replies.old.replies + 1 < replies.old.room }
    ensures does { (place : ℕ) (group : Group) → Does (state_of (B.content blocks.new) tables.new) (replies_of replies.old.replies) (replies_of replies.new.replies)
        (send_on (state_of (B.content blocks.old) tables.old) (caller_of caller place group) (record { priority = priority; bytes = bytes.now }) size (queue_led (state_of (B.content blocks.old) tables.old) (Some led))) }
    ensures held { B.holds blocks.new (chains_of tables.new.objects) }
    ensures alike { B.alike blocks.old blocks.new }
    ensures rooms { rooms_of tables.new ≡ rooms_of tables.old }
    ensures room { replies.new.room ≡ replies.old.room }
{
    let receiver = tables.threads.first(Search::Receiver(led.place));
    let slot = tables.threads.slot_of(caller.thread.number);
    let sent = send_message(
        &mut tables.objects,
        led,
        bytes,
        size,
        priority,
        receiver,
        slot,
        blocks,
    );
    tell_sent(
        caller,
        led.place,
        priority,
        bytes,
        sent,
        &mut tables.threads,
        replies,
    );
}

/// `mq_send` by a thread of the group at a place. A receiver that waits gets the message, which
/// then takes no blocks.
#[tactic(auto, unfolding(nx_ksys::specs::QueueCalls::mq_send_row))]
pub fn send<B: BlockStore>(
    tables: &mut Tables,
    caller: Calling,
    place: u32,
    fd: u32,
    bytes: &[u8],
    size: u32,
    priority: u32,
    blocks: &mut B,
    replies: &mut Replies,
)
    requires place { place < length tables.old.threads.threads }
    requires placed { IsPlaced tables.old }
    requires few { length bytes.now ≤ 4096 }
    requires moments { tables.old.threads.moments + 1 < 2 ^ 64 }
    requires held { B.holds blocks.old (chains_of tables.old.objects) }
    requires free { free_blocks (state_of (B.content blocks.old) tables.old) ≡ B.free_blocks blocks.old }
    requires room { length replies.old.replies + 1 < replies.old.room }
    ensures does { (group : Group) → Does (state_of (B.content blocks.new) tables.new) (replies_of replies.old.replies) (replies_of replies.new.replies) (mq_send_row (state_of (B.content blocks.old) tables.old) (caller_of caller place group) fd bytes.now size priority) }
    ensures held { B.holds blocks.new (chains_of tables.new.objects) }
    ensures alike { B.alike blocks.old blocks.new }
    ensures rooms { rooms_of tables.new ≡ rooms_of tables.old }
    ensures room { replies.new.room ≡ replies.old.room }
{
    match queue_at(&tables.objects, place, fd) {
        None => done(caller, Err(Errno::Ebadf), &mut tables.threads, replies),
        Some(led) => send_to(tables, caller, led, bytes, size, priority, blocks, replies),
    }
}

fn slot_of(thread: Option<Thread>, threads: &Threads) -> Option<usize>
    ensures { IfSome thread (λ t. slot_in threads.now.threads t.number ≡ result) }
{
    match thread {
        None => None,
        Some(thread) => threads.slot_of(thread.number),
    }
}

// A message is received from a queue to which a descriptor leads.
fn receive_from<B: BlockStore>(
    tables: &mut Tables,
    caller: Calling,
    led: Led,
    size: u32,
    ticks: Option<u32>,
    buffer: &mut [u8],
    blocks: &mut B,
    replies: &mut Replies,
)
    requires buffer { length buffer.old ≡ 4096 }
    requires time { tables.old.clock.time + 2 ^ 32 < 2 ^ 64 }
    requires moments { tables.old.threads.moments + 1 < 2 ^ 64 }
    requires held { B.holds blocks.old (chains_of tables.old.objects) }
    requires room { length replies.old.replies + 1 < replies.old.room }
    ensures does { (place : ℕ) (group : Group) → Does (state_of (B.content blocks.new) tables.new) (replies_of replies.old.replies) (replies_of replies.new.replies)
        (receive_on (state_of (B.content blocks.old) tables.old) (caller_of caller place group) size ticks (queue_led (state_of (B.content blocks.old) tables.old) (Some led))) }
    ensures buffer { length buffer.new ≡ 4096 }
    ensures held { B.holds blocks.new (chains_of tables.new.objects) }
    ensures alike { B.alike blocks.old blocks.new }
    ensures rooms { rooms_of tables.new ≡ rooms_of tables.old }
    ensures room { replies.new.room ≡ replies.old.room }
{
    let sender = tables.threads.first(Search::Sender(led.place));
    let slot = slot_of(sender, &tables.threads);
    let received = receive_message(
        &mut tables.objects,
        led,
        size,
        ticks,
        sender,
        slot,
        buffer,
        blocks,
    );
    let time = tables.clock.time();
    tell_received(
        caller,
        led.place,
        time,
        ticks,
        buffer,
        sender,
        received,
        &mut tables.threads,
        replies,
    );
}

/// `mq_receive`, and with ticks `nx_mq_timedreceive`, by a thread of the group at a place, through a
/// buffer.
#[tactic(auto, unfolding(nx_ksys::specs::QueueCalls::mq_receive_row, nx_ksys::specs::QueueCalls::mq_timedreceive_row))]
pub fn receive<B: BlockStore>(
    tables: &mut Tables,
    caller: Calling,
    place: u32,
    fd: u32,
    size: u32,
    ticks: Option<u32>,
    buffer: &mut [u8],
    blocks: &mut B,
    replies: &mut Replies,
)
    requires place { place < length tables.old.threads.threads }
    requires placed { IsPlaced tables.old }
    requires buffer { length buffer.old ≡ 4096 }
    requires time { tables.old.clock.time + 2 ^ 32 < 2 ^ 64 }
    requires moments { tables.old.threads.moments + 1 < 2 ^ 64 }
    requires held { B.holds blocks.old (chains_of tables.old.objects) }
    requires room { length replies.old.replies + 1 < replies.old.room }
    ensures does { (group : Group) → Does (state_of (B.content blocks.new) tables.new) (replies_of replies.old.replies) (replies_of replies.new.replies) (receives (state_of (B.content blocks.old) tables.old) (caller_of caller place group) fd size ticks) }
    ensures buffer { length buffer.new ≡ 4096 }
    ensures held { B.holds blocks.new (chains_of tables.new.objects) }
    ensures alike { B.alike blocks.old blocks.new }
    ensures rooms { rooms_of tables.new ≡ rooms_of tables.old }
    ensures room { replies.new.room ≡ replies.old.room }
{
    match queue_at(&tables.objects, place, fd) {
        None => done(caller, Err(Errno::Ebadf), &mut tables.threads, replies),
        Some(led) => receive_from(tables, caller, led, size, ticks, buffer, blocks, replies),
    }
}
