// How calls that move bytes, wait or wake are answered.
ghost use Rattle.std.specs.Prelude.{◌≡◌, ◌<◌, ◌≤◌, ◌+◌, ◌^◌, ◌++◌, ℕ, [], IfOk, IfSome, length, take};
ghost use Rattle.nx_ksys.specs.State.{Group, KernelState};
ghost use Rattle.nx_ksys.specs.Threads.{woken_with};
ghost use Rattle.nx_ksys.specs.QueueCalls.{delivered};
ghost use Rattle.nx_ksys.specs.Gathered.{replies_of};
ghost use Rattle.nx_ipc.specs.Rows.{send_told, receive_told, message_told, is_within, deadline_after as deadline_of};
ghost use Rattle.nx_ipc.specs.Semaphores.{wait_told, post_told};
ghost use Rattle.nx_kernel.specs.Doing.{Does, caller_of};
ghost use Rattle.nx_kernel.specs.Waking.{scheduled};
ghost use Rattle.nx_path.specs.Rows.{name_told};
ghost use Rattle.nx_objectcalls.specs.Rows.{bytes_told};

use arrayvec::ArrayVec;
use nx_base::Errno;
use nx_group::int_bytes;
use nx_ipc::{Posted, Received, Sent, Taken, Waited};
use nx_kernel::Calling;
use nx_ksys::{MOST_MOVED, Replies, Thread, Wait};
use nx_ktables::{refuse, tell_text, tell_word};
use nx_sched::Threads;

/// The call gives bytes of a buffer, and their number, or is refused.
pub fn tell_read(
    caller: Calling,
    count: Result<u32, Errno>,
    buffer: &[u8],
    threads: &mut Threads,
    replies: &mut Replies,
)
    requires few { IfOk count (λ n. n ≤ length buffer.now) }
    requires short { length buffer.now ≤ 4096 }
    requires room { length replies.old.replies < replies.old.room }
    ensures does { (k : KernelState) (place : ℕ) (group : Group) → Does (scheduled k threads.new) (replies_of replies.old.replies) (replies_of replies.new.replies) (bytes_told (scheduled k threads.old) (caller_of caller place group) buffer.now count) }
    ensures room { replies.new.room ≡ replies.old.room }
{
    match count {
        Err(fault) => refuse(caller, fault, threads, replies),
        Ok(count) => tell_word(
            caller.thread.number,
            count,
            &buffer[..count as usize],
            b"",
            replies,
        ),
    }
}

// A thread goes on, and its call gives 0.
fn go_on(thread: Thread, threads: &mut Threads, replies: &mut Replies)
    requires moments { threads.old.moments + 1 < 2 ^ 64 }
    requires room { length replies.old.replies < replies.old.room }
    ensures state { threads.new ≡ (woken_with threads.old thread 0 []).sched }
    ensures told { replies_of replies.new.replies ≡ replies_of replies.old.replies ++ (woken_with threads.old thread 0 []).replies }
    ensures room { replies.new.room ≡ replies.old.room }
{
    threads.wake(thread.number);
    tell_word(thread.number, 0, b"", b"", replies);
}

// A receiver that waits gets a message.
#[tactic(auto, using(crate::proofs::Taking::taken_least, crate::proofs::Taking::taken_length))]
fn deliver(
    thread: Thread,
    priority: u32,
    bytes: &[u8],
    threads: &mut Threads,
    replies: &mut Replies,
)
    requires moments { threads.old.moments + 1 < 2 ^ 64 }
    requires room { length replies.old.replies < replies.old.room }
    ensures state { threads.new ≡ (delivered threads.old thread (record { priority = priority; bytes = bytes.now })).sched }
    ensures told { replies_of replies.new.replies ≡ replies_of replies.old.replies ++ (delivered threads.old thread (record { priority = priority; bytes = bytes.now })).replies }
    ensures room { replies.new.room ≡ replies.old.room }
{
    let room = (thread.asked.words[2] as usize).min(MOST_MOVED);
    let count = room.min(bytes.len());
    threads.wake(thread.number);
    let number = int_bytes(priority);
    tell_word(
        thread.number,
        count as u32,
        &bytes[..count],
        number.as_slice(),
        replies,
    );
}

/// A message was sent to the queue at a place: it joined, its sender waits, or a receiver gets it.
pub fn tell_sent(
    caller: Calling,
    queue: u32,
    priority: u32,
    bytes: &[u8],
    outcome: Result<Sent, Errno>,
    threads: &mut Threads,
    replies: &mut Replies,
)
    requires moments { threads.old.moments + 1 < 2 ^ 64 }
    requires room { length replies.old.replies + 1 < replies.old.room }
    ensures does { (k : KernelState) (place : ℕ) (group : Group) → Does (scheduled k threads.new) (replies_of replies.old.replies) (replies_of replies.new.replies) (send_told (scheduled k threads.old) (caller_of caller place group) queue (record { priority = priority; bytes = bytes.now }) outcome) }
    ensures room { replies.new.room ≡ replies.old.room }
{
    match outcome {
        Err(fault) => refuse(caller, fault, threads, replies),
        Ok(sent) => match sent {
            Sent::Joined => tell_word(caller.thread.number, 0, b"", b"", replies),
            Sent::Waits => threads.block(
                caller.thread.number,
                caller.asked,
                Wait::Send(queue),
                None,
            ),
            Sent::Delivered(thread) => {
                tell_word(caller.thread.number, 0, b"", b"", replies);
                deliver(thread, priority, bytes, threads, replies);
            }
        },
    }
}

fn deadline_after(time: u64, ticks: Option<u32>) -> Option<u64>
    requires { IfSome ticks (λ n. time + n < 2 ^ 64) }
    ensures { result ≡ deadline_of time ticks }
{
    match ticks {
        None => None,
        Some(ticks) => Some(time + ticks as u64),
    }
}

// A message was received, and a sender that waited goes on.
fn tell_message(
    caller: Calling,
    taken: Taken,
    into: &[u8],
    sender: Option<Thread>,
    threads: &mut Threads,
    replies: &mut Replies,
)
    requires moments { threads.old.moments + 1 < 2 ^ 64 }
    requires few { taken.count ≤ length into.now }
    requires short { taken.count ≤ 4096 }
    requires room { length replies.old.replies + 1 < replies.old.room }
    ensures does { (k : KernelState) (place : ℕ) (group : Group) → Does (scheduled k threads.new) (replies_of replies.old.replies) (replies_of replies.new.replies) (message_told (scheduled k threads.old) (caller_of caller place group) taken.count (take taken.count into.now) taken.priority sender) }
    ensures room { replies.new.room ≡ replies.old.room }
{
    let number = int_bytes(taken.priority);
    tell_word(
        caller.thread.number,
        taken.count as u32,
        &into[..taken.count],
        number.as_slice(),
        replies,
    );
    match sender {
        None => {}
        Some(sender) => go_on(sender, threads, replies),
    }
}

/// A message was received from the queue at a place into a buffer, and a sender that waited goes
/// on; or the caller waits, perhaps up to a deadline so many ticks from a time.
pub fn tell_received(
    caller: Calling,
    queue: u32,
    time: u64,
    ticks: Option<u32>,
    into: &[u8],
    sender: Option<Thread>,
    outcome: Result<Received, Errno>,
    threads: &mut Threads,
    replies: &mut Replies,
)
    requires moments { threads.old.moments + 1 < 2 ^ 64 }
    requires time { time + 2 ^ 32 < 2 ^ 64 }
    requires few { IfOk outcome (is_within (length into.now)) }
    requires short { length into.now ≤ 4096 }
    requires room { length replies.old.replies + 1 < replies.old.room }
    ensures does { (k : KernelState) (place : ℕ) (group : Group) → k.time ≡ time → Does (scheduled k threads.new) (replies_of replies.old.replies) (replies_of replies.new.replies) (receive_told (scheduled k threads.old) (caller_of caller place group) queue ticks into.now sender outcome) }
    ensures room { replies.new.room ≡ replies.old.room }
{
    match outcome {
        Err(fault) => refuse(caller, fault, threads, replies),
        Ok(received) => match received {
            Received::Waits => {
                let deadline = deadline_after(time, ticks);
                threads.block(
                    caller.thread.number,
                    caller.asked,
                    Wait::Receive(queue),
                    deadline,
                );
            }
            Received::Message(taken) => {
                tell_message(caller, taken, into, sender, threads, replies)
            }
        },
    }
}

/// One was taken of the semaphore at a place, or the caller waits.
pub fn tell_waited(
    caller: Calling,
    semaphore: u32,
    outcome: Result<Waited, Errno>,
    threads: &mut Threads,
    replies: &mut Replies,
)
    requires moments { threads.old.moments + 1 < 2 ^ 64 }
    requires room { length replies.old.replies < replies.old.room }
    ensures does { (k : KernelState) (place : ℕ) (group : Group) → Does (scheduled k threads.new) (replies_of replies.old.replies) (replies_of replies.new.replies) (wait_told (scheduled k threads.old) (caller_of caller place group) semaphore outcome) }
    ensures room { replies.new.room ≡ replies.old.room }
{
    match outcome {
        Err(fault) => refuse(caller, fault, threads, replies),
        Ok(waited) => match waited {
            Waited::Taken => tell_word(caller.thread.number, 0, b"", b"", replies),
            Waited::Waits => threads.block(
                caller.thread.number,
                caller.asked,
                Wait::Semaphore(semaphore),
                None,
            ),
        },
    }
}

/// A semaphore has one more, or a thread that waited goes on.
pub fn tell_posted(
    caller: Calling,
    outcome: Result<Posted, Errno>,
    threads: &mut Threads,
    replies: &mut Replies,
)
    requires moments { threads.old.moments + 1 < 2 ^ 64 }
    requires room { length replies.old.replies + 1 < replies.old.room }
    ensures does { (k : KernelState) (place : ℕ) (group : Group) → Does (scheduled k threads.new) (replies_of replies.old.replies) (replies_of replies.new.replies) (post_told (scheduled k threads.old) (caller_of caller place group) outcome) }
    ensures room { replies.new.room ≡ replies.old.room }
{
    match outcome {
        Err(fault) => refuse(caller, fault, threads, replies),
        Ok(posted) => match posted {
            Posted::Counted => tell_word(caller.thread.number, 0, b"", b"", replies),
            Posted::Woke(thread) => {
                tell_word(caller.thread.number, 0, b"", b"", replies);
                go_on(thread, threads, replies);
            }
        },
    }
}

/// A name is written as a text, none where there are no more, or the call is refused.
pub fn tell_name(
    caller: Calling,
    size: u32,
    name: Result<Option<ArrayVec<u8, 256>>, Errno>,
    threads: &mut Threads,
    replies: &mut Replies,
)
    requires room { length replies.old.replies < replies.old.room }
    ensures does { (k : KernelState) (place : ℕ) (group : Group) → Does (scheduled k threads.new) (replies_of replies.old.replies) (replies_of replies.new.replies) (name_told (scheduled k threads.old) (caller_of caller place group) size name) }
    ensures room { replies.new.room ≡ replies.old.room }
{
    match name {
        Err(fault) => refuse(caller, fault, threads, replies),
        Ok(name) => match name {
            None => tell_word(caller.thread.number, 0, b"", b"", replies),
            Some(name) => tell_text(caller, size, name.as_slice(), threads, replies),
        },
    }
}
