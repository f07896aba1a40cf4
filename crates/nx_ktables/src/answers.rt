// How a call on the tables is answered.
ghost use Rattle.std.specs.Prelude.{◌≡◌, ◌<◌, ◌≤◌, ◌+◌, ◌++◌, ℕ, [], ◌∷◌, length};
ghost use Rattle.nx_ksys.specs.State.{Group, KernelState};
ghost use Rattle.nx_ksys.specs.Threads.{with_error};
ghost use Rattle.nx_ksys.specs.Telling.{reply, failure};
ghost use Rattle.nx_ksys.specs.Answers.{text_out};
ghost use Rattle.nx_ksys.specs.Gathered.{replies_of};
ghost use Rattle.nx_kernel.specs.Doing.{Does, caller_of};
ghost use Rattle.nx_kernel.specs.Waking.{scheduled};
ghost use Rattle.nx_path.specs.Rows.{answered, done as done_as};

use arrayvec::ArrayVec;
use nx_base::Errno;
use nx_kernel::Calling;
use nx_ksys::{MOST_MOVED, Replies};
use nx_sched::Threads;

/// A thread's call succeeds with a value, a word of any size, and two outputs.
pub fn tell_word(thread: u32, value: u32, first: &[u8], second: &[u8], replies: &mut Replies)
    requires room { length replies.old.replies < replies.old.room }
    requires first { length first.now ≤ 4096 }
    requires second { length second.now ≤ 4096 }
    ensures told { replies_of replies.new.replies ≡ replies_of replies.old.replies ++ reply thread value (first.now ∷ second.now ∷ []) ∷ [] }
    ensures len { length replies.new.replies ≡ length replies.old.replies + 1 }
    ensures room { replies.new.room ≡ replies.old.room }
{
    replies.add(thread, value.cast_signed(), 0, first, second);
}

/// The call fails, and the caller's last error is this.
pub fn refuse(caller: Calling, fault: Errno, threads: &mut Threads, replies: &mut Replies)
    requires room { length replies.old.replies < replies.old.room }
    ensures state { threads.new ≡ with_error threads.old caller.thread.number fault }
    ensures told { replies_of replies.new.replies ≡ replies_of replies.old.replies ++ failure caller.thread.number fault ∷ [] }
    ensures room { replies.new.room ≡ replies.old.room }
{
    threads.fail(caller.thread.number, fault);
    replies.fail(caller.thread.number, fault);
}

/// The call gives a value, or is refused.
pub fn answer(
    caller: Calling,
    value: Result<u32, Errno>,
    threads: &mut Threads,
    replies: &mut Replies,
)
    requires room { length replies.old.replies < replies.old.room }
    ensures does { (k : KernelState) (place : ℕ) (group : Group) → Does (scheduled k threads.new) (replies_of replies.old.replies) (replies_of replies.new.replies) (answered (scheduled k threads.old) (caller_of caller place group) value) }
    ensures room { replies.new.room ≡ replies.old.room }
{
    match value {
        Ok(value) => tell_word(caller.thread.number, value, b"", b"", replies),
        Err(fault) => refuse(caller, fault, threads, replies),
    }
}

/// The call is done, and gives 0, or is refused.
pub fn done(
    caller: Calling,
    outcome: Result<(), Errno>,
    threads: &mut Threads,
    replies: &mut Replies,
)
    requires room { length replies.old.replies < replies.old.room }
    ensures does { (k : KernelState) (place : ℕ) (group : Group) → Does (scheduled k threads.new) (replies_of replies.old.replies) (replies_of replies.new.replies) (done_as (scheduled k threads.old) (caller_of caller place group) outcome) }
    ensures room { replies.new.room ≡ replies.old.room }
{
    match outcome {
        Ok(()) => tell_word(caller.thread.number, 0, b"", b"", replies),
        Err(fault) => refuse(caller, fault, threads, replies),
    }
}

// A text with a zero byte after it.
fn ended(text: &[u8]) -> ArrayVec<u8, 4096>
    requires { length text.now < 4096 }
    ensures { result.items ≡ text.now ++ 0 ∷ [] }
{
    let mut copy = ArrayVec::new();
    for byte in text {
        copy.push(*byte);
    }
    copy.push(0);
    copy
}

/// A text is written with a zero byte after it, and its length is the value. EINVAL where the
/// caller's size isn't greater than the length.
pub fn tell_text(
    caller: Calling,
    size: u32,
    text: &[u8],
    threads: &mut Threads,
    replies: &mut Replies,
)
    requires room { length replies.old.replies < replies.old.room }
    ensures does { (k : KernelState) (place : ℕ) (group : Group) → Does (scheduled k threads.new) (replies_of replies.old.replies) (replies_of replies.new.replies) (text_out (scheduled k threads.old) (caller_of caller place group) size text.now) }
    ensures room { replies.new.room ≡ replies.old.room }
{
    if text.len() >= (size as usize).min(MOST_MOVED) {
        refuse(caller, Errno::Einval, threads, replies);
        return;
    }
    let copy = ended(text);
    tell_word(
        caller.thread.number,
        text.len() as u32,
        copy.as_slice(),
        b"",
        replies,
    );
}
