// Who calls, and how a call is answered.
ghost use Rattle.std.specs.Prelude.{◌≡◌, ◌<◌, ◌+◌, ◌^◌, ◌++◌, ℕ, [], ◌∷◌, length};
ghost use Rattle.nx_ksys.specs.Gathered.{replies_of};
ghost use Rattle.nx_ksys.specs.Telling.{reply, failure};
ghost use Rattle.nx_ksys.specs.Threads.{with_error};

use nx_base::Errno;
use nx_ksys::{Asked, Replies, Thread};
use nx_sched::Threads;

/// A thread that calls, with its call without the words that mean nothing.
#[derive(Clone, Copy, Debug)]
pub struct Calling {
    /// The thread.
    pub thread: Thread,
    /// Its call.
    pub asked: Asked,
}

/// The call succeeds with a value.
pub fn succeed(caller: Calling, value: u32, replies: &mut Replies)
    requires room { length replies.old.replies < replies.old.room }
    requires value { value < 2 ^ 31 }
    ensures told { replies_of replies.new.replies ≡ replies_of replies.old.replies ++ reply caller.thread.number value [] ∷ [] }
    ensures len { length replies.new.replies ≡ length replies.old.replies + 1 }
    ensures room { replies.new.room ≡ replies.old.room }
{
    replies.tell(caller.thread.number, value, b"", b"");
}

/// The call fails, and the caller's last error is this.
pub fn refuse(caller: Calling, errno: Errno, threads: &mut Threads, replies: &mut Replies)
    requires room { length replies.old.replies < replies.old.room }
    ensures state { threads.new ≡ with_error threads.old caller.thread.number errno }
    ensures told { replies_of replies.new.replies ≡ replies_of replies.old.replies ++ failure caller.thread.number errno ∷ [] }
    ensures len { length replies.new.replies ≡ length replies.old.replies + 1 }
    ensures room { replies.new.room ≡ replies.old.room }
{
    threads.fail(caller.thread.number, errno);
    replies.fail(caller.thread.number, errno);
}
