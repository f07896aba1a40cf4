// What a parent is told of the end of a child.
ghost use Rattle.std.specs.Prelude.{◌≡◌, ◌<◌, ◌≤◌, ◌+◌, ◌^◌, ◌++◌, [], ◌∷◌, List, Option, length};
ghost use Rattle.nx_ksys.specs.declared.thread.Search.TheVariants as search;
ghost use Rattle.nx_ksys.specs.Answers.{int_out};
ghost use Rattle.nx_ksys.specs.Telling.{reply};
ghost use Rattle.nx_ksys.specs.Threads.{first_of};
ghost use Rattle.nx_ksys.specs.Gathered.{replies_of};
ghost use Rattle.nx_ksys.specs.State.{Group, KernelState};
ghost use Rattle.nx_ksys.specs.Ends.{hand_over as handed_over, told_parent};
ghost use Rattle.nx_group.specs.Waiting.{waiting};
ghost use Rattle.nx_group.specs.Living.{living, IsTold};

use crate::code::{Code, Codes};
use crate::groups::Groups;
use crate::lost::refuse_lost;
use nx_ksys::{Replies, Search};
use nx_sched::Threads;

/// A number as the four bytes of an int.
pub fn int_bytes(value: u32) -> [u8; 4]
    ensures { result ≡ int_out value }
{
    [
        (value % 256) as u8,
        (value / 256 % 256) as u8,
        (value / 256 / 256 % 256) as u8,
        (value / 256 / 256 / 256 % 256) as u8,
    ]
}

// A thread is told which child ended, and its code.
fn tell_code(thread: u32, child: u32, code: u8, replies: &mut Replies)
    requires child { child < 2 ^ 31 }
    requires room { length replies.old.replies < replies.old.room }
    ensures told { replies_of replies.new.replies ≡ replies_of replies.old.replies ++ reply thread child (int_out code ∷ []) ∷ [] }
    ensures len { length replies.new.replies ≡ length replies.old.replies + 1 }
    ensures room { replies.new.room ≡ replies.old.room }
{
    let bytes = int_bytes(code as u32);
    replies.tell(thread, child, bytes.as_slice(), b"");
}

// The first thread of the parent that waits for the child takes its code; without one it is kept.
fn hand_over(
    parent: u32,
    child: u32,
    code: u8,
    codes: &mut Codes,
    threads: &mut Threads,
    replies: &mut Replies,
)
    requires child { child < 2 ^ 31 }
    requires moments { threads.old.moments + waiting threads.old.threads < 2 ^ 64 }
    requires kept { length codes.old.codes < codes.old.room }
    requires room { length replies.old.replies + waiting threads.old.threads ≤ replies.old.room }
    ensures told { (k : KernelState) (groups : List (Option Group)) → IsTold (replies_of replies.old.replies) (replies_of replies.new.replies) (living k threads.new groups codes.new.codes)
        (handed_over (living k threads.old groups codes.old.codes) (record { parent = parent; child = child; code = code }) (first_of (search.Parent parent child) threads.old.threads)) }
    ensures same { replies.new.room ≡ replies.old.room }
    ensures room { length replies.new.replies + waiting threads.new.threads ≤ length replies.old.replies + waiting threads.old.threads }
    ensures moments { threads.new.moments + waiting threads.new.threads ≤ threads.old.moments + waiting threads.old.threads }
    ensures kept { codes.new.room ≡ codes.old.room }
{
    match threads.first(Search::Parent(parent, child)) {
        None => codes.add(Code::new(parent, child, code)),
        Some(thread) => {
            threads.wake(thread.number);
            tell_code(thread.number, child, code, replies);
        }
    }
}

/// A child's end is told to its parent: the first of its threads that waits for the child takes the
/// code, and those that have no child left to wait for get ECHILD. Without a thread that waits for
/// it the code is kept.
#[tactic(auto, unfolding(nx_ksys::specs::Ends::told_parent))]
pub fn tell_parent(
    code: Code,
    groups: &Groups,
    codes: &mut Codes,
    threads: &mut Threads,
    replies: &mut Replies,
)
    requires child { code.child < 2 ^ 31 }
    requires moments { threads.old.moments + waiting threads.old.threads < 2 ^ 64 }
    requires kept { length codes.old.codes < codes.old.room }
    requires room { length replies.old.replies + waiting threads.old.threads ≤ replies.old.room }
    ensures told { (k : KernelState) → IsTold (replies_of replies.old.replies) (replies_of replies.new.replies) (living k threads.new groups.now codes.new.codes)
        (told_parent code (living k threads.old groups.now codes.old.codes)) }
    ensures same { replies.new.room ≡ replies.old.room }
    ensures kept { codes.new.room ≡ codes.old.room }
{
    let parent = code.parent();
    if parent == 0 {
        return;
    }
    hand_over(parent, code.child(), code.code(), codes, threads, replies);
    refuse_lost(groups, codes, parent, threads, replies);
}
