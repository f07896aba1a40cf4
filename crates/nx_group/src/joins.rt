// Threads that wait for the end of another.
ghost use Rattle.std.specs.Prelude.{◌≡◌, ◌<◌, ◌≤◌, ◌+◌, ◌^◌, ◌++◌, [], ◌∷◌, length};
ghost use Rattle.std.specs.List.{list_any};
ghost use Rattle.nx_ksys.specs.declared.thread.Search.TheVariants as search;
ghost use Rattle.nx_ksys.specs.Answers.{int_out};
ghost use Rattle.nx_ksys.specs.Telling.{reply};
ghost use Rattle.nx_ksys.specs.Threads.{first_of};
ghost use Rattle.nx_ksys.specs.Gathered.{replies_of};
ghost use Rattle.nx_ksys.specs.State.{KernelState};
ghost use Rattle.nx_ksys.specs.Ends.{hand_value as handed_value};
ghost use Rattle.nx_ksys.specs.ThreadCalls.{is_joined_by};
ghost use Rattle.nx_group.specs.Waiting.{waiting};
ghost use Rattle.nx_group.specs.Living.{with_values, IsTold};

use crate::ends::int_bytes;
use crate::value::{ThreadValue, Values};
use nx_ksys::{Replies, Search, Thread, Wait};
use nx_sched::{Threads, awaited};

fn awaits_end(number: u32, slot: Option<Thread>) -> bool
    ensures { result ≡ is_joined_by number slot }
{
    match slot {
        None => false,
        Some(thread) => match awaited(thread.doing) {
            Some(Wait::Thread(other)) => other == number,
            _ => false,
        },
    }
}

fn any_awaits_end(number: u32, slots: &[Option<Thread>]) -> bool
    ensures { result ≡ list_any (is_joined_by number) slots.now }
{
    slots.iter().any(|slot| awaits_end(number, *slot))
}

/// Whether some thread waits for the end of this one.
pub fn is_joined(number: u32, threads: &Threads) -> bool
    ensures { result ≡ list_any (is_joined_by number) threads.now.threads }
{
    any_awaits_end(number, threads.as_slice())
}

// A thread that joined another is told its value.
fn tell_value(thread: u32, value: u32, replies: &mut Replies)
    requires { length replies.old.replies < replies.old.room }
    ensures told { replies_of replies.new.replies ≡ replies_of replies.old.replies ++ reply thread 0 (int_out value ∷ []) ∷ [] }
    ensures len { length replies.new.replies ≡ length replies.old.replies + 1 }
    ensures room { replies.new.room ≡ replies.old.room }
{
    let bytes = int_bytes(value);
    replies.tell(thread, 0, bytes.as_slice(), b"");
}

/// A thread of a group ended with a value: a thread that waits for its end takes it; without one it
/// is kept.
pub fn hand_value(
    group: u32,
    thread: u32,
    value: u32,
    values: &mut Values,
    threads: &mut Threads,
    replies: &mut Replies,
)
    requires moments { threads.old.moments + waiting threads.old.threads < 2 ^ 64 }
    requires kept { length values.old.values < values.old.room }
    requires room { length replies.old.replies + waiting threads.old.threads ≤ replies.old.room }
    ensures told { (k : KernelState) → IsTold (replies_of replies.old.replies) (replies_of replies.new.replies) (with_values k threads.new values.new.values)
        (handed_value (with_values k threads.old values.old.values) (record { group = group; thread = thread; value = value }) (first_of (search.Joiner thread) threads.old.threads)) }
    ensures same { replies.new.room ≡ replies.old.room }
    ensures kept { values.new.room ≡ values.old.room }
{
    match threads.first(Search::Joiner(thread)) {
        None => values.add(ThreadValue::new(group, thread, value)),
        Some(joiner) => {
            threads.wake(joiner.number);
            tell_value(joiner.number, value, replies);
        }
    }
}
