// `nx_join`, by its row.
ghost use Rattle.std.specs.Prelude.{◌≡◌, ◌<◌, ◌+◌, ◌^◌, ℕ, List, Some, length, option_map, slice_get};
ghost use Rattle.std.specs.List.{find};
ghost use Rattle.nx_pool.specs.declared.chain.Chain.{Chain};
ghost use Rattle.nx_ksys.specs.Threads.{flat};
ghost use Rattle.nx_ksys.specs.State.{Group, KernelState};
ghost use Rattle.nx_ksys.specs.ThreadCalls.{join_row, join_live, is_value};
ghost use Rattle.nx_ksys.specs.Gathered.{replies_of};
ghost use Rattle.nx_kernel.specs.Doing.{Does, caller_of};
ghost use Rattle.nx_kernel.specs.Waking.{scheduled};
ghost use Rattle.nx_objects.specs.Tables.{chains_of};
ghost use Rattle.nx_ktables.specs.State.{state_of, rooms_of};
ghost use Rattle.nx_kgroups.specs.Outcomes.{calls_at};
ghost use Rattle.nx_kgroups.specs.Codes.{value_of};

use nx_base::Errno;
use nx_group::{int_bytes, is_joined};
use nx_kernel::Calling;
use nx_ksys::{Replies, Thread, Wait};
use nx_ktables::{Tables, refuse, tell_word};
use nx_sched::Threads;

// A thread of a group may join another thread of it.
fn wait_for_end(
    caller: Calling,
    group: u32,
    thread: Option<Thread>,
    threads: &mut Threads,
    replies: &mut Replies,
)
    requires moments { threads.old.moments + 1 < 2 ^ 64 }
    requires room { length replies.old.replies < replies.old.room }
    ensures does { (k : KernelState) (place : ℕ) (g : Group) → g.number ≡ group
        → Does (scheduled k threads.new) (replies_of replies.old.replies) (replies_of replies.new.replies) (join_live (scheduled k threads.old) (caller_of caller place g) thread) }
    ensures room { replies.new.room ≡ replies.old.room }
{
    match thread {
        None => refuse(caller, Errno::Einval, threads, replies),
        Some(thread) => {
            let number = thread.number;
            if thread.group != group
                || number == group
                || number == caller.thread.number
                || is_joined(number, threads)
            {
                refuse(caller, Errno::Einval, threads, replies);
                return;
            }
            threads.block(
                caller.thread.number,
                caller.asked,
                Wait::Thread(number),
                None,
            );
        }
    }
}

// The value of a thread.
#[derive(Clone, Copy, Debug)]
struct LeftValue {
    group: u32,
    thread: u32,
    value: u32,
}

// The value that a thread of a group left, if it ended.
fn left_value(tables: &Tables, group: u32, thread: u32) -> Option<LeftValue>
    ensures { option_map value_of result ≡ find (is_value group thread) tables.now.values.values }
{
    match tables.values.find(group, thread) {
        None => None,
        Some(value) => Some(LeftValue {
            group: value.group(),
            thread: value.thread(),
            value: value.value(),
        }),
    }
}

/// `nx_join` by a thread of the group at a place.
#[tactic(auto, unfolding(nx_ksys::specs::ThreadCalls::join_row))]
pub fn join(tables: &mut Tables, caller: Calling, place: u32, thread: u32, replies: &mut Replies)
    requires moments { tables.old.threads.moments + 1 < 2 ^ 64 }
    requires room { length replies.old.replies < replies.old.room }
    ensures does { (content : Chain → List ℕ) (g : Group) → flat (slice_get tables.old.groups place) ≡ Some g
        → Does (state_of content tables.new) (replies_of replies.old.replies) (replies_of replies.new.replies) (join_row (state_of content tables.old) (calls_at tables.old caller place g) thread) }
    ensures chains { chains_of tables.new.objects ≡ chains_of tables.old.objects }
    ensures rooms { rooms_of tables.new ≡ rooms_of tables.old }
    ensures room { replies.new.room ≡ replies.old.room }
{
    match tables.groups.get(place) {
        None => {}
        Some(group) => {
            let group = group.number();
            match left_value(tables, group, thread) {
                None => {
                    let other = tables.threads.thread(thread);
                    wait_for_end(caller, group, other, &mut tables.threads, replies);
                }
                Some(left) => {
                    tables.values.take(left.thread);
                    let bytes = int_bytes(left.value);
                    tell_word(caller.thread.number, 0, bytes.as_slice(), b"", replies);
                }
            }
        }
    }
}
