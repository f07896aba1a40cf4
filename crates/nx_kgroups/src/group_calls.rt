// Calls on the group of the caller and on its arguments, each by its row. Where the group isn't there,
// nothing happens.
ghost use Rattle.std.specs.Prelude.{◌≡◌, ◌<◌, ◌+◌, ◌^◌, ℕ, List, [], Some, length, slice_get};
ghost use Rattle.nx_pool.specs.declared.chain.Chain.{Chain};
ghost use Rattle.nx_ksys.specs.Threads.{flat};
ghost use Rattle.nx_ksys.specs.State.{Group};
ghost use Rattle.nx_ksys.specs.Gathered.{replies_of};
ghost use Rattle.nx_ksys.specs.Answers.{replied};
ghost use Rattle.nx_ksys.specs.GroupCalls.{arg_row};
ghost use Rattle.nx_ksys.specs.ThreadCalls.{setpriority_row};
ghost use Rattle.nx_kernel.specs.Doing.{Does};
ghost use Rattle.nx_objects.specs.Tables.{chains_of};
ghost use Rattle.nx_ktables.specs.State.{state_of, rooms_of};
ghost use Rattle.nx_kgroups.specs.Outcomes.{calls_at};

use nx_base::Errno;
use nx_kernel::Calling;
use nx_ksys::Replies;
use nx_ktables::{Tables, answer, done, tell_text};

/// `getpid` by a thread of the group at a place.
pub fn tell_group(tables: &mut Tables, caller: Calling, place: u32, replies: &mut Replies)
    requires room { length replies.old.replies < replies.old.room }
    ensures does { (content : Chain → List ℕ) (g : Group) → flat (slice_get tables.old.groups place) ≡ Some g
        → Does (state_of content tables.new) (replies_of replies.old.replies) (replies_of replies.new.replies) (replied (state_of content tables.old) (calls_at tables.old caller place g) g.number []) }
    ensures chains { chains_of tables.new.objects ≡ chains_of tables.old.objects }
    ensures rooms { rooms_of tables.new ≡ rooms_of tables.old }
    ensures room { replies.new.room ≡ replies.old.room }
{
    match tables.groups.get(place) {
        None => {}
        Some(group) => {
            let number = group.number();
            answer(caller, Ok(number), &mut tables.threads, replies);
        }
    }
}

/// `nx_argc` by a thread of the group at a place.
pub fn count_arguments(tables: &mut Tables, caller: Calling, place: u32, replies: &mut Replies)
    requires few { (g : Group) → flat (slice_get tables.old.groups place) ≡ Some g → length g.arguments < 2 ^ 32 }
    requires room { length replies.old.replies < replies.old.room }
    ensures does { (content : Chain → List ℕ) (g : Group) → flat (slice_get tables.old.groups place) ≡ Some g
        → Does (state_of content tables.new) (replies_of replies.old.replies) (replies_of replies.new.replies) (replied (state_of content tables.old) (calls_at tables.old caller place g) (length g.arguments) []) }
    ensures chains { chains_of tables.new.objects ≡ chains_of tables.old.objects }
    ensures rooms { rooms_of tables.new ≡ rooms_of tables.old }
    ensures room { replies.new.room ≡ replies.old.room }
{
    match tables.groups.get(place) {
        None => {}
        Some(group) => {
            let count = group.count_arguments() as u32;
            answer(caller, Ok(count), &mut tables.threads, replies);
        }
    }
}

/// `nx_arg` by a thread of the group at a place. EINVAL for an index from the count on.
#[tactic(auto, unfolding(nx_ksys::specs::GroupCalls::arg_row))]
pub fn tell_argument(
    tables: &mut Tables,
    caller: Calling,
    place: u32,
    index: u32,
    size: u32,
    replies: &mut Replies,
)
    requires room { length replies.old.replies < replies.old.room }
    ensures does { (content : Chain → List ℕ) (g : Group) → flat (slice_get tables.old.groups place) ≡ Some g
        → Does (state_of content tables.new) (replies_of replies.old.replies) (replies_of replies.new.replies) (arg_row (state_of content tables.old) (calls_at tables.old caller place g) index size) }
    ensures chains { chains_of tables.new.objects ≡ chains_of tables.old.objects }
    ensures rooms { rooms_of tables.new ≡ rooms_of tables.old }
    ensures room { replies.new.room ≡ replies.old.room }
{
    match tables.groups.get(place) {
        None => {}
        Some(group) => match group.argument(index as usize) {
            None => done(caller, Err(Errno::Einval), &mut tables.threads, replies),
            Some(text) => tell_text(caller, size, text, &mut tables.threads, replies),
        },
    }
}

/// `nx_setpriority` by a thread of the group at a place.
pub fn set_priority(
    tables: &mut Tables,
    caller: Calling,
    place: u32,
    thread: u32,
    priority: u32,
    replies: &mut Replies,
)
    requires moments { tables.old.threads.moments + 1 < 2 ^ 64 }
    requires room { length replies.old.replies < replies.old.room }
    ensures does { (content : Chain → List ℕ) (g : Group) → flat (slice_get tables.old.groups place) ≡ Some g
        → Does (state_of content tables.new) (replies_of replies.old.replies) (replies_of replies.new.replies) (setpriority_row (state_of content tables.old) (calls_at tables.old caller place g) thread priority) }
    ensures chains { chains_of tables.new.objects ≡ chains_of tables.old.objects }
    ensures rooms { rooms_of tables.new ≡ rooms_of tables.old }
    ensures room { replies.new.room ≡ replies.old.room }
{
    match tables.groups.get(place) {
        None => {}
        Some(group) => {
            let number = group.number();
            tables.set_priority(caller, number, thread, priority, replies);
        }
    }
}
