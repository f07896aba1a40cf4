// Calls that read variables of the environment, each by its row.
ghost use Rattle.std.specs.Prelude.{◌≡◌, ◌<◌, ℕ, List, Some, length, option_map, slice_get};
ghost use Rattle.nx_pool.specs.declared.chain.Chain.{Chain};
ghost use Rattle.nx_ksys.specs.Threads.{flat};
ghost use Rattle.nx_ksys.specs.State.{Group};
ghost use Rattle.nx_ksys.specs.Gathered.{replies_of};
ghost use Rattle.nx_ksys.specs.State.{KernelState};
ghost use Rattle.nx_ksys.specs.EnvironmentCalls.{getenv_row, env_row};
ghost use Rattle.nx_kernel.specs.Doing.{Does, caller_of};
ghost use Rattle.nx_objects.specs.Tables.{chains_of};
ghost use Rattle.nx_ktables.specs.State.{state_of, rooms_of};
ghost use Rattle.nx_kernel.specs.Waking.{scheduled};
ghost use Rattle.nx_env.specs.Rows.{value_told, variable_told};
ghost use Rattle.nx_kgroups.specs.Outcomes.{calls_at};

use nx_base::Errno;
use nx_env::VariableText;
use nx_kernel::Calling;
use nx_ksys::Replies;
use nx_ktables::{Tables, refuse, tell_text, tell_word};
use nx_sched::Threads;

// The value of a variable is written as a text; ENOENT without one.
fn tell_value(
    caller: Calling,
    size: u32,
    value: Option<&[u8]>,
    threads: &mut Threads,
    replies: &mut Replies,
)
    requires room { length replies.old.replies < replies.old.room }
    ensures does { (k : KernelState) (place : ℕ) (group : Group) → Does (scheduled k threads.new) (replies_of replies.old.replies) (replies_of replies.new.replies) (value_told (scheduled k threads.old) (caller_of caller place group) size (option_map (λ r. r.now) value.entry)) }
    ensures room { replies.new.room ≡ replies.old.room }
{
    match value {
        None => refuse(caller, Errno::Enoent, threads, replies),
        Some(value) => tell_text(caller, size, value, threads, replies),
    }
}

/// `nx_getenv` by a thread of the group at a place.
pub fn tell_variable(
    tables: &mut Tables,
    caller: Calling,
    place: u32,
    name: &[u8],
    size: u32,
    replies: &mut Replies,
)
    requires place { place < length tables.old.environments }
    requires room { length replies.old.replies < replies.old.room }
    ensures does { (content : Chain → List ℕ) (g : Group) → flat (slice_get tables.old.groups place) ≡ Some g
        → Does (state_of content tables.new) (replies_of replies.old.replies) (replies_of replies.new.replies) (getenv_row (state_of content tables.old) (calls_at tables.old caller place g) name.now size) }
    ensures chains { chains_of tables.new.objects ≡ chains_of tables.old.objects }
    ensures rooms { rooms_of tables.new ≡ rooms_of tables.old }
    ensures room { replies.new.room ≡ replies.old.room }
{
    let value = tables.environments.get(place, name);
    tell_value(caller, size, value, &mut tables.threads, replies);
}

// A variable is written as a text, none where there are no more, or the call is refused.
fn tell_listed(
    caller: Calling,
    size: u32,
    text: Result<Option<VariableText>, Errno>,
    threads: &mut Threads,
    replies: &mut Replies,
)
    requires room { length replies.old.replies < replies.old.room }
    ensures does { (k : KernelState) (place : ℕ) (group : Group) → Does (scheduled k threads.new) (replies_of replies.old.replies) (replies_of replies.new.replies) (variable_told (scheduled k threads.old) (caller_of caller place group) size text) }
    ensures room { replies.new.room ≡ replies.old.room }
{
    match text {
        Err(fault) => refuse(caller, fault, threads, replies),
        Ok(text) => match text {
            None => tell_word(caller.thread.number, 0, b"", b"", replies),
            Some(text) => tell_text(caller, size, text.as_slice(), threads, replies),
        },
    }
}

/// `nx_env` by a thread of the group at a place.
pub fn list_variable(
    tables: &mut Tables,
    caller: Calling,
    place: u32,
    index: u32,
    size: u32,
    replies: &mut Replies,
)
    requires place { place < length tables.old.environments }
    requires room { length replies.old.replies < replies.old.room }
    ensures does { (content : Chain → List ℕ) (g : Group) → flat (slice_get tables.old.groups place) ≡ Some g
        → Does (state_of content tables.new) (replies_of replies.old.replies) (replies_of replies.new.replies) (env_row (state_of content tables.old) (calls_at tables.old caller place g) index size) }
    ensures chains { chains_of tables.new.objects ≡ chains_of tables.old.objects }
    ensures rooms { rooms_of tables.new ≡ rooms_of tables.old }
    ensures room { replies.new.room ≡ replies.old.room }
{
    let text = tables.environments.list(place, index);
    tell_listed(caller, size, text, &mut tables.threads, replies);
}
