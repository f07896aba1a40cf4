// `waitpid`, by its row.
ghost use Rattle.std.specs.Prelude.{◌≡◌, ◌<◌, ◌≤◌, ◌+◌, ◌^◌, ℕ, List, Bool, Some, length, option_map, slice_get};
ghost use Rattle.nx_pool.specs.declared.chain.Chain.{Chain};
ghost use Rattle.nx_ksys.specs.Threads.{flat};
ghost use Rattle.nx_ksys.specs.State.{Group, KernelState};
ghost use Rattle.nx_ksys.specs.Ends.{has_child as has_child_in, has_any_child as has_any_child_in};
ghost use Rattle.nx_ksys.specs.GroupCalls.{waitpid_row, wait_for, wait_child, take_code as takes_code};
ghost use Rattle.nx_ksys.specs.Gathered.{replies_of};
ghost use Rattle.nx_kernel.specs.Doing.{Does, caller_of};
ghost use Rattle.nx_objects.specs.Tables.{chains_of};
ghost use Rattle.nx_ktables.specs.State.{state_of, rooms_of};
ghost use Rattle.nx_kernel.specs.Waking.{scheduled};
ghost use Rattle.nx_env.specs.Joined.{joined};
ghost use Rattle.nx_kgroups.specs.Outcomes.{calls_at};
ghost use Rattle.nx_kgroups.specs.Codes.{code_of, waits_wrongly};

use nx_base::Errno;
use nx_group::{Code, int_bytes};
use nx_kernel::Calling;
use nx_ksys::{Replies, Wait};
use nx_ktables::{Tables, done, tell_word};
use nx_sched::Threads;

/// The word that stands for any child.
const ANY_CHILD: u32 = 4294967295;

// The caller waits, or with option 1 is told that no child has ended.
fn wait_or_not(
    caller: Calling,
    wait: Wait,
    option: u32,
    threads: &mut Threads,
    replies: &mut Replies,
)
    requires moments { threads.old.moments + 1 < 2 ^ 64 }
    requires room { length replies.old.replies < replies.old.room }
    ensures does { (k : KernelState) (place : ℕ) (group : Group) → Does (scheduled k threads.new) (replies_of replies.old.replies) (replies_of replies.new.replies) (wait_for (scheduled k threads.old) (caller_of caller place group) wait option) }
    ensures room { replies.new.room ≡ replies.old.room }
{
    if option == 1 {
        tell_word(caller.thread.number, 0, b"", b"", replies);
        return;
    }
    threads.block(caller.thread.number, caller.asked, wait, None);
}

// The code of a child.
#[derive(Clone, Copy, Debug)]
struct ChildCode {
    parent: u32,
    child: u32,
    code: u8,
}

fn copied(code: Option<&Code>) -> Option<ChildCode>
    ensures { option_map code_of result ≡ option_map (λ r. r.now) code.entry }
{
    match code {
        None => None,
        Some(code) => Some(ChildCode {
            parent: code.parent(),
            child: code.child(),
            code: code.code(),
        }),
    }
}

// A child's code is told and forgotten.
fn take_code(tables: &mut Tables, caller: Calling, code: ChildCode, replies: &mut Replies)
    requires room { length replies.old.replies < replies.old.room }
    ensures does { (content : Chain → List ℕ) (place : ℕ) (group : Group) → Does (state_of content tables.new) (replies_of replies.old.replies) (replies_of replies.new.replies) (takes_code (state_of content tables.old) (caller_of caller place group) (code_of code)) }
    ensures chains { chains_of tables.new.objects ≡ chains_of tables.old.objects }
    ensures rooms { rooms_of tables.new ≡ rooms_of tables.old }
    ensures room { replies.new.room ≡ replies.old.room }
{
    tables.codes.take(code.child);
    let number = int_bytes(code.code as u32);
    tell_word(
        caller.thread.number,
        code.child,
        number.as_slice(),
        b"",
        replies,
    );
}

// A wait for a child, by whether there is one, and by its code where it ended.
fn wait_known(
    tables: &mut Tables,
    caller: Calling,
    wait: Wait,
    option: u32,
    is_there: bool,
    code: Option<ChildCode>,
    replies: &mut Replies,
)
    requires moments { tables.old.threads.moments + 1 < 2 ^ 64 }
    requires room { length replies.old.replies < replies.old.room }
    ensures does { (content : Chain → List ℕ) (place : ℕ) (group : Group) → Does (state_of content tables.new) (replies_of replies.old.replies) (replies_of replies.new.replies) (wait_child (state_of content tables.old) (caller_of caller place group) wait option is_there (option_map code_of code)) }
    ensures chains { chains_of tables.new.objects ≡ chains_of tables.old.objects }
    ensures rooms { rooms_of tables.new ≡ rooms_of tables.old }
    ensures room { replies.new.room ≡ replies.old.room }
{
    match code {
        Some(code) => take_code(tables, caller, code, replies),
        None => {
            if !is_there {
                done(caller, Err(Errno::Echild), &mut tables.threads, replies);
                return;
            }
            wait_or_not(caller, wait, option, &mut tables.threads, replies);
        }
    }
}

fn has_child(tables: &Tables, parent: u32, child: u32) -> bool
    ensures { result ≡ has_child_in (joined tables.now.groups tables.now.environments) tables.now.codes.codes parent child }
{
    tables.groups.has_child(parent, child) || tables.codes.has(parent, child)
}

fn has_any_child(tables: &Tables, parent: u32) -> bool
    ensures { result ≡ has_any_child_in (joined tables.now.groups tables.now.environments) tables.now.codes.codes parent }
{
    tables.groups.has_any_child(parent) || tables.codes.has_any(parent)
}

// No child has number 0 or a number below -1, and there are no options but 0 and 1.
fn is_wrong(pid: u32, option: u32) -> bool
    ensures { result ≡ waits_wrongly pid option }
{
    if pid == 0 || option > 1 {
        return true;
    }
    pid >= 2147483648 && pid != ANY_CHILD
}

// `waitpid` by a thread of a group.
fn wait_in(
    tables: &mut Tables,
    caller: Calling,
    parent: u32,
    pid: u32,
    option: u32,
    replies: &mut Replies,
)
    requires moments { tables.old.threads.moments + 1 < 2 ^ 64 }
    requires room { length replies.old.replies < replies.old.room }
    ensures does { (content : Chain → List ℕ) (place : ℕ) (group : Group) → group.number ≡ parent
        → Does (state_of content tables.new) (replies_of replies.old.replies) (replies_of replies.new.replies) (waitpid_row (state_of content tables.old) (caller_of caller place group) pid option) }
    ensures chains { chains_of tables.new.objects ≡ chains_of tables.old.objects }
    ensures rooms { rooms_of tables.new ≡ rooms_of tables.old }
    ensures room { replies.new.room ≡ replies.old.room }
{
    if is_wrong(pid, option) {
        done(caller, Err(Errno::Einval), &mut tables.threads, replies);
        return;
    }
    if pid == ANY_CHILD {
        let is_there = has_any_child(tables, parent);
        let code = copied(tables.codes.find_any(parent));
        wait_known(
            tables,
            caller,
            Wait::AnyChild,
            option,
            is_there,
            code,
            replies,
        );
        return;
    }
    let is_there = has_child(tables, parent, pid);
    let code = copied(tables.codes.find(parent, pid));
    wait_known(
        tables,
        caller,
        Wait::Child(pid),
        option,
        is_there,
        code,
        replies,
    );
}

/// `waitpid` by a thread of the group at a place.
pub fn wait_for_child(
    tables: &mut Tables,
    caller: Calling,
    place: u32,
    pid: u32,
    option: u32,
    replies: &mut Replies,
)
    requires moments { tables.old.threads.moments + 1 < 2 ^ 64 }
    requires room { length replies.old.replies < replies.old.room }
    ensures does { (content : Chain → List ℕ) (g : Group) → flat (slice_get tables.old.groups place) ≡ Some g
        → Does (state_of content tables.new) (replies_of replies.old.replies) (replies_of replies.new.replies) (waitpid_row (state_of content tables.old) (calls_at tables.old caller place g) pid option) }
    ensures chains { chains_of tables.new.objects ≡ chains_of tables.old.objects }
    ensures rooms { rooms_of tables.new ≡ rooms_of tables.old }
    ensures room { replies.new.room ≡ replies.old.room }
{
    match tables.groups.get(place) {
        None => {}
        Some(group) => {
            let parent = group.number();
            wait_in(tables, caller, parent, pid, option, replies);
        }
    }
}
