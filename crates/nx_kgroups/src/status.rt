// `nx_ps`, by its row.
ghost use Rattle.std.specs.Prelude.{◌≡◌, ◌<◌, ◌≤◌, ◌+◌, ◌++◌, ◌∷◌, ℕ, List, Some, length, slice_get, decimal};
ghost use Rattle.nx_pool.specs.declared.chain.Chain.{Chain};
ghost use Rattle.nx_ksys.specs.State.{Group};
ghost use Rattle.nx_ksys.specs.GroupCalls.{ps_row, priority_of as priority_in, name_of_program};
ghost use Rattle.nx_ksys.specs.Gathered.{replies_of};
ghost use Rattle.nx_kernel.specs.Doing.{Does, caller_of};
ghost use Rattle.nx_objects.specs.Tables.{chains_of};
ghost use Rattle.nx_ktables.specs.State.{state_of, rooms_of};

use arrayvec::ArrayVec;
use itoa::Buffer;
use nx_base::{Errno, Text};
use nx_kernel::Calling;
use nx_ksys::{Replies, Thread};
use nx_ktables::{Tables, done, tell_text, tell_word};

/// A line on a group.
type Line = ArrayVec<u8, 512>;

fn put(line: &mut Line, bytes: &[u8])
    requires { length line.old.items + length bytes.now ≤ 512 }
    ensures { line.new.items ≡ line.old.items ++ bytes.now }
{
    for byte in bytes {
        line.push(*byte);
    }
}

fn put_number(line: &mut Line, number: u32)
    requires { length line.old.items + 40 ≤ 512 }
    ensures put { line.new.items ≡ line.old.items ++ decimal number }
    ensures few { length line.new.items ≤ length line.old.items + 40 }
{
    let mut buffer = Buffer::new();
    put(line, buffer.format(number).as_bytes());
}

fn priority_of(thread: Option<Thread>) -> u8
    ensures { result ≡ priority_in thread }
{
    match thread {
        None => 0,
        Some(thread) => thread.priority,
    }
}

fn name_of(programs: &[Text], program: u32) -> &[u8]
    requires { (place : ℕ) (name : List ℕ) → slice_get programs.now place ≡ Some name → length name ≤ 250 }
    ensures name { result.now ≡ name_of_program programs.now (slice_get programs.now program) }
    ensures short { length result.now ≤ 250 }
{
    match programs.get(program as usize) {
        None => b"nsh",
        Some(name) => name.as_str().as_bytes(),
    }
}

// A number, a priority and a name.
#[tactic(auto, using(crate::proofs::Lines::one_line))]
fn line_of(number: u32, priority: u8, name: &[u8]) -> Line
    requires { length name.now ≤ 250 }
    ensures { result.items ≡ decimal number ++ 32 ∷ decimal priority ++ 32 ∷ name.now }
{
    let mut line = Line::new();
    put_number(&mut line, number);
    line.push(32);
    put_number(&mut line, priority as u32);
    line.push(32);
    put(&mut line, name);
    line
}

/// `nx_ps`: number, priority and name of the live group of that index, by number; none after the
/// last. EINVAL for an index below 0.
#[tactic(auto, unfolding(nx_ksys::specs::GroupCalls::ps_row))]
pub fn tell_status(
    tables: &mut Tables,
    caller: Calling,
    index: u32,
    size: u32,
    replies: &mut Replies,
)
    requires names { (place : ℕ) (name : List ℕ) → slice_get tables.old.programs.items place ≡ Some name → length name ≤ 250 }
    requires room { length replies.old.replies < replies.old.room }
    ensures does { (content : Chain → List ℕ) (place : ℕ) (group : Group) → Does (state_of content tables.new) (replies_of replies.old.replies) (replies_of replies.new.replies) (ps_row (state_of content tables.old) (caller_of caller place group) index size) }
    ensures chains { chains_of tables.new.objects ≡ chains_of tables.old.objects }
    ensures rooms { rooms_of tables.new ≡ rooms_of tables.old }
    ensures room { replies.new.room ≡ replies.old.room }
{
    if index >= 2147483648 {
        done(caller, Err(Errno::Einval), &mut tables.threads, replies);
        return;
    }
    match tables.groups.nth(index) {
        None => tell_word(caller.thread.number, 0, b"", b"", replies),
        Some(group) => {
            let thread = tables.threads.thread(group.number());
            let name = name_of(tables.programs.as_slice(), group.program());
            let line = line_of(group.number(), priority_of(thread), name);
            tell_text(caller, size, line.as_slice(), &mut tables.threads, replies);
        }
    }
}
