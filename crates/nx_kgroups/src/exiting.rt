// `_exit` and `nx_thread_exit`, by their rows.
ghost use Rattle.std.specs.Prelude.{◌≡◌, ◌<◌, ◌≤◌, ◌+◌, ◌^◌, ℕ, List, Some, length, slice_get};
ghost use Rattle.nx_pool.specs.declared.chain.Chain.{Chain};
ghost use Rattle.nx_ksys.specs.Threads.{flat};
ghost use Rattle.nx_ksys.specs.State.{Group as TaskGroup};
ghost use Rattle.nx_ksys.specs.Ends.{exit_row, thread_exit_row, end_thread as ended_thread};
ghost use Rattle.nx_ksys.specs.Gathered.{replies_of};
ghost use Rattle.nx_group.specs.Living.{IsTold};
ghost use Rattle.nx_kernel.specs.Doing.{caller_of};
ghost use Rattle.nx_objects.specs.Tables.{chains_of};
ghost use Rattle.nx_ktables.specs.State.{state_of, rooms_of, IsPlaced};
ghost use Rattle.nx_kgroups.specs.Outcomes.{Leaves, effect_of, calls_at};

use crate::ending::end_group;
use crate::outcome::Outcome;
use nx_group::hand_value;
use nx_kernel::Calling;
use nx_ksys::Replies;
use nx_ktables::Tables;
use nx_pool::BlockStore;

/// `_exit` by a thread of the group at a place: the group ends with a value modulo 256.
#[tactic(auto, unfolding(nx_ksys::specs::Ends::exit_row))]
pub fn exit<B: BlockStore>(
    tables: &mut Tables,
    place: u32,
    value: u32,
    blocks: &mut B,
    replies: &mut Replies,
) -> Outcome
    requires place { place < length tables.old.threads.threads }
    requires placed { IsPlaced tables.old }
    requires groups { length tables.old.groups ≡ length tables.old.threads.threads }
    requires number { (g : TaskGroup) → flat (slice_get tables.old.groups place) ≡ Some g → g.number < 2 ^ 31 }
    requires moments { tables.old.threads.moments + length tables.old.threads.threads < 2 ^ 64 }
    requires codes { length tables.old.codes.codes < tables.old.codes.room }
    requires ends { length tables.old.ended.ends < tables.old.ended.room }
    requires held { B.holds blocks.old (chains_of tables.old.objects) }
    requires room { length replies.old.replies + length tables.old.threads.threads ≤ replies.old.room }
    ensures leaves { (caller : Calling) (g : TaskGroup) → flat (slice_get tables.old.groups place) ≡ Some g
        → Leaves (state_of (B.content blocks.new) tables.new) (replies_of replies.old.replies) (replies_of replies.new.replies) (effect_of result) (exit_row (state_of (B.content blocks.old) tables.old) (calls_at tables.old caller place g) value) }
    ensures rooms { rooms_of tables.new ≡ rooms_of tables.old }
    ensures held { B.holds blocks.new (chains_of tables.new.objects) }
    ensures alike { B.alike blocks.old blocks.new }
    ensures room { replies.new.room ≡ replies.old.room }
{
    match tables.groups.get(place) {
        None => Outcome::Stays,
        Some(group) => {
            let number = group.number();
            end_group(tables, place, (value % 256) as u8, blocks, replies);
            Outcome::GroupEnded(number)
        }
    }
}

// A thread that isn't its group's main thread ends with a value.
fn end_thread(tables: &mut Tables, caller: Calling, group: u32, value: u32, replies: &mut Replies)
    requires moments { tables.old.threads.moments + length tables.old.threads.threads < 2 ^ 64 }
    requires values { length tables.old.values.values < tables.old.values.room }
    requires room { length replies.old.replies + length tables.old.threads.threads ≤ replies.old.room }
    ensures told { (content : Chain → List ℕ) (place : ℕ) (g : TaskGroup) → g.number ≡ group
        → IsTold (replies_of replies.old.replies) (replies_of replies.new.replies) (state_of content tables.new) (ended_thread (state_of content tables.old) (caller_of caller place g) value) }
    ensures chains { chains_of tables.new.objects ≡ chains_of tables.old.objects }
    ensures rooms { rooms_of tables.new ≡ rooms_of tables.old }
    ensures room { replies.new.room ≡ replies.old.room }
{
    let thread = caller.thread.number;
    tables.threads.end_thread(thread);
    hand_value(
        group,
        thread,
        value,
        &mut tables.values,
        &mut tables.threads,
        replies,
    );
}

/// `nx_thread_exit` by a thread of the group at a place: the main thread's end is its group's.
pub fn exit_thread<B: BlockStore>(
    tables: &mut Tables,
    caller: Calling,
    place: u32,
    value: u32,
    blocks: &mut B,
    replies: &mut Replies,
) -> Outcome
    requires place { place < length tables.old.threads.threads }
    requires placed { IsPlaced tables.old }
    requires groups { length tables.old.groups ≡ length tables.old.threads.threads }
    requires number { (g : TaskGroup) → flat (slice_get tables.old.groups place) ≡ Some g → g.number < 2 ^ 31 }
    requires moments { tables.old.threads.moments + length tables.old.threads.threads < 2 ^ 64 }
    requires codes { length tables.old.codes.codes < tables.old.codes.room }
    requires values { length tables.old.values.values < tables.old.values.room }
    requires ends { length tables.old.ended.ends < tables.old.ended.room }
    requires held { B.holds blocks.old (chains_of tables.old.objects) }
    requires room { length replies.old.replies + length tables.old.threads.threads ≤ replies.old.room }
    ensures leaves { (g : TaskGroup) → flat (slice_get tables.old.groups place) ≡ Some g
        → Leaves (state_of (B.content blocks.new) tables.new) (replies_of replies.old.replies) (replies_of replies.new.replies) (effect_of result) (thread_exit_row (state_of (B.content blocks.old) tables.old) (calls_at tables.old caller place g) value) }
    ensures rooms { rooms_of tables.new ≡ rooms_of tables.old }
    ensures held { B.holds blocks.new (chains_of tables.new.objects) }
    ensures alike { B.alike blocks.old blocks.new }
    ensures room { replies.new.room ≡ replies.old.room }
{
    match tables.groups.get(place) {
        None => Outcome::Stays,
        Some(group) => {
            let number = group.number();
            if caller.thread.number == number {
                return exit(tables, place, value, blocks, replies);
            }
            end_thread(tables, caller, number, value, replies);
            Outcome::Stays
        }
    }
}
