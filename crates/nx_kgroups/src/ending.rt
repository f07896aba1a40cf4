// The end of a group, step by step, and of a thread.
ghost use Rattle.std.specs.Prelude.{◌≡◌, ◌<◌, ◌≤◌, ◌+◌, ◌^◌, ℕ, List, Some, length, slice_get};
ghost use Rattle.nx_pool.specs.declared.chain.Chain.{Chain};
ghost use Rattle.nx_ksys.specs.Threads.{flat};
ghost use Rattle.nx_ksys.specs.State.{Group as TaskGroup};
ghost use Rattle.nx_ksys.specs.Ends.{vanished, without_descriptors, left_alone, recorded, told_parent, end_group as ended_group};
ghost use Rattle.nx_ksys.specs.Gathered.{replies_of};
ghost use Rattle.nx_group.specs.Living.{IsTold};
ghost use Rattle.nx_objects.specs.Tables.{chains_of};
ghost use Rattle.nx_ktables.specs.State.{state_of, rooms_of, IsPlaced};

use nx_group::{Code, Group, tell_parent};
use nx_kernel::Ended;
use nx_ksys::Replies;
use nx_ktables::Tables;
use nx_pool::BlockStore;

// The threads of a group vanish, with the messages that they wait to send, the values that nobody
// took, and the queues and semaphores that lived by their waits alone.
fn vanish<B: BlockStore>(tables: &mut Tables, group: u32, blocks: &mut B)
    requires placed { IsPlaced tables.old }
    requires held { B.holds blocks.old (chains_of tables.old.objects) }
    ensures state { state_of (B.content blocks.new) tables.new ≡ vanished group (state_of (B.content blocks.old) tables.old) }
    ensures placed { IsPlaced tables.new }
    ensures slots { length tables.new.threads.threads ≡ length tables.old.threads.threads }
    ensures moments { tables.new.threads.moments ≡ tables.old.threads.moments }
    ensures groups { tables.new.groups ≡ tables.old.groups }
    ensures codes { tables.new.codes ≡ tables.old.codes }
    ensures ends { tables.new.ended ≡ tables.old.ended }
    ensures rooms { rooms_of tables.new ≡ rooms_of tables.old }
    ensures held { B.holds blocks.new (chains_of tables.new.objects) }
    ensures alike { B.alike blocks.old blocks.new }
{
    tables
        .objects
        .queues
        .give_up(group, tables.threads.as_slice(), blocks);
    tables.threads.end_group(group);
    tables.values.forget(group);
    tables.objects.sweep_idle(&tables.threads, blocks);
}

// The children of a group are nobody's, and it is gone.
fn leave(tables: &mut Tables, place: u32, group: u32)
    requires { place < length tables.old.groups }
    ensures state { (content : Chain → List ℕ) → state_of content tables.new ≡ left_alone place group (state_of content tables.old) }
    ensures threads { tables.new.threads ≡ tables.old.threads }
    ensures objects { tables.new.objects ≡ tables.old.objects }
    ensures ends { tables.new.ended ≡ tables.old.ended }
    ensures fewer { length tables.new.codes.codes ≤ length tables.old.codes.codes }
    ensures rooms { rooms_of tables.new ≡ rooms_of tables.old }
{
    tables.groups.end(place, group);
    tables.codes.forget(group);
}

// The end of a group is told to its parent, or its code is kept.
fn tell(tables: &mut Tables, code: Code, replies: &mut Replies)
    requires child { code.child < 2 ^ 31 }
    requires moments { tables.old.threads.moments + length tables.old.threads.threads < 2 ^ 64 }
    requires kept { length tables.old.codes.codes < tables.old.codes.room }
    requires room { length replies.old.replies + length tables.old.threads.threads ≤ replies.old.room }
    ensures told { (content : Chain → List ℕ) → IsTold (replies_of replies.old.replies) (replies_of replies.new.replies) (state_of content tables.new) (told_parent code (state_of content tables.old)) }
    ensures chains { chains_of tables.new.objects ≡ chains_of tables.old.objects }
    ensures rooms { rooms_of tables.new ≡ rooms_of tables.old }
    ensures room { replies.new.room ≡ replies.old.room }
{
    tell_parent(
        code,
        &tables.groups,
        &mut tables.codes,
        &mut tables.threads,
        replies,
    );
}

// Whom a group that ends is.
#[derive(Clone, Copy, Debug)]
struct Member {
    number: u32,
    program: u32,
    parent: u32,
}

fn member_of(group: &Group) -> Member
    ensures number { result.number ≡ group.now.number }
    ensures program { result.program ≡ group.now.program }
    ensures parent { result.parent ≡ group.now.parent }
{
    Member {
        number: group.number(),
        program: group.program(),
        parent: group.parent(),
    }
}

// The steps of the end of a group, in their order.
fn end_member<B: BlockStore>(
    tables: &mut Tables,
    place: u32,
    member: Member,
    code: u8,
    blocks: &mut B,
    replies: &mut Replies,
)
    requires place { place < length tables.old.threads.threads }
    requires placed { IsPlaced tables.old }
    requires groups { length tables.old.groups ≡ length tables.old.threads.threads }
    requires number { member.number < 2 ^ 31 }
    requires moments { tables.old.threads.moments + length tables.old.threads.threads < 2 ^ 64 }
    requires codes { length tables.old.codes.codes < tables.old.codes.room }
    requires ends { length tables.old.ended.ends < tables.old.ended.room }
    requires held { B.holds blocks.old (chains_of tables.old.objects) }
    requires room { length replies.old.replies + length tables.old.threads.threads ≤ replies.old.room }
    ensures told { IsTold (replies_of replies.old.replies) (replies_of replies.new.replies) (state_of (B.content blocks.new) tables.new)
        (told_parent (record { parent = member.parent; child = member.number; code = code })
        (recorded (record { pid = member.number; name = member.program; code = code })
        (left_alone place member.number (without_descriptors place (vanished member.number (state_of (B.content blocks.old) tables.old)))))) }
    ensures rooms { rooms_of tables.new ≡ rooms_of tables.old }
    ensures held { B.holds blocks.new (chains_of tables.new.objects) }
    ensures alike { B.alike blocks.old blocks.new }
    ensures room { replies.new.room ≡ replies.old.room }
{
    vanish(tables, member.number, blocks);
    tables.objects.close_all(place, &tables.threads, blocks);
    leave(tables, place, member.number);
    tables.ended.add(Ended {
        pid: member.number,
        name: member.program as usize,
        code,
    });
    let code = Code::new(member.parent, member.number, code);
    tell(tables, code, replies);
}

/// The group at a place ends with a code. Where there is none, nothing happens.
#[tactic(auto, unfolding(nx_ksys::specs::Ends::end_group))]
pub fn end_group<B: BlockStore>(
    tables: &mut Tables,
    place: u32,
    code: u8,
    blocks: &mut B,
    replies: &mut Replies,
)
    requires place { place < length tables.old.threads.threads }
    requires placed { IsPlaced tables.old }
    requires groups { length tables.old.groups ≡ length tables.old.threads.threads }
    requires number { (g : TaskGroup) → flat (slice_get tables.old.groups place) ≡ Some g → g.number < 2 ^ 31 }
    requires moments { tables.old.threads.moments + length tables.old.threads.threads < 2 ^ 64 }
    requires codes { length tables.old.codes.codes < tables.old.codes.room }
    requires ends { length tables.old.ended.ends < tables.old.ended.room }
    requires held { B.holds blocks.old (chains_of tables.old.objects) }
    requires room { length replies.old.replies + length tables.old.threads.threads ≤ replies.old.room }
    ensures told { IsTold (replies_of replies.old.replies) (replies_of replies.new.replies) (state_of (B.content blocks.new) tables.new) (ended_group (state_of (B.content blocks.old) tables.old) place code) }
    ensures rooms { rooms_of tables.new ≡ rooms_of tables.old }
    ensures held { B.holds blocks.new (chains_of tables.new.objects) }
    ensures alike { B.alike blocks.old blocks.new }
    ensures room { replies.new.room ≡ replies.old.room }
{
    match tables.groups.get(place) {
        None => {}
        Some(group) => {
            let member = member_of(group);
            end_member(tables, place, member, code, blocks, replies);
        }
    }
}
