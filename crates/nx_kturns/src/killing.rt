// The end of a group from outside.
ghost use Rattle.std.specs.Prelude.{◌≡◌, ◌≤◌, [], Some, length};
ghost use Rattle.nx_ksys.specs.Gathered.{replies_of};
ghost use Rattle.nx_group.specs.Living.{IsTold};
ghost use Rattle.nx_objects.specs.Tables.{chains_of};
ghost use Rattle.nx_ktables.specs.State.{state_of, rooms_of};
ghost use Rattle.nx_kturns.specs.Standing.{Stands};
ghost use Rattle.nx_kturns.specs.Turns.{ended_with, killed};

use nx_kgroups::end_group;
use nx_ksys::{Replies, Thread};
use nx_ktables::Tables;
use nx_pool::BlockStore;

// The group of a thread ends.
fn end_with<B: BlockStore>(
    tables: &mut Tables,
    thread: Thread,
    code: u8,
    blocks: &mut B,
    replies: &mut Replies,
)
    requires stands { Stands (B.holds blocks.old) (B.content blocks.old) (B.blocks blocks.old) tables.old }
    requires none { replies.old.replies ≡ [] }
    requires room { length tables.old.threads.threads ≤ replies.old.room }
    ensures told { IsTold [] (replies_of replies.new.replies) (state_of (B.content blocks.new) tables.new) (ended_with (state_of (B.content blocks.old) tables.old) code (Some thread)) }
    ensures held { B.holds blocks.new (chains_of tables.new.objects) }
    ensures alike { B.alike blocks.old blocks.new }
    ensures rooms { rooms_of tables.new ≡ rooms_of tables.old }
    ensures room { replies.new.room ≡ replies.old.room }
{
    match tables.groups.place_of(thread.group) {
        None => {}
        Some(place) => end_group(tables, place, code, blocks, replies),
    }
}

/// The group of a thread ends with a code, in tables and a store that stand for a state which was
/// reached, and its parent is told. Where there is no such thread, nothing happens.

pub fn kill<B: BlockStore>(
    tables: &mut Tables,
    thread: u32,
    code: u8,
    blocks: &mut B,
    replies: &mut Replies,
)
    requires stands { Stands (B.holds blocks.old) (B.content blocks.old) (B.blocks blocks.old) tables.old }
    requires room { length tables.old.threads.threads ≤ replies.old.room }
    ensures told { IsTold [] (replies_of replies.new.replies) (state_of (B.content blocks.new) tables.new) (killed (state_of (B.content blocks.old) tables.old) thread code) }
    ensures stands { Stands (B.holds blocks.new) (B.content blocks.new) (B.blocks blocks.new) tables.new }
    ensures alike { B.alike blocks.old blocks.new }
    ensures room { replies.new.room ≡ replies.old.room }
{
    replies.clear();
    match tables.threads.thread(thread) {
        None => {}
        Some(found) => end_with(tables, found, code, blocks, replies),
    }
}
