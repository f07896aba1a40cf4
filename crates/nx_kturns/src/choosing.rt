// The choice of the thread that runs next.
ghost use Rattle.std.specs.Prelude.{◌≡◌, ◌≤◌, true, [], length};
ghost use Rattle.std.specs.List.{list_any};
ghost use Rattle.std.specs.Option.{is_some};
ghost use Rattle.nx_ksys.specs.Gathered.{replies_of};
ghost use Rattle.nx_ksys.specs.Picking.{advanced, picked};
ghost use Rattle.nx_group.specs.Living.{IsTold};
ghost use Rattle.nx_objects.specs.Tables.{chains_of};
ghost use Rattle.nx_ktables.specs.State.{state_of, rooms_of};
ghost use Rattle.nx_kturns.specs.Standing.{Stands};
ghost use Rattle.nx_kturns.specs.Turns.{Picks};

use nx_kernel::{advance, choose};
use nx_ksys::{Pick, Replies};
use nx_ktables::Tables;
use nx_pool::BlockStore;

// Where no thread is ready, time passes to the first deadline, and what lived by the wait of a
// thread alone that is due by then ends.
fn pass<B: BlockStore>(tables: &mut Tables, blocks: &mut B, replies: &mut Replies)
    requires stands { Stands (B.holds blocks.old) (B.content blocks.old) (B.blocks blocks.old) tables.old }
    requires lives { list_any is_some tables.old.groups ≡ true }
    requires none { replies.old.replies ≡ [] }
    requires room { length tables.old.threads.threads ≤ replies.old.room }
    ensures told { IsTold [] (replies_of replies.new.replies) (state_of (B.content blocks.new) tables.new) (advanced (state_of (B.content blocks.old) tables.old)) }
    ensures held { B.holds blocks.new (chains_of tables.new.objects) }
    ensures alike { B.alike blocks.old blocks.new }
    ensures rooms { rooms_of tables.new ≡ rooms_of tables.old }
    ensures calls { tables.new.calls ≡ tables.old.calls }
    ensures room { replies.new.room ≡ replies.old.room }
{
    if !advance(&mut tables.clock, &mut tables.threads, replies) {
        return;
    }
    tables.objects.sweep_idle(&tables.threads, blocks);
}

/// Which thread runs next, in tables and a store that stand for a state which was reached. Time
/// passes where no thread is ready; the replies are to those that it wakes.
pub fn pick<B: BlockStore>(tables: &mut Tables, blocks: &mut B, replies: &mut Replies) -> Pick
    requires stands { Stands (B.holds blocks.old) (B.content blocks.old) (B.blocks blocks.old) tables.old }
    requires room { length tables.old.threads.threads ≤ replies.old.room }
    ensures picks { Picks (state_of (B.content blocks.new) tables.new) (replies_of replies.new.replies) result (picked (state_of (B.content blocks.old) tables.old)) }
    ensures stands { Stands (B.holds blocks.new) (B.content blocks.new) (B.blocks blocks.new) tables.new }
    ensures alike { B.alike blocks.old blocks.new }
    ensures room { replies.new.room ≡ replies.old.room }
{
    replies.clear();
    if !tables.groups.any() {
        return Pick::Ended;
    }
    pass(tables, blocks, replies);
    choose(&tables.threads)
}
