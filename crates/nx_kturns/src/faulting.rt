// A call of which a pointer leads nowhere.
ghost use Rattle.std.specs.Prelude.{◌≡◌, ◌<◌};
ghost use Rattle.nx_ktables.specs.State.{state_of};
ghost use Rattle.nx_kturns.specs.Standing.{Stands, most_calls};
ghost use Rattle.nx_kturns.specs.Turns.{faulted};

use nx_base::Errno;
use nx_ktables::Tables;
use nx_pool::BlockStore;

/// A call of a thread fails with EFAULT, and counts.
pub fn fault<B: BlockStore>(tables: &mut Tables, thread: u32, blocks: &B)
    requires stands { Stands (B.holds blocks.now) (B.content blocks.now) (B.blocks blocks.now) tables.old }
    requires few { tables.old.calls < most_calls }
    ensures state { state_of (B.content blocks.now) tables.new ≡ faulted (state_of (B.content blocks.now) tables.old) thread }
    ensures stands { Stands (B.holds blocks.now) (B.content blocks.now) (B.blocks blocks.now) tables.new }
{
    tables.threads.fail(thread, Errno::Efault);
    tables.calls += 1;
}
