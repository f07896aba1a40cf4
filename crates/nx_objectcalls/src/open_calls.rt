// `open` and `unlink`, by their rows.
ghost use Rattle.std.specs.Prelude.{◌≡◌, ◌<◌, ◌≤◌, ◌+◌, ◌*◌, false, nat_le, length};
ghost use Rattle.nx_ksys.specs.Threads.{Schedule};
ghost use Rattle.nx_ksys.specs.State.{KernelState, objects as objects_of};
ghost use Rattle.nx_ksys.specs.Answers.{Caller};
ghost use Rattle.nx_ksys.specs.FileCalls.{open_row};
ghost use Rattle.nx_ksys.specs.TreeCalls.{unlink_row};
ghost use Rattle.nx_path.specs.Rows.{in_directory, answered, done};
ghost use Rattle.nx_objects.specs.Tables.{chains_of, with_objects, ArePlaced};
ghost use Rattle.nx_objects.specs.Rows.{at_place};

use crate::making::carry_out;
use crate::room::{describe, find_room};
use nx_base::Errno;
use nx_ksys::Target;
use nx_objects::Objects;
use nx_pool::BlockStore;
use nx_sched::Threads;

/// `open` in a directory by a group at a place: the new descriptor. `is_full` says whether the
/// objects are at their limit.
pub fn open_file<B: BlockStore>(
    objects: &mut Objects,
    group: u32,
    directory: &[u8],
    text: &[u8],
    flags: u32,
    is_full: bool,
    blocks: &mut B,
) -> Result<u32, Errno>
    requires directory { length directory.now < 256 }
    requires text { length text.now ≤ 260 }
    requires group { 32 * group + 32 ≤ length objects.old.descriptors }
    requires few { length objects.old.descriptions ≤ 2048 }
    requires room { is_full ≡ false → length objects.old.tree.entries < objects.old.tree.limit }
    requires held { B.holds blocks.old (chains_of objects.old) }
    ensures row { (k : KernelState) (s : Schedule) (c : Caller) → nat_le k.limits.objects (objects_of (with_objects k s (B.content blocks.old) objects.old)) ≡ is_full
        → open_row (with_objects k s (B.content blocks.old) objects.old) (in_directory (at_place c group) directory.now) text.now flags ≡ answered (with_objects k s (B.content blocks.new) objects.new) (in_directory (at_place c group) directory.now) result }
    ensures limit { objects.new.tree.limit ≡ objects.old.tree.limit }
    ensures held { B.holds blocks.new (chains_of objects.new) }
    ensures alike { B.alike blocks.old blocks.new }
{
    let free = objects.files.free();
    let opened = objects.tree.open(directory, text, flags, is_full, free);
    match opened {
        Err(fault) => Err(fault),
        Ok(what) => match find_room(objects, group) {
            None => Err(Errno::Emfile),
            Some(room) => {
                let target = carry_out(objects, what, blocks);
                describe(objects, group, room, target, flags);
                Ok(room.fd)
            }
        },
    }
}

/// `unlink` in a directory: a path goes, and its file with it where no description leads to it.
pub fn unlink<B: BlockStore>(
    objects: &mut Objects,
    directory: &[u8],
    text: &[u8],
    threads: &Threads,
    blocks: &mut B,
) -> Result<(), Errno>
    requires directory { length directory.now < 256 }
    requires text { length text.now ≤ 260 }
    requires placed { ArePlaced (length threads.now.threads) objects.old }
    requires held { B.holds blocks.old (chains_of objects.old) }
    ensures row { (k : KernelState) (c : Caller) → unlink_row (with_objects k threads.now (B.content blocks.old) objects.old) (in_directory c directory.now) text.now ≡ done (with_objects k threads.now (B.content blocks.new) objects.new) (in_directory c directory.now) result }
    ensures limit { objects.new.tree.limit ≡ objects.old.tree.limit }
    ensures held { B.holds blocks.new (chains_of objects.new) }
    ensures alike { B.alike blocks.old blocks.new }
{
    match objects.tree.remove_file(directory, text) {
        Err(fault) => Err(fault),
        Ok(file) => {
            objects.sweep_target(Target::File(file), threads, blocks);
            Ok(())
        }
    }
}
