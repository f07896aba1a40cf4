// `nx_sem_open` and `nx_sem_close`, by their rows.
ghost use Rattle.std.specs.Prelude.{◌≡◌, ◌<◌, ◌≤◌, ◌+◌, ◌*◌, ℕ, List, nat_le, length};
ghost use Rattle.nx_pool.specs.declared.chain.Chain.{Chain};
ghost use Rattle.nx_ksys.specs.Threads.{Schedule};
ghost use Rattle.nx_ksys.specs.State.{KernelState, objects as objects_of};
ghost use Rattle.nx_ksys.specs.Answers.{Caller};
ghost use Rattle.nx_ksys.specs.SemaphoreCalls.{sem_open_row, sem_close_row};
ghost use Rattle.nx_path.specs.Rows.{answered, done};
ghost use Rattle.nx_objects.specs.Tables.{chains_of, with_objects, ArePlaced};
ghost use Rattle.nx_objects.specs.Rows.{at_place};

use crate::leading::semaphore_at;
use crate::room::{describe, find_room};
use nx_base::Errno;
use nx_ipc::Opening;
use nx_ksys::Target;
use nx_objects::Objects;
use nx_pool::BlockStore;
use nx_sched::Threads;

/// `nx_sem_open` by a group at a place: the new descriptor. `is_full` says whether the objects are
/// at their limit.
pub fn open_semaphore(
    objects: &mut Objects,
    group: u32,
    name: &[u8],
    flags: u32,
    value: u32,
    is_full: bool,
) -> Result<u32, Errno>
    requires group { 32 * group + 32 ≤ length objects.old.descriptors }
    requires few { length objects.old.descriptions ≤ 2048 }
    ensures row { (k : KernelState) (s : Schedule) (content : Chain → List ℕ) (c : Caller) → nat_le k.limits.objects (objects_of (with_objects k s content objects.old)) ≡ is_full
        → sem_open_row (with_objects k s content objects.old) (at_place c group) name.now flags value ≡ answered (with_objects k s content objects.new) (at_place c group) result }
    ensures limit { objects.new.tree.limit ≡ objects.old.tree.limit }
    ensures chains { chains_of objects.new ≡ chains_of objects.old }
{
    let opened = objects.semaphores.open(name, flags, value, is_full);
    match opened {
        Err(fault) => Err(fault),
        Ok(what) => match find_room(objects, group) {
            None => Err(Errno::Emfile),
            Some(room) => match what {
                Opening::Found(place) => {
                    describe(objects, group, room, Target::Semaphore(place), flags);
                    Ok(room.fd)
                }
                Opening::Made(place) => {
                    objects.semaphores.make(place, name, value);
                    describe(objects, group, room, Target::Semaphore(place), flags);
                    Ok(room.fd)
                }
            },
        },
    }
}

/// `nx_sem_close` by a group at a place. EBADF for a descriptor that isn't of a semaphore.
#[tactic(auto, unfolding(nx_ksys::specs::SemaphoreCalls::sem_close_row))]
pub fn close_semaphore<B: BlockStore>(
    objects: &mut Objects,
    group: u32,
    fd: u32,
    threads: &Threads,
    blocks: &mut B,
) -> Result<(), Errno>
    requires group { group < length threads.now.threads }
    requires placed { ArePlaced (length threads.now.threads) objects.old }
    requires held { B.holds blocks.old (chains_of objects.old) }
    ensures row { (k : KernelState) (c : Caller) → sem_close_row (with_objects k threads.now (B.content blocks.old) objects.old) (at_place c group) fd ≡ done (with_objects k threads.now (B.content blocks.new) objects.new) (at_place c group) result }
    ensures limit { objects.new.tree.limit ≡ objects.old.tree.limit }
    ensures held { B.holds blocks.new (chains_of objects.new) }
    ensures alike { B.alike blocks.old blocks.new }
{
    match semaphore_at(objects, group, fd) {
        None => Err(Errno::Ebadf),
        Some(place) => {
            if !objects.semaphores.has(place) {
                return Err(Errno::Ebadf);
            }
            objects.close(group, fd, threads, blocks);
            Ok(())
        }
    }
}
