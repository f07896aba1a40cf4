// `nx_mq_open`, `mq_unlink` and `mq_close`, by their rows.
ghost use Rattle.std.specs.Prelude.{◌≡◌, ◌<◌, ◌≤◌, ◌+◌, ◌*◌, ℕ, List, Some, None, false, nat_le, length, slice_get};
ghost use Rattle.nx_pool.specs.declared.chain.Chain.{Chain};
ghost use Rattle.nx_ksys.specs.Threads.{Schedule};
ghost use Rattle.nx_ksys.specs.State.{KernelState, objects as objects_of};
ghost use Rattle.nx_ksys.specs.Answers.{Caller};
ghost use Rattle.nx_ksys.specs.Paths.{node_at};
ghost use Rattle.nx_ksys.specs.QueueCalls.{mq_open_row, mq_open_node, mq_unlink_row, mq_unlink_node, mq_close_row, with_new_queue};
ghost use Rattle.nx_path.specs.Rows.{answered, done};
ghost use Rattle.nx_objects.specs.Tables.{chains_of, with_objects, ArePlaced};
ghost use Rattle.nx_objects.specs.Rows.{at_place};

use crate::leading::queue_at;
use crate::room::{describe, find_room};
use nx_base::Errno;
use nx_ipc::{Opening, QueuePath, opening_path, queue_of_node, unlinking_path};
use nx_ksys::{Node, NodeKind, Target};
use nx_objects::Objects;
use nx_pool::BlockStore;
use nx_sched::Threads;

// A new empty queue comes to a path.
fn make_queue(objects: &mut Objects, path: QueuePath, place: u32, limit: u32, size: u32)
    requires free { slice_get objects.old.queues.queues place ≡ Some None }
    requires absent { node_at objects.old.tree.entries path.items ≡ None }
    requires room { length objects.old.tree.entries < objects.old.tree.limit }
    ensures state { (k : KernelState) (s : Schedule) (content : Chain → List ℕ) → with_objects k s content objects.new ≡ with_new_queue (with_objects k s content objects.old) path.items place limit size }
    ensures rest { objects.new ≡ record objects.old { tree = objects.new.tree; queues = objects.new.queues } }
    ensures limit { objects.new.tree.limit ≡ objects.old.tree.limit }
    ensures chains { chains_of objects.new ≡ chains_of objects.old }
{
    let node = Node {
        kind: NodeKind::Queue(place),
        fixed: false,
    };
    objects.tree.add(path, node);
    objects.queues.make(place, limit, size);
}

// What was found or is to be made gets a description.
fn open_at(
    objects: &mut Objects,
    group: u32,
    path: QueuePath,
    flags: u32,
    limit: u32,
    size: u32,
    is_full: bool,
) -> Result<u32, Errno>
    requires group { 32 * group + 32 ≤ length objects.old.descriptors }
    requires few { length objects.old.descriptions ≤ 2048 }
    requires room { is_full ≡ false → length objects.old.tree.entries < objects.old.tree.limit }
    ensures row { (k : KernelState) (s : Schedule) (content : Chain → List ℕ) (c : Caller) → let old = with_objects k s content objects.old in nat_le k.limits.objects (objects_of old) ≡ is_full
        → mq_open_node old (at_place c group) path.items flags limit size (node_at old.tree.entries path.items) ≡ answered (with_objects k s content objects.new) (at_place c group) result }
    ensures limit { objects.new.tree.limit ≡ objects.old.tree.limit }
    ensures chains { chains_of objects.new ≡ chains_of objects.old }
{
    let node = objects.tree.find(&path);
    let opened = objects.queues.open(node, flags, limit, size, is_full);
    match opened {
        Err(fault) => Err(fault),
        Ok(what) => match find_room(objects, group) {
            None => Err(Errno::Emfile),
            Some(room) => match what {
                Opening::Found(place) => {
                    describe(objects, group, room, Target::Queue(place), flags);
                    Ok(room.fd)
                }
                Opening::Made(place) => {
                    make_queue(objects, path, place, limit, size);
                    describe(objects, group, room, Target::Queue(place), flags);
                    Ok(room.fd)
                }
            },
        },
    }
}

/// `nx_mq_open` by a group at a place: the new descriptor. `is_full` says whether the objects are
/// at their limit.
pub fn open_queue(
    objects: &mut Objects,
    group: u32,
    name: &[u8],
    flags: u32,
    limit: u32,
    size: u32,
    is_full: bool,
) -> Result<u32, Errno>
    requires group { 32 * group + 32 ≤ length objects.old.descriptors }
    requires few { length objects.old.descriptions ≤ 2048 }
    requires room { is_full ≡ false → length objects.old.tree.entries < objects.old.tree.limit }
    ensures row { (k : KernelState) (s : Schedule) (content : Chain → List ℕ) (c : Caller) → nat_le k.limits.objects (objects_of (with_objects k s content objects.old)) ≡ is_full
        → mq_open_row (with_objects k s content objects.old) (at_place c group) name.now flags limit size ≡ answered (with_objects k s content objects.new) (at_place c group) result }
    ensures limit { objects.new.tree.limit ≡ objects.old.tree.limit }
    ensures chains { chains_of objects.new ≡ chains_of objects.old }
{
    match opening_path(name, flags) {
        Err(fault) => Err(fault),
        Ok(path) => open_at(objects, group, path, flags, limit, size, is_full),
    }
}

// A queue's path goes, and the queue with it where it lives no more.
fn unlink_at<B: BlockStore>(
    objects: &mut Objects,
    path: QueuePath,
    threads: &Threads,
    blocks: &mut B,
) -> Result<(), Errno>
    requires placed { ArePlaced (length threads.now.threads) objects.old }
    requires held { B.holds blocks.old (chains_of objects.old) }
    ensures row { (k : KernelState) (c : Caller) → let old = with_objects k threads.now (B.content blocks.old) objects.old in
        mq_unlink_node old c path.items (node_at old.tree.entries path.items) ≡ done (with_objects k threads.now (B.content blocks.new) objects.new) c result }
    ensures limit { objects.new.tree.limit ≡ objects.old.tree.limit }
    ensures held { B.holds blocks.new (chains_of objects.new) }
    ensures alike { B.alike blocks.old blocks.new }
{
    match queue_of_node(objects.tree.find(&path)) {
        Err(fault) => Err(fault),
        Ok(place) => {
            objects.tree.remove(path.as_slice());
            objects.sweep_target(Target::Queue(place), threads, blocks);
            Ok(())
        }
    }
}

/// `mq_unlink`.
pub fn unlink_queue<B: BlockStore>(
    objects: &mut Objects,
    name: &[u8],
    threads: &Threads,
    blocks: &mut B,
) -> Result<(), Errno>
    requires placed { ArePlaced (length threads.now.threads) objects.old }
    requires held { B.holds blocks.old (chains_of objects.old) }
    ensures row { (k : KernelState) (c : Caller) → mq_unlink_row (with_objects k threads.now (B.content blocks.old) objects.old) c name.now ≡ done (with_objects k threads.now (B.content blocks.new) objects.new) c result }
    ensures limit { objects.new.tree.limit ≡ objects.old.tree.limit }
    ensures held { B.holds blocks.new (chains_of objects.new) }
    ensures alike { B.alike blocks.old blocks.new }
{
    match unlinking_path(name) {
        Err(fault) => Err(fault),
        Ok(path) => unlink_at(objects, path, threads, blocks),
    }
}

/// `mq_close` by a group at a place. EBADF for a descriptor that isn't of a queue.
#[tactic(auto, unfolding(nx_ksys::specs::QueueCalls::mq_close_row))]
pub fn close_queue<B: BlockStore>(
    objects: &mut Objects,
    group: u32,
    fd: u32,
    threads: &Threads,
    blocks: &mut B,
) -> Result<(), Errno>
    requires group { group < length threads.now.threads }
    requires placed { ArePlaced (length threads.now.threads) objects.old }
    requires held { B.holds blocks.old (chains_of objects.old) }
    ensures row { (k : KernelState) (c : Caller) → mq_close_row (with_objects k threads.now (B.content blocks.old) objects.old) (at_place c group) fd ≡ done (with_objects k threads.now (B.content blocks.new) objects.new) (at_place c group) result }
    ensures limit { objects.new.tree.limit ≡ objects.old.tree.limit }
    ensures held { B.holds blocks.new (chains_of objects.new) }
    ensures alike { B.alike blocks.old blocks.new }
{
    match queue_at(objects, group, fd) {
        None => Err(Errno::Ebadf),
        Some(led) => {
            if !objects.queues.has(led.place) {
                return Err(Errno::Ebadf);
            }
            objects.close(group, fd, threads, blocks);
            Ok(())
        }
    }
}
