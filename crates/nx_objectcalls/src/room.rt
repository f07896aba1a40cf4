// Room for a new description, and whether the objects are at their limit.
ghost use Rattle.std.specs.Prelude.{◌≡◌, ◌<◌, ◌≤◌, ◌+◌, ◌*◌, ℕ, List, Some, None, IfSome, nat_le, length, slice_get};
ghost use Rattle.nx_pool.specs.declared.chain.Chain.{Chain};
ghost use Rattle.nx_ksys.specs.declared.node.Target.{Target as TargetOf};
ghost use Rattle.nx_ksys.specs.Threads.{Schedule, flat};
ghost use Rattle.nx_ksys.specs.State.{KernelState, objects as objects_of};
ghost use Rattle.nx_ksys.specs.Answers.{Caller};
ghost use Rattle.nx_ksys.specs.FileCalls.{describe_new};
ghost use Rattle.nx_objects.specs.Tables.{with_objects};
ghost use Rattle.nx_objects.specs.Rows.{at_place};
ghost use Rattle.nx_objectcalls.specs.Rows.{described_in, with_description, moved_to};

use nx_ksys::{Open, Target};
use nx_objects::{Found, Objects};

/// Where a new description comes to.
#[derive(Clone, Copy, Debug)]
pub struct Room {
    /// The descriptor that leads to it.
    pub fd: u32,
    /// Its place.
    pub place: u32,
}

/// The least free descriptor of the group at a place, and the least free place for a description.
#[tactic(auto, using(nx_objects::proofs::Places::free_below, crate::proofs::Rooms::place_below, crate::proofs::Rooms::place_free))]
pub fn find_room(objects: &Objects, group: u32) -> Option<Room>
    requires group { 32 * group + 32 ≤ length objects.now.descriptors }
    requires few { length objects.now.descriptions ≤ 2048 }
    ensures room { (old k : KernelState) (c : Caller) (to : TargetOf) (flags : ℕ) → k.descriptors ≡ objects.now.descriptors → k.opens ≡ objects.now.descriptions
        → describe_new old k (at_place c group) to flags ≡ described_in old k (at_place c group) to flags result }
    ensures few { IfSome result (λ r. r.fd < 32) }
    ensures free { IfSome result (λ r. slice_get objects.now.descriptions r.place ≡ Some None) }
{
    match objects.descriptors.free(group) {
        None => None,
        Some(fd) => match objects.descriptions.free() {
            None => None,
            Some(place) => Some(Room {
                fd: fd as u32,
                place: place as u32,
            }),
        },
    }
}

/// A new description comes to a room, at offset 0.
pub fn describe(objects: &mut Objects, group: u32, room: Room, target: Target, flags: u32)
    requires group { 32 * group + 32 ≤ length objects.old.descriptors }
    requires few { room.fd < 32 }
    requires free { slice_get objects.old.descriptions room.place ≡ Some None }
    ensures { objects.new ≡ with_description objects.old group room target flags }
{
    objects.descriptors.set(group, room.fd, Some(room.place));
    objects.descriptions.add(
        room.place as usize,
        Open {
            target,
            flags,
            offset: 0,
        },
    );
}

/// The description that was found stands at another offset.
#[tactic(auto, using(crate::proofs::Rooms::is_there))]
pub fn move_to(objects: &mut Objects, found: Found, offset: u32)
    requires { flat (slice_get objects.old.descriptions found.place) ≡ Some found.description }
    ensures { objects.new ≡ moved_to objects.old found offset }
{
    objects.descriptions.set(
        found.place as usize,
        Open {
            target: found.description.target,
            flags: found.description.flags,
            offset,
        },
    );
}

/// Whether the objects are at their limit.
#[tactic(auto, using(crate::proofs::Rooms::full_by))]
pub fn is_full(objects: &Objects, limit: u32) -> bool
    ensures { (k : KernelState) (s : Schedule) (content : Chain → List ℕ) → nat_le limit (objects_of (with_objects k s content objects.now)) ≡ result }
{
    let directories = objects.tree.made_directories();
    let files = objects.files.count();
    let queues = objects.queues.count();
    let semaphores = objects.semaphores.count();
    let left = (limit as usize)
        .saturating_sub(directories)
        .saturating_sub(files)
        .saturating_sub(queues)
        .saturating_sub(semaphores);
    left == 0
}
