// What descriptors lead to, for calls that ask for one sort.
ghost use Rattle.std.specs.Prelude.{◌≡◌, ◌<◌, ◌≤◌, ◌+◌, ◌*◌, ℕ, List, Some, IfOk, length, min, slice_get, ◌&&◌};
ghost use Rattle.nx_base.specs.Replies.{most_moved};
ghost use Rattle.nx_pool.specs.declared.chain.Chain.{Chain};
ghost use Rattle.nx_ksys.specs.Threads.{Schedule, flat};
ghost use Rattle.nx_ksys.specs.State.{KernelState};
ghost use Rattle.nx_ksys.specs.Answers.{Caller};
ghost use Rattle.nx_ksys.specs.Descriptors.{has_flag as has_flag_of};
ghost use Rattle.nx_ksys.specs.FileCalls.{is_stream as is_stream_target, write_row, read_row};
ghost use Rattle.nx_ksys.specs.QueueCalls.{queue_of};
ghost use Rattle.nx_ksys.specs.SemaphoreCalls.{semaphore_of};
ghost use Rattle.nx_objects.specs.Tables.{with_objects};
ghost use Rattle.nx_objects.specs.Rows.{at_place};
ghost use Rattle.nx_objectcalls.specs.Rows.{writes_told, reads_told, queue_led, semaphore_led};

use nx_base::Errno;
use nx_ksys::{Open, Target};
use nx_objects::{Found, Objects};

/// The place of a queue, and the flags of the description that leads to it.
#[derive(Clone, Copy, Debug)]
pub struct Led {
    /// The queue's place.
    pub place: u32,
    /// The flags with which it was opened.
    pub flags: u32,
}

fn is_stream(target: Target) -> bool
    ensures { result ≡ is_stream_target target }
{
    match target {
        Target::File(_) => true,
        Target::Console => true,
        Target::Null => true,
        Target::Queue(_) => false,
        Target::Semaphore(_) => false,
    }
}

fn has_flag(flags: u32, bit: u32) -> bool
    requires { 0 < bit }
    ensures { result ≡ has_flag_of flags bit }
{
    flags / bit % 2 == 1
}

fn allows(description: Open, bit: u32) -> bool
    requires { 0 < bit }
    ensures { result ≡ (is_stream_target description.target && has_flag_of description.flags bit) }
{
    is_stream(description.target) && has_flag(description.flags, bit)
}

/// The description that a group at a place may write by a descriptor. EBADF where it isn't open, or
/// leads to no file or device, or without O_WRONLY.
#[tactic(auto, unfolding(nx_ksys::specs::FileCalls::write_row))]
pub fn writable(objects: &Objects, group: u32, fd: u32) -> Result<Found, Errno>
    requires { 32 * group + 32 ≤ length objects.now.descriptors }
    ensures row { (k : KernelState) (s : Schedule) (content : Chain → List ℕ) (c : Caller) (bytes : List ℕ)
        → write_row (with_objects k s content objects.now) (at_place c group) fd bytes ≡ writes_told (with_objects k s content objects.now) (at_place c group) bytes result }
    ensures stands { IfOk result (λ f. flat (slice_get objects.now.descriptions f.place) ≡ Some f.description) }
{
    match objects.opened(group, fd) {
        None => Err(Errno::Ebadf),
        Some(found) => {
            if !allows(found.description, 2) {
                return Err(Errno::Ebadf);
            }
            Ok(found)
        }
    }
}

/// The description that a group at a place may read by a descriptor. EBADF where it isn't open, or
/// leads to no file or device, or without O_RDONLY.
#[tactic(auto, unfolding(nx_ksys::specs::FileCalls::read_row))]
pub fn readable(objects: &Objects, group: u32, fd: u32) -> Result<Found, Errno>
    requires { 32 * group + 32 ≤ length objects.now.descriptors }
    ensures row { (k : KernelState) (s : Schedule) (content : Chain → List ℕ) (c : Caller) (size : ℕ)
        → read_row (with_objects k s content objects.now) (at_place c group) fd size ≡ reads_told (with_objects k s content objects.now) (at_place c group) (min size most_moved) result }
    ensures stands { IfOk result (λ f. flat (slice_get objects.now.descriptions f.place) ≡ Some f.description) }
{
    match objects.opened(group, fd) {
        None => Err(Errno::Ebadf),
        Some(found) => {
            if !allows(found.description, 1) {
                return Err(Errno::Ebadf);
            }
            Ok(found)
        }
    }
}

/// The queue to which a descriptor of the group at a place leads.
#[tactic(auto, unfolding(nx_ksys::specs::QueueCalls::queue_of))]
pub fn queue_at(objects: &Objects, group: u32, fd: u32) -> Option<Led>
    requires { 32 * group + 32 ≤ length objects.now.descriptors }
    ensures { (k : KernelState) (s : Schedule) (content : Chain → List ℕ) (c : Caller)
        → queue_of (with_objects k s content objects.now) (at_place c group) fd ≡ queue_led (with_objects k s content objects.now) result }
{
    match objects.opened(group, fd) {
        None => None,
        Some(found) => match found.description.target {
            Target::Queue(place) => Some(Led {
                place,
                flags: found.description.flags,
            }),
            Target::File(_) => None,
            Target::Console => None,
            Target::Null => None,
            Target::Semaphore(_) => None,
        },
    }
}

/// The place of the semaphore to which a descriptor of the group at a place leads.
#[tactic(auto, unfolding(nx_ksys::specs::SemaphoreCalls::semaphore_of))]
pub fn semaphore_at(objects: &Objects, group: u32, fd: u32) -> Option<u32>
    requires { 32 * group + 32 ≤ length objects.now.descriptors }
    ensures { (k : KernelState) (s : Schedule) (content : Chain → List ℕ) (c : Caller)
        → semaphore_of (with_objects k s content objects.now) (at_place c group) fd ≡ semaphore_led (with_objects k s content objects.now) result }
{
    match objects.opened(group, fd) {
        None => None,
        Some(found) => match found.description.target {
            Target::Semaphore(place) => Some(place),
            Target::File(_) => None,
            Target::Console => None,
            Target::Null => None,
            Target::Queue(_) => None,
        },
    }
}
