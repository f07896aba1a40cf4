// Names and flags of queues, and what an opening finds.
ghost use Rattle.std.specs.Prelude.{◌≡◌, ◌<◌, ◌≤◌, ◌+◌, ◌++◌, ◌==◌, ◌||◌, ◌&&◌, ℕ, List, [], ◌∷◌, Some, None, IfSome, IfNone, Ok, true, false, nat_le, length, codes};
ghost use Rattle.std.specs.List.{list_any, position_from};
ghost use Rattle.std.specs.Option.{is_none};
ghost use Rattle.std.specs.Str.{bytes_eq};
ghost use Rattle.nx_ksys.specs.Descriptors.{has_flag as has_flag_of};
ghost use Rattle.nx_ksys.specs.State.{KernelState, objects};
ghost use Rattle.nx_ksys.specs.Answers.{Caller};
ghost use Rattle.nx_ksys.specs.QueueCalls.{is_queue_part, is_queue_name, queue_path, are_queue_flags as are_flags_of_queue, are_queue_limits as are_limits_of_queue, mq_open_row, mq_open_node, create_queue, mq_unlink_row, mq_unlink_node};
ghost use Rattle.nx_ipc.specs.declared.opening.Opening.TheVariants as opening;
ghost use Rattle.nx_ipc.specs.Rows.{opens_path, opens_told, unlinks_path, unlinks_told};

use arrayvec::ArrayVec;
use nx_base::Errno;
use nx_ksys::{Node, NodeKind};

/// The path of a queue.
pub type QueuePath = ArrayVec<u8, 255>;

/// What an opening finds, and what has to be done.
#[derive(Clone, Copy, Debug)]
pub enum Opening {
    /// It is at this place.
    Found(u32),
    /// A new one comes to this place.
    Made(u32),
}

/// Whether flags have a bit.
pub fn has_flag(flags: u32, bit: u32) -> bool
    requires { 0 < bit }
    ensures { result ≡ has_flag_of flags bit }
{
    flags / bit % 2 == 1
}

/// Whether a name has a slash.
pub fn has_slash(name: &[u8]) -> bool
    ensures { result ≡ list_any (λ b. b == 47) name.now }
{
    name.iter().any(|byte| *byte == b'/')
}

fn is_part(part: &[u8]) -> bool
    ensures { result ≡ is_queue_part part.now }
{
    let is_dots = part == b".".as_slice() || part == b"..".as_slice();
    1 <= part.len() && part.len() <= 32 && !(has_slash(part) || is_dots)
}

fn is_name(name: &[u8]) -> bool
    ensures name { result ≡ is_queue_name name.now }
    ensures short { result ≡ true → length name.now ≤ 33 }
{
    match name {
        [] => false,
        [first, part @ ..] => *first == b'/' && is_part(part),
    }
}

fn put_all(path: &mut QueuePath, bytes: &[u8])
    requires { length path.old.items + length bytes.now ≤ 255 }
    ensures { path.new.items ≡ path.old.items ++ bytes.now }
{
    for byte in bytes {
        path.push(*byte);
    }
}

// The path of a good name.
fn path_of(name: &[u8]) -> Option<QueuePath>
    ensures some { IfSome result (λ p. (is_queue_name name.now ≡ true) × (p.items ≡ queue_path name.now)) }
    ensures none { IfNone result (is_queue_name name.now ≡ false) }
{
    if !is_name(name) {
        return None;
    }
    let mut path = ArrayVec::new();
    put_all(&mut path, b"/var/mqueue");
    put_all(&mut path, name);
    Some(path)
}

fn are_flags(flags: u32) -> bool
    ensures { result ≡ are_flags_of_queue flags }
{
    let opens = has_flag(flags, 1) || has_flag(flags, 2);
    flags <= 127 && !(has_flag(flags, 16) || has_flag(flags, 32)) && opens
}

fn are_limits(limit: u32, size: u32) -> bool
    ensures { result ≡ are_limits_of_queue limit size }
{
    1 <= limit && limit <= 64 && 1 <= size && size <= 4096
}

/// The path of the queue that `nx_mq_open` names. EINVAL for a name that isn't a slash and one part
/// of 1 to 32 bytes, neither `.` nor `..`, and for flags beyond O_RDONLY, O_WRONLY, O_CREAT, O_EXCL
/// and O_NONBLOCK or without one of the first two.
#[tactic(auto, unfolding(nx_ksys::specs::QueueCalls::mq_open_row))]
pub fn opening_path(name: &[u8], flags: u32) -> Result<QueuePath, Errno>
    ensures { (k : KernelState) (c : Caller) (limit size : ℕ) → mq_open_row k c name.now flags limit size ≡ opens_path k c flags limit size result }
{
    match path_of(name) {
        None => Err(Errno::Einval),
        Some(path) => {
            if !are_flags(flags) {
                return Err(Errno::Einval);
            }
            Ok(path)
        }
    }
}

/// The path of the queue that `mq_unlink` names. EINVAL for a name as above.
#[tactic(auto, unfolding(nx_ksys::specs::QueueCalls::mq_unlink_row))]
pub fn unlinking_path(name: &[u8]) -> Result<QueuePath, Errno>
    ensures { (k : KernelState) (c : Caller) → mq_unlink_row k c name.now ≡ unlinks_path k c result }
{
    match path_of(name) {
        None => Err(Errno::Einval),
        Some(path) => Ok(path),
    }
}

/// The place of the queue whose path `mq_unlink` takes away, by what stands there. ENOENT where
/// nothing does.
pub fn queue_of_node(node: Option<Node>) -> Result<u32, Errno>
    ensures { (k : KernelState) (c : Caller) (path : List ℕ) → mq_unlink_node k c path node ≡ unlinks_told k c path result }
{
    match node {
        None => Err(Errno::Enoent),
        Some(node) => match node.kind {
            NodeKind::Queue(place) => Ok(place),
            _ => Err(Errno::Einval),
        },
    }
}

fn create(
    flags: u32,
    limit: u32,
    size: u32,
    is_full: bool,
    free: Option<u32>,
) -> Result<Opening, Errno>
    ensures row { (k : KernelState) (c : Caller) (path : List ℕ) → nat_le k.limits.objects (objects k) ≡ is_full → position_from is_none 0 k.queues ≡ free
        → create_queue k c path flags limit size ≡ opens_told k c path flags limit size result }
    ensures free { (place : ℕ) → result ≡ Ok (opening.Made place) → free ≡ Some place }
{
    if !has_flag(flags, 4) {
        return Err(Errno::Enoent);
    }
    if !are_limits(limit, size) {
        return Err(Errno::Einval);
    }
    if is_full {
        return Err(Errno::Enospc);
    }
    match free {
        None => Err(Errno::Enospc),
        Some(place) => Ok(Opening::Made(place)),
    }
}

/// What an opening finds or makes, by what stands at the path. EEXIST under O_CREAT and O_EXCL;
/// where nothing stands there ENOENT without O_CREAT, EINVAL for more than 64 messages or 4,096
/// bytes or for none, ENOSPC where the objects are at their limit.
pub fn open_node(
    node: Option<Node>,
    flags: u32,
    limit: u32,
    size: u32,
    is_full: bool,
    free: Option<u32>,
) -> Result<Opening, Errno>
    ensures row { (k : KernelState) (c : Caller) (path : List ℕ) → nat_le k.limits.objects (objects k) ≡ is_full → position_from is_none 0 k.queues ≡ free
        → mq_open_node k c path flags limit size node ≡ opens_told k c path flags limit size result }
    ensures free { (place : ℕ) → result ≡ Ok (opening.Made place) → free ≡ Some place }
{
    match node {
        None => create(flags, limit, size, is_full, free),
        Some(node) => {
            if has_flag(flags, 4) && has_flag(flags, 8) {
                return Err(Errno::Eexist);
            }
            match node.kind {
                NodeKind::Queue(place) => Ok(Opening::Found(place)),
                _ => Err(Errno::Einval),
            }
        }
    }
}
