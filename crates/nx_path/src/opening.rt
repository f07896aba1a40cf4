ghost use Rattle.std.specs.Prelude.{◌≡◌, ◌<◌, ℕ, List, Bool, true, false, nat_le, None, IfOk};
ghost use Rattle.std.specs.List.{position_from};
ghost use Rattle.std.specs.Option.{is_none};
ghost use Rattle.nx_ksys.specs.declared.node.Node.{Node};
ghost use Rattle.nx_ksys.specs.Answers.{Caller};
ghost use Rattle.nx_ksys.specs.State.{KernelState, objects};
ghost use Rattle.nx_ksys.specs.Paths.{node_at};
ghost use Rattle.nx_ksys.specs.Descriptors.{has_flag as has_flag_of};
ghost use Rattle.nx_ksys.specs.FileCalls.{open_kind, create as create_at_path};
ghost use Rattle.nx_path.specs.Rows.{opens_told, is_absent};

use crate::lookups::{is_closed_directory, parent};
use crate::normal::Path;
use nx_base::Errno;
use nx_ksys::{NodeKind, Target};

/// What an `open` finds, and what has to be done there.
#[derive(Clone, Debug, Drop)]
pub enum Opening {
    /// It is there, and stays as it is.
    Found(Target),
    /// The file at this place is emptied.
    Emptied(u32),
    /// A new empty file comes to this path, with its bytes at this place.
    Made(Path, u32),
}

/// Whether flags have a bit.
pub fn has_flag(flags: u32, bit: u32) -> bool
    requires { 0 < bit }
    ensures { result ≡ has_flag_of flags bit }
{
    flags / bit % 2 == 1
}

/// What an `open` of a node finds. EISDIR for a directory, EINVAL for a program or a queue.
pub fn open_node(kind: NodeKind, flags: u32) -> Result<Opening, Errno>
    ensures row { (k : KernelState) (c : Caller) → open_kind k c flags kind ≡ opens_told k c flags result }
    ensures absent { (entries : List (List ℕ × Node)) → IfOk result (is_absent entries) }
{
    match kind {
        NodeKind::Directory => Err(Errno::Eisdir),
        NodeKind::File(place) => {
            if has_flag(flags, 32) && has_flag(flags, 2) {
                return Ok(Opening::Emptied(place));
            }
            Ok(Opening::Found(Target::File(place)))
        }
        NodeKind::Console => Ok(Opening::Found(Target::Console)),
        NodeKind::Null => Ok(Opening::Found(Target::Null)),
        _ => Err(Errno::Einval),
    }
}

/// What an `open` makes at a path where nothing stands. ENOENT without O_CREAT, EINVAL in a closed
/// directory, ENOSPC where the objects are at their limit.
pub fn create(path: Path, flags: u32, is_full: bool, free: Option<u32>) -> Result<Opening, Errno>
    ensures row { (k : KernelState) (c : Caller) → nat_le k.limits.objects (objects k) ≡ is_full → position_from is_none 0 k.tree.files ≡ free
        → create_at_path k c flags path.items ≡ opens_told k c flags result }
    ensures absent { (entries : List (List ℕ × Node)) → node_at entries path.items ≡ None → IfOk result (is_absent entries) }
{
    if !has_flag(flags, 4) {
        return Err(Errno::Enoent);
    }
    if is_closed_directory(parent(path.as_slice())) {
        return Err(Errno::Einval);
    }
    if is_full {
        return Err(Errno::Enospc);
    }
    match free {
        None => Err(Errno::Enospc),
        Some(place) => Ok(Opening::Made(path, place)),
    }
}
