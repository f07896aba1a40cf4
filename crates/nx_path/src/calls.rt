// The calls on paths, each by its row.
ghost use Rattle.std.specs.Prelude.{◌≡◌, ◌<◌, ◌≤◌, ◌+◌, ℕ, Bool, true, false, nat_le, Some, None, Ok, IfOk, length};
ghost use Rattle.std.specs.List.{position_from};
ghost use Rattle.std.specs.Option.{is_none};
ghost use Rattle.nx_ksys.specs.Answers.{Caller};
ghost use Rattle.nx_ksys.specs.State.{KernelState, objects};
ghost use Rattle.nx_ksys.specs.Paths.{nth_name};
ghost use Rattle.nx_ksys.specs.FileCalls.{open_row};
ghost use Rattle.nx_ksys.specs.TreeCalls.{resolve as resolve_text, with_entries, unlink_row, mkdir_row, rmdir_row, rename_row, rename_second, chdir_row, readdir_row, list_name, kind_row, kind_number as number_of_kind, may_move as may_be_moved, listed_name};
ghost use Rattle.nx_path.specs.Entries.{Held};
ghost use Rattle.nx_path.specs.Rows.{in_directory, answered, done, stands_in, name_told, name_gone, opens_told, is_absent};

use crate::entries::is_directory;
use crate::lookups::{is_closed_directory, is_within, parent};
use crate::normal::Path;
use crate::opening::{Opening, create, has_flag, open_node};
use crate::tree::Tree;
use arrayvec::ArrayVec;
use nx_base::Errno;
use nx_ksys::{Node, NodeKind};

/// The number of a sort of node: 1 file, 2 directory, 3 device, 4 program, 5 queue.
pub fn kind_number(kind: NodeKind) -> u32
    ensures { result ≡ number_of_kind kind }
{
    match kind {
        NodeKind::File(_) => 1,
        NodeKind::Directory => 2,
        NodeKind::Console => 3,
        NodeKind::Null => 3,
        NodeKind::Program(_) => 4,
        NodeKind::Queue(_) => 5,
    }
}

fn may_move(node: Node) -> bool
    ensures { result ≡ may_be_moved node }
{
    match node.kind {
        NodeKind::Queue(_) => false,
        _ => !node.fixed,
    }
}

impl Tree {
    /// `nx_kind`: the number of what stands at a path. ENOENT where nothing does.
    #[tactic(auto, unfolding(nx_ksys::specs::TreeCalls::kind_row))]
    pub fn kind(&self, directory: &[u8], text: &[u8]) -> Result<u32, Errno>
        requires directory { length directory.now < 256 }
        requires text { length text.now ≤ 260 }
        ensures { (k : KernelState) (c : Caller) → kind_row (with_entries k self.now.entries) (in_directory c directory.now) text.now ≡ answered (with_entries k self.now.entries) (in_directory c directory.now) result }
    {
        match self.resolve(directory, text) {
            Err(fault) => Err(fault),
            Ok(path) => match self.find(&path) {
                None => Err(Errno::Enoent),
                Some(node) => Ok(kind_number(node.kind)),
            },
        }
    }

    /// `chdir`: the path of a directory. ENOENT where nothing stands there, ENOTDIR where it is no
    /// directory.
    #[tactic(auto, unfolding(nx_ksys::specs::TreeCalls::chdir_row))]
    pub fn enter(&self, directory: &[u8], text: &[u8]) -> Result<Path, Errno>
        requires directory { length directory.now < 256 }
        requires text { length text.now ≤ 260 }
        ensures { (k : KernelState) (c : Caller) → chdir_row (with_entries k self.now.entries) (in_directory c directory.now) text.now ≡ stands_in (with_entries k self.now.entries) (in_directory c directory.now) result }
    {
        match self.resolve(directory, text) {
            Err(fault) => Err(fault),
            Ok(path) => match self.find(&path) {
                None => Err(Errno::Enoent),
                Some(node) => if is_directory(node.kind) {
                    Ok(path)
                } else {
                    Err(Errno::Enotdir)
                },
            },
        }
    }

    /// `mkdir`: a new directory. EEXIST where something stands there, EINVAL in a closed directory,
    /// ENOSPC where the objects are at their limit.
    #[tactic(auto, unfolding(nx_ksys::specs::TreeCalls::mkdir_row))]
    pub fn make_directory(
        &mut self,
        directory: &[u8],
        text: &[u8],
        is_full: bool,
    ) -> Result<(), Errno>
        requires directory { length directory.now < 256 }
        requires text { length text.now ≤ 260 }
        requires room { is_full ≡ false → length self.old.entries < self.old.limit }
        ensures row { (k : KernelState) (c : Caller) → nat_le k.limits.objects (objects (with_entries k self.old.entries)) ≡ is_full
            → mkdir_row (with_entries k self.old.entries) (in_directory c directory.now) text.now ≡ done (with_entries k self.new.entries) (in_directory c directory.now) result }
        ensures limit { self.new.limit ≡ self.old.limit }
    {
        match self.resolve(directory, text) {
            Err(fault) => Err(fault),
            Ok(path) => match self.find(&path) {
                Some(_) => Err(Errno::Eexist),
                None => {
                    if is_closed_directory(parent(path.as_slice())) {
                        return Err(Errno::Einval);
                    }
                    if is_full {
                        return Err(Errno::Enospc);
                    }
                    self.add(
                        path,
                        Node {
                            kind: NodeKind::Directory,
                            fixed: false,
                        },
                    );
                    Ok(())
                }
            },
        }
    }

    /// `rmdir`: a directory goes. ENOENT where nothing stands there, ENOTDIR where it is no
    /// directory, EINVAL where it was made at boot, ENOTEMPTY where something stands in it.
    #[tactic(auto, unfolding(nx_ksys::specs::TreeCalls::rmdir_row))]
    pub fn remove_directory(&mut self, directory: &[u8], text: &[u8]) -> Result<(), Errno>
        requires directory { length directory.now < 256 }
        requires text { length text.now ≤ 260 }
        ensures row { (k : KernelState) (c : Caller) → rmdir_row (with_entries k self.old.entries) (in_directory c directory.now) text.now ≡ done (with_entries k self.new.entries) (in_directory c directory.now) result }
        ensures limit { self.new.limit ≡ self.old.limit }
    {
        match self.resolve(directory, text) {
            Err(fault) => Err(fault),
            Ok(path) => match self.find(&path) {
                None => Err(Errno::Enoent),
                Some(node) => {
                    if !is_directory(node.kind) {
                        return Err(Errno::Enotdir);
                    }
                    if node.fixed {
                        return Err(Errno::Einval);
                    }
                    if self.has_child(path.as_slice()) {
                        return Err(Errno::Enotempty);
                    }
                    self.remove(path.as_slice());
                    Ok(())
                }
            },
        }
    }

    /// The part of `unlink` on the tree: a file's path goes, and the place of its bytes is the
    /// answer. ENOENT where nothing stands there, EISDIR for a directory, EINVAL for what was made
    /// at boot, and for a queue.
    #[tactic(auto, unfolding(nx_ksys::specs::TreeCalls::unlink_row))]
    pub fn remove_file(&mut self, directory: &[u8], text: &[u8]) -> Result<u32, Errno>
        requires directory { length directory.now < 256 }
        requires text { length text.now ≤ 260 }
        ensures row { (k : KernelState) (c : Caller) → unlink_row (with_entries k self.old.entries) (in_directory c directory.now) text.now ≡ name_gone (with_entries k self.new.entries) (in_directory c directory.now) result }
        ensures limit { self.new.limit ≡ self.old.limit }
    {
        match self.resolve(directory, text) {
            Err(fault) => Err(fault),
            Ok(path) => match self.find(&path) {
                None => Err(Errno::Enoent),
                Some(node) => match node.kind {
                    NodeKind::Directory => Err(Errno::Eisdir),
                    NodeKind::File(place) => {
                        self.remove(path.as_slice());
                        Ok(place)
                    }
                    _ => Err(Errno::Einval),
                },
            },
        }
    }

    // The second half of a rename: from a path to the one that a text names.
    fn move_path(&mut self, directory: &[u8], first: &[u8], text: &[u8]) -> Result<(), Errno>
        requires directory { length directory.now < 256 }
        requires text { length text.now ≤ 260 }
        ensures row { (k : KernelState) (c : Caller) → rename_second (with_entries k self.old.entries) (in_directory c directory.now) first.now (resolve_text (with_entries k self.old.entries) (in_directory c directory.now) text.now)
            ≡ done (with_entries k self.new.entries) (in_directory c directory.now) result }
        ensures limit { self.new.limit ≡ self.old.limit }
    {
        match self.resolve(directory, text) {
            Err(fault) => Err(fault),
            Ok(second) => {
                if self.has_below(second.as_slice()) {
                    return Err(Errno::Eexist);
                }
                if is_closed_directory(parent(second.as_slice()))
                    || is_within(first, second.as_slice())
                    || self.grows_too_long(first, second.as_slice())
                {
                    return Err(Errno::Einval);
                }
                self.move_to(first, second.as_slice());
                Ok(())
            }
        }
    }

    /// `rename`: a file or a directory with all below it has another path. ENOENT where nothing
    /// stands at the first, EINVAL for what was made at boot, and for a queue; EEXIST where
    /// something stands at the second; EINVAL where that is in a closed directory or below the
    /// first, or a path of more than 255 bytes would arise.
    #[tactic(auto, unfolding(nx_ksys::specs::TreeCalls::rename_row))]
    pub fn rename(&mut self, directory: &[u8], first: &[u8], second: &[u8]) -> Result<(), Errno>
        requires directory { length directory.now < 256 }
        requires first { length first.now ≤ 260 }
        requires second { length second.now ≤ 260 }
        ensures row { (k : KernelState) (c : Caller) → rename_row (with_entries k self.old.entries) (in_directory c directory.now) first.now second.now ≡ done (with_entries k self.new.entries) (in_directory c directory.now) result }
        ensures limit { self.new.limit ≡ self.old.limit }
    {
        match self.resolve(directory, first) {
            Err(fault) => Err(fault),
            Ok(path) => match self.find(&path) {
                None => Err(Errno::Enoent),
                Some(node) => {
                    if !may_move(node) {
                        return Err(Errno::Einval);
                    }
                    self.move_path(directory, path.as_slice(), second)
                }
            },
        }
    }

    /// `nx_readdir`: the name of that index in a directory, in byte order, with a slash after a
    /// directory's; none after the last. ENOENT where nothing stands there, ENOTDIR where it is no
    /// directory, EINVAL for an index below 0.
    #[tactic(auto, unfolding(nx_ksys::specs::TreeCalls::readdir_row))]
    pub fn list(
        &self,
        directory: &[u8],
        text: &[u8],
        index: u32,
    ) -> Result<Option<ArrayVec<u8, 256>>, Errno>
        requires directory { length directory.now < 256 }
        requires text { length text.now ≤ 260 }
        ensures { (k : KernelState) (c : Caller) (size : ℕ) → readdir_row (with_entries k self.now.entries) (in_directory c directory.now) text.now index size ≡ name_told (with_entries k self.now.entries) (in_directory c directory.now) size result }
    {
        match self.resolve(directory, text) {
            Err(fault) => Err(fault),
            Ok(path) => match self.find(&path) {
                None => Err(Errno::Enoent),
                Some(node) => {
                    if !is_directory(node.kind) {
                        return Err(Errno::Enotdir);
                    }
                    if index >= 2147483648 {
                        return Err(Errno::Einval);
                    }
                    Ok(self.nth(path.as_slice(), index as usize))
                }
            },
        }
    }

    /// The part of `open` on the tree, by its row: what is found, or what has to be made. The place
    /// is the least without a file.
    #[tactic(auto, unfolding(nx_ksys::specs::FileCalls::open_row))]
    pub fn open(
        &self,
        directory: &[u8],
        text: &[u8],
        flags: u32,
        is_full: bool,
        free: Option<u32>,
    ) -> Result<Opening, Errno>
        requires directory { length directory.now < 256 }
        requires text { length text.now ≤ 260 }
        ensures row { (k : KernelState) (c : Caller) → nat_le k.limits.objects (objects (with_entries k self.now.entries)) ≡ is_full → position_from is_none 0 k.tree.files ≡ free
            → open_row (with_entries k self.now.entries) (in_directory c directory.now) text.now flags ≡ opens_told (with_entries k self.now.entries) (in_directory c directory.now) flags result }
        ensures absent { IfOk result (is_absent self.now.entries) }
    {
        if flags > 127 || !(has_flag(flags, 1) || has_flag(flags, 2)) {
            return Err(Errno::Einval);
        }
        match self.resolve(directory, text) {
            Err(fault) => Err(fault),
            Ok(path) => match self.find(&path) {
                None => create(path, flags, is_full, free),
                Some(node) => {
                    if has_flag(flags, 4) && has_flag(flags, 8) {
                        return Err(Errno::Eexist);
                    }
                    open_node(node.kind, flags)
                }
            },
        }
    }
}
