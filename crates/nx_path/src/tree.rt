ghost use Rattle.std.specs.Prelude.{◌≡◌, ◌<◌, ◌≤◌, ◌+◌, ◌↔◌, ℕ, [], ◌∷◌, ◌++◌, None, Ok, IfOk, IsTrue, false, length};
ghost use Rattle.std.specs.List.{list_any, count_by};
ghost use Rattle.nx_ksys.specs.Paths.{node_at, resolved, entries_but, has_children, nth_name};
ghost use Rattle.nx_ksys.specs.TreeCalls.{is_taken, is_too_long, renamed_entries, list_name};
ghost use Rattle.nx_ksys.specs.State.{KernelState, is_made_directory};
ghost use Rattle.nx_ksys.specs.Answers.{Caller};
ghost use Rattle.nx_ksys.specs.Descriptors.{is_file_at, is_queue_at};
ghost use Rattle.nx_ksys.specs.Boot.{first_entries};
ghost use Rattle.nx_path.specs.Entries.{Held, AreNames};
ghost use Rattle.nx_path.specs.Rows.{path_told, name_told};

use crate::boot::fix_all;
use crate::entries::{copy_but, find, has_file, has_queue, made_directories, put};
use crate::lookups::{first_fault, has_child, nth_child};
use crate::normal::{Path, normal_path};
use crate::rename::{copy_renamed, grows_too_long, has_below};
use arrayvec::ArrayVec;
use indexmap::IndexMap;
use nx_base::{Errno, OutOfMemory, Text};
use nx_ksys::Node;
use std::alloc::Global;
use std::marker::Model;

/// What stands at each path, in the order in which the paths came. All memory is taken when it is
/// made. Contracts see the entries, and how many there may be.
#[derive(Drop)]
pub struct Tree {
    live: IndexMap<Path, Node>,
    // Always empty: a change copies the entries into it, and then the two change places.
    other: IndexMap<Path, Node>,
    limit: usize,
}

impl Model for Tree {
    ghost use Rattle.std.specs.Prelude.{◌≡◌, ◌≤◌, ◌+◌, [], length};
    ghost use Rattle.indexmap.specs.IndexMap.{spare};
    ghost use Rattle.nx_path.specs.Entries.{Held, seen};

    ghost Value = { Held };

    ghost view = { λ t. record { entries = seen t.live; limit = t.limit } };

    ghost invariant = { λ t. (t.other.entries ≡ []) × (t.limit ≤ spare t.other) × (t.limit ≤ spare t.live + length t.live.entries) × (length t.live.entries ≤ t.limit) };
}

impl Tree {
    /// No path, and room for so many.
    pub fn new(alloc: Global, limit: usize) -> Result<Tree, OutOfMemory>
        ensures { IfOk result (λ t. t ≡ record { entries = []; limit = limit }) }
    {
        let live = IndexMap::with_capacity(alloc, limit)?;
        let other = IndexMap::with_capacity(alloc, limit)?;
        Ok(Tree { live, other, limit })
    }

    /// The paths of boot: directories, devices, and `/bin/NAME` for each program; and room for so
    /// many objects beside them, at most 65,536.
    pub fn boot(alloc: Global, programs: &[Text], objects: usize) -> Result<Tree, OutOfMemory>
        requires names { AreNames programs.now }
        requires few { length programs.now ≤ 65536 }
        requires objects { objects ≤ 65536 }
        ensures { IfOk result (λ t. t ≡ record { entries = first_entries programs.now; limit = length (first_entries programs.now) + objects }) }
    {
        let limit = 8 + programs.len() + objects;
        let mut live = IndexMap::with_capacity(alloc, limit)?;
        fix_all(&mut live, programs);
        let other = IndexMap::with_capacity(alloc, limit)?;
        Ok(Tree { live, other, limit })
    }

    /// What stands at a path.
    pub fn find(&self, path: &Path) -> Option<Node>
        ensures { result ≡ node_at self.now.entries path.now.items }
    {
        find(&self.live, path)
    }

    /// The path that a text names from a directory. ENOENT for an empty text; EINVAL where a part
    /// of it has more than 32 bytes or it more than 255; ENOENT or ENOTDIR where a prefix is no
    /// directory.
    #[tactic(auto, unfolding(nx_ksys::specs::Paths::resolved))]
    pub fn resolve(&self, directory: &[u8], text: &[u8]) -> Result<Path, Errno>
        requires directory { length directory.now < 256 }
        requires text { length text.now ≤ 260 }
        ensures { path_told result ≡ resolved self.now.entries directory.now text.now }
    {
        if text.is_empty() {
            return Err(Errno::Enoent);
        }
        match normal_path(directory, text) {
            None => Err(Errno::Einval),
            Some(path) => match first_fault(&self.live, path.as_slice()) {
                None => Ok(path),
                Some(fault) => Err(fault),
            },
        }
    }

    /// Whether a path names the file at a place.
    pub fn has_file(&self, place: u32) -> bool
        ensures { result ≡ list_any (λ e. is_file_at place e.1.kind) self.now.entries }
    {
        has_file(&self.live, place)
    }

    /// Whether a path names the queue at a place.
    pub fn has_queue(&self, place: u32) -> bool
        ensures { result ≡ list_any (λ e. is_queue_at place e.1.kind) self.now.entries }
    {
        has_queue(&self.live, place)
    }

    /// How many directories were made after boot.
    pub fn made_directories(&self) -> usize
        ensures { result ≡ count_by is_made_directory self.now.entries }
    {
        made_directories(&self.live)
    }

    /// Whether something stands in a directory.
    pub fn has_child(&self, directory: &[u8]) -> bool
        ensures { result ≡ has_children directory.now self.now.entries }
    {
        has_child(&self.live, directory)
    }

    /// Whether something stands at a path or below it.
    pub fn has_below(&self, path: &[u8]) -> bool
        ensures { result ≡ is_taken path.now self.now.entries }
    {
        has_below(&self.live, path)
    }

    /// Whether a path becomes too long by a rename.
    pub fn grows_too_long(&self, first: &[u8], second: &[u8]) -> bool
        requires { length second.now < 256 }
        ensures { result ≡ is_too_long first.now second.now self.now.entries }
    {
        grows_too_long(&self.live, first, second)
    }

    /// The name of that index in a directory, in byte order, with a slash after a directory's.
    pub fn nth(&self, directory: &[u8], index: usize) -> Option<ArrayVec<u8, 256>>
        ensures { (k : KernelState) (c : Caller) (size : ℕ) → list_name k c size (nth_name directory.now index self.now.entries) ≡ name_told k c size (Ok result) }
    {
        nth_child(&self.live, directory, index)
    }

    /// Whether there is room for one more path.
    pub fn has_room(&self) -> bool
        ensures { IsTrue result ↔ (length self.now.entries < self.now.limit) }
    {
        self.live.len() < self.limit
    }

    /// A node comes to a path that has none.
    pub fn add(&mut self, path: Path, node: Node)
        requires absent { node_at self.old.entries path.items ≡ None }
        requires room { length self.old.entries < self.old.limit }
        ensures { self.new ≡ record self.old { entries = self.old.entries ++ (path.items, node) ∷ [] } }
    {
        put(&mut self.live, path, node);
    }

    /// A path goes.
    pub fn remove(&mut self, path: &[u8])
        ensures { self.new ≡ record self.old { entries = entries_but path.now self.old.entries } }
    {
        copy_but(&self.live, &mut self.other, path);
        self.live.clear();
        std::mem::swap(&mut self.live, &mut self.other);
    }

    /// A path, with all below it, becomes another, at and below which nothing stands.
    pub fn move_to(&mut self, first: &[u8], second: &[u8])
        requires fits { is_too_long first.now second.now self.old.entries ≡ false }
        requires free { is_taken second.now self.old.entries ≡ false }
        ensures { self.new ≡ record self.old { entries = renamed_entries first.now second.now self.old.entries } }
    {
        copy_renamed(&self.live, &mut self.other, first, second);
        self.live.clear();
        std::mem::swap(&mut self.live, &mut self.other);
    }
}
