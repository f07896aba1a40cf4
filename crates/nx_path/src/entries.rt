// Nodes by path, as a map has them.
ghost use Rattle.std.specs.Prelude.{◌≡◌, ◌≤◌, ◌<◌, ◌+◌, [], ◌∷◌, ◌++◌, Some, None, Bool, false, true, length, take, if◌then◌else◌, slice_get};
ghost use Rattle.std.specs.List.{list_any, count_by};
ghost use Rattle.std.specs.Str.{bytes_eq};
ghost use Rattle.indexmap.specs.IndexMap.{spare, index_map_len};
ghost use Rattle.nx_ksys.specs.Paths.{node_at, entries_but};
ghost use Rattle.nx_ksys.specs.State.{is_directory as is_directory_kind, is_made_directory};
ghost use Rattle.nx_ksys.specs.Descriptors.{is_file_at, is_queue_at};
ghost use Rattle.nx_path.specs.Entries.{seen};

use crate::normal::{Path, to_path};
use indexmap::IndexMap;
use nx_ksys::{Node, NodeKind};

/// The path and the node of the entry at an index.
pub fn entry_at(tree: &IndexMap<Path, Node>, at: usize) -> (&[u8], Node)
    requires { at < index_map_len tree.now }
    ensures entry { slice_get (seen tree.now) at ≡ Some (result.0.now, result.1) }
    ensures short { length result.0.now ≤ 255 }
{
    match tree.get_index(at) {
        Some((path, node)) => (path.as_slice(), *node),
        None => unreachable!(),
    }
}

/// The node at a path.
#[tactic(auto, unfolding(nx_ksys::specs::Paths::node_at))]
pub fn find(tree: &IndexMap<Path, Node>, path: &Path) -> Option<Node>
    ensures { result ≡ node_at (seen tree.now) path.now.items }
{
    tree.get(path).copied()
}

/// A node comes to a path that has none. There is room, so no memory is taken.
pub fn put(tree: &mut IndexMap<Path, Node>, path: Path, node: Node)
    requires room { 0 < spare tree.old }
    requires absent { node_at (seen tree.old) path.items ≡ None }
    ensures entries { seen tree.new ≡ seen tree.old ++ (path.items, node) ∷ [] }
    ensures room { spare tree.old ≤ spare tree.new + 1 }
    ensures capacity { spare tree.old + index_map_len tree.old ≤ spare tree.new + index_map_len tree.new }
    ensures len { index_map_len tree.new ≡ index_map_len tree.old + 1 }
{
    let _old = tree.insert(path, node).unwrap();
}

// A node comes to a path, if that isn't the one to be left out.
fn put_other(into: &mut IndexMap<Path, Node>, left_out: &[u8], path: &[u8], node: Node)
    requires room { 0 < spare into.old }
    requires short { length path.now ≤ 255 }
    requires absent { node_at (seen into.old) path.now ≡ None }
    ensures entries { seen into.new ≡ seen into.old ++ (if bytes_eq left_out.now path.now then [] else (path.now, node) ∷ []) }
    ensures room { spare into.old ≤ spare into.new + 1 }
    ensures capacity { spare into.old + index_map_len into.old ≤ spare into.new + index_map_len into.new }
    ensures len { index_map_len into.new ≤ index_map_len into.old + 1 }
{
    if left_out == path {
        return;
    }
    put(into, to_path(path), node);
}

/// Copies all entries but that of a path into an empty map with room for them.
pub fn copy_but(from: &IndexMap<Path, Node>, into: &mut IndexMap<Path, Node>, path: &[u8])
    requires empty { into.old.entries ≡ [] }
    requires room { index_map_len from.now ≤ spare into.old }
    ensures entries { seen into.new ≡ entries_but path.now (seen from.now) }
    ensures room { spare into.old ≤ spare into.new + index_map_len into.new }
    ensures fewer { index_map_len into.new ≤ index_map_len from.now }
{
    for at in 0..from.len() {
        let (other, node) = entry_at(from, at);
        put_other(into, path, other, node);
    }
}

fn leads_to(node: Node, place: u32) -> bool
    ensures { result ≡ is_file_at place node.kind }
{
    match node.kind {
        NodeKind::File(other) => other == place,
        _ => false,
    }
}

/// Whether a path names the file at a place.
pub fn has_file(tree: &IndexMap<Path, Node>, place: u32) -> bool
    ensures { result ≡ list_any (λ e. is_file_at place e.1.kind) (seen tree.now) }
{
    for at in 0..tree.len() {
        let (_path, node) = entry_at(tree, at);
        if leads_to(node, place) {
            return true;
        }
    }
    false
}

fn leads_to_queue(node: Node, place: u32) -> bool
    ensures { result ≡ is_queue_at place node.kind }
{
    match node.kind {
        NodeKind::Queue(other) => other == place,
        _ => false,
    }
}

/// Whether a path names the queue at a place.
pub fn has_queue(tree: &IndexMap<Path, Node>, place: u32) -> bool
    ensures { result ≡ list_any (λ e. is_queue_at place e.1.kind) (seen tree.now) }
{
    for at in 0..tree.len() {
        let (_path, node) = entry_at(tree, at);
        if leads_to_queue(node, place) {
            return true;
        }
    }
    false
}

/// Whether it is a directory.
pub fn is_directory(kind: NodeKind) -> bool
    ensures { result ≡ is_directory_kind kind }
{
    match kind {
        NodeKind::Directory => true,
        _ => false,
    }
}

fn count_made(path: &[u8], node: Node) -> usize
    ensures count { result ≡ (if is_made_directory (path.now, node) then 1 else 0) }
    ensures few { result ≤ 1 }
{
    if is_directory(node.kind) && !node.fixed {
        1
    } else {
        0
    }
}

/// How many directories were made after boot.
pub fn made_directories(tree: &IndexMap<Path, Node>) -> usize
    ensures { result ≡ count_by is_made_directory (seen tree.now) }
{
    let mut count = 0;
    for at in 0..tree.len() {
        let (path, node) = entry_at(tree, at);
        count += count_made(path, node);
    }
    count
}
