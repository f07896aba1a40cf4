// What a rename does to the paths.
ghost use Rattle.std.specs.Prelude.{◌≡◌, ◌≤◌, ◌<◌, ◌+◌, [], ◌∷◌, ◌++◌, Some, None, Bool, false, true, nat_le, length, map, take, slice_get};
ghost use Rattle.std.specs.List.{list_any};
ghost use Rattle.indexmap.specs.IndexMap.{spare, index_map_len};
ghost use Rattle.nx_ksys.specs.Paths.{is_in, renamed};
ghost use Rattle.nx_ksys.specs.TreeCalls.{is_taken, is_too_long, renamed_entries};
ghost use Rattle.nx_path.specs.Entries.{seen};

use crate::entries::{entry_at, put};
use crate::lookups::{is_within, rest_in};
use crate::normal::{Path, to_path};
use arrayvec::ArrayVec;
use indexmap::IndexMap;
use nx_ksys::Node;

/// Whether something stands at a path or below it.
pub fn has_below(tree: &IndexMap<Path, Node>, path: &[u8]) -> bool
    ensures { result ≡ is_taken path.now (seen tree.now) }
{
    for at in 0..tree.len() {
        let (other, _node) = entry_at(tree, at);
        if is_within(path, other) {
            return true;
        }
    }
    false
}

// How many bytes a path has after a rename.
fn new_length(first: &[u8], second: &[u8], path: &[u8]) -> usize
    requires { length second.now ≤ 255 × length path.now ≤ 255 }
    ensures { result ≡ length (renamed first.now second.now path.now) }
{
    match rest_in(first, path) {
        None => path.len(),
        Some(rest) => second.len() + rest.len(),
    }
}

/// Whether a path becomes too long by a rename.
pub fn grows_too_long(tree: &IndexMap<Path, Node>, first: &[u8], second: &[u8]) -> bool
    requires { length second.now ≤ 255 }
    ensures { result ≡ is_too_long first.now second.now (seen tree.now) }
{
    for at in 0..tree.len() {
        let (path, _node) = entry_at(tree, at);
        if new_length(first, second, path) >= 256 {
            return true;
        }
    }
    false
}

/// One text after another, as a path.
pub fn join(front: &[u8], back: &[u8]) -> Path
    requires { length front.now + length back.now ≤ 255 }
    ensures { result.items ≡ front.now ++ back.now }
{
    let mut path = to_path(front);
    for byte in back {
        path.push(*byte);
    }
    path
}

fn new_path(first: &[u8], second: &[u8], path: &[u8]) -> Path
    requires { length (renamed first.now second.now path.now) ≤ 255 }
    ensures { result.items ≡ renamed first.now second.now path.now }
{
    match rest_in(first, path) {
        None => to_path(path),
        Some(rest) => join(second, rest),
    }
}

/// Copies all entries into an empty map with room for them, each under its path after a rename.
pub fn copy_renamed(
    from: &IndexMap<Path, Node>,
    into: &mut IndexMap<Path, Node>,
    first: &[u8],
    second: &[u8],
)
    requires empty { into.old.entries ≡ [] }
    requires room { index_map_len from.now ≤ spare into.old }
    requires fits { is_too_long first.now second.now (seen from.now) ≡ false }
    requires free { is_taken second.now (seen from.now) ≡ false }
    ensures entries { seen into.new ≡ renamed_entries first.now second.now (seen from.now) }
    ensures room { spare into.old ≤ spare into.new + index_map_len into.new }
{
    for at in 0..from.len() {
        let (path, node) = entry_at(from, at);
        put(into, new_path(first, second, path), node);
    }
}
