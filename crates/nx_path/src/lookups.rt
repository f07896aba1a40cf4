// Prefixes of a path, names in a directory, and what lies below a path.
ghost use Rattle.std.specs.Prelude.{◌≡◌, ◌≤◌, ◌<◌, ◌+◌, ◌-◌, ◌^◌, ◌==◌, [], ◌∷◌, ◌++◌, ℕ, List, Option, Some, None, Bool, true, false, length, take, drop, if◌then◌else◌, slice_get, option_map, IfSome};
ghost use Rattle.std.specs.List.{list_any};
ghost use Rattle.std.specs.Option.{is_some};
ghost use Rattle.indexmap.specs.IndexMap.{index_map_len};
ghost use Rattle.nx_base.specs.declared.errno.Errno.{Errno};
ghost use Rattle.nx_ksys.specs.declared.node.Node.{Node};
ghost use Rattle.nx_ksys.specs.Paths.{directory_fault, kind_of, node_at, or_else, prefix_fault, is_cut, is_in, last_part, parent_of, name_in, child_name, name_before, counts_before, before, nth_step, nth_name, has_children, is_closed, shown as shown_path};
ghost use Rattle.nx_ksys.specs.TreeCalls.{listed_name};
ghost use Rattle.nx_path.specs.Entries.{seen, IsListed};
ghost use Rattle.nx_path.specs.Walks.{last_count};

use crate::entries::{entry_at, find, is_directory};
use crate::normal::Path;
use arrayvec::ArrayVec;
use indexmap::IndexMap;
use nx_base::Errno;
use nx_ksys::{Node, NodeKind};

fn fault_of(node: Option<Node>) -> Option<Errno>
    ensures { result ≡ directory_fault (kind_of node) }
{
    match node {
        None => Some(Errno::Enoent),
        Some(node) => match node.kind {
            NodeKind::Directory => None,
            _ => Some(Errno::Enotdir),
        },
    }
}

// At a slash: why the path before it is no directory.
fn fault_at(tree: &IndexMap<Path, Node>, front: &Path, byte: u8) -> Option<Errno>
    ensures { (rest : Option Errno) → (if byte == 47 then or_else (directory_fault (kind_of (node_at (seen tree.now) front.now.items))) rest else rest) ≡ or_else result rest }
{
    if byte != b'/' {
        return None;
    }
    fault_of(find(tree, front))
}

/// Why the first prefix of a path that is no directory isn't one.
pub fn first_fault(tree: &IndexMap<Path, Node>, path: &[u8]) -> Option<Errno>
    requires { length path.now ≤ 255 }
    ensures { result ≡ prefix_fault (seen tree.now) path.now }
{
    let mut front = ArrayVec::new();
    for byte in path {
        match fault_at(tree, &front, *byte) {
            Some(fault) => return Some(fault),
            None => {}
        }
        front.push(*byte);
    }
    None
}

fn is_end(rest: &[u8]) -> bool
    ensures { result ≡ is_cut rest.now }
{
    match rest {
        [] => true,
        [first, ..] => *first == b'/',
    }
}

/// What is left of a path in a directory, or of the directory's own.
pub fn rest_in<'a>(directory: &[u8], path: &'a [u8]) -> Option<&'a [u8]>
    ensures none { result ≡ None → is_in directory.now path.now ≡ false }
    ensures some { IfSome result (λ r. (is_in directory.now path.now ≡ true) × (r.now ≡ drop (length directory.now) path.now)) }
{
    match path.strip_prefix(directory) {
        None => None,
        Some(rest) => if is_end(rest) { Some(rest) } else { None },
    }
}

/// Whether a path is a directory's, or one below it.
pub fn is_within(directory: &[u8], path: &[u8]) -> bool
    ensures { result ≡ is_in directory.now path.now }
{
    match rest_in(directory, path) {
        None => false,
        Some(_) => true,
    }
}

fn has_slash(name: &[u8]) -> bool
    ensures { result ≡ list_any (λ c. c == 47) name.now }
{
    name.iter().any(|byte| *byte == b'/')
}

fn name_of(rest: &[u8]) -> Option<&[u8]>
    ensures name { option_map (λ r. r.now) result ≡ name_in rest.now }
    ensures short { IfSome result (λ r. length r.now ≤ length rest.now) }
{
    match rest {
        [] => None,
        [_, name @ ..] => if has_slash(name) { None } else { Some(name) },
    }
}

// The name of what stands right in a directory.
fn child_of<'a>(directory: &[u8], path: &'a [u8]) -> Option<&'a [u8]>
    ensures name { option_map (λ r. r.now) result ≡ child_name directory.now path.now }
    ensures short { IfSome result (λ r. length r.now ≤ length path.now) }
{
    match rest_in(directory, path) {
        None => None,
        Some(rest) => name_of(rest),
    }
}

fn is_child(directory: &[u8], path: &[u8]) -> bool
    ensures { result ≡ is_some (child_name directory.now path.now) }
{
    match child_of(directory, path) {
        None => false,
        Some(_) => true,
    }
}

/// Whether something stands in a directory.
pub fn has_child(tree: &IndexMap<Path, Node>, directory: &[u8]) -> bool
    ensures { result ≡ has_children directory.now (seen tree.now) }
{
    for at in 0..tree.len() {
        let (path, _node) = entry_at(tree, at);
        if is_child(directory, path) {
            return true;
        }
    }
    false
}

fn comes_first(name: &[u8], other: &[u8]) -> bool
    ensures { result ≡ name_before name.now other.now }
{
    name.cmp(other).is_lt()
}

fn count_name(directory: &[u8], path: &[u8], name: &[u8]) -> usize
    ensures count { result ≡ counts_before name.now (child_name directory.now path.now) }
    ensures few { result ≤ 1 }
{
    match child_of(directory, path) {
        None => 0,
        Some(other) => if comes_first(other, name) { 1 } else { 0 },
    }
}

// How many names in a directory come before a name.
fn count_before(tree: &IndexMap<Path, Node>, directory: &[u8], name: &[u8]) -> usize
    ensures { result ≡ before directory.now name.now (seen tree.now) }
{
    let mut count = 0;
    for at in 0..tree.len() {
        let (path, _node) = entry_at(tree, at);
        count += count_name(directory, path, name);
    }
    count
}

fn listed(name: &[u8], node: Node) -> ArrayVec<u8, 256>
    requires { length name.now < 256 }
    ensures { result.items ≡ listed_name name.now node }
{
    let mut text = ArrayVec::new();
    for byte in name {
        text.push(*byte);
    }
    if is_directory(node.kind) {
        text.push(b'/');
    }
    text
}

// The name of a path in a directory as it is listed, if so many names come before it.
fn name_at(
    tree: &IndexMap<Path, Node>,
    directory: &[u8],
    index: usize,
    path: &[u8],
    node: Node,
) -> Option<ArrayVec<u8, 256>>
    requires { length path.now < 256 }
    ensures none { result ≡ None → (rest : Option (List ℕ × Node)) → nth_step (seen tree.now) directory.now index node rest (child_name directory.now path.now) ≡ rest }
    ensures some { IfSome result (λ r. IsListed r.items (λ rest. nth_step (seen tree.now) directory.now index node rest (child_name directory.now path.now))) }
{
    match child_of(directory, path) {
        None => None,
        Some(name) => if count_before(tree, directory, name) == index {
            Some(listed(name, node))
        } else {
            None
        },
    }
}

/// The name in a directory before which so many come, with a slash after it where it is a
/// directory's.
#[tactic(auto, unfolding(nx_ksys::specs::Paths::nth_name))]
pub fn nth_child(
    tree: &IndexMap<Path, Node>,
    directory: &[u8],
    index: usize,
) -> Option<ArrayVec<u8, 256>>
    ensures { option_map (λ r. r.items) result ≡ option_map (λ e. listed_name e.0 e.1) (nth_name directory.now index (seen tree.now)) }
{
    for at in 0..tree.len() {
        let (path, node) = entry_at(tree, at);
        match name_at(tree, directory, index, path, node) {
            Some(name) => return Some(name),
            None => {}
        }
    }
    None
}

fn count_byte(count: usize, byte: u8) -> usize
    requires { count < 2 ^ 63 }
    ensures count { result ≡ (if byte == 47 then 0 else count + 1) }
    ensures few { result ≤ count + 1 }
{
    if byte == b'/' { 0 } else { count + 1 }
}

fn count_last(path: &[u8]) -> usize
    ensures last { result ≡ last_count 0 path.now }
    ensures within { result ≤ length path.now }
{
    let mut count = 0;
    for byte in path {
        count = count_byte(count, *byte);
    }
    count
}

// How many bytes the last part of a path has.
#[tactic(auto, using(crate::proofs::EntryLemmas::last_is_counted))]
fn last_length(path: &[u8]) -> usize
    ensures last { result ≡ length (last_part [] path.now) }
    ensures within { result ≤ length path.now }
{
    count_last(path)
}

/// A path without its last part.
pub fn parent(path: &[u8]) -> &[u8]
    ensures { result.now ≡ parent_of path.now }
{
    let end = path
        .len()
        .saturating_sub(last_length(path))
        .saturating_sub(1);
    &path[..end]
}

/// The last part of a path; of the root it is empty.
pub fn last_name(path: &[u8]) -> &[u8]
    ensures { result.now ≡ last_part [] path.now }
{
    &path[path.len() - last_length(path)..]
}

/// A directory's path as a program sees it: the root has a slash.
pub fn shown(path: &[u8]) -> &[u8]
    ensures { result.now ≡ shown_path path.now }
{
    match path {
        [] => b"/".as_slice(),
        [_, ..] => path,
    }
}

/// Whether programs make nothing in a directory.
pub fn is_closed_directory(path: &[u8]) -> bool
    ensures { result ≡ is_closed path.now }
{
    path == b"/bin".as_slice() || path == b"/dev".as_slice() || path == b"/var/mqueue".as_slice()
}
