ghost use Rattle.std.specs.Prelude.{◌≡◌, ◌<◌, [], ◌∷◌, ◌++◌, suc, map, length, Some, slice_set, slice_get, IfOk, OnOk};
ghost use Rattle.nx_shtree.specs.Trees.{item_of, items as items_in_order};
ghost use Rattle.nx_shrun.specs.Places.{place_of, node_in, Coded, CodedItem, Keeps, node_at as node_there, node_of_item};

use nx_base::OutOfMemory;
use nx_shared::Shared;
use nx_shtree::{Item, ItemKind, Script};
use sqlite_items::Items;
use std::alloc::{AllocError, Global};

/// A simple command, by the place of its item in a list, and the places where the shell goes on by
/// its status. Place 0 is the script's end, and place `n + 1` the node at index `n`.
#[derive(Debug, Drop)]
pub struct Node {
    /// The list in which its item stands.
    pub list: Shared<Items<Item>>,
    /// The place of its item, from 0.
    pub index: usize,
    /// Where the shell goes on at status 0.
    pub at_zero: usize,
    /// Where it goes on at another.
    pub at_other: usize,
}

#[tactic(auto, using(crate::proofs::Grown::map_put))]
fn add(nodes: &mut Vec<Option<Node>>, node: Option<Node>) -> Result<usize, AllocError>
    ensures nodes { OnOk result (map place_of nodes.new.items ≡ map place_of nodes.old.items ++ place_of node ∷ []) }
    ensures here { IfOk result (λ t. (t ≡ suc (length (map place_of nodes.old.items))) × (t ≡ length nodes.new.items)) }
{
    nodes.push(node)?;
    Ok(nodes.len())
}

#[tactic(auto, using(crate::proofs::Grown::put_keeps, crate::proofs::Grown::put_here))]
fn put(
    nodes: &mut Vec<Option<Node>>,
    list: &Shared<Items<Item>>,
    index: usize,
    item: &Item,
    at_zero: usize,
    at_other: usize,
) -> Result<usize, AllocError>
    requires stands { slice_get list.now index ≡ Some item.now }
    ensures here { IfOk result (λ t. node_there (map place_of nodes.new.items) t ≡ Some (node_of_item at_zero at_other (item_of item.now))) }
    ensures keeps { OnOk result (Keeps (map place_of nodes.old.items) (map place_of nodes.new.items)) }
{
    let list = list.another()?;
    let here = add(
        nodes,
        Some(Node {
            list,
            index,
            at_zero,
            at_other,
        }),
    )?;
    Ok(here)
}

#[tactic(auto, using(crate::proofs::Grown::map_set))]
fn fill(
    nodes: &mut Vec<Option<Node>>,
    here: usize,
    list: Shared<Items<Item>>,
    index: usize,
    item: &Item,
    at_zero: usize,
    at_other: usize,
)
    requires inside { here < length nodes.old.items }
    requires stands { slice_get list index ≡ Some item.now }
    ensures { map place_of nodes.new.items ≡ slice_set (map place_of nodes.old.items) here (Some (node_of_item at_zero at_other (item_of item.now))) }
{
    nodes[here] = Some(Node {
        list,
        index,
        at_zero,
        at_other,
    });
}

#[cycle(write)]
#[tactic(auto, using(crate::proofs::Grown::kept_both, crate::proofs::Grown::put_keeps))]
fn write_item(
    nodes: &mut Vec<Option<Node>>,
    list: &Shared<Items<Item>>,
    index: usize,
    item: &Item,
    to: usize,
) -> Result<usize, AllocError>
    requires stands { slice_get list.now index ≡ Some item.now }
    ensures here { IfOk result (λ t. CodedItem (map place_of nodes.new.items) (item_of item.now) t to) }
    ensures keeps { OnOk result (Keeps (map place_of nodes.old.items) (map place_of nodes.new.items)) }
{
    match &item.kind {
        ItemKind::Command(_) => put(nodes, list, index, item, to, to),
        ItemKind::Background(_) => put(nodes, list, index, item, to, to),
        ItemKind::If(_, body) => {
            let x = write_list(nodes, body, to)?;
            let here = put(nodes, list, index, item, x, to)?;
            Ok(here)
        }
        ItemKind::IfElse(_, body, other) => {
            let x = write_list(nodes, body, to)?;
            let y = write_list(nodes, other, to)?;
            let here = put(nodes, list, index, item, x, y)?;
            Ok(here)
        }
        ItemKind::While(_, body) => {
            let copy = list.another()?;
            let here = add(nodes, None)?;
            let x = write_list(nodes, body, here)?;
            fill(nodes, here - 1, copy, index, item, x, to);
            Ok(here)
        }
        ItemKind::Until(_, body) => {
            let copy = list.another()?;
            let here = add(nodes, None)?;
            let x = write_list(nodes, body, here)?;
            fill(nodes, here - 1, copy, index, item, to, x);
            Ok(here)
        }
    }
}

#[cycle(write)]
fn write_list(
    nodes: &mut Vec<Option<Node>>,
    list: &Shared<Items<Item>>,
    to: usize,
) -> Result<usize, AllocError>
    ensures here { IfOk result (λ t. Coded (map place_of nodes.new.items) (items_in_order (map item_of list.now)) t to) }
    ensures keeps { OnOk result (Keeps (map place_of nodes.old.items) (map place_of nodes.new.items)) }
{
    let items = list.get().as_slice();
    let mut left = items.len();
    let mut next = to;
    while left > 0 {
        left -= 1;
        next = write_item(nodes, list, left, &items[left], next)?;
    }
    Ok(next)
}

/// The table of a script, and the place where it begins.
#[derive(Debug, Drop)]
pub struct Table {
    /// Its nodes. Place `n + 1` is that of the node at index `n`.
    pub nodes: Vec<Option<Node>>,
    /// The place where the script begins.
    pub start: usize,
}

/// Writes each command of a script into a table.
pub fn lay_out(alloc: Global, script: &Script) -> Result<Table, OutOfMemory>
    ensures { IfOk result (λ t. Coded (map place_of t.nodes.items) (items_in_order script.now) t.start 0) }
{
    let mut nodes = Vec::new(alloc);
    let start = write_list(&mut nodes, script.items(), 0)?;
    Ok(Table { nodes, start })
}
