ghost use Rattle.std.specs.Prelude.{◌≡◌, ◌≤◌, None, Some, ℕ, length, map, MatchOption, IfOk};
ghost use Rattle.nx_shtree.specs.Trees.{item_of};
ghost use Rattle.nx_shrun.specs.Places.{Node as PlainNode, place_of, node_of_item, node_at as node_there};
ghost use Rattle.nx_shell.specs.Kept.{all_words};
ghost use Rattle.nx_shell.specs.Shells.{HaveRoom, command_in, place_after as place_after_node};

use nx_base::OutOfMemory;
use nx_shrun::Node;
use nx_shtree::{Item, ItemKind, Simple};

/// The node at a place.
#[tactic(auto, using(crate::proofs::TablePlaces::there_got, crate::proofs::TablePlaces::there_none))]
fn node_in(nodes: &[Option<Node>], at: usize) -> Option<&Node>
    ensures { MatchOption result (node_there (map place_of nodes.now) at ≡ None) (λ n. node_there (map place_of nodes.now) at ≡ place_of (Some n.now)) }
{
    if at == 0 {
        return None;
    }
    match nodes.get(at - 1) {
        None => None,
        Some(entry) => match entry {
            None => None,
            Some(node) => Some(node),
        },
    }
}

/// The item of a node.
#[tactic(auto, using(crate::proofs::TablePlaces::item_got, crate::proofs::TablePlaces::item_none))]
fn item_in(node: &Node) -> Option<&Item>
    ensures { MatchOption result (place_of (Some node.now) ≡ None) (λ x. place_of (Some node.now) ≡ Some (node_of_item node.now.at_zero node.now.at_other (item_of x.now))) }
{
    node.list.get().as_slice().get(node.index)
}

/// The command with which an item begins.
#[tactic(auto, using(crate::proofs::TablePlaces::of_command, crate::proofs::TablePlaces::of_background, crate::proofs::TablePlaces::of_if, crate::proofs::TablePlaces::of_if_else, crate::proofs::TablePlaces::of_while, crate::proofs::TablePlaces::of_until))]
fn command_of(item: &Item) -> &Simple
    ensures { (u v : ℕ) → (node_of_item u v (item_of item.now)).c ≡ result.now }
{
    match &item.kind {
        ItemKind::Command(command) => command,
        ItemKind::Background(command) => command,
        ItemKind::If(command, _) => command,
        ItemKind::IfElse(command, _, _) => command,
        ItemKind::While(command, _) => command,
        ItemKind::Until(command, _) => command,
    }
}

#[tactic(auto, using(crate::proofs::TablePlaces::waits_command, crate::proofs::TablePlaces::waits_background, crate::proofs::TablePlaces::waits_if, crate::proofs::TablePlaces::waits_if_else, crate::proofs::TablePlaces::waits_while, crate::proofs::TablePlaces::waits_until))]
fn is_background(item: &Item) -> bool
    ensures { (u v : ℕ) → (node_of_item u v (item_of item.now)).background ≡ result }
{
    match &item.kind {
        ItemKind::Command(_) => false,
        ItemKind::Background(_) => true,
        ItemKind::If(_, _) => false,
        ItemKind::IfElse(_, _, _) => false,
        ItemKind::While(_, _) => false,
        ItemKind::Until(_, _) => false,
    }
}

/// The command at a place.
#[tactic(auto, using(crate::proofs::TablePlaces::none_there, crate::proofs::TablePlaces::same_command))]
pub(crate) fn command_at(nodes: &[Option<Node>], at: usize) -> Option<&Simple>
    ensures { MatchOption result (node_there (map place_of nodes.now) at ≡ None) (λ c. command_in (node_there (map place_of nodes.now) at) ≡ Some c.now) }
{
    match node_in(nodes, at) {
        None => None,
        Some(node) => match item_in(node) {
            None => None,
            Some(item) => Some(command_of(item)),
        },
    }
}

/// Whether the shell doesn't wait for the command at a place.
#[tactic(auto, using(crate::proofs::TablePlaces::none_there, crate::proofs::TablePlaces::same_background))]
pub(crate) fn is_background_at(nodes: &[Option<Node>], at: usize) -> bool
    ensures { (n : PlainNode) → node_there (map place_of nodes.now) at ≡ Some n → n.background ≡ result }
{
    match node_in(nodes, at) {
        None => false,
        Some(node) => match item_in(node) {
            None => false,
            Some(item) => is_background(item),
        },
    }
}

/// The place where the shell goes on at a status.
#[tactic(auto, using(crate::proofs::TablePlaces::none_there, crate::proofs::TablePlaces::same_zero, crate::proofs::TablePlaces::same_other))]
pub(crate) fn place_after(nodes: &[Option<Node>], at: usize, status: u32) -> usize
    ensures { (n : PlainNode) → node_there (map place_of nodes.now) at ≡ Some n → place_after_node status n ≡ result }
{
    match node_in(nodes, at) {
        None => 0,
        Some(node) => {
            if status == 0 {
                node.at_zero
            } else {
                node.at_other
            }
        }
    }
}

/// How many words the command of a node has at most, that of its redirection too.
#[tactic(auto, using(crate::proofs::TablePlaces::none_place, crate::proofs::TablePlaces::few_words))]
fn count_of(node: &Option<Node>) -> Result<usize, OutOfMemory>
    ensures { IfOk result (λ m. (n : PlainNode) → place_of node.now ≡ Some n → length (all_words n.c) ≤ m) }
{
    match node {
        None => Ok(0),
        Some(node) => match item_in(node) {
            None => Ok(0),
            Some(item) => match command_of(item).words.as_slice().len().checked_add(1) {
                None => Err(OutOfMemory),
                Some(count) => Ok(count),
            },
        },
    }
}

/// The most words of a command of a table.
#[tactic(auto, using(crate::proofs::TablePlaces::rooms_none))]
pub(crate) fn most_words(nodes: &[Option<Node>]) -> Result<usize, OutOfMemory>
    ensures { IfOk result (HaveRoom (map place_of nodes.now)) }
{
    let mut most = 0;
    for node in nodes {
        let count = count_of(node)?;
        if most < count {
            most = count;
        }
    }
    Ok(most)
}
