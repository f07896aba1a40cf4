ghost use Rattle.std.specs.Prelude.{◌≡◌, map, IfOk};
ghost use Rattle.nx_shtree.specs.Trees.{At, Command as a_command, Background as a_background, If as an_if, IfElse as an_if_else, items as items_in_order, item_of};
ghost use Rattle.nx_shtree.specs.Steps.{loop_kind};

use crate::tree::{Item, ItemKind, Simple};
use nx_shared::Shared;
use sqlite_items::Items;
use std::alloc::{AllocError, Global};

/// A command that the shell waits for.
#[tactic(auto, using(crate::proofs::ItemForms::item_command))]
pub(crate) fn command(simple: Simple) -> Item
    ensures { item_of result ≡ At simple.line (a_command simple) }
{
    Item {
        line: simple.line,
        kind: ItemKind::Command(simple),
    }
}

/// A command that it doesn't wait for.
#[tactic(auto, using(crate::proofs::ItemForms::item_background))]
pub(crate) fn background(simple: Simple) -> Item
    ensures { item_of result ≡ At simple.line (a_background simple) }
{
    Item {
        line: simple.line,
        kind: ItemKind::Background(simple),
    }
}

#[tactic(auto, using(crate::proofs::ItemForms::item_if))]
pub(crate) fn if_item(
    alloc: Global,
    line: u32,
    condition: Simple,
    body: Items<Item>,
) -> Result<Item, AllocError>
    ensures { IfOk result (λ x. item_of x ≡ At line (an_if condition (items_in_order (map item_of body)))) }
{
    let body = Shared::new(alloc, body)?;
    Ok(Item {
        line,
        kind: ItemKind::If(condition, body),
    })
}

#[tactic(auto, using(crate::proofs::ItemForms::item_if_else))]
pub(crate) fn if_else_item(
    alloc: Global,
    line: u32,
    condition: Simple,
    body: Items<Item>,
    other: Items<Item>,
) -> Result<Item, AllocError>
    ensures { IfOk result (λ x. item_of x ≡ At line (an_if_else condition (items_in_order (map item_of body)) (items_in_order (map item_of other)))) }
{
    let body = Shared::new(alloc, body)?;
    let other = Shared::new(alloc, other)?;
    Ok(Item {
        line,
        kind: ItemKind::IfElse(condition, body, other),
    })
}

/// A `while`, or an `until`.
#[tactic(auto, using(crate::proofs::ItemForms::item_while, crate::proofs::ItemForms::item_until))]
pub(crate) fn loop_item(
    alloc: Global,
    line: u32,
    until: bool,
    condition: Simple,
    body: Items<Item>,
) -> Result<Item, AllocError>
    ensures { IfOk result (λ x. item_of x ≡ At line (loop_kind until condition (items_in_order (map item_of body)))) }
{
    let body = Shared::new(alloc, body)?;
    if until {
        return Ok(Item {
            line,
            kind: ItemKind::Until(condition, body),
        });
    }
    Ok(Item {
        line,
        kind: ItemKind::While(condition, body),
    })
}
