ghost use Rattle.std.specs.Prelude.{◌≡◌, map};
ghost use Rattle.nx_shtree.specs.Trees.{item_of};

use crate::tree::Item;
use nx_shared::Shared;
use sqlite_items::Items;
use std::marker::Model;

/// A script. Contracts see its items as plain data, without the pointers between them.
#[derive(Debug, Drop)]
pub struct Script {
    items: Shared<Items<Item>>,
}

impl Model for Script {
    ghost use Rattle.std.specs.Prelude.{List, map};
    ghost use Rattle.nx_shtree.specs.Trees.{Item as PlainItem, item_of};
    ghost use Rattle.nx_shtree.specs.Stored.{script_code};

    ghost Value = { List PlainItem };

    ghost coded = { script_code };

    ghost view = { λ s. map item_of s.items };
}

impl Script {
    /// These items.
    pub(crate) fn new(items: Shared<Items<Item>>) -> Script
        ensures { result ≡ map item_of items }
    {
        Script { items }
    }

    /// What stands in it, in order.
    pub fn items(&self) -> &Shared<Items<Item>>
        ensures { map item_of result.now ≡ self.now }
    {
        &self.items
    }
}
