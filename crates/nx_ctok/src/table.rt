ghost use Rattle.std.specs.Prelude.{◌≡◌, [], OnOk};
ghost use Rattle.std.specs.Map.{lookup};
ghost use Rattle.std.specs.Option.{option_copied};
ghost use Rattle.std.specs.Str.{bytes_eq};
ghost use Rattle.indexmap.specs.IndexMap.{insert_entry};
ghost use Rattle.nx_ctok.specs.Tokens.{predefined as predefined_value, at_first};
ghost use Rattle.nx_ctok.specs.Predefined.{predefined_of};
ghost use Rattle.nx_ctok.specs.Views.{values_in};

use crate::predefined::Predefined;
use crate::token::{Spelling, TokenKind};
use crate::value::Value;
use indexmap::IndexMap;
use std::alloc::{AllocError, Global};
use std::marker::Model;

/// The names that a text defines, each with the value that its last definition gives it.
#[derive(Drop)]
pub(crate) struct Table<'a> {
    entries: IndexMap<Vec<u8>, Value<'a>>,
}

impl<'a> Model for Table<'a> {
    ghost use Rattle.std.specs.Prelude.{List, ℕ};
    ghost use Rattle.nx_ctok.specs.declared.value.Value.{Value as Meant};
    ghost use Rattle.nx_ctok.specs.Views.{named};

    ghost Value = { List (List ℕ × Meant) };

    ghost view = { λ t. named t.entries.entries };
}

impl<'a> Table<'a> {
    /// No names.
    pub(crate) fn new(alloc: Global) -> Table<'a>
        ensures { result ≡ [] }
    {
        Table {
            entries: IndexMap::new(alloc),
        }
    }

    /// The value that the text gives a name.
    #[tactic(auto, using(crate::proofs::Definitions::lookup_named))]
    fn find(&self, name: &[u8]) -> Option<&Value<'a>>
        ensures { option_copied result ≡ lookup (bytes_eq name.now) self.now }
    {
        self.entries.get(name)
    }

    /// Gives a name a value, in the place of what it had.
    #[tactic(auto, using(crate::proofs::Definitions::insert_named))]
    pub(crate) fn put(&mut self, name: Vec<u8>, value: Value<'a>) -> Result<(), AllocError>
        ensures { OnOk result (self.new ≡ insert_entry bytes_eq self.old name.items value.entry) }
    {
        self.entries.insert(name, value)?;
        Ok(())
    }

    /// The value of a name: the text's own, or a predefined one.
    #[tactic(auto, unfolding(crate::specs::Views::values_in))]
    pub(crate) fn value(&self, name: &[u8]) -> Option<Value<'a>>
        ensures { result ≡ values_in self.now name.now }
    {
        match self.find(name) {
            Some(value) => Some(copied(value)),
            None => predefined_value(name),
        }
    }
}

/// The value again: it lies in the text.
fn copied<'a>(value: &Value<'a>) -> Value<'a>
    ensures { result ≡ value.now }
{
    Value {
        minus: value.minus,
        kind: value.kind,
        text: Spelling::new(value.text.bytes()),
    }
}

#[tactic(auto, unfolding(crate::specs::Tokens::at_first))]
fn predefined_value<'a>(name: &[u8]) -> Option<Value<'a>>
    ensures { result ≡ at_first name.now }
{
    match Predefined::named(name) {
        Some(predefined) => Some(Value {
            minus: false,
            kind: TokenKind::Number,
            text: Spelling::new(predefined.number()),
        }),
        None => None,
    }
}
