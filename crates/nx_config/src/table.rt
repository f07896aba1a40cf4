ghost use Rattle.std.specs.Prelude.{◌≡◌, [], length, OnOk};
ghost use Rattle.std.specs.Map.{lookup, keys_of};
ghost use Rattle.std.specs.List.{list_any};
ghost use Rattle.std.specs.Option.{option_copied};
ghost use Rattle.std.specs.Str.{bytes_eq};
ghost use Rattle.indexmap.specs.IndexMap.{insert_entry};

use crate::value::{Assignment, Kept};
use indexmap::IndexMap;
use nx_base::Bytes;
use std::alloc::{AllocError, Global};
use std::marker::Model;

/// The names that were read, in order of their first lines, each with what its last line says.
#[derive(Drop)]
pub struct Table {
    entries: IndexMap<Vec<u8>, Kept>,
}

impl Model for Table {
    ghost use Rattle.std.specs.Prelude.{List, ℕ};
    ghost use Rattle.nx_config.specs.declared.value.Kept.{Kept};
    ghost use Rattle.nx_config.specs.Tables.{named};

    ghost Value = { List (List ℕ × Kept) };

    ghost view = { λ t. named t.entries.entries };
}

impl Table {
    /// No names.
    pub fn new(alloc: Global) -> Table
        ensures { result ≡ [] }
    {
        Table {
            entries: IndexMap::new(alloc),
        }
    }

    /// How many names there are.
    pub fn len(&self) -> usize
        ensures { result ≡ length self.now }
    {
        self.entries.len()
    }

    /// What the last line of a name says.
    #[tactic(auto, using(crate::proofs::Entries::lookup_named))]
    pub fn find(&self, name: &[u8]) -> Option<&Kept>
        ensures { option_copied result ≡ lookup (bytes_eq name.now) self.now }
    {
        self.entries.get(name)
    }

    /// Whether there is a name.
    #[tactic(auto, using(crate::proofs::Entries::has_named))]
    pub fn has(&self, name: &[u8]) -> bool
        ensures { result ≡ list_any (bytes_eq name.now) (keys_of self.now) }
    {
        self.entries.contains_key(name)
    }

    /// Puts what a line says of a name in the place of what was said of it before.
    #[tactic(auto, using(crate::proofs::Entries::insert_named))]
    pub fn put(&mut self, name: Bytes, kept: Kept) -> Result<(), AllocError>
        ensures { OnOk result (self.new ≡ insert_entry bytes_eq self.old name kept) }
    {
        self.entries.insert(name.into_vec(), kept)?;
        Ok(())
    }
}
