ghost use Rattle.std.specs.Prelude.{◌≡◌, [], OnOk, IsTrue, ◌↔◌, IsSome};
ghost use Rattle.std.specs.Map.{lookup};
ghost use Rattle.std.specs.Option.{option_copied};
ghost use Rattle.std.specs.Str.{bytes_eq};
ghost use Rattle.indexmap.specs.IndexMap.{insert_entry};

use indexmap::IndexMap;
use nx_checked::{ArrayName, Cell, Shape};
use nx_crules::{Function, Held};
use std::alloc::{AllocError, Global};
use std::marker::Model;

/// A variable.
#[derive(Clone, Copy, Debug)]
pub enum Variable {
    Scalar(Cell, Held),
    Array(ArrayName, Shape),
}

/// Functions by their names.
#[derive(Drop)]
pub struct Functions {
    entries: IndexMap<Vec<u8>, Function>,
}

impl Model for Functions {
    ghost use Rattle.std.specs.Prelude.{List, ℕ};
    ghost use Rattle.nx_crules.specs.declared.types.Function.{Function as Known};
    ghost use Rattle.nx_ctype.specs.Named.{named};

    ghost Value = { List (List ℕ × Known) };

    ghost view = { λ t. named t.entries.entries };
}

impl Functions {
    /// No functions.
    pub fn new(alloc: Global) -> Functions
        ensures { result ≡ [] }
    {
        Functions {
            entries: IndexMap::new(alloc),
        }
    }

    /// The function of a name.
    #[tactic(auto, using(crate::proofs::Tables::lookup_named))]
    pub fn get(&self, name: &[u8]) -> Option<&Function>
        ensures { option_copied result ≡ lookup (bytes_eq name.now) self.now }
    {
        self.entries.get(name)
    }

    /// Gives a name a function, in the place of what it had.
    #[tactic(auto, using(crate::proofs::Tables::insert_named))]
    pub fn put(&mut self, name: Vec<u8>, function: Function) -> Result<(), AllocError>
        ensures { OnOk result (self.new ≡ insert_entry bytes_eq self.old name.items function) }
    {
        self.entries.insert(name, function)?;
        Ok(())
    }
}

/// Variables by their names.
#[derive(Drop)]
pub struct Variables {
    entries: IndexMap<Vec<u8>, Variable>,
}

impl Model for Variables {
    ghost use Rattle.std.specs.Prelude.{List, ℕ};
    ghost use Rattle.nx_ctype.specs.declared.names.Variable.{Variable as Known};
    ghost use Rattle.nx_ctype.specs.Named.{named};

    ghost Value = { List (List ℕ × Known) };

    ghost view = { λ t. named t.entries.entries };
}

impl Variables {
    /// No variables.
    pub fn new(alloc: Global) -> Variables
        ensures { result ≡ [] }
    {
        Variables {
            entries: IndexMap::new(alloc),
        }
    }

    /// The variable of a name.
    #[tactic(auto, using(crate::proofs::Tables::lookup_named))]
    pub fn get(&self, name: &[u8]) -> Option<Variable>
        ensures { result ≡ lookup (bytes_eq name.now) self.now }
    {
        self.entries.get(name).copied()
    }

    /// Gives a name a variable, in the place of what it had.
    #[tactic(auto, using(crate::proofs::Tables::insert_named))]
    pub fn put(&mut self, name: Vec<u8>, variable: Variable) -> Result<(), AllocError>
        ensures { OnOk result (self.new ≡ insert_entry bytes_eq self.old name.items variable) }
    {
        self.entries.insert(name, variable)?;
        Ok(())
    }
}

/// What names stand for at a place of a file.
#[derive(Drop)]
pub struct Names {
    /// The functions that the whole file defines.
    pub functions: Functions,
    /// The variables of the file so far.
    pub globals: Variables,
    /// The parameters and locals of the function so far.
    pub locals: Variables,
}
