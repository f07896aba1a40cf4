ghost use Rattle.std.specs.Prelude.{◌≡◌, ◌≢◌, ◌≤◌, ◌⊎◌, length, None, Some, Err, IsOk};
ghost use Rattle.std.specs.Option.{option_copied};
ghost use Rattle.nx_config.specs.Builds.{build_by};
ghost use Rattle.nx_config.specs.Configuration.{Configures, first_fault, value_kept};
ghost use Rattle.nx_config.specs.Limits.{AreInRange};
ghost use Rattle.nx_config.specs.Tables.{value_in};

use crate::builds::build_in;
use crate::fault::{ConfigFault, ConfigKind};
use crate::limits::{Limits, limits_in};
use crate::read::read_lines;
use crate::table::Table;
use crate::value::Value;
use nx_base::Build;
use std::alloc::Global;
use std::marker::Model;

/// The configuration that a text gives.
#[derive(Drop)]
pub struct Config {
    table: Table,
    limits: Limits,
}

impl Model for Config {
    ghost use Rattle.nx_config.specs.Configuration.{Configuration};

    ghost Value = { Configuration };

    ghost view = { λ c. record { values = c.table; limits = c.limits } };

    ghost use Rattle.nx_config.specs.Limits.{AreInRange};

    ghost invariant = { λ c. AreInRange c.limits };
}

impl Config {
    /// The value that the last line of a name gives it, if it gives one.
    pub fn value(&self, name: &str) -> Option<&Value>
        ensures { option_copied result ≡ value_kept (value_in self.now.values name.now) }
    {
        self.value_of(name.as_bytes())
    }

    /// The same for a name in bytes.
    pub fn value_of(&self, name: &[u8]) -> Option<&Value>
        ensures { option_copied result ≡ value_kept (value_in self.now.values name.now) }
    {
        match self.table.find(name) {
            Some(kept) => kept.value.as_ref(),
            None => None,
        }
    }

    /// The build that is chosen by the only name of value `y` among `CONFIG_BUILD_FLAT`,
    /// `CONFIG_BUILD_PROTECTED` and `CONFIG_BUILD_KERNEL`.
    pub fn build(&self) -> Result<Build, ConfigFault>
        ensures value { result ≡ build_by (value_in self.now.values) }
        ensures memory { result ≢ Err ConfigFault.Memory }
    {
        build_in(&self.table)
    }

    /// The limits, each by its name's value or by default.
    pub fn limits(&self) -> Limits
        ensures value { result ≡ self.now.limits }
        ensures in_range { AreInRange result }
    {
        self.limits
    }
}

fn configured(alloc: Global, bytes: &[u8]) -> Result<Config, ConfigFault>
    requires { length bytes.now ≤ 1048576 }
    ensures { Configures result bytes.now }
{
    let table = match read_lines(alloc, bytes) {
        Ok(table) => table,
        Err(fault) => return Err(fault),
    };
    match limits_in(&table) {
        Ok(limits) => Ok(Config { table, limits }),
        Err(line) => Err(ConfigFault::Text {
            line,
            kind: ConfigKind::OutOfRange,
        }),
    }
}

/// Reads a configuration: a line for each name and its value. The last line for a name counts.
pub fn read_config(alloc: Global, bytes: &[u8]) -> Result<Config, ConfigFault>
    requires { length bytes.now ≤ 1048576 }
    ensures read { Configures result bytes.now }
    ensures accepted { first_fault bytes.now ≡ None → IsOk result ⊎ (result ≡ Err ConfigFault.Memory) }
    ensures refused { (f : ConfigFault) → first_fault bytes.now ≡ Some f → (result ≡ Err f) ⊎ (result ≡ Err ConfigFault.Memory) }
{
    configured(alloc, bytes)
}
