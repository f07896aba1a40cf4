ghost use Rattle.std.specs.Prelude.{◌≡◌, ◌≤◌, length, List, Result};
ghost use Rattle.std.specs.Option.{option_copied};
ghost use Rattle.nx_calls.specs.Meanings.{meaning_of as meaning_of_value, meaning_in};
ghost use Rattle.nx_calls.specs.declared.row.CallRow.{CallRow};
ghost use Rattle.nx_calls.specs.declared.fault.CallsFault.{CallsFault};
ghost use Rattle.nx_calls.specs.Table.{IsRead, IsTable, IsGiven};

use crate::calls::{Calls, read_table};
use crate::fault::CallsFault;
use nx_conditions::{Meaning, Meanings};
use nx_config::{Config, Value};
use std::alloc::Global;

fn meaning_of(value: Option<&Value>) -> Option<Meaning>
    ensures { result ≡ meaning_of_value (option_copied value.entry) }
{
    match value {
        None => None,
        Some(Value::Yes) => Some(Meaning::Yes),
        Some(Value::Number(n)) => Some(Meaning::Number(*n)),
        Some(Value::Text(_)) => Some(Meaning::Other),
    }
}

/// The names of a configuration, as conditions see them.
#[derive(Drop)]
struct Names<'a> {
    config: &'a Config,
}

impl Meanings for Names<'_> {
    ghost meaning = { λ names name. meaning_in names.config.now name };

    fn meaning(&self, name: &[u8]) -> Option<Meaning> {
        meaning_of(self.config.value_of(name))
    }
}

/// Reads a call table: a row for each call, in the form of `syscall.csv`. The rows whose condition
/// is true under the configuration are numbered from 16 on. The first row with a fault is named by
/// its record, from 1.
pub fn read_calls(alloc: Global, bytes: &[u8], config: &Config) -> Result<Calls, CallsFault>
    requires { length bytes.now ≤ 1048576 }
    // What is given is what the text gives: its rows, or its first fault.
    ensures read { IsRead (meaning_in config.now) bytes.now result }
    // The text gives nothing else.
    ensures only { (r : Result (List CallRow) CallsFault) → IsTable (meaning_in config.now) bytes.now r → IsGiven result r }
{
    read_table(alloc, bytes, &Names { config })
}
