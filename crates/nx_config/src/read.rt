ghost use Rattle.std.specs.Prelude.{◌≡◌, ◌≤◌, ◌||◌, nat_lt, length, Ok, Some};
ghost use Rattle.std.specs.List.{list_any};
ghost use Rattle.std.specs.Map.{keys_of};
ghost use Rattle.std.specs.Str.{bytes_eq};
ghost use Rattle.nx_config.specs.Line.{says};
ghost use Rattle.nx_config.specs.Reading.{IsLineTaken, AreLinesTaken, stopped};

use crate::fault::{ConfigFault, ConfigKind, Stop};
use crate::line::read_line;
use crate::table::Table;
use crate::value::{Assignment, Kept};
use nx_base::{Bytes, cut};
use std::alloc::Global;

/// How many distinct names there may be.
pub const NAMES: usize = 8192;

/// Whether a name is in the table, or one more fits.
#[tactic(auto, using(crate::proofs::Entries::length_keys))]
fn fits(table: &Table, name: &Bytes) -> bool
    ensures { result ≡ (list_any (bytes_eq name.now) (keys_of table.now) || nat_lt (length (keys_of table.now)) 8192) }
{
    table.has(name.as_slice()) || table.len() < NAMES
}

/// IsLineTaken what a line says of a name.
fn keep(table: &mut Table, line: u32, assignment: Assignment) -> Result<(), Stop>
    ensures { IsLineTaken result line (Ok (Some assignment)) table.old table.new }
{
    if !fits(table, &assignment.name) {
        return Err(Stop::Fault(ConfigKind::Limit));
    }
    let Assignment { name, value } = assignment;
    match table.put(name, Kept { line, value }) {
        Ok(()) => Ok(()),
        Err(_) => Err(Stop::Memory),
    }
}

/// AreLinesTaken one line.
fn take_line(alloc: Global, table: &mut Table, line: u32, text: &[u8]) -> Result<(), Stop>
    ensures { IsLineTaken result line (says text.now) table.old table.new }
{
    match read_line(alloc, text) {
        Ok(Some(assignment)) => keep(table, line, assignment),
        Ok(None) => Ok(()),
        Err(stop) => Err(stop),
    }
}

fn fault(line: u32, stop: Stop) -> ConfigFault
    ensures { result ≡ stopped line stop }
{
    match stop {
        Stop::Memory => ConfigFault::Memory,
        Stop::Fault(kind) => ConfigFault::Text { line, kind },
    }
}

/// The names that the lines of a text give, each with what its last line says.
pub fn read_lines(alloc: Global, bytes: &[u8]) -> Result<Table, ConfigFault>
    requires { length bytes.now ≤ 1048576 }
    ensures { AreLinesTaken result bytes.now }
{
    let mut table = Table::new(alloc);
    let mut rest = bytes;
    let mut line: u32 = 1;
    while !rest.is_empty() {
        let (text, others) = cut(rest, b'\n');
        match take_line(alloc, &mut table, line, text) {
            Ok(()) => {}
            Err(stop) => return Err(fault(line, stop)),
        }
        rest = others;
        line += 1;
    }
    Ok(table)
}
