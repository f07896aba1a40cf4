ghost use Rattle.std.specs.Prelude.{◌≡◌, ◌+◌, ◌<◌, ◌≤◌, ◌^◌, [], length, map, IfOk};
ghost use Rattle.csv.specs.Records.{fields_of};
ghost use Rattle.nx_calls.specs.Answers.{TakesRecord, fault_of};
ghost use Rattle.nx_calls.specs.Table.{AreRows, IsRead, IsReadOf};

use crate::fault::{CallsFault, RowStop};
use crate::judge::judge;
use crate::records::{cells, records};
use crate::row::CallRow;
use csv::ByteRecord;
use nx_conditions::Meanings;
use std::alloc::Global;
use std::marker::Model;

/// The rows of a call table whose condition is true, in their order.
#[derive(Debug, Drop)]
pub struct Calls {
    rows: Vec<CallRow>,
}

impl Model for Calls {
    ghost use Rattle.std.specs.Prelude.{List};
    ghost use Rattle.nx_calls.specs.declared.row.CallRow.{CallRow};

    ghost Value = { List CallRow };

    ghost view = { λ c. c.rows.items };

    ghost use Rattle.nx_calls.specs.Table.{AreRows};

    ghost invariant = { λ c. AreRows c.rows.items };
}

impl Calls {
    /// The rows, numbered one by one from 16 on.
    pub fn rows(&self) -> &[CallRow]
        ensures value { result.now ≡ self.now }
        ensures hold { AreRows result.now }
    {
        self.rows.as_slice()
    }
}

/// Takes one record after these rows.
fn take_record<M: Meanings>(
    alloc: Global,
    rows: &mut Vec<CallRow>,
    row: &ByteRecord,
    meanings: &M,
) -> Result<(), RowStop>
    ensures { TakesRecord (M.meaning meanings.now) (fields_of row.now) rows.old.items rows.new.items result }
{
    let Ok(fields) = cells(alloc, row) else {
        return Err(RowStop::Memory);
    };
    match judge(alloc, rows, &fields, meanings) {
        Err(stop) => Err(stop),
        Ok(None) => Ok(()),
        Ok(Some(row)) => match rows.push(row) {
            Ok(()) => Ok(()),
            Err(_) => Err(RowStop::Memory),
        },
    }
}

fn fault(row: u32, stop: RowStop) -> CallsFault
    ensures { result ≡ fault_of row stop }
{
    match stop {
        RowStop::Memory => CallsFault::Memory,
        RowStop::Fault(kind) => CallsFault::Text { row, kind },
    }
}

fn read_records<M: Meanings>(
    alloc: Global,
    records: &[ByteRecord],
    meanings: &M,
) -> Result<Calls, CallsFault>
    requires { length records.now < 2 ^ 32 }
    ensures { IsReadOf (M.meaning meanings.now) (map fields_of records.now) result }
{
    let mut rows = Vec::new(alloc);
    let mut number: u32 = 0;
    for record in records {
        number += 1;
        match take_record(alloc, &mut rows, record, meanings) {
            Ok(()) => {}
            Err(stop) => return Err(fault(number, stop)),
        }
    }
    Ok(Calls { rows })
}

/// Reads a call table under these meanings of names.
pub(crate) fn read_table<M: Meanings>(
    alloc: Global,
    bytes: &[u8],
    meanings: &M,
) -> Result<Calls, CallsFault>
    requires { length bytes.now ≤ 1048576 }
    ensures { IsRead (M.meaning meanings.now) bytes.now result }
{
    let Ok(records) = records(alloc, bytes) else {
        return Err(CallsFault::Memory);
    };
    read_records(alloc, &records, meanings)
}
