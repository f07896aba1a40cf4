ghost use Rattle.std.specs.Prelude.{◌≡◌, ◌≤◌, ◌+◌, IfOk, length, map};
ghost use Rattle.csv.specs.Reading.{AreRecords, default_config, strip_bom};
ghost use Rattle.csv.specs.Records.{fields_of};
ghost use Rattle.csv.specs.declared.parser.State.TheVariants as st;
ghost use Rattle.nx_base.specs.TextBytes.{is_line_blank, trimmed_of};

use csv::{ByteRecord, Error, ReaderBuilder};
use nx_base::trimmed;
use std::alloc::{AllocError, Global};

fn byte_records(alloc: Global, text: &[u8]) -> Result<Vec<ByteRecord>, Error>
    ensures { IfOk result (λ v. AreRecords default_config st.StartRecord (strip_bom text.now) (map fields_of v.items)) }
{
    let rdr = ReaderBuilder::new()
        .has_headers(false)
        .flexible(true)
        .from_reader(alloc, text);
    let mut rows = Vec::new(alloc);
    for row in rdr.into_byte_records() {
        if rows.push(row?).is_err() {
            return Err(Error::out_of_memory());
        }
    }
    Ok(rows)
}

/// Every record of a text, of any lengths. A slice has no failing reads and any length is good, so
/// each error stands for out of memory.
pub(crate) fn records(alloc: Global, text: &[u8]) -> Result<Vec<ByteRecord>, AllocError>
    ensures are { IfOk result (λ v. AreRecords default_config st.StartRecord (strip_bom text.now) (map fields_of v.items)) }
    ensures few { IfOk result (λ v. length v.items ≤ length text.now + 1) }
{
    match byte_records(alloc, text) {
        Ok(records) => Ok(records),
        Err(_) => Err(AllocError),
    }
}

/// The fields of a record, each without the blanks at its ends.
pub(crate) fn cells(alloc: Global, row: &ByteRecord) -> Result<Vec<&[u8]>, AllocError>
    ensures { IfOk result (λ v. map (λ f. f.now) v.items ≡ map (trimmed_of is_line_blank) (fields_of row.now)) }
{
    let mut cells = Vec::new(alloc);
    let mut at = 0;
    while let Some(field) = row.get(at) {
        cells.push(trimmed(field))?;
        at += 1;
    }
    Ok(cells)
}
