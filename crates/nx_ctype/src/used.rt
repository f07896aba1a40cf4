ghost use Rattle.std.specs.Prelude.{◌≡◌, ◌==◌, position, IfOk};
ghost use Rattle.std.specs.Str.{bytes_eq};
ghost use Rattle.nx_ctype.specs.Lookups.{enter as entered};

use nx_base::Bytes;
use nx_calls::CallRow;
use sqlite_items::Items;
use std::alloc::AllocError;

/// What the part of a file that was checked so far uses.
#[derive(Drop)]
pub struct Used {
    /// Its texts, each with its zero byte, in their order.
    pub texts: Items<Bytes>,
    /// The calls of the table that it names, by their places in the table, in the order of their
    /// first use.
    pub calls: Items<usize>,
}

fn place_among(calls: &[usize], row: usize) -> Option<usize>
    ensures { result ≡ position (λ c. c == row) calls.now }
{
    calls.iter().position(|c| *c == row)
}

/// The place of a call among those that are used. It is added where it isn't there yet.
pub fn enter(calls: &mut Items<usize>, row: usize) -> Result<u32, AllocError>
    ensures { IfOk result (λ k. entered row calls.old ≡ (k, calls.new)) }
{
    match place_among(calls.as_slice(), row) {
        Some(place) => match u32::try_from(place) {
            Ok(place) => Ok(place),
            Err(_) => Err(AllocError),
        },
        None => match u32::try_from(calls.len()) {
            Ok(place) => {
                calls.push(row)?;
                Ok(place)
            }
            Err(_) => Err(AllocError),
        },
    }
}

/// The place of a name in the call table.
pub fn place_in(rows: &[CallRow], name: &[u8]) -> Option<usize>
    ensures { result ≡ position (λ row. bytes_eq name.now row.name) rows.now }
{
    rows.iter().position(|row| name == row.name.as_slice())
}
