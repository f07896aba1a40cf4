ghost use Rattle.std.specs.Prelude.{◌≡◌};
ghost use Rattle.std.specs.Option.{option_copied};
ghost use Rattle.nx_ctyping.specs.Checks.{IsGivenUsing};
ghost use Rattle.nx_ctyping.specs.Verdicts.{
  row_at,
  starts as starts_of,
  table_called as table_called_by,
  called as called_by,
};

use nx_calls::CallRow;
use nx_crules::{Function, Typed, call_function, call_row, starts_thread};
use nx_ctok::{CFault, CKind};
use nx_ctype::{Used, enter};
use std::alloc::Global;

/// Whether a call is one by the table that starts a thread.
pub fn starts(rows: &[CallRow], function: Option<&Function>, place: Option<usize>) -> bool
    ensures { result ≡ starts_of (option_copied function.entry) (row_at rows.now place) }
{
    if function.is_some() {
        return false;
    }
    match place {
        Some(place) => match rows.get(place) {
            Some(row) => starts_thread(row),
            None => false,
        },
        None => false,
    }
}

/// A call by a place in the table, once its arguments are checked.
fn table_called(
    alloc: Global,
    line: u32,
    rows: &[CallRow],
    used: &mut Used,
    place: Option<usize>,
    arguments: Vec<Typed>,
) -> Result<Typed, CFault>
    ensures { IsGivenUsing result used.new (table_called_by rows.now place line arguments.items used.old) }
{
    match place {
        Some(place) => match rows.get(place) {
            Some(row) => {
                let place = enter(&mut used.calls, place)?;
                call_row(alloc, line, row, place, arguments)
            }
            None => Err(CFault::Text {
                line,
                kind: CKind::UnknownName,
            }),
        },
        None => Err(CFault::Text {
            line,
            kind: CKind::UnknownName,
        }),
    }
}

/// A call, once its arguments are checked.
#[tactic(auto, using(crate::proofs::Given::leaf_given))]
pub fn called(
    alloc: Global,
    line: u32,
    rows: &[CallRow],
    used: &mut Used,
    function: Option<&Function>,
    place: Option<usize>,
    arguments: Vec<Typed>,
) -> Result<Typed, CFault>
    ensures { IsGivenUsing result used.new (called_by rows.now (option_copied function.entry) place line arguments.items used.old) }
{
    match function {
        Some(function) => call_function(alloc, line, function, arguments),
        None => table_called(alloc, line, rows, used, place, arguments),
    }
}
