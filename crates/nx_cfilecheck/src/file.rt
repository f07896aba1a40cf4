ghost use Rattle.std.specs.Prelude.{◌≡◌, ◌++◌, ◌⊎◌, IfOk, OnOk, Ok, Err, slice_get, option_map};
ghost use Rattle.nx_checked.specs.declared.checked.Checked.{Checked as Program};
ghost use Rattle.nx_crules.specs.Answers.{IsGiven};
ghost use Rattle.nx_cdeclcheck.specs.Done.{IsDone};
ghost use Rattle.nx_ccheck.specs.Files.{
  call_of as call_by,
  call_at,
  calls_of as calls_by,
  rest_verdict,
  externals_verdict,
  beginning as known_before,
  main_of,
  program_of,
  file_verdict,
};
ghost use Rattle.nx_ccheck.specs.TypedFiles.{IsFile};
ghost use Rattle.nx_cfilecheck.specs.Defining.{program_at};

use crate::functions::{add_definition, check_prototype};
use crate::globals::{add_array, add_scalar, element_of, scalar_of};
use crate::heads::{known_functions, listed};
use nx_base::Bytes;
use nx_calls::CallRow;
use nx_ccheck::Known;
use nx_cdeclcheck::constant_of;
use nx_checked::{Checked, UsedCall};
use nx_ctok::{CFault, CKind};
use nx_ctree::{External, Rest, Unit};
use nx_ctype::{Names, Used, Variables};
use sqlite_items::{Items, at};
use std::alloc::{AllocError, Global};

/// Adds what a declaration or definition at file level gives, with its rest.
fn add_external(
    alloc: Global,
    rows: &[CallRow],
    known: &mut Known,
    x: &External,
) -> Result<(), CFault>
    ensures { IsDone result known.new (rest_verdict rows.now known.old x.now x.now.rest) }
{
    match &x.rest {
        Rest::Plain => add_scalar(alloc, known, x, scalar_of(x.result), 0),
        Rest::Valued(value) => {
            let value = constant_of(&value.kind);
            add_scalar(alloc, known, x, scalar_of(x.result), value)
        }
        Rest::Array(length, initialiser) => {
            let element = element_of(x.result);
            add_array(alloc, known, x, element, length, initialiser)
        }
        Rest::Prototype(params) => check_prototype(alloc, known, x, listed(params)),
        Rest::Function(params, body) => {
            add_definition(alloc, rows, known, x, listed(params), body)
        }
    }
}

fn add_externals(
    alloc: Global,
    rows: &[CallRow],
    known: &mut Known,
    externals: &[External],
) -> Result<(), CFault>
    ensures { IsDone result known.new (externals_verdict rows.now known.old externals.now) }
{
    for x in externals {
        add_external(alloc, rows, known, x)?;
    }
    Ok(())
}

/// A call of the table that is used.
fn call_of(alloc: Global, row: &CallRow) -> Result<UsedCall, AllocError>
    ensures { IfOk result (λ c. c ≡ call_by row.now) }
{
    Ok(UsedCall {
        name: Bytes::from_slice(alloc, row.name.as_slice())?,
        number: row.number,
        kinds: Items::from_slice(alloc, row.kinds.as_slice())?,
        returns: row.returns,
    })
}

fn push_call(
    alloc: Global,
    rows: &[CallRow],
    calls: &mut Items<UsedCall>,
    place: usize,
) -> Result<(), AllocError>
    ensures { OnOk result (calls.new ≡ calls.old ++ call_at (slice_get rows.now place)) }
{
    match at(rows, place) {
        None => Ok(()),
        Some(row) => {
            let call = call_of(alloc, row)?;
            calls.push(call)
        }
    }
}

/// The calls of the table that are used.
fn calls_of(
    alloc: Global,
    rows: &[CallRow],
    places: &[usize],
) -> Result<Items<UsedCall>, AllocError>
    ensures { IfOk result (λ calls. calls ≡ calls_by rows.now places.now) }
{
    let mut calls = Items::new(alloc);
    for place in places {
        push_call(alloc, rows, &mut calls, *place)?;
    }
    Ok(calls)
}

fn main_place(known: &Known) -> Option<u32>
    ensures { result ≡ option_map (λ f. f.place) (main_of known.now) }
{
    match known.names.functions.get(b"main".as_slice()) {
        Some(function) => Some(function.place),
        None => None,
    }
}

/// The program of a file with a main function at a place.
fn make_program(alloc: Global, rows: &[CallRow], known: Known, main: u32) -> Result<Checked, CFault>
    ensures { IsGiven result (Ok (program_at rows.now known main)) }
{
    let used = known.used;
    let calls = calls_of(alloc, rows, used.calls.as_slice())?;
    Ok(Checked {
        functions: known.functions,
        main,
        scalars: known.scalars,
        arrays: known.arrays,
        literals: used.texts,
        calls,
    })
}

fn no_main() -> CFault
    ensures { result ≡ CFault.Text 0 CKind.NoMain }
{
    CFault::Text {
        line: 0,
        kind: CKind::NoMain,
    }
}

/// The program of a file whose declarations and definitions are all checked.
fn finish(alloc: Global, rows: &[CallRow], known: Known) -> Result<Checked, CFault>
    ensures { IsGiven result (program_of rows.now known (main_of known)) }
{
    match main_place(&known) {
        None => Err(no_main()),
        Some(main) => make_program(alloc, rows, known, main),
    }
}

/// At a file's beginning only its functions are known.
fn beginning(alloc: Global, externals: &[External]) -> Result<Known, AllocError>
    ensures { IfOk result (λ k. k ≡ known_before externals.now) }
{
    let functions = known_functions(alloc, externals)?;
    Ok(Known {
        names: Names {
            functions,
            globals: Variables::new(alloc),
            locals: Variables::new(alloc),
        },
        defined: Items::new(alloc),
        scalars: Items::new(alloc),
        arrays: Items::new(alloc),
        bytes: 0,
        functions: Items::new(alloc),
        used: Used {
            texts: Items::new(alloc),
            calls: Items::new(alloc),
        },
    })
}

fn check_file(alloc: Global, rows: &[CallRow], unit: &Unit) -> Result<Checked, CFault>
    ensures { IsGiven result (file_verdict rows.now unit.now) }
{
    let externals = unit.externals.as_slice();
    let mut known = beginning(alloc, externals)?;
    add_externals(alloc, rows, &mut known, externals)?;
    finish(alloc, rows, known)
}

/// What a file does by a call table, or its first fault: declarations and definitions in their
/// order, and last whether there is a main function. The parts of each are checked from left to
/// right.
pub fn check(alloc: Global, rows: &[CallRow], unit: &Unit) -> Result<Checked, CFault>
    ensures given { IsGiven result (file_verdict rows.now unit.now) }
    ensures typed { IfOk result (λ p. IsFile rows.now unit.now p) }
    ensures all { (p : Program) → IsFile rows.now unit.now p → (result ≡ Ok p) ⊎ (result ≡ Err CFault.Memory) }
{
    check_file(alloc, rows, unit)
}
