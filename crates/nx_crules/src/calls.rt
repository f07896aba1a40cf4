ghost use Rattle.std.specs.Prelude.{◌≡◌, map, IfOk};
ghost use Rattle.nx_crules.specs.Answers.{at, IsGiven};
ghost use Rattle.nx_crules.specs.Rules.{
  all_taken as all_taken_of,
  fits_params as fits_params_of,
  returned as returned_by,
  file_rule,
  is_number as is_number_type,
  is_pointer as is_pointer_type,
  is_text as is_text_type,
  is_written as is_written_type,
  is_number_written as is_number_written_type,
  kind_takes as kind_takes_type,
  all_kinds_take as all_kinds_take_of,
  fits_kinds as fits_kinds_of,
  starts_thread as starts_thread_by,
  fits_entry as fits_entry_of,
  fits_row as fits_row_of,
  row_rule,
  is_one_int as is_one_int_of,
  entry_function as entry_of_function,
};

use crate::taken::{mismatch, takes};
use crate::types::{CType, Function, Held, Typed};
use nx_base::{KCall, Kind};
use nx_calls::CallRow;
use nx_checked::{CheckedExpr, Element, Scalar};
use nx_ctok::{CFault, CKind};
use sqlite_items::Items;
use std::alloc::{AllocError, Global};

fn all_taken(params: &[Held], arguments: &[Typed]) -> bool
    ensures { result ≡ all_taken_of params.now arguments.now }
{
    params
        .iter()
        .zip(arguments)
        .all(|(param, argument)| takes(param.type_of(), argument.gives))
}

fn fits_params(params: &[Held], arguments: &[Typed]) -> bool
    ensures { result ≡ fits_params_of params.now arguments.now }
{
    if params.len() == arguments.len() {
        all_taken(params, arguments)
    } else {
        false
    }
}

fn returned(value: bool) -> CType
    ensures { result ≡ returned_by value }
{
    if value { CType::Int } else { CType::Void }
}

fn trees(alloc: Global, arguments: Vec<Typed>) -> Result<Items<CheckedExpr>, AllocError>
    ensures { IfOk result (λ ts. ts ≡ map (λ x. x.tree) arguments.items) }
{
    let mut trees = Items::new(alloc);
    for argument in arguments {
        let Typed { gives: _, tree } = argument;
        trees.push(tree)?;
    }
    Ok(trees)
}

/// A call of a function of the file.
pub fn call_function(
    alloc: Global,
    line: u32,
    function: &Function,
    arguments: Vec<Typed>,
) -> Result<Typed, CFault>
    ensures { IsGiven result (at line (file_rule function.now arguments.items)) }
{
    if fits_params(function.params.as_slice(), arguments.as_slice()) {
        let trees = trees(alloc, arguments)?;
        Ok(Typed {
            gives: returned(function.returns),
            tree: CheckedExpr::Call(function.place, trees),
        })
    } else {
        Err(mismatch(line))
    }
}

fn is_number(given: CType) -> bool
    ensures { result ≡ is_number_type given }
{
    matches!(given, CType::Int)
}

fn is_pointer(given: CType) -> bool
    ensures { result ≡ is_pointer_type given }
{
    matches!(given, CType::Pointer(_, _))
}

fn is_text(given: CType) -> bool
    ensures { result ≡ is_text_type given }
{
    match given {
        CType::Pointer(element, _) => matches!(element, Element::Char),
        _ => false,
    }
}

/// Whether a type is that of a pointer through which bytes are written.
fn is_written(given: CType) -> bool
    ensures { result ≡ is_written_type given }
{
    match given {
        CType::Pointer(_, constant) => !constant,
        _ => false,
    }
}

/// Whether a type is that of a pointer through which a number is written.
fn is_number_written(given: CType) -> bool
    ensures { result ≡ is_number_written_type given }
{
    match given {
        CType::Pointer(element, constant) => match element {
            Element::Int => !constant,
            Element::Char => false,
        },
        _ => false,
    }
}

fn kind_takes(kind: Kind, given: CType) -> bool
    ensures { result ≡ kind_takes_type kind given }
{
    match kind {
        Kind::Word | Kind::Len => is_number(given),
        Kind::In => is_pointer(given),
        Kind::Text => is_text(given),
        Kind::Out => is_written(given),
        Kind::Out4 | Kind::Out8 => is_number_written(given),
    }
}

fn all_kinds_take(kinds: &[Kind], arguments: &[Typed]) -> bool
    ensures { result ≡ all_kinds_take_of kinds.now arguments.now }
{
    kinds
        .iter()
        .zip(arguments)
        .all(|(kind, argument)| kind_takes(*kind, argument.gives))
}

fn fits_kinds(kinds: &[Kind], arguments: &[Typed]) -> bool
    ensures { result ≡ fits_kinds_of kinds.now arguments.now }
{
    if kinds.len() == arguments.len() {
        all_kinds_take(kinds, arguments)
    } else {
        false
    }
}

/// Whether a row is that of the call that starts a thread.
pub fn starts_thread(row: &CallRow) -> bool
    ensures { result ≡ starts_thread_by row.now.kernel }
{
    matches!(row.kernel, Some(KCall::NxThread))
}

fn fits_entry(arguments: &[Typed]) -> bool
    ensures { result ≡ fits_entry_of arguments.now }
{
    match arguments {
        [x, y] => match x.gives {
            CType::Entry => is_number(y.gives),
            _ => false,
        },
        _ => false,
    }
}

fn fits_row(row: &CallRow, arguments: &[Typed]) -> bool
    ensures { result ≡ fits_row_of row.now arguments.now }
{
    if starts_thread(row) {
        fits_entry(arguments)
    } else {
        fits_kinds(row.kinds.as_slice(), arguments)
    }
}

/// A call by the table, by its place among the calls that are used.
pub fn call_row(
    alloc: Global,
    line: u32,
    row: &CallRow,
    place: u32,
    arguments: Vec<Typed>,
) -> Result<Typed, CFault>
    ensures { IsGiven result (at line (row_rule row.now place arguments.items)) }
{
    if fits_row(row, arguments.as_slice()) {
        let trees = trees(alloc, arguments)?;
        Ok(Typed {
            gives: returned(row.returns),
            tree: CheckedExpr::Kernel(place, trees),
        })
    } else {
        Err(mismatch(line))
    }
}

fn is_one_int(params: &[Held]) -> bool
    ensures { result ≡ is_one_int_of params.now }
{
    match params {
        [param] => matches!(param.scalar, Scalar::Int),
        _ => false,
    }
}

/// The name of a function as the argument that a thread starts with: that of a function `int f(int)`.
pub fn entry_function(line: u32, function: &Function) -> Result<Typed, CFault>
    ensures { result ≡ at line (entry_of_function function.now) }
{
    if function.returns && is_one_int(function.params.as_slice()) {
        Ok(Typed {
            gives: CType::Entry,
            tree: CheckedExpr::Function(function.place),
        })
    } else {
        Err(CFault::Text {
            line,
            kind: CKind::TypeMismatch,
        })
    }
}
