ghost use Rattle.std.specs.Prelude.{◌≡◌, ◌||◌, not, IfOk};
ghost use Rattle.std.specs.List.{list_all, zip};
ghost use Rattle.std.specs.Map.{lookup};
ghost use Rattle.std.specs.Str.{bytes_eq};
ghost use Rattle.std.specs.Option.{option_copied};
ghost use Rattle.nx_cbody.specs.Declarations.{is_long as is_long_name};
ghost use Rattle.nx_cdeclcheck.specs.Done.{IsDone};
ghost use Rattle.nx_ccheck.specs.Files.{
  is_char as is_char_word,
  same_bool as same_of_bools,
  same_element as same_of_elements,
  same_scalar as same_of_scalars,
  same_held as same_of_helds,
  same_heads as same_of_heads,
  agrees as agrees_with,
  is_main as is_main_name,
  main_fits as fits_main,
  has_all_functions as has_512,
  prototype_verdict,
  definition_verdict,
};
ghost use Rattle.nx_cfilecheck.specs.Defining.{defining, trying};

use crate::globals::is_taken;
use crate::heads::{heads, returns_of};
use nx_base::Bytes;
use nx_calls::CallRow;
use nx_ccheck::Known;
use nx_cdeclcheck::{add_params, begin, check_function, close, is_long, refuse};
use nx_checked::{Element, Scalar};
use nx_crules::{Function, Held};
use nx_ctok::CFault;
use nx_ctree::{External, Function as Body, Param, TypeWord};
use std::alloc::{AllocError, Global};

/// The last place that a function of a file may have.
const LAST_PLACE: usize = 511;

fn is_char(word: TypeWord) -> bool
    ensures { result ≡ is_char_word word }
{
    match word {
        TypeWord::Char => true,
        TypeWord::Int => false,
        TypeWord::Void => false,
    }
}

fn same_bool(a: bool, b: bool) -> bool
    ensures { result ≡ same_of_bools a b }
{
    if a { b } else { !b }
}

fn same_element(a: Element, b: Element) -> bool
    ensures { result ≡ same_of_elements a b }
{
    match a {
        Element::Int => match b {
            Element::Int => true,
            Element::Char => false,
        },
        Element::Char => match b {
            Element::Int => false,
            Element::Char => true,
        },
    }
}

fn same_scalar(a: Scalar, b: Scalar) -> bool
    ensures { result ≡ same_of_scalars a b }
{
    match a {
        Scalar::Int => match b {
            Scalar::Int => true,
            Scalar::Char => false,
            Scalar::Pointer(_) => false,
        },
        Scalar::Char => match b {
            Scalar::Int => false,
            Scalar::Char => true,
            Scalar::Pointer(_) => false,
        },
        Scalar::Pointer(v) => match b {
            Scalar::Int => false,
            Scalar::Char => false,
            Scalar::Pointer(w) => same_element(v, w),
        },
    }
}

fn same_held(g: Held, h: Held) -> bool
    ensures { result ≡ same_of_helds g h }
{
    same_scalar(g.scalar, h.scalar) && same_bool(g.constant, h.constant)
}

fn all_same(gs: &[Held], hs: &[Held]) -> bool
    ensures { result ≡ list_all (λ p. same_of_helds p.0 p.1) (zip gs.now hs.now) }
{
    gs.iter().zip(hs).all(|(g, h)| same_held(*g, *h))
}

fn same_heads(gs: &[Held], hs: &[Held]) -> bool
    ensures { result ≡ same_of_heads gs.now hs.now }
{
    if gs.len() == hs.len() {
        all_same(gs, hs)
    } else {
        false
    }
}

/// Whether a prototype agrees with its function, where the file has one.
fn agrees(
    alloc: Global,
    function: Option<&Function>,
    word: TypeWord,
    params: &[Param],
) -> Result<bool, AllocError>
    ensures { IfOk result (λ b. b ≡ agrees_with (option_copied function.entry) word params.now) }
{
    match function {
        None => Ok(true),
        Some(function) => {
            let heads = heads(alloc, params)?;
            let returns = same_bool(function.returns, returns_of(word));
            Ok(returns && same_heads(function.params.as_slice(), heads.as_slice()))
        }
    }
}

/// Whether a prototype returns a char, or disagrees with its function.
fn is_wrong_prototype(
    alloc: Global,
    known: &Known,
    x: &External,
    params: &[Param],
) -> Result<bool, AllocError>
    ensures { IfOk result (λ b. b ≡ (is_char_word x.now.result || not (agrees_with (lookup (bytes_eq x.now.name) known.now.names.functions) x.now.result params.now))) }
{
    let function = known.names.functions.get(x.name.as_slice());
    let agreed = agrees(alloc, function, x.result, params)?;
    Ok(is_char(x.result) || !agreed)
}

/// Adds the parameters of a prototype, and lets go of them.
fn try_params(alloc: Global, known: &mut Known, params: &[Param]) -> Result<(), CFault>
    ensures { IsDone result known.new (trying known.old params.now) }
{
    let mut locals = begin(alloc, &mut known.names);
    add_params(alloc, &mut known.names, &mut locals, params)?;
    close(alloc, &mut known.names);
    Ok(())
}

/// Checks a prototype. It gives no name.
pub(crate) fn check_prototype(
    alloc: Global,
    known: &mut Known,
    x: &External,
    params: &[Param],
) -> Result<(), CFault>
    ensures { IsDone result known.new (prototype_verdict known.old x.now params.now) }
{
    let wrong = is_wrong_prototype(alloc, known, x, params)?;
    let long = is_long(&x.name);
    refuse(x.line, false, wrong, long)?;
    try_params(alloc, known, params)
}

fn is_main(name: &Bytes) -> bool
    ensures { result ≡ is_main_name name.now }
{
    name.as_slice() == b"main".as_slice()
}

fn main_fits(x: &External, params: &[Param]) -> bool
    ensures { result ≡ fits_main x.now params.now }
{
    if is_main(&x.name) {
        returns_of(x.result) && params.is_empty()
    } else {
        true
    }
}

/// Whether a function returns a char, or is no main function though it has its name.
fn is_wrong_definition(x: &External, params: &[Param]) -> bool
    ensures { result ≡ (is_char_word x.now.result || not (fits_main x.now params.now)) }
{
    is_char(x.result) || !main_fits(x, params)
}

/// Whether a function's name is too long, or 512 functions stand before it.
fn is_beyond(known: &Known, name: &Bytes) -> bool
    ensures { result ≡ (is_long_name name.now || has_512 known.now) }
{
    is_long(name) || known.functions.len() > LAST_PLACE
}

fn put_definition(
    alloc: Global,
    rows: &[CallRow],
    known: &mut Known,
    x: &External,
    params: &[Param],
    body: &Body,
) -> Result<(), CFault>
    ensures { IsDone result known.new (defining rows.now known.old x.now params.now body.now) }
{
    let name = Bytes::from_slice(alloc, x.name.as_slice())?;
    let returns = returns_of(x.result);
    let function = check_function(
        alloc,
        rows,
        &mut known.names,
        &mut known.used,
        x.line,
        returns,
        params,
        body,
    )?;
    known.defined.push(name)?;
    known.functions.push(function)?;
    Ok(())
}

/// Checks a function's definition, and adds it.
pub(crate) fn add_definition(
    alloc: Global,
    rows: &[CallRow],
    known: &mut Known,
    x: &External,
    params: &[Param],
    body: &Body,
) -> Result<(), CFault>
    ensures { IsDone result known.new (definition_verdict rows.now known.old x.now params.now body.now) }
{
    let taken = is_taken(known, &x.name);
    let wrong = is_wrong_definition(x, params);
    let beyond = is_beyond(known, &x.name);
    refuse(x.line, taken, wrong, beyond)?;
    put_definition(alloc, rows, known, x, params, body)
}
