ghost use Rattle.std.specs.Prelude.{◌≡◌, ◌||◌, ◌&&◌, not, ◌<◌, ◌^◌, OnOk, Ok};
ghost use Rattle.std.specs.List.{list_any};
ghost use Rattle.std.specs.Str.{bytes_eq};
ghost use Rattle.nx_checked.specs.Frames.{bytes_of};
ghost use Rattle.nx_cbody.specs.Declarations.{is_long as is_long_name, is_length as is_length_of_array};
ghost use Rattle.nx_cdeclcheck.specs.Done.{IsDone};
ghost use Rattle.nx_ccheck.specs.Globals.{
  is_taken as is_taken_in,
  is_full as is_full_with,
  with_global,
  with_scalar,
  with_array,
  first_value as first_value_of,
  scalar_of as scalar_by,
  element_of as element_by,
  scalar_verdict,
  shape_verdict,
  array_verdict,
  fits as fits_shape,
  rounded as rounded_up,
};

use crate::contents::{first_bytes, fits};
use nx_base::Bytes;
use nx_ccheck::Known;
use nx_cdeclcheck::{constant_of, is_length, is_long, refuse};
use nx_cframes::{array_bytes, rounded};
use nx_checked::{ArrayName, Cell, Element, GlobalArray, GlobalScalar, Scalar, Shape};
use nx_crules::Held;
use nx_ctok::CFault;
use nx_ctree::{Constant, External, Initialiser, TypeWord};
use nx_ctype::{Names, Variable};
use std::alloc::{AllocError, Global};

/// The most bytes that the variables of a file may take.
const MOST_BYTES: u64 = 1_048_576;

fn is_defined(defined: &[Bytes], name: &[u8]) -> bool
    ensures { result ≡ list_any (bytes_eq name.now) defined.now }
{
    defined.iter().any(|other| name == other.as_slice())
}

/// Whether a variable or a function of the file so far has a name.
pub(crate) fn is_taken(known: &Known, name: &Bytes) -> bool
    ensures { result ≡ is_taken_in known.now name.now }
{
    let name = name.as_slice();
    known.names.globals.get(name).is_some() || is_defined(known.defined.as_slice(), name)
}

/// Whether there is no room for so many bytes of variables more.
fn is_full(known: &Known, bytes: u64) -> bool
    requires { bytes < 2 ^ 40 }
    ensures { result ≡ is_full_with known.now bytes }
{
    u64::from(known.bytes) + bytes > MOST_BYTES
}

fn declare(
    alloc: Global,
    names: &mut Names,
    name: &Bytes,
    variable: Variable,
) -> Result<(), AllocError>
    ensures { OnOk result (names.new ≡ with_global names.old name.now variable) }
{
    let name = Vec::from_slice(alloc, name.as_slice())?;
    names.globals.put(name, variable)?;
    Ok(())
}

/// What a variable of a type word holds that is no array.
pub(crate) fn scalar_of(word: TypeWord) -> Option<Scalar>
    ensures { result ≡ scalar_by word }
{
    match word {
        TypeWord::Int => Some(Scalar::Int),
        TypeWord::Char => Some(Scalar::Char),
        TypeWord::Void => None,
    }
}

/// What an array of a type word holds.
pub(crate) fn element_of(word: TypeWord) -> Option<Element>
    ensures { result ≡ element_by word }
{
    match word {
        TypeWord::Int => Some(Element::Int),
        TypeWord::Char => Some(Element::Char),
        TypeWord::Void => None,
    }
}

fn first_value(scalar: Scalar, value: u32) -> u32
    ensures { result ≡ first_value_of scalar value }
{
    match scalar {
        Scalar::Int => value,
        Scalar::Char => value % 256,
        Scalar::Pointer(_) => value,
    }
}

fn put_scalar(
    alloc: Global,
    known: &mut Known,
    name: &Bytes,
    scalar: Scalar,
    value: u32,
) -> Result<(), CFault>
    ensures { IsDone result known.new (Ok (with_scalar known.old name.now scalar value)) }
{
    let Ok(place) = u32::try_from(known.scalars.len()) else {
        return Err(CFault::Memory);
    };
    let Some(bytes) = known.bytes.checked_add(4) else {
        return Err(CFault::Memory);
    };
    let held = Held {
        scalar,
        constant: false,
    };
    declare(
        alloc,
        &mut known.names,
        name,
        Variable::Scalar(Cell::Global(place), held),
    )?;
    let value = first_value(scalar, value);
    known.scalars.push(GlobalScalar { scalar, value })?;
    known.bytes = bytes;
    Ok(())
}

/// Whether a variable's name is too long, or there is no room for its bytes.
fn is_beyond(known: &Known, name: &Bytes, bytes: u64) -> bool
    requires { bytes < 2 ^ 40 }
    ensures { result ≡ (is_long_name name.now || is_full_with known.now bytes) }
{
    is_long(name) || is_full(known, bytes)
}

/// Adds a variable that is no array, with its first value.
pub(crate) fn add_scalar(
    alloc: Global,
    known: &mut Known,
    x: &External,
    scalar: Option<Scalar>,
    value: u32,
) -> Result<(), CFault>
    ensures { IsDone result known.new (scalar_verdict known.old x.now scalar value) }
{
    let taken = is_taken(known, &x.name);
    match scalar {
        None => refuse(x.line, taken, true, false),
        Some(scalar) => {
            let beyond = is_beyond(known, &x.name, 4);
            refuse(x.line, taken, false, beyond)?;
            put_scalar(alloc, known, &x.name, scalar, value)
        }
    }
}

fn put_array(
    alloc: Global,
    known: &mut Known,
    name: &Bytes,
    shape: Shape,
    initialiser: &Option<Initialiser>,
) -> Result<(), CFault>
    ensures { IsDone result known.new (Ok (with_array known.old name.now shape initialiser.now)) }
{
    let Ok(place) = u32::try_from(known.arrays.len()) else {
        return Err(CFault::Memory);
    };
    let Ok(more) = u32::try_from(rounded(array_bytes(shape))) else {
        return Err(CFault::Memory);
    };
    let Some(bytes) = known.bytes.checked_add(more) else {
        return Err(CFault::Memory);
    };
    let contents = first_bytes(alloc, shape, initialiser)?;
    declare(
        alloc,
        &mut known.names,
        name,
        Variable::Array(ArrayName::Global(place), shape),
    )?;
    known.arrays.push(GlobalArray {
        shape,
        bytes: contents,
    })?;
    known.bytes = bytes;
    Ok(())
}

/// Whether an array has no length, or doesn't take its first contents.
fn is_wrong(shape: Shape, initialiser: &Option<Initialiser>) -> bool
    ensures { result ≡ not (is_length_of_array shape.count && fits_shape shape initialiser.now) }
{
    !(is_length(shape.count) && fits(shape, initialiser))
}

fn add_shape(
    alloc: Global,
    known: &mut Known,
    x: &External,
    shape: Shape,
    initialiser: &Option<Initialiser>,
) -> Result<(), CFault>
    ensures { IsDone result known.new (shape_verdict known.old x.now shape initialiser.now) }
{
    let taken = is_taken(known, &x.name);
    let wrong = is_wrong(shape, initialiser);
    let bytes = rounded(array_bytes(shape));
    let beyond = is_beyond(known, &x.name, bytes);
    refuse(x.line, taken, wrong, beyond)?;
    put_array(alloc, known, &x.name, shape, initialiser)
}

/// Adds an array, with its first contents.
pub(crate) fn add_array(
    alloc: Global,
    known: &mut Known,
    x: &External,
    element: Option<Element>,
    length: &Constant,
    initialiser: &Option<Initialiser>,
) -> Result<(), CFault>
    ensures { IsDone result known.new (array_verdict known.old x.now element length.now initialiser.now) }
{
    match element {
        None => {
            let taken = is_taken(known, &x.name);
            refuse(x.line, taken, true, false)
        }
        Some(element) => {
            let count = constant_of(&length.kind);
            add_shape(alloc, known, x, Shape { element, count }, initialiser)
        }
    }
}
