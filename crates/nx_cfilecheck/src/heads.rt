ghost use Rattle.std.specs.Prelude.{◌≡◌, [], IfOk, OnOk, Some, is_some};
ghost use Rattle.std.specs.Map.{lookup};
ghost use Rattle.std.specs.Str.{bytes_eq};
ghost use Rattle.nx_ccheck.specs.Defined.{
  listed as listed_in,
  returns_of as returned_by,
  seen as seen_as,
  heads as heads_of,
  definition_of,
  with_function,
  counted,
  functions_from,
};

use nx_base::Bytes;
use nx_cdeclcheck::held_of;
use nx_checked::Scalar;
use nx_crules::{Function, Held};
use nx_ctree::{External, Param, Params, Rest, TypeWord};
use nx_ctype::Functions;
use sqlite_items::Items;
use std::alloc::{AllocError, Global};

/// The parameters between a function's parentheses.
pub(crate) fn listed(params: &Params) -> &[Param]
    ensures { result.now ≡ listed_in params.now }
{
    match params {
        Params::Empty => &[],
        Params::Void => &[],
        Params::Listed(params) => params.as_slice(),
    }
}

/// Whether a function of a type word returns a number.
pub(crate) fn returns_of(word: TypeWord) -> bool
    ensures { result ≡ returned_by word }
{
    match word {
        TypeWord::Int => true,
        TypeWord::Char => true,
        TypeWord::Void => false,
    }
}

/// A parameter as the function's callers see it.
fn seen(held: Option<Held>) -> Held
    ensures { result ≡ seen_as held }
{
    match held {
        Some(held) => held,
        None => Held {
            scalar: Scalar::Char,
            constant: false,
        },
    }
}

/// Parameters as the function's callers see them.
pub(crate) fn heads(alloc: Global, params: &[Param]) -> Result<Items<Held>, AllocError>
    ensures { IfOk result (λ hs. hs ≡ heads_of params.now) }
{
    let mut heads = Items::new(alloc);
    for param in params {
        let held = seen(held_of(param.base, param.pointer));
        heads.push(held)?;
    }
    Ok(heads)
}

fn is_function(functions: &Functions, name: &Bytes) -> bool
    ensures { result ≡ is_some (lookup (bytes_eq name.now) functions.now) }
{
    match functions.get(name.as_slice()) {
        Some(_) => true,
        None => false,
    }
}

/// Gives a name the function that it is first defined as.
fn add_function(
    alloc: Global,
    functions: &mut Functions,
    place: u32,
    x: &External,
    params: &[Param],
) -> Result<(), AllocError>
    ensures { OnOk result (functions.new ≡ with_function place functions.old x.now (Some params.now)) }
{
    if is_function(functions, &x.name) {
        return Ok(());
    }
    let params = heads(alloc, params)?;
    let name = Vec::from_slice(alloc, x.name.as_slice())?;
    let returns = returns_of(x.result);
    functions.put(
        name,
        Function {
            place,
            returns,
            params,
        },
    )
}

/// Adds the function that an item of the file defines, if it defines one. Answers how many
/// functions there are then.
fn note_function(
    alloc: Global,
    functions: &mut Functions,
    place: u32,
    x: &External,
) -> Result<u32, AllocError>
    ensures count { IfOk result (λ n. n ≡ counted place (definition_of x.now.rest)) }
    ensures functions { OnOk result (functions.new ≡ with_function place functions.old x.now (definition_of x.now.rest)) }
{
    match &x.rest {
        Rest::Plain => Ok(place),
        Rest::Valued(_) => Ok(place),
        Rest::Array(_, _) => Ok(place),
        Rest::Prototype(_) => Ok(place),
        Rest::Function(params, _) => {
            add_function(alloc, functions, place, x, listed(params))?;
            match place.checked_add(1) {
                Some(next) => Ok(next),
                None => Err(AllocError),
            }
        }
    }
}

/// The functions that a file defines.
pub(crate) fn known_functions(
    alloc: Global,
    externals: &[External],
) -> Result<Functions, AllocError>
    ensures { IfOk result (λ fs. fs ≡ functions_from 0 [] externals.now) }
{
    let mut functions = Functions::new(alloc);
    let mut place = 0;
    for x in externals {
        place = note_function(alloc, &mut functions, place, x)?;
    }
    Ok(functions)
}
