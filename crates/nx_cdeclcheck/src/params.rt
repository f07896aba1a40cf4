ghost use Rattle.std.specs.Prelude.{◌≡◌, ◌||◌, nat_lt, length, [], OnOk, Ok};
ghost use Rattle.nx_cbody.specs.Declarations.{is_long as is_long_name, opening, with_local, with_param, params_verdict, param_verdict};
ghost use Rattle.nx_cdeclcheck.specs.Done.{declared, IsDone, IsSameFile};

use crate::refusals::{held_of, is_long, is_taken, refuse};
use nx_base::Bytes;
use nx_cbody::Locals;
use nx_checked::Cell;
use nx_crules::Held;
use nx_ctok::CFault;
use nx_ctree::Param;
use nx_ctype::{Names, Variable, Variables};
use sqlite_items::Items;
use std::alloc::{AllocError, Global};

/// No parameters and no locals.
fn no_locals(alloc: Global) -> Locals
    ensures { result ≡ record { params = []; scalars = []; arrays = []; initials = [] } }
{
    Locals {
        params: Items::new(alloc),
        scalars: Items::new(alloc),
        arrays: Items::new(alloc),
        initials: Items::new(alloc),
    }
}

/// Lets go of the names of a function's parameters and locals.
pub fn close(alloc: Global, names: &mut Names)
    ensures { names.new ≡ record names.old { locals = [] } }
{
    names.locals = Variables::new(alloc);
}

/// Before its parameters a function has no locals.
pub fn begin(alloc: Global, names: &mut Names) -> Locals
    ensures { declared names.new result ≡ opening names.old }
{
    close(alloc, names);
    no_locals(alloc)
}

/// Gives a name a parameter or local.
pub(crate) fn declare(
    alloc: Global,
    names: &mut Names,
    name: &Bytes,
    variable: Variable,
) -> Result<(), AllocError>
    ensures done { OnOk result (names.new ≡ with_local names.old name.now variable) }
    ensures same { IsSameFile names.old names.new }
{
    let name = Vec::from_slice(alloc, name.as_slice())?;
    names.locals.put(name, variable)?;
    Ok(())
}

fn put_param(
    alloc: Global,
    names: &mut Names,
    locals: &mut Locals,
    name: &Bytes,
    held: Held,
) -> Result<(), CFault>
    ensures done { IsDone result (declared names.new locals.new) (Ok (with_param (declared names.old locals.old) name.now held)) }
    ensures same { IsSameFile names.old names.new }
{
    let Ok(place) = u32::try_from(locals.params.len()) else {
        return Err(CFault::Memory);
    };
    declare(
        alloc,
        names,
        name,
        Variable::Scalar(Cell::Local(place), held),
    )?;
    locals.params.push(held.scalar)?;
    Ok(())
}

/// Whether a parameter's name is too long, or six parameters stand before it.
fn is_beyond(locals: &Locals, name: &Bytes) -> bool
    ensures { result ≡ (is_long_name name.now || nat_lt 5 (length locals.now.params)) }
{
    is_long(name) || locals.params.len() > 5
}

fn add_param(
    alloc: Global,
    names: &mut Names,
    locals: &mut Locals,
    param: &Param,
) -> Result<(), CFault>
    ensures done { IsDone result (declared names.new locals.new) (param_verdict (declared names.old locals.old) param.now) }
    ensures same { IsSameFile names.old names.new }
{
    let taken = is_taken(names, &param.name);
    match held_of(param.base, param.pointer) {
        None => refuse(param.line, taken, true, false),
        Some(held) => {
            let beyond = is_beyond(locals, &param.name);
            refuse(param.line, taken, false, beyond)?;
            put_param(alloc, names, locals, &param.name, held)
        }
    }
}

/// Adds the parameters of a function to its names and locals.
pub fn add_params(
    alloc: Global,
    names: &mut Names,
    locals: &mut Locals,
    params: &[Param],
) -> Result<(), CFault>
    ensures done { IsDone result (declared names.new locals.new) (params_verdict (declared names.old locals.old) params.now) }
    ensures same { IsSameFile names.old names.new }
{
    for param in params {
        add_param(alloc, names, locals, param)?;
    }
    Ok(())
}
