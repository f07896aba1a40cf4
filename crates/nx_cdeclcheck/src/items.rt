ghost use Rattle.std.specs.Prelude.{◌≡◌, ◌+◌, length, IfOk, Ok};
ghost use Rattle.nx_cbody.specs.Declarations.{
  with_scalar,
  with_array,
  scalar_given,
  array_given,
  valued,
  item_verdict,
  items_verdict,
  decls_verdict,
};
ghost use Rattle.nx_cdeclcheck.specs.Done.{declared, IsDone, IsDoneUsing, IsSameFile, valued_given};

use crate::params::declare;
use crate::refusals::{constant_of, element_of, held_of, is_length, is_long, is_taken, refuse};
use nx_base::Bytes;
use nx_calls::CallRow;
use nx_cbody::Locals;
use nx_cexprcheck::check_expression;
use nx_checked::{ArrayName, Cell, Element, Shape};
use nx_crules::{Held, Target, assign};
use nx_ctok::CFault;
use nx_ctree::{AssignOperator, Base, Decl, Expr, Item, ItemKind};
use nx_ctype::{Names, Used, Variable};
use std::alloc::{AllocError, Global};

/// The cell of the next local that is no array.
fn next_cell(locals: &Locals) -> Result<Cell, AllocError>
    ensures { IfOk result (λ c. c ≡ Cell.Local (length locals.now.params + length locals.now.scalars)) }
{
    let Ok(params) = u32::try_from(locals.params.len()) else {
        return Err(AllocError);
    };
    let Ok(scalars) = u32::try_from(locals.scalars.len()) else {
        return Err(AllocError);
    };
    match params.checked_add(scalars) {
        Some(place) => Ok(Cell::Local(place)),
        None => Err(AllocError),
    }
}

fn put_scalar(
    alloc: Global,
    names: &mut Names,
    locals: &mut Locals,
    name: &Bytes,
    held: Held,
) -> Result<(), CFault>
    ensures done { IsDone result (declared names.new locals.new) (Ok (with_scalar (declared names.old locals.old) name.now held)) }
    ensures same { IsSameFile names.old names.new }
{
    let cell = next_cell(locals)?;
    declare(alloc, names, name, Variable::Scalar(cell, held))?;
    locals.scalars.push(held.scalar)?;
    Ok(())
}

/// A local that is no array.
fn add_scalar(
    alloc: Global,
    names: &mut Names,
    locals: &mut Locals,
    item: &Item,
    held: Option<Held>,
) -> Result<(), CFault>
    ensures done { IsDone result (declared names.new locals.new) (scalar_given (declared names.old locals.old) item.now held) }
    ensures same { IsSameFile names.old names.new }
{
    let taken = is_taken(names, &item.name);
    match held {
        None => refuse(item.line, taken, true, false),
        Some(held) => {
            let long = is_long(&item.name);
            refuse(item.line, taken, false, long)?;
            put_scalar(alloc, names, locals, &item.name, held)
        }
    }
}

fn put_array(
    alloc: Global,
    names: &mut Names,
    locals: &mut Locals,
    name: &Bytes,
    shape: Shape,
) -> Result<(), CFault>
    ensures done { IsDone result (declared names.new locals.new) (Ok (with_array (declared names.old locals.old) name.now shape)) }
    ensures same { IsSameFile names.old names.new }
{
    let Ok(place) = u32::try_from(locals.arrays.len()) else {
        return Err(CFault::Memory);
    };
    declare(
        alloc,
        names,
        name,
        Variable::Array(ArrayName::Local(place), shape),
    )?;
    locals.arrays.push(shape)?;
    Ok(())
}

/// An array of a length.
fn add_array(
    alloc: Global,
    names: &mut Names,
    locals: &mut Locals,
    item: &Item,
    element: Option<Element>,
    count: u32,
) -> Result<(), CFault>
    ensures done { IsDone result (declared names.new locals.new) (array_given (declared names.old locals.old) item.now element count) }
    ensures same { IsSameFile names.old names.new }
{
    let taken = is_taken(names, &item.name);
    match element {
        None => refuse(item.line, taken, true, false),
        Some(element) => {
            let fits = is_length(count);
            let long = is_long(&item.name);
            refuse(item.line, taken, !fits, long)?;
            put_array(alloc, names, locals, &item.name, Shape { element, count })
        }
    }
}

/// A local's value, which is assigned to its cell.
fn add_value(
    alloc: Global,
    rows: &[CallRow],
    names: &Names,
    locals: &mut Locals,
    used: &mut Used,
    line: u32,
    cell: Cell,
    held: Held,
    value: &Expr,
) -> Result<(), CFault>
    ensures { IsDoneUsing result (declared names.now locals.new) used.new (valued rows.now line cell held value.now (declared names.now locals.old) used.old) }
{
    let typed = check_expression(alloc, names, rows, used, value)?;
    let target = Target::Cell(cell, held);
    let assigned = assign(alloc, line, AssignOperator::Set, target, typed)?;
    locals.initials.push(assigned.tree)?;
    Ok(())
}

/// A local that is no array, with its value.
fn add_valued(
    alloc: Global,
    rows: &[CallRow],
    names: &mut Names,
    locals: &mut Locals,
    used: &mut Used,
    item: &Item,
    held: Option<Held>,
    value: &Expr,
) -> Result<(), CFault>
    ensures done { IsDoneUsing result (declared names.new locals.new) used.new (valued_given rows.now item.now held value.now (declared names.old locals.old) used.old) }
    ensures same { IsSameFile names.old names.new }
{
    let cell = next_cell(locals)?;
    add_scalar(alloc, names, locals, item, held)?;
    match held {
        None => Ok(()),
        Some(held) => {
            add_value(
                alloc, rows, names, locals, used, item.line, cell, held, value,
            )
        }
    }
}

/// One name of a declaration.
fn add_item(
    alloc: Global,
    rows: &[CallRow],
    base: Base,
    names: &mut Names,
    locals: &mut Locals,
    used: &mut Used,
    item: &Item,
) -> Result<(), CFault>
    ensures done { IsDoneUsing result (declared names.new locals.new) used.new (item_verdict rows.now base (declared names.old locals.old) item.now used.old) }
    ensures same { IsSameFile names.old names.new }
{
    match &item.kind {
        ItemKind::Plain => {
            let held = held_of(base, item.pointer);
            add_scalar(alloc, names, locals, item, held)
        }
        ItemKind::Array(count) => {
            let element = element_of(base, item.pointer);
            let length = constant_of(&count.kind);
            add_array(alloc, names, locals, item, element, length)
        }
        ItemKind::Valued(value) => {
            let held = held_of(base, item.pointer);
            add_valued(alloc, rows, names, locals, used, item, held, value.get())
        }
    }
}

fn add_items(
    alloc: Global,
    rows: &[CallRow],
    base: Base,
    names: &mut Names,
    locals: &mut Locals,
    used: &mut Used,
    items: &[Item],
) -> Result<(), CFault>
    ensures done { IsDoneUsing result (declared names.new locals.new) used.new (items_verdict rows.now base (declared names.old locals.old) items.now used.old) }
    ensures same { IsSameFile names.old names.new }
{
    for item in items {
        add_item(alloc, rows, base, names, locals, used, item)?;
    }
    Ok(())
}

fn add_decl(
    alloc: Global,
    rows: &[CallRow],
    names: &mut Names,
    locals: &mut Locals,
    used: &mut Used,
    decl: &Decl,
) -> Result<(), CFault>
    ensures done { IsDoneUsing result (declared names.new locals.new) used.new (items_verdict rows.now decl.now.base (declared names.old locals.old) decl.now.items used.old) }
    ensures same { IsSameFile names.old names.new }
{
    let items = decl.items.as_slice();
    add_items(alloc, rows, decl.base, names, locals, used, items)
}

/// Adds what the declarations at a function's head give to its names and locals.
pub(crate) fn add_decls(
    alloc: Global,
    rows: &[CallRow],
    names: &mut Names,
    locals: &mut Locals,
    used: &mut Used,
    decls: &[Decl],
) -> Result<(), CFault>
    ensures done { IsDoneUsing result (declared names.new locals.new) used.new (decls_verdict rows.now (declared names.old locals.old) decls.now used.old) }
    ensures same { IsSameFile names.old names.new }
{
    for decl in decls {
        add_decl(alloc, rows, names, locals, used, decl)?;
    }
    Ok(())
}
