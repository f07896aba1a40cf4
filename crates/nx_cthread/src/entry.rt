ghost use Rattle.std.specs.Prelude.{◌≡◌, ◌∷◌, [], ◌++◌, map, get_or, IfOk, OnOk, IfNone, MatchOption};
ghost use Rattle.nx_checked.specs.Trees.{expr_of, stmts_of, fun_of, program_of};
ghost use Rattle.nx_cobjects.specs.Values.{kept, size_of};
ghost use Rattle.nx_cmean.specs.Items.{starts_then, gaps_then, arrays_then, initials_then, rest_then, entry_then, steps_of};
ghost use Rattle.nx_cmean.specs.Meaning.{all_kept, taken, opened, opened_fun, fun_at, no_fun};
ghost use Rattle.nx_cmean.specs.Shape.{items_of};
ghost use Rattle.nx_cthread.specs.Threads.{frame_of, taken_of, unless};

use nx_checked::{Checked, CheckedExpr, CheckedFunction, Scalar, Shape};
use nx_cmean::{Item, Stack, put_expr, put_rest};
use nx_cobjects::{Value, WrongKind, kept, size};
use std::alloc::{AllocError, Global};

/// A call of a function that isn't over.
#[derive(Drop)]
pub struct Frame {
    /// The place of the function.
    pub function: u32,
    /// The first of its arrays among the thread's own objects.
    pub from: u32,
    /// How many arrays it has.
    pub arrays: usize,
    /// Its parameters and variables.
    pub cells: Vec<Value>,
    /// The values of the expression that is evaluated.
    pub values: Stack<Value>,
    /// What remains.
    pub todo: Stack<Item>,
}

fn put_starts(todo: &mut Stack<Item>, locals: &[Scalar]) -> Result<(), AllocError>
    ensures { OnOk result (items_of todo.new ≡ starts_then locals.now (items_of todo.old)) }
{
    match locals {
        [] => Ok(()),
        [s, locals @ ..] => {
            put_starts(todo, locals)?;
            todo.push(Item::Start(*s))
        }
    }
}

/// Puts so many steps.
pub fn put_gaps(todo: &mut Stack<Item>, count: u32) -> Result<(), AllocError>
    ensures { OnOk result (items_of todo.new ≡ gaps_then count (items_of todo.old)) }
{
    if count == 0 {
        return Ok(());
    }
    todo.push(Item::Gap(count - 1))
}

// How many steps an array takes. Out of memory where they are as many as bytes can't be.
fn steps_of_array(shape: Shape) -> Result<u32, AllocError>
    ensures { IfOk result (λ n. n ≡ steps_of shape) }
{
    let steps = (shape.count as usize * size(shape.element) + 3) / 4;
    if steps > 0xffffffff {
        return Err(AllocError);
    }
    Ok(steps as u32)
}

fn put_arrays(todo: &mut Stack<Item>, arrays: &[Shape]) -> Result<(), AllocError>
    ensures { OnOk result (items_of todo.new ≡ arrays_then arrays.now (items_of todo.old)) }
{
    match arrays {
        [] => Ok(()),
        [s, arrays @ ..] => {
            put_arrays(todo, arrays)?;
            todo.push(Item::Make(*s))?;
            let steps = steps_of_array(*s)?;
            put_gaps(todo, steps.saturating_sub(1))
        }
    }
}

fn put_initials(todo: &mut Stack<Item>, initials: &[CheckedExpr]) -> Result<(), AllocError>
    ensures { OnOk result (items_of todo.new ≡ initials_then (map expr_of initials.now) (items_of todo.old)) }
{
    match initials {
        [] => Ok(()),
        [e, initials @ ..] => {
            put_initials(todo, initials)?;
            todo.push(Item::Forget)?;
            put_expr(todo, e)
        }
    }
}

fn put_entry(todo: &mut Stack<Item>, f: &CheckedFunction) -> Result<(), AllocError>
    ensures { OnOk result (items_of todo.new ≡ entry_then (fun_of f.now) (items_of todo.old)) }
{
    todo.push(Item::Fall)?;
    put_rest(todo, f.body.another()?, 0)?;
    put_initials(todo, f.initials.as_slice())?;
    put_arrays(todo, f.arrays.as_slice())?;
    put_starts(todo, f.locals.as_slice())
}

// Puts what parameters keep of arguments. Some says what is wrong.
fn keep_all(
    cells: &mut Vec<Value>,
    params: &[Scalar],
    args: &[Value],
) -> Result<Option<WrongKind>, AllocError>
    ensures { IfOk result (λ r. unless r cells.new.items ≡ all_kept cells.old.items params.now args.now) }
{
    match params {
        [] => match args {
            [] => Ok(None),
            [v, args @ ..] => {
                cells.push(*v)?;
                keep_all(cells, params, args)
            }
        },
        [s, params @ ..] => match args {
            [] => Ok(None),
            [v, args @ ..] => match kept(*s, *v) {
                Err(kind) => Ok(Some(kind)),
                Ok(v) => {
                    cells.push(v)?;
                    keep_all(cells, params, args)
                }
            },
        },
    }
}

/// Puts what the parameters of a function keep of arguments. Some says what is wrong.
pub fn keep_args(
    program: &Checked,
    function: u32,
    cells: &mut Vec<Value>,
    args: &[Value],
) -> Result<Option<WrongKind>, AllocError>
    ensures { IfOk result (λ r. unless r cells.new.items ≡ all_kept cells.old.items (fun_at (program_of program.now) function).params args.now) }
{
    match function_at(program.functions.as_slice(), function as usize) {
        None => keep_all(cells, &[], args),
        Some(f) => keep_all(cells, f.params.as_slice(), args),
    }
}

fn open_function(
    alloc: Global,
    f: &CheckedFunction,
    function: u32,
    names: u32,
    params: Vec<Value>,
) -> Result<Frame, AllocError>
    ensures { IfOk result (λ r. frame_of r ≡ opened_fun (fun_of f.now) function names params.items) }
{
    let mut todo = Stack::new(alloc);
    put_entry(&mut todo, f)?;
    Ok(Frame {
        function,
        from: names,
        arrays: f.arrays.len(),
        cells: params,
        values: Stack::new(alloc),
        todo,
    })
}

fn open_nothing(
    alloc: Global,
    function: u32,
    names: u32,
    params: Vec<Value>,
) -> Result<Frame, AllocError>
    ensures { IfOk result (λ r. frame_of r ≡ opened_fun no_fun function names params.items) }
{
    let mut todo = Stack::new(alloc);
    todo.push(Item::Fall)?;
    Ok(Frame {
        function,
        from: names,
        arrays: 0,
        cells: params,
        values: Stack::new(alloc),
        todo,
    })
}

// The function at a place.
fn function_at(functions: &[CheckedFunction], place: usize) -> Option<&CheckedFunction>
    ensures { MatchOption result (get_or (map fun_of functions.now) place no_fun ≡ no_fun) (λ f. get_or (map fun_of functions.now) place no_fun ≡ fun_of f.now) }
{
    match functions.get(place) {
        None => None,
        Some(f) => Some(f),
    }
}

/// A call of a function begins with its parameters, where the thread has had so many objects.
pub fn open(
    alloc: Global,
    program: &Checked,
    function: u32,
    names: u32,
    params: Vec<Value>,
) -> Result<Frame, AllocError>
    ensures { IfOk result (λ r. frame_of r ≡ opened (program_of program.now) function names params.items) }
{
    match function_at(program.functions.as_slice(), function as usize) {
        None => open_nothing(alloc, function, names, params),
        Some(f) => open_function(alloc, f, function, names, params),
    }
}

/// Takes the last values away, the last one last.
#[tactic(auto, using(crate::proofs::Taking::taken_one, crate::proofs::Taking::taken_short))]
pub fn take_args(
    alloc: Global,
    values: &mut Stack<Value>,
    count: usize,
) -> Result<Option<Vec<Value>>, AllocError>
    ensures took { IfOk result (λ r. taken count values.old [] ≡ taken_of r values.new) }
    ensures gone { IfOk result (λ r. IfNone r (values.new ≡ [])) }
{
    let mut args = Stack::new(alloc);
    let mut left = count;
    while left > 0 {
        match values.pop() {
            None => return Ok(None),
            Some(v) => args.push(v)?,
        }
        left -= 1;
    }
    Ok(Some(args.into_vec()))
}
