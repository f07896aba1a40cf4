ghost use Rattle.nx_crules.specs.Rules.{conditional_rule, assign_rule, step_rule, index_place, deref_place};
ghost use Rattle.nx_ctyping.specs.Checks.{IsGivenUsing, AreGivenUsing, one, two, three, both};
ghost use Rattle.nx_ctyping.specs.Verdicts.{call_check, function_named, place_named, starts_named};
ghost use Rattle.nx_cleaves.specs.Operators.{before_rule, between_rule};
ghost use Rattle.nx_cexprcheck.specs.Code.{expression_check, place_check, one_argument_check, arguments_check};

use nx_base::Bytes;
use nx_calls::CallRow;
use nx_checked::StepValue;
use nx_cleaves::{
    Before, Between, apply, base_bytes, called, combine, name_alone, push, starts, text,
};
use nx_crules::{Target, Typed, assign, conditional, place_at, place_of as pointed, step};
use nx_ctok::CFault;
use nx_ctree::{AssignOperator, Expr, ExprKind, Place, PlaceKind, StepOperator};
use nx_ctype::{Names, Used, name_entry, name_place, name_size, name_value, number, place_in};
use std::alloc::Global;

/// An operator at an operand.
#[cycle(expression)]
fn check_one(
    alloc: Global,
    names: &Names,
    rows: &[CallRow],
    used: &mut Used,
    line: u32,
    op: Before,
    a: &Expr,
) -> Result<Typed, CFault>
    ensures { IsGivenUsing result used.new (one (before_rule op) line (expression_check names.now rows.now a.now) used.old) }
{
    let a = check_expression(alloc, names, rows, used, a)?;
    apply(alloc, line, op, a)
}

/// Two operands, the left one first.
#[cycle(expression)]
fn check_pair(
    alloc: Global,
    names: &Names,
    rows: &[CallRow],
    used: &mut Used,
    a: &Expr,
    b: &Expr,
) -> Result<(Typed, Typed), CFault>
    ensures { IsGivenUsing result used.new (both (expression_check names.now rows.now a.now) (expression_check names.now rows.now b.now) used.old) }
{
    let a = check_expression(alloc, names, rows, used, a)?;
    let b = check_expression(alloc, names, rows, used, b)?;
    Ok((a, b))
}

/// An operator between two operands.
#[cycle(expression)]
fn check_two(
    alloc: Global,
    names: &Names,
    rows: &[CallRow],
    used: &mut Used,
    line: u32,
    op: Between,
    a: &Expr,
    b: &Expr,
) -> Result<Typed, CFault>
    ensures { IsGivenUsing result used.new (two (between_rule op) line (expression_check names.now rows.now a.now) (expression_check names.now rows.now b.now) used.old) }
{
    let (a, b) = check_pair(alloc, names, rows, used, a, b)?;
    combine(alloc, line, op, a, b)
}

/// A choice.
#[cycle(expression)]
fn check_choice(
    alloc: Global,
    names: &Names,
    rows: &[CallRow],
    used: &mut Used,
    line: u32,
    c: &Expr,
    a: &Expr,
    b: &Expr,
) -> Result<Typed, CFault>
    ensures { IsGivenUsing result used.new (three conditional_rule line (expression_check names.now rows.now c.now) (expression_check names.now rows.now a.now) (expression_check names.now rows.now b.now) used.old) }
{
    let c = check_expression(alloc, names, rows, used, c)?;
    let (a, b) = check_pair(alloc, names, rows, used, a, b)?;
    conditional(alloc, line, c, a, b)
}

/// A step, before or after its place.
#[cycle(expression)]
fn check_step(
    alloc: Global,
    names: &Names,
    rows: &[CallRow],
    used: &mut Used,
    line: u32,
    value: StepValue,
    op: StepOperator,
    p: &Place,
) -> Result<Typed, CFault>
    ensures { IsGivenUsing result used.new (one (step_rule value op) line (place_check names.now rows.now p.now) used.old) }
{
    let p = check_place(alloc, names, rows, used, p)?;
    step(alloc, line, value, op, p)
}

/// An assignment.
#[cycle(expression)]
fn check_assignment(
    alloc: Global,
    names: &Names,
    rows: &[CallRow],
    used: &mut Used,
    line: u32,
    op: AssignOperator,
    p: &Place,
    e: &Expr,
) -> Result<Typed, CFault>
    ensures { IsGivenUsing result used.new (two (assign_rule op) line (place_check names.now rows.now p.now) (expression_check names.now rows.now e.now) used.old) }
{
    let p = check_place(alloc, names, rows, used, p)?;
    let e = check_expression(alloc, names, rows, used, e)?;
    assign(alloc, line, op, p, e)
}

/// An argument, which may be the first one of a call that starts a thread.
#[cycle(expression)]
fn check_argument(
    alloc: Global,
    names: &Names,
    rows: &[CallRow],
    used: &mut Used,
    starts: bool,
    e: &Expr,
) -> Result<Typed, CFault>
    ensures { IsGivenUsing result used.new (one_argument_check names.now rows.now starts e.now used.old) }
{
    if !starts {
        return check_expression(alloc, names, rows, used, e);
    }
    match name_alone(e) {
        Some(name) => name_entry(names, e.line, name.as_slice()),
        None => check_expression(alloc, names, rows, used, e),
    }
}

/// Arguments from left to right.
#[cycle(expression)]
fn check_arguments(
    alloc: Global,
    names: &Names,
    rows: &[CallRow],
    used: &mut Used,
    starts: bool,
    arguments: &[Expr],
) -> Result<Vec<Typed>, CFault>
    ensures { AreGivenUsing result used.new (arguments_check names.now rows.now starts arguments.now used.old) }
{
    let mut done = Vec::new(alloc);
    let mut first = starts;
    for argument in arguments {
        let argument = check_argument(alloc, names, rows, used, first, argument)?;
        push(&mut done, argument)?;
        first = false;
    }
    Ok(done)
}

/// A call: its arguments, and then what is called.
#[cycle(expression)]
fn check_call(
    alloc: Global,
    names: &Names,
    rows: &[CallRow],
    used: &mut Used,
    line: u32,
    name: &Bytes,
    arguments: &[Expr],
) -> Result<Typed, CFault>
    ensures { IsGivenUsing result used.new (call_check rows.now (function_named names.now name.now) (place_named rows.now name.now) line (arguments_check names.now rows.now (starts_named names.now rows.now name.now) arguments.now) used.old) }
{
    let name = name.as_slice();
    let function = names.functions.get(name);
    let place = place_in(rows, name);
    let starts = starts(rows, function, place);
    let arguments = check_arguments(alloc, names, rows, used, starts, arguments)?;
    called(alloc, line, rows, used, function, place, arguments)
}

/// The type of an expression and what it does, or its first fault: operands from left to right,
/// then their operator.
#[cycle(expression)]
pub fn check_expression(
    alloc: Global,
    names: &Names,
    rows: &[CallRow],
    used: &mut Used,
    e: &Expr,
) -> Result<Typed, CFault>
    ensures { IsGivenUsing result used.new (expression_check names.now rows.now e.now used.old) }
{
    let line = e.line;
    match &e.kind {
        ExprKind::Name(name) => name_value(names, line, name.as_slice()),
        ExprKind::Number(n) => Ok(number(*n)),
        ExprKind::Char(c) => Ok(number(u32::from(*c))),
        ExprKind::Text(bytes) => text(alloc, used, bytes.as_slice()),
        ExprKind::SizeOfName(name) => name_size(names, line, name.as_slice()),
        ExprKind::SizeOfType(base) => Ok(number(base_bytes(*base))),
        ExprKind::Paren(a) => check_one(alloc, names, rows, used, line, Before::Paren, a.get()),
        ExprKind::Unary(op, a) => {
            check_one(alloc, names, rows, used, line, Before::Unary(*op), a.get())
        }
        ExprKind::Cast(base, star, a) => {
            check_one(
                alloc,
                names,
                rows,
                used,
                line,
                Before::Cast(*base, *star),
                a.get(),
            )
        }
        ExprKind::Index(a, i) => {
            check_two(
                alloc,
                names,
                rows,
                used,
                line,
                Between::Index,
                a.get(),
                i.get(),
            )
        }
        ExprKind::AddressOf(a, i) => {
            check_two(
                alloc,
                names,
                rows,
                used,
                line,
                Between::AddressOf,
                a.get(),
                i.get(),
            )
        }
        ExprKind::Binary(op, a, b) => {
            check_two(
                alloc,
                names,
                rows,
                used,
                line,
                Between::Binary(*op),
                a.get(),
                b.get(),
            )
        }
        ExprKind::Conditional(c, a, b) => {
            check_choice(alloc, names, rows, used, line, c.get(), a.get(), b.get())
        }
        ExprKind::Before(op, p) => {
            check_step(alloc, names, rows, used, line, StepValue::New, *op, p.get())
        }
        ExprKind::After(op, p) => {
            check_step(alloc, names, rows, used, line, StepValue::Old, *op, p.get())
        }
        ExprKind::Assign(op, p, a) => {
            check_assignment(alloc, names, rows, used, line, *op, p.get(), a.get())
        }
        ExprKind::Call(name, arguments) => {
            check_call(alloc, names, rows, used, line, name, arguments.as_slice())
        }
    }
}

/// The place `a[i]`.
#[cycle(expression)]
fn check_element(
    alloc: Global,
    names: &Names,
    rows: &[CallRow],
    used: &mut Used,
    line: u32,
    a: &Expr,
    i: &Expr,
) -> Result<Target, CFault>
    ensures { IsGivenUsing result used.new (two index_place line (expression_check names.now rows.now a.now) (expression_check names.now rows.now i.now) used.old) }
{
    let (a, i) = check_pair(alloc, names, rows, used, a, i)?;
    place_at(alloc, line, a, i)
}

/// The place `*e`.
#[cycle(expression)]
fn check_pointed(
    alloc: Global,
    names: &Names,
    rows: &[CallRow],
    used: &mut Used,
    line: u32,
    a: &Expr,
) -> Result<Target, CFault>
    ensures { IsGivenUsing result used.new (one deref_place line (expression_check names.now rows.now a.now) used.old) }
{
    let a = check_expression(alloc, names, rows, used, a)?;
    pointed(alloc, line, a)
}

/// A place that an operator would write to, or its first fault.
#[cycle(expression)]
fn check_place(
    alloc: Global,
    names: &Names,
    rows: &[CallRow],
    used: &mut Used,
    p: &Place,
) -> Result<Target, CFault>
    ensures { IsGivenUsing result used.new (place_check names.now rows.now p.now used.old) }
{
    let line = p.line;
    match &p.kind {
        PlaceKind::Name(name) => name_place(names, line, name.as_slice()),
        PlaceKind::Index(a, i) => {
            check_element(alloc, names, rows, used, line, a.get(), i.get())
        }
        PlaceKind::Deref(a) => check_pointed(alloc, names, rows, used, line, a.get()),
    }
}
