ghost use Rattle.std.specs.Prelude.{◌≡◌};
ghost use Rattle.nx_crules.specs.Answers.{at, IsGiven};
ghost use Rattle.nx_crules.specs.Rules.{wrong};
ghost use Rattle.nx_ctyping.specs.Checks.{IsGivenUsing, one};
ghost use Rattle.nx_cexprcheck.specs.Code.{expression_check};
ghost use Rattle.nx_cbody.specs.Statements.{number_rule, value_rule, nothing_rule, present};
ghost use Rattle.nx_cstmtcheck.specs.Code.{wanted_rule, return_rule, run_rule, maybe_check, returned_check, head_check};

use crate::made::{Head, make_run};
use nx_calls::CallRow;
use nx_cexprcheck::check_expression;
use nx_checked::{CheckedExpr, CheckedStmt};
use nx_crules::{CType, Typed};
use nx_ctok::{CFault, CKind};
use nx_ctree::Expr;
use nx_ctype::{Names, Used};
use nx_shared::Shared;
use std::alloc::Global;

/// What is wanted of an expression.
#[derive(Clone, Copy, Debug)]
pub(crate) enum Wanted {
    Number,
    /// A number or a pointer.
    Value,
    /// No expression at all.
    Nothing,
}

fn mismatch(line: u32) -> CFault
    ensures { result ≡ CFault.Text line CKind.TypeMismatch }
{
    CFault::Text {
        line,
        kind: CKind::TypeMismatch,
    }
}

/// A number alone.
fn number(alloc: Global, line: u32, x: Typed) -> Result<Shared<CheckedExpr>, CFault>
    ensures { IsGiven result (at line (number_rule x)) }
{
    match x.gives {
        CType::Int => Ok(Shared::new(alloc, x.tree)?),
        _ => Err(mismatch(line)),
    }
}

/// A number alone, of an expression that may be absent.
fn some_number(alloc: Global, line: u32, x: Typed) -> Result<Option<Shared<CheckedExpr>>, CFault>
    ensures { IsGiven result (at line (present (number_rule x))) }
{
    match x.gives {
        CType::Int => Ok(Some(Shared::new(alloc, x.tree)?)),
        _ => Err(mismatch(line)),
    }
}

/// What has a value, of an expression that may be absent.
fn some_value(alloc: Global, line: u32, x: Typed) -> Result<Option<Shared<CheckedExpr>>, CFault>
    ensures { IsGiven result (at line (present (value_rule x))) }
{
    match x.gives {
        CType::Void => Err(mismatch(line)),
        _ => Ok(Some(Shared::new(alloc, x.tree)?)),
    }
}

/// What is wanted, of an expression that may be absent.
fn some(
    alloc: Global,
    line: u32,
    wanted: Wanted,
    x: Typed,
) -> Result<Option<Shared<CheckedExpr>>, CFault>
    ensures { IsGiven result (at line (wanted_rule wanted x)) }
{
    match wanted {
        Wanted::Number => some_number(alloc, line, x),
        Wanted::Value => some_value(alloc, line, x),
        Wanted::Nothing => Err(mismatch(line)),
    }
}

/// A condition.
pub(crate) fn condition(
    alloc: Global,
    names: &Names,
    rows: &[CallRow],
    used: &mut Used,
    line: u32,
    c: &Expr,
) -> Result<Shared<CheckedExpr>, CFault>
    ensures { IsGivenUsing result used.new (one number_rule line (expression_check names.now rows.now c.now) used.old) }
{
    let c = check_expression(alloc, names, rows, used, c)?;
    number(alloc, line, c)
}

/// An expression that is there, where it might be absent.
fn there(
    alloc: Global,
    names: &Names,
    rows: &[CallRow],
    used: &mut Used,
    line: u32,
    wanted: Wanted,
    e: &Expr,
) -> Result<Option<Shared<CheckedExpr>>, CFault>
    ensures { IsGivenUsing result used.new (one (wanted_rule wanted) line (expression_check names.now rows.now e.now) used.old) }
{
    let e = check_expression(alloc, names, rows, used, e)?;
    some(alloc, line, wanted, e)
}

/// An expression that may be absent.
fn maybe(
    alloc: Global,
    names: &Names,
    rows: &[CallRow],
    used: &mut Used,
    line: u32,
    wanted: Wanted,
    e: &Option<Shared<Expr>>,
) -> Result<Option<Shared<CheckedExpr>>, CFault>
    ensures { IsGivenUsing result used.new (maybe_check names.now rows.now wanted line e.now used.old) }
{
    match e {
        None => Ok(None),
        Some(e) => there(alloc, names, rows, used, line, wanted, e.get()),
    }
}

/// The three expressions of `for`.
pub(crate) fn head(
    alloc: Global,
    names: &Names,
    rows: &[CallRow],
    used: &mut Used,
    line: u32,
    first: &Option<Shared<Expr>>,
    test: &Option<Shared<Expr>>,
    next: &Option<Shared<Expr>>,
) -> Result<Head, CFault>
    ensures { IsGivenUsing result used.new (head_check names.now rows.now line first.now test.now next.now used.old) }
{
    let first = maybe(alloc, names, rows, used, line, Wanted::Value, first)?;
    let test = maybe(alloc, names, rows, used, line, Wanted::Number, test)?;
    let next = maybe(alloc, names, rows, used, line, Wanted::Value, next)?;
    Ok((first, test, next))
}

/// No expression where a number is wanted.
fn lacking(line: u32) -> Result<Option<Shared<CheckedExpr>>, CFault>
    ensures { result ≡ at line wrong }
{
    Err(mismatch(line))
}

/// What a function returns.
fn returned(
    alloc: Global,
    names: &Names,
    rows: &[CallRow],
    used: &mut Used,
    returns: bool,
    line: u32,
    e: &Option<Shared<Expr>>,
) -> Result<Option<Shared<CheckedExpr>>, CFault>
    ensures { IsGivenUsing result used.new (returned_check names.now rows.now returns line e.now used.old) }
{
    if !returns {
        return maybe(alloc, names, rows, used, line, Wanted::Nothing, e);
    }
    match e {
        None => lacking(line),
        Some(e) => there(alloc, names, rows, used, line, Wanted::Number, e.get()),
    }
}

/// `return`
pub(crate) fn check_return(
    alloc: Global,
    names: &Names,
    rows: &[CallRow],
    used: &mut Used,
    returns: bool,
    line: u32,
    e: &Option<Shared<Expr>>,
) -> Result<CheckedStmt, CFault>
    ensures { IsGivenUsing result used.new (one return_rule line (returned_check names.now rows.now returns line e.now) used.old) }
{
    let e = returned(alloc, names, rows, used, returns, line, e)?;
    Ok(CheckedStmt::Return(e))
}

/// An expression statement.
pub(crate) fn run(
    alloc: Global,
    names: &Names,
    rows: &[CallRow],
    used: &mut Used,
    line: u32,
    e: &Expr,
) -> Result<CheckedStmt, CFault>
    ensures { IsGivenUsing result used.new (one run_rule line (expression_check names.now rows.now e.now) used.old) }
{
    let e = check_expression(alloc, names, rows, used, e)?;
    make_run(alloc, e.tree)
}
