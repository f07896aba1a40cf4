ghost use Rattle.nx_ctyping.specs.Checks.{IsGivenUsing, one, two, three, both};
ghost use Rattle.nx_cexprcheck.specs.Code.{expression_check};
ghost use Rattle.nx_cbody.specs.Statements.{number_rule};
ghost use Rattle.nx_cstmtcheck.specs.Code.{tested_rule, else_rule, do_rule, for_rule, block_rule, head_check, statement_check, statements_check};

use crate::made::{Tested, make_block, make_do, make_for, make_if_else, make_tested};
use crate::parts::{check_return, condition, head, run};
use nx_calls::CallRow;
use nx_checked::CheckedStmt;
use nx_ctok::CFault;
use nx_ctree::{Expr, Stmt, StmtKind};
use nx_ctype::{Names, Used};
use nx_shared::Shared;
use sqlite_items::Items;
use std::alloc::Global;

/// `if` without `else`, or `while`: the condition first.
#[cycle(statement)]
fn check_tested(
    alloc: Global,
    names: &Names,
    rows: &[CallRow],
    used: &mut Used,
    returns: bool,
    line: u32,
    tested: Tested,
    c: &Expr,
    a: &Stmt,
) -> Result<CheckedStmt, CFault>
    ensures { IsGivenUsing result used.new (two (tested_rule tested) line (one number_rule line (expression_check names.now rows.now c.now)) (statement_check names.now rows.now returns a.now) used.old) }
{
    let c = condition(alloc, names, rows, used, line, c)?;
    let a = check_statement(alloc, names, rows, used, returns, a)?;
    make_tested(alloc, tested, c, a)
}

/// Two statements, one after the other.
#[cycle(statement)]
fn check_both(
    alloc: Global,
    names: &Names,
    rows: &[CallRow],
    used: &mut Used,
    returns: bool,
    a: &Stmt,
    b: &Stmt,
) -> Result<(CheckedStmt, CheckedStmt), CFault>
    ensures { IsGivenUsing result used.new (both (statement_check names.now rows.now returns a.now) (statement_check names.now rows.now returns b.now) used.old) }
{
    let a = check_statement(alloc, names, rows, used, returns, a)?;
    let b = check_statement(alloc, names, rows, used, returns, b)?;
    Ok((a, b))
}

/// `if` with `else`.
#[cycle(statement)]
fn check_if_else(
    alloc: Global,
    names: &Names,
    rows: &[CallRow],
    used: &mut Used,
    returns: bool,
    line: u32,
    c: &Expr,
    a: &Stmt,
    b: &Stmt,
) -> Result<CheckedStmt, CFault>
    ensures { IsGivenUsing result used.new (three else_rule line (one number_rule line (expression_check names.now rows.now c.now)) (statement_check names.now rows.now returns a.now) (statement_check names.now rows.now returns b.now) used.old) }
{
    let c = condition(alloc, names, rows, used, line, c)?;
    let (a, b) = check_both(alloc, names, rows, used, returns, a, b)?;
    make_if_else(alloc, c, a, b)
}

/// `do`: its part first.
#[cycle(statement)]
fn check_do(
    alloc: Global,
    names: &Names,
    rows: &[CallRow],
    used: &mut Used,
    returns: bool,
    line: u32,
    a: &Stmt,
    c: &Expr,
) -> Result<CheckedStmt, CFault>
    ensures { IsGivenUsing result used.new (two do_rule line (statement_check names.now rows.now returns a.now) (one number_rule line (expression_check names.now rows.now c.now)) used.old) }
{
    let a = check_statement(alloc, names, rows, used, returns, a)?;
    let c = condition(alloc, names, rows, used, line, c)?;
    make_do(alloc, a, c)
}

/// `for`: its three expressions first.
#[cycle(statement)]
fn check_for(
    alloc: Global,
    names: &Names,
    rows: &[CallRow],
    used: &mut Used,
    returns: bool,
    line: u32,
    first: &Option<Shared<Expr>>,
    test: &Option<Shared<Expr>>,
    next: &Option<Shared<Expr>>,
    a: &Stmt,
) -> Result<CheckedStmt, CFault>
    ensures { IsGivenUsing result used.new (two for_rule line (head_check names.now rows.now line first.now test.now next.now) (statement_check names.now rows.now returns a.now) used.old) }
{
    let head = head(alloc, names, rows, used, line, first, test, next)?;
    let a = check_statement(alloc, names, rows, used, returns, a)?;
    make_for(alloc, head, a)
}

/// A block.
#[cycle(statement)]
fn check_block(
    alloc: Global,
    names: &Names,
    rows: &[CallRow],
    used: &mut Used,
    returns: bool,
    line: u32,
    statements: &[Stmt],
) -> Result<CheckedStmt, CFault>
    ensures { IsGivenUsing result used.new (one block_rule line (statements_check names.now rows.now returns statements.now) used.old) }
{
    let statements = check_statements(alloc, names, rows, used, returns, statements)?;
    make_block(alloc, statements)
}

/// What statements of a function do that returns a number or nothing, or their first fault: from
/// first to last.
#[cycle(statement)]
pub fn check_statements(
    alloc: Global,
    names: &Names,
    rows: &[CallRow],
    used: &mut Used,
    returns: bool,
    statements: &[Stmt],
) -> Result<Items<CheckedStmt>, CFault>
    ensures { IsGivenUsing result used.new (statements_check names.now rows.now returns statements.now used.old) }
{
    let mut done = Items::new(alloc);
    for statement in statements {
        let statement = check_statement(alloc, names, rows, used, returns, statement)?;
        done.push(statement)?;
    }
    Ok(done)
}

/// What a statement does, or its first fault.
#[cycle(statement)]
fn check_statement(
    alloc: Global,
    names: &Names,
    rows: &[CallRow],
    used: &mut Used,
    returns: bool,
    s: &Stmt,
) -> Result<CheckedStmt, CFault>
    ensures { IsGivenUsing result used.new (statement_check names.now rows.now returns s.now used.old) }
{
    let line = s.line;
    match &s.kind {
        StmtKind::Empty => Ok(CheckedStmt::Empty),
        StmtKind::Expr(e) => run(alloc, names, rows, used, line, e.get()),
        StmtKind::Block(ss) => {
            check_block(alloc, names, rows, used, returns, line, ss.get().as_slice())
        }
        StmtKind::If(c, a) => {
            check_tested(
                alloc,
                names,
                rows,
                used,
                returns,
                line,
                Tested::If,
                c.get(),
                a.get(),
            )
        }
        StmtKind::IfElse(c, a, b) => {
            check_if_else(
                alloc,
                names,
                rows,
                used,
                returns,
                line,
                c.get(),
                a.get(),
                b.get(),
            )
        }
        StmtKind::While(c, a) => {
            check_tested(
                alloc,
                names,
                rows,
                used,
                returns,
                line,
                Tested::While,
                c.get(),
                a.get(),
            )
        }
        StmtKind::Do(a, c) => check_do(alloc, names, rows, used, returns, line, a.get(), c.get()),
        StmtKind::For(first, test, next, a) => {
            check_for(
                alloc,
                names,
                rows,
                used,
                returns,
                line,
                first,
                test,
                next,
                a.get(),
            )
        }
        StmtKind::Break => Ok(CheckedStmt::Break),
        StmtKind::Continue => Ok(CheckedStmt::Continue),
        StmtKind::Return(e) => check_return(alloc, names, rows, used, returns, line, e),
    }
}
