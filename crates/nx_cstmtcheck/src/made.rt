ghost use Rattle.std.specs.Prelude.{Ok};
ghost use Rattle.nx_crules.specs.Answers.{IsGiven};
ghost use Rattle.nx_cstmtcheck.specs.Code.{tested_stmt};

use nx_checked::{CheckedExpr, CheckedStmt};
use nx_ctok::CFault;
use nx_shared::Shared;
use sqlite_items::Items;
use std::alloc::Global;

/// A statement with a condition before its part.
#[derive(Clone, Copy, Debug)]
pub(crate) enum Tested {
    If,
    While,
}

/// The three expressions of `for`.
pub(crate) type Head = (
    Option<Shared<CheckedExpr>>,
    Option<Shared<CheckedExpr>>,
    Option<Shared<CheckedExpr>>,
);

pub(crate) fn make_tested(
    alloc: Global,
    tested: Tested,
    c: Shared<CheckedExpr>,
    a: CheckedStmt,
) -> Result<CheckedStmt, CFault>
    ensures { IsGiven result (Ok (tested_stmt tested c a)) }
{
    let a = Shared::new(alloc, a)?;
    Ok(match tested {
        Tested::If => CheckedStmt::If(c, a),
        Tested::While => CheckedStmt::While(c, a),
    })
}

pub(crate) fn make_if_else(
    alloc: Global,
    c: Shared<CheckedExpr>,
    a: CheckedStmt,
    b: CheckedStmt,
) -> Result<CheckedStmt, CFault>
    ensures { IsGiven result (Ok (CheckedStmt.IfElse c a b)) }
{
    let a = Shared::new(alloc, a)?;
    let b = Shared::new(alloc, b)?;
    Ok(CheckedStmt::IfElse(c, a, b))
}

pub(crate) fn make_do(
    alloc: Global,
    a: CheckedStmt,
    c: Shared<CheckedExpr>,
) -> Result<CheckedStmt, CFault>
    ensures { IsGiven result (Ok (CheckedStmt.Do a c)) }
{
    let a = Shared::new(alloc, a)?;
    Ok(CheckedStmt::Do(a, c))
}

pub(crate) fn make_for(alloc: Global, head: Head, a: CheckedStmt) -> Result<CheckedStmt, CFault>
    ensures { IsGiven result (Ok (CheckedStmt.For head.0 head.1 head.2 a)) }
{
    let a = Shared::new(alloc, a)?;
    let (first, test, next) = head;
    Ok(CheckedStmt::For(first, test, next, a))
}

pub(crate) fn make_block(alloc: Global, ss: Items<CheckedStmt>) -> Result<CheckedStmt, CFault>
    ensures { IsGiven result (Ok (CheckedStmt.Block ss)) }
{
    let ss = Shared::new(alloc, ss)?;
    Ok(CheckedStmt::Block(ss))
}

pub(crate) fn make_run(alloc: Global, e: CheckedExpr) -> Result<CheckedStmt, CFault>
    ensures { IsGiven result (Ok (CheckedStmt.Expr e)) }
{
    let e = Shared::new(alloc, e)?;
    Ok(CheckedStmt::Expr(e))
}
