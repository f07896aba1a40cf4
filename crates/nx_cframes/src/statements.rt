ghost use Rattle.std.specs.Prelude.{◌≡◌, max};
ghost use Rattle.nx_checked.specs.Frames.{values_of, option_values as values_of_option, values_in};
ghost use Rattle.nx_cframes.specs.Counts.{capped, block_values as values_of_block};

use crate::counts::{count, greater};
use crate::values::{option_values, values};
use nx_checked::{CheckedExpr, CheckedStmt};
use nx_shared::Shared;

/// A statement with a condition before its part.
#[cycle(statements)]
fn tested(c: &CheckedExpr, a: &CheckedStmt) -> u64
    ensures { result ≡ capped (max (values_of c.now) (values_in a.now)) }
{
    let test = values(c);
    let part = statement(a);
    greater(test, part)
}

#[cycle(statements)]
fn both(a: &CheckedStmt, b: &CheckedStmt) -> u64
    ensures { result ≡ capped (max (values_in a.now) (values_in b.now)) }
{
    let first = statement(a);
    let second = statement(b);
    greater(first, second)
}

#[cycle(statements)]
fn branched(c: &CheckedExpr, a: &CheckedStmt, b: &CheckedStmt) -> u64
    ensures { result ≡ capped (max (values_of c.now) (max (values_in a.now) (values_in b.now))) }
{
    let test = values(c);
    let parts = both(a, b);
    greater(test, parts)
}

#[cycle(statements)]
fn done(a: &CheckedStmt, c: &CheckedExpr) -> u64
    ensures { result ≡ capped (max (values_in a.now) (values_of c.now)) }
{
    let part = statement(a);
    let test = values(c);
    greater(part, test)
}

/// The test and the third expression of `for`, and its body.
#[cycle(statements)]
fn turned(
    test: &Option<Shared<CheckedExpr>>,
    next: &Option<Shared<CheckedExpr>>,
    a: &CheckedStmt,
) -> u64
    ensures { result ≡ capped (max (values_of_option test.now) (max (values_of_option next.now) (values_in a.now))) }
{
    let test = option_values(test);
    let next = option_values(next);
    let part = statement(a);
    greater(test, greater(next, part))
}

#[cycle(statements)]
fn looped(
    first: &Option<Shared<CheckedExpr>>,
    test: &Option<Shared<CheckedExpr>>,
    next: &Option<Shared<CheckedExpr>>,
    a: &CheckedStmt,
) -> u64
    ensures { result ≡ capped (max (values_of_option first.now) (max (values_of_option test.now) (max (values_of_option next.now) (values_in a.now)))) }
{
    let first = option_values(first);
    let turn = turned(test, next, a);
    greater(first, turn)
}

/// The greatest number of values of an expression of a statement.
#[cycle(statements)]
fn statement(s: &CheckedStmt) -> u64
    ensures { result ≡ capped (values_in s.now) }
{
    match s {
        CheckedStmt::Empty => count(0),
        CheckedStmt::Expr(e) => values(e.get()),
        CheckedStmt::Block(ss) => block_values(ss.get().as_slice()),
        CheckedStmt::If(c, a) => tested(c.get(), a.get()),
        CheckedStmt::IfElse(c, a, b) => branched(c.get(), a.get(), b.get()),
        CheckedStmt::While(c, a) => tested(c.get(), a.get()),
        CheckedStmt::Do(a, c) => done(a.get(), c.get()),
        CheckedStmt::For(first, test, next, a) => looped(first, test, next, a.get()),
        CheckedStmt::Break => count(0),
        CheckedStmt::Continue => count(0),
        CheckedStmt::Return(e) => option_values(e),
    }
}

/// The greatest number of values of an expression of one of these statements.
#[cycle(statements)]
pub(crate) fn block_values(ss: &[CheckedStmt]) -> u64
    ensures { result ≡ capped (values_of_block ss.now) }
{
    let mut left = ss.len();
    let mut most = count(0);
    while left > 0 {
        left -= 1;
        let first = statement(&ss[left]);
        most = greater(first, most);
    }
    most
}
