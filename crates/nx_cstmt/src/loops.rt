ghost use Rattle.std.specs.Prelude.{◌≡◌, ◌<◌, ◌≤◌, length, IfOk, true};
ghost use Rattle.nx_grammar.specs.Reading.{dispatch};
ghost use Rattle.nx_cexpr.specs.Answers.{Gives};
ghost use Rattle.nx_cstmt.specs.Answers.{ReadsParts, ReadsTo};
ghost use Rattle.nx_cstmt.specs.Reading.{part_pick, test_at, while_rest, do_rest, for_rest, stmt_at};

use crate::inner::{Answer, branch};
use crate::parts::{ended, test};
use nx_cexpr::expect;
use nx_ctree::{Expr, Sign, Signed, Stmt, StmtKind};
use std::alloc::Global;

/// After `while` (C11 section 6.8.5).
#[tactic(auto, unfolding(crate::specs::Reading::while_rest))]
pub fn while_rest<
    'a,
    P: for<'b> Fn(&'b [Signed<'b>], u32) -> Answer<'b, Expr>,
    F: Fn(&'a [Signed<'a>], bool) -> Answer<'a, Stmt>,
>(
    alloc: Global,
    parts: &P,
    reader: &F,
    first: &Signed<'a>,
    tokens: &'a [Signed<'a>],
    depth: u32,
) -> Answer<'a, Stmt>
    requires small { depth ≤ 64 }
    requires parts { ReadsParts (P.pre parts.now) (P.post parts.now) }
    requires reader { ReadsTo (F.pre reader.now) (F.post reader.now) depth }
    ensures gives { Gives (λ x. (x.0, x.1.now)) result (while_rest (test_at (dispatch (part_pick depth))) (stmt_at part_pick depth true) first.now tokens.now) }
    ensures shorter { IfOk result (λ x. length x.1.now ≤ length tokens.now) }
{
    let line = first.line;
    let (condition, rest) = test(alloc, parts, tokens, depth)?;
    let (body, rest) = branch(alloc, reader, rest, depth, true)?;
    let kind = StmtKind::While(condition, body);
    Ok((Stmt { line, kind }, rest))
}

/// After `do`.
#[tactic(auto, unfolding(crate::specs::Reading::do_rest))]
pub fn do_rest<
    'a,
    P: for<'b> Fn(&'b [Signed<'b>], u32) -> Answer<'b, Expr>,
    F: Fn(&'a [Signed<'a>], bool) -> Answer<'a, Stmt>,
>(
    alloc: Global,
    parts: &P,
    reader: &F,
    first: &Signed<'a>,
    tokens: &'a [Signed<'a>],
    depth: u32,
) -> Answer<'a, Stmt>
    requires small { depth ≤ 64 }
    requires parts { ReadsParts (P.pre parts.now) (P.post parts.now) }
    requires reader { ReadsTo (F.pre reader.now) (F.post reader.now) depth }
    ensures gives { Gives (λ x. (x.0, x.1.now)) result (do_rest (test_at (dispatch (part_pick depth))) (stmt_at part_pick depth true) first.now tokens.now) }
    ensures shorter { IfOk result (λ x. length x.1.now ≤ length tokens.now) }
{
    let line = first.line;
    let (body, rest) = branch(alloc, reader, tokens, depth, true)?;
    let (_, rest) = expect(rest, Sign::While)?;
    let (condition, rest) = test(alloc, parts, rest, depth)?;
    let (_, rest) = expect(rest, Sign::Semicolon)?;
    let kind = StmtKind::Do(body, condition);
    Ok((Stmt { line, kind }, rest))
}

/// After `for`.
#[tactic(auto, unfolding(crate::specs::Reading::for_rest))]
pub fn for_rest<
    'a,
    P: for<'b> Fn(&'b [Signed<'b>], u32) -> Answer<'b, Expr>,
    F: Fn(&'a [Signed<'a>], bool) -> Answer<'a, Stmt>,
>(
    alloc: Global,
    parts: &P,
    reader: &F,
    first: &Signed<'a>,
    tokens: &'a [Signed<'a>],
    depth: u32,
) -> Answer<'a, Stmt>
    requires small { depth ≤ 64 }
    requires parts { ReadsParts (P.pre parts.now) (P.post parts.now) }
    requires reader { ReadsTo (F.pre reader.now) (F.post reader.now) depth }
    ensures gives { Gives (λ x. (x.0, x.1.now)) result (for_rest (part_pick depth) (stmt_at part_pick depth true) first.now tokens.now) }
    ensures shorter { IfOk result (λ x. length x.1.now ≤ length tokens.now) }
{
    let line = first.line;
    let (_, rest) = expect(tokens, Sign::OpenParen)?;
    let (start, rest) = ended(alloc, parts, rest, Sign::Semicolon, depth)?;
    let (condition, rest) = ended(alloc, parts, rest, Sign::Semicolon, depth)?;
    let (step, rest) = ended(alloc, parts, rest, Sign::CloseParen, depth)?;
    let (body, rest) = branch(alloc, reader, rest, depth, true)?;
    let kind = StmtKind::For(start, condition, step, body);
    Ok((Stmt { line, kind }, rest))
}
