ghost use Rattle.std.specs.Prelude.{◌≡◌, ◌<◌, ◌≤◌, length, IfOk};
ghost use Rattle.nx_grammar.specs.Reading.{dispatch, then_pick};
ghost use Rattle.nx_cexpr.specs.Answers.{Gives};
ghost use Rattle.nx_cstmt.specs.Answers.{ReadsParts};
ghost use Rattle.nx_cstmt.specs.Reading.{part_pick, test_at, ended_pick, ended_rest, expression_rest};

use crate::inner::{Answer, part};
use nx_cexpr::expect;
use nx_ctree::{Expr, Sign, Signed, Stmt, StmtKind};
use nx_shared::Shared;
use std::alloc::Global;

/// An expression in parentheses.
#[tactic(auto, unfolding(crate::specs::Reading::test_at))]
pub fn test<'a, P: for<'b> Fn(&'b [Signed<'b>], u32) -> Answer<'b, Expr>>(
    alloc: Global,
    parts: &P,
    tokens: &'a [Signed<'a>],
    depth: u32,
) -> Answer<'a, Shared<Expr>>
    requires small { depth ≤ 64 }
    requires parts { ReadsParts (P.pre parts.now) (P.post parts.now) }
    ensures gives { Gives (λ x. (x.0, x.1.now)) result (test_at (dispatch (part_pick depth)) tokens.now) }
    ensures shorter { IfOk result (λ x. length x.1.now ≤ length tokens.now) }
{
    let (_, rest) = expect(tokens, Sign::OpenParen)?;
    let (expr, rest) = part(parts, rest, depth)?;
    let (_, rest) = expect(rest, Sign::CloseParen)?;
    Ok((Shared::new(alloc, expr)?, rest))
}

/// An expression, and the sign that ends it.
#[tactic(auto, unfolding(crate::specs::Reading::ended_rest), using(crate::proofs::Expressions::part_then))]
fn given<'a, P: for<'b> Fn(&'b [Signed<'b>], u32) -> Answer<'b, Expr>>(
    alloc: Global,
    parts: &P,
    tokens: &'a [Signed<'a>],
    end: Sign,
    depth: u32,
) -> Answer<'a, Option<Shared<Expr>>>
    requires small { depth ≤ 64 }
    requires parts { ReadsParts (P.pre parts.now) (P.post parts.now) }
    ensures gives { Gives (λ x. (x.0, x.1.now)) result (dispatch (λ t. then_pick (part_pick depth t) (ended_rest end)) tokens.now) }
    ensures shorter { IfOk result (λ x. length x.1.now ≤ length tokens.now) }
{
    let (expr, rest) = part(parts, tokens, depth)?;
    let (_, rest) = expect(rest, end)?;
    Ok((Some(Shared::new(alloc, expr)?), rest))
}

/// An expression that may be absent, and the sign that ends it.
pub fn ended<'a, P: for<'b> Fn(&'b [Signed<'b>], u32) -> Answer<'b, Expr>>(
    alloc: Global,
    parts: &P,
    tokens: &'a [Signed<'a>],
    end: Sign,
    depth: u32,
) -> Answer<'a, Option<Shared<Expr>>>
    requires small { depth ≤ 64 }
    requires parts { ReadsParts (P.pre parts.now) (P.post parts.now) }
    ensures gives { Gives (λ x. (x.0, x.1.now)) result (dispatch (ended_pick (part_pick depth) end) tokens.now) }
    ensures shorter { IfOk result (λ x. length x.1.now ≤ length tokens.now) }
{
    match tokens {
        [first, rest @ ..] if first.sign == end => Ok((None, rest)),
        _ => given(alloc, parts, tokens, end, depth),
    }
}

/// An expression and its semicolon.
#[tactic(auto, unfolding(crate::specs::Reading::expression_rest), using(crate::proofs::Expressions::part_then))]
pub fn expression_statement<'a, P: for<'b> Fn(&'b [Signed<'b>], u32) -> Answer<'b, Expr>>(
    alloc: Global,
    parts: &P,
    tokens: &'a [Signed<'a>],
    depth: u32,
) -> Answer<'a, Stmt>
    requires small { depth ≤ 64 }
    requires parts { ReadsParts (P.pre parts.now) (P.post parts.now) }
    ensures gives { Gives (λ x. (x.0, x.1.now)) result (dispatch (λ t. then_pick (part_pick depth t) expression_rest) tokens.now) }
    ensures shorter { IfOk result (λ x. length x.1.now < length tokens.now) }
{
    let (expr, rest) = part(parts, tokens, depth)?;
    let (_, rest) = expect(rest, Sign::Semicolon)?;
    let line = expr.line;
    let kind = StmtKind::Expr(Shared::new(alloc, expr)?);
    Ok((Stmt { line, kind }, rest))
}
