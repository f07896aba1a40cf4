ghost use Rattle.std.specs.Prelude.{◌≡◌, ◌<◌, ◌≤◌, length, IfOk};
ghost use Rattle.nx_grammar.specs.Reading.{dispatch};
ghost use Rattle.nx_cexpr.specs.Answers.{Gives};
ghost use Rattle.nx_cstmt.specs.Answers.{ReadsParts, ReadsTo};
ghost use Rattle.nx_cstmt.specs.Reading.{part_pick, test_at, else_pick, if_rest, jump_rest, return_rest, stmt_at};

use crate::inner::{Answer, branch};
use crate::parts::{ended, test};
use nx_cexpr::{ParseStop, expect};
use nx_ctree::{Expr, Sign, Signed, Stmt, StmtKind};
use nx_grammar::Kind;
use nx_shared::Shared;
use std::alloc::Global;

/// After `break` and `continue` (C11 section 6.8.6).
#[tactic(auto, unfolding(crate::specs::Reading::jump_rest))]
pub fn jump_rest<'a>(
    first: &Signed<'a>,
    kind: StmtKind,
    tokens: &'a [Signed<'a>],
) -> Answer<'a, Stmt>
    ensures gives { Gives (λ x. (x.0, x.1.now)) result (jump_rest first.now kind tokens.now) }
    ensures shorter { IfOk result (λ x. length x.1.now ≤ length tokens.now) }
{
    let line = first.line;
    let (_, rest) = expect(tokens, Sign::Semicolon)?;
    Ok((Stmt { line, kind }, rest))
}

/// After `return`.
#[tactic(auto, unfolding(crate::specs::Reading::return_rest))]
pub fn return_rest<'a, P: for<'b> Fn(&'b [Signed<'b>], u32) -> Answer<'b, Expr>>(
    alloc: Global,
    parts: &P,
    first: &Signed<'a>,
    tokens: &'a [Signed<'a>],
    depth: u32,
) -> Answer<'a, Stmt>
    requires small { depth ≤ 64 }
    requires parts { ReadsParts (P.pre parts.now) (P.post parts.now) }
    ensures gives { Gives (λ x. (x.0, x.1.now)) result (return_rest (part_pick depth) first.now tokens.now) }
    ensures shorter { IfOk result (λ x. length x.1.now ≤ length tokens.now) }
{
    let line = first.line;
    let (value, rest) = ended(alloc, parts, tokens, Sign::Semicolon, depth)?;
    let kind = StmtKind::Return(value);
    Ok((Stmt { line, kind }, rest))
}

/// What stands after the first branch of an `if`: an `else` belongs to it.
fn else_rest<'a, F: Fn(&'a [Signed<'a>], bool) -> Answer<'a, Stmt>>(
    alloc: Global,
    reader: &F,
    first: &Signed<'a>,
    condition: Shared<Expr>,
    body: Shared<Stmt>,
    tokens: &'a [Signed<'a>],
    depth: u32,
    in_loop: bool,
) -> Answer<'a, Stmt>
    requires reader { ReadsTo (F.pre reader.now) (F.post reader.now) depth }
    ensures gives { Gives (λ x. (x.0, x.1.now)) result (dispatch (else_pick (stmt_at part_pick depth in_loop) first.now condition body) tokens.now) }
    ensures shorter { IfOk result (λ x. length x.1.now ≤ length tokens.now) }
{
    let line = first.line;
    match tokens {
        [] => Err(ParseStop::Fault(Kind::Syntax, tokens)),
        [next, after @ ..] if next.sign == Sign::Else => {
            let (other, rest) = branch(alloc, reader, after, depth, in_loop)?;
            let kind = StmtKind::IfElse(condition, body, other);
            Ok((Stmt { line, kind }, rest))
        }
        _ => {
            let kind = StmtKind::If(condition, body);
            Ok((Stmt { line, kind }, tokens))
        }
    }
}

/// After `if` (C11 section 6.8.4).
#[tactic(auto, unfolding(crate::specs::Reading::if_rest))]
pub fn if_rest<
    'a,
    P: for<'b> Fn(&'b [Signed<'b>], u32) -> Answer<'b, Expr>,
    F: Fn(&'a [Signed<'a>], bool) -> Answer<'a, Stmt>,
>(
    alloc: Global,
    parts: &P,
    reader: &F,
    first: &Signed<'a>,
    tokens: &'a [Signed<'a>],
    depth: u32,
    in_loop: bool,
) -> Answer<'a, Stmt>
    requires small { depth ≤ 64 }
    requires parts { ReadsParts (P.pre parts.now) (P.post parts.now) }
    requires reader { ReadsTo (F.pre reader.now) (F.post reader.now) depth }
    ensures gives { Gives (λ x. (x.0, x.1.now)) result (if_rest (test_at (dispatch (part_pick depth))) (stmt_at part_pick depth in_loop) first.now tokens.now) }
    ensures shorter { IfOk result (λ x. length x.1.now ≤ length tokens.now) }
{
    let (condition, rest) = test(alloc, parts, tokens, depth)?;
    let (body, rest) = branch(alloc, reader, rest, depth, in_loop)?;
    else_rest(alloc, reader, first, condition, body, rest, depth, in_loop)
}
