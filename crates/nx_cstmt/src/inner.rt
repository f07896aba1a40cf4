ghost use Rattle.std.specs.Prelude.{◌≡◌, ◌<◌, ◌≤◌, length, IfOk};
ghost use Rattle.nx_grammar.specs.Reading.{dispatch};
ghost use Rattle.nx_cexpr.specs.Answers.{Gives};
ghost use Rattle.nx_cstmt.specs.Answers.{ReadsParts, ReadsTo};
ghost use Rattle.nx_cstmt.specs.Reading.{part_pick, stmt_at};

use nx_cexpr::ParseStop;
use nx_ctree::{Expr, Signed, Stmt};
use nx_shared::Shared;
use std::alloc::Global;

/// What was read and the tokens after it, or why nothing was.
pub type Answer<'a, T> = Result<(T, &'a [Signed<'a>]), ParseStop<'a>>;

/// An expression of at most so many nodes, by what reads it.
pub fn part<'a, P: for<'b> Fn(&'b [Signed<'b>], u32) -> Answer<'b, Expr>>(
    parts: &P,
    tokens: &'a [Signed<'a>],
    depth: u32,
) -> Answer<'a, Expr>
    requires small { depth ≤ 64 }
    requires parts { ReadsParts (P.pre parts.now) (P.post parts.now) }
    ensures gives { Gives (λ x. (x.0, x.1.now)) result (dispatch (part_pick depth) tokens.now) }
    ensures shorter { IfOk result (λ x. length x.1.now < length tokens.now) }
{
    parts(tokens, depth)
}

/// A statement further down, by what reads it.
pub fn inner<'a, F: Fn(&'a [Signed<'a>], bool) -> Answer<'a, Stmt>>(
    reader: &F,
    tokens: &'a [Signed<'a>],
    depth: u32,
    in_loop: bool,
) -> Answer<'a, Stmt>
    requires { ReadsTo (F.pre reader.now) (F.post reader.now) depth }
    ensures gives { Gives (λ x. (x.0, x.1.now)) result (stmt_at part_pick depth in_loop tokens.now) }
    ensures shorter { IfOk result (λ x. length x.1.now < length tokens.now) }
{
    reader(tokens, in_loop)
}

/// The same, where it is a part of another.
pub fn branch<'a, F: Fn(&'a [Signed<'a>], bool) -> Answer<'a, Stmt>>(
    alloc: Global,
    reader: &F,
    tokens: &'a [Signed<'a>],
    depth: u32,
    in_loop: bool,
) -> Answer<'a, Shared<Stmt>>
    requires { ReadsTo (F.pre reader.now) (F.post reader.now) depth }
    ensures gives { Gives (λ x. (x.0, x.1.now)) result (stmt_at part_pick depth in_loop tokens.now) }
    ensures shorter { IfOk result (λ x. length x.1.now < length tokens.now) }
{
    let (body, rest) = inner(reader, tokens, depth, in_loop)?;
    Ok((Shared::new(alloc, body)?, rest))
}
