ghost use Rattle.std.specs.Prelude.{◌≡◌, ◌<◌, ◌≤◌, length, IfOk};
ghost use Rattle.nx_grammar.specs.Reading.{dispatch};
ghost use Rattle.nx_cexpr.specs.Answers.{Gives};
ghost use Rattle.nx_cexpr.specs.Reading.{has_node as node_left};
ghost use Rattle.nx_cstmt.specs.Answers.{ReadsParts, ReadsTo};
ghost use Rattle.nx_cstmt.specs.Reading.{part_pick, begun, barred, stmt_pick, stmt_at, stmts_at};

use crate::list::{block_rest, listed};
use nx_cexpr::ParseStop;
use nx_cexpr::tokens::has_node;
use nx_cstmt::forms::{if_rest, jump_rest, return_rest};
use nx_cstmt::inner::Answer;
use nx_cstmt::loops::{do_rest, for_rest, while_rest};
use nx_cstmt::parts::expression_statement;
use nx_ctree::{Expr, Sign, Signed, Stmt, StmtKind};
use nx_grammar::Kind;
use sqlite_items::Items;
use std::alloc::Global;

/// The statement at the front, whose parts have at most so many nodes.
fn begun<
    'a,
    P: for<'b> Fn(&'b [Signed<'b>], u32) -> Answer<'b, Expr>,
    F: Fn(&'a [Signed<'a>], bool) -> Answer<'a, Stmt>,
>(
    alloc: Global,
    parts: &P,
    reader: &F,
    tokens: &'a [Signed<'a>],
    depth: u32,
    in_loop: bool,
) -> Answer<'a, Stmt>
    requires small { depth ≤ 64 }
    requires parts { ReadsParts (P.pre parts.now) (P.post parts.now) }
    requires reader { ReadsTo (F.pre reader.now) (F.post reader.now) depth }
    ensures gives { Gives (λ x. (x.0, x.1.now)) result (dispatch (λ t. begun (part_pick depth) (stmt_pick part_pick depth) (node_left depth) in_loop t t.sign) tokens.now) }
    ensures shorter { IfOk result (λ x. length x.1.now < length tokens.now) }
{
    let fits = has_node(depth);
    match tokens {
        [] => Err(ParseStop::Fault(Kind::Syntax, tokens)),
        [first, rest @ ..] => match first.sign {
            Sign::Semicolon => Ok((
                Stmt {
                    line: first.line,
                    kind: StmtKind::Empty,
                },
                rest,
            )),
            Sign::OpenBrace => block_rest(alloc, reader, first, rest, depth, in_loop),
            Sign::If if fits => if_rest(alloc, parts, reader, first, rest, depth, in_loop),
            Sign::While if fits => while_rest(alloc, parts, reader, first, rest, depth),
            Sign::Do if fits => do_rest(alloc, parts, reader, first, rest, depth),
            Sign::For if fits => for_rest(alloc, parts, reader, first, rest, depth),
            Sign::If | Sign::While | Sign::Do | Sign::For => {
                Err(ParseStop::Fault(Kind::Limit, tokens))
            }
            Sign::Break if in_loop => jump_rest(first, StmtKind::Break, rest),
            Sign::Continue if in_loop => jump_rest(first, StmtKind::Continue, rest),
            Sign::Break | Sign::Continue => Err(ParseStop::Fault(Kind::Syntax, tokens)),
            Sign::Return => return_rest(alloc, parts, first, rest, depth),
            _ => expression_statement(alloc, parts, tokens, depth),
        },
    }
}

/// Where no node is left, no statement fits.
fn barred<'a, P: for<'b> Fn(&'b [Signed<'b>], u32) -> Answer<'b, Expr>>(
    alloc: Global,
    parts: &P,
    tokens: &'a [Signed<'a>],
    in_loop: bool,
) -> Answer<'a, Stmt>
    requires parts { ReadsParts (P.pre parts.now) (P.post parts.now) }
    ensures gives { Gives (λ x. (x.0, x.1.now)) result (dispatch (λ t. barred (part_pick 0) in_loop t t.sign) tokens.now) }
    ensures shorter { IfOk result (λ x. length x.1.now < length tokens.now) }
{
    match tokens {
        [] => Err(ParseStop::Fault(Kind::Syntax, tokens)),
        [first, ..] => match first.sign {
            Sign::Semicolon
            | Sign::OpenBrace
            | Sign::If
            | Sign::While
            | Sign::Do
            | Sign::For
            | Sign::Return => Err(ParseStop::Fault(Kind::Limit, tokens)),
            Sign::Break | Sign::Continue if in_loop => Err(ParseStop::Fault(Kind::Limit, tokens)),
            Sign::Break | Sign::Continue => Err(ParseStop::Fault(Kind::Syntax, tokens)),
            _ => expression_statement(alloc, parts, tokens, 0),
        },
    }
}

/// The statement at the front, of at most so many nodes deep.
#[tactic(auto, unfolding(nx_cstmt::specs::Reading::stmt_pick))]
fn statement<'a, P: for<'b> Fn(&'b [Signed<'b>], u32) -> Answer<'b, Expr>>(
    alloc: Global,
    parts: &P,
    tokens: &'a [Signed<'a>],
    depth: u32,
    in_loop: bool,
) -> Answer<'a, Stmt>
    requires small { depth ≤ 64 }
    requires parts { ReadsParts (P.pre parts.now) (P.post parts.now) }
    ensures gives { Gives (λ x. (x.0, x.1.now)) result (stmt_at part_pick depth in_loop tokens.now) }
    ensures shorter { IfOk result (λ x. length x.1.now < length tokens.now) }
{
    if depth == 0 {
        barred(alloc, parts, tokens, in_loop)
    } else {
        let lower = depth - 1;
        begun(
            alloc,
            parts,
            &|tokens: &[Signed<'_>], in_loop: bool| -> Answer<'_, Stmt>
                requires small { lower ≤ 63 }
                requires parts { ReadsParts (P.pre parts.now) (P.post parts.now) }
                ensures gives { Gives (λ x. (x.0, x.1.now)) result (stmt_at part_pick lower in_loop tokens.now) }
                ensures shorter { IfOk result (λ x. length x.1.now < length tokens.now) }
            { statement(alloc, parts, tokens, lower, in_loop) },
            tokens,
            lower,
            in_loop,
        )
    }
}

/// The statements before a closing brace, each of at most so many nodes deep.
pub fn statements<'a, P: for<'b> Fn(&'b [Signed<'b>], u32) -> Answer<'b, Expr>>(
    alloc: Global,
    parts: &P,
    tokens: &'a [Signed<'a>],
    depth: u32,
    in_loop: bool,
) -> Answer<'a, Items<Stmt>>
    requires small { depth ≤ 64 }
    requires parts { ReadsParts (P.pre parts.now) (P.post parts.now) }
    ensures gives { Gives (λ x. (x.0, x.1.now)) result (stmts_at (stmt_pick part_pick depth in_loop) tokens.now) }
    ensures shorter { IfOk result (λ x. length x.1.now ≤ length tokens.now) }
{
    listed(
        alloc,
        &|tokens: &[Signed<'_>], in_loop: bool| -> Answer<'_, Stmt>
            requires small { depth ≤ 64 }
            requires parts { ReadsParts (P.pre parts.now) (P.post parts.now) }
            ensures gives { Gives (λ x. (x.0, x.1.now)) result (stmt_at part_pick depth in_loop tokens.now) }
            ensures shorter { IfOk result (λ x. length x.1.now < length tokens.now) }
        { statement(alloc, parts, tokens, depth, in_loop) },
        tokens,
        depth,
        in_loop,
    )
}
