ghost use Rattle.std.specs.Prelude.{◌≡◌, ◌<◌, ◌≤◌, length, IfOk};
ghost use Rattle.nx_grammar.specs.Reading.{seq};
ghost use Rattle.nx_ctree.specs.declared.sign.Sign.TheVariants.{CloseBrace};
ghost use Rattle.nx_cexpr.specs.Answers.{Gives};
ghost use Rattle.nx_cexpr.specs.Signs.{is_sign};
ghost use Rattle.nx_cstmt.specs.Answers.{ReadsTo};
ghost use Rattle.nx_cstmt.specs.Lists.{is_over, add};
ghost use Rattle.nx_cstmt.specs.Reading.{part_pick, block_rest, stmt_pick, stmt_at, stmts_at};

use nx_cexpr::{ParseStop, Rest, expect};
use nx_cstmt::inner::{Answer, inner};
use nx_ctree::{Sign, Signed, Stmt, StmtKind};
use nx_shared::Shared;
use sqlite_items::Items;
use std::alloc::Global;

fn is_closed(tokens: &[Signed]) -> bool
    ensures { result ≡ is_over (is_sign CloseBrace) tokens.now }
{
    match tokens {
        [first, ..] => first.sign == Sign::CloseBrace,
        [] => false,
    }
}

/// A statement more.
fn add_statement<'a, F: Fn(&'a [Signed<'a>], bool) -> Answer<'a, Stmt>>(
    reader: &F,
    items: &mut Items<Stmt>,
    tokens: &'a [Signed<'a>],
    depth: u32,
    in_loop: bool,
) -> Result<&'a [Signed<'a>], ParseStop<'a>>
    requires reader { ReadsTo (F.pre reader.now) (F.post reader.now) depth }
    ensures gives { Gives (λ x. (items.new, x.now)) result (seq (stmt_at part_pick depth in_loop) (add items.old) tokens.now) }
    ensures shorter { IfOk result (λ x. length x.now < length tokens.now) }
{
    let (item, rest) = inner(reader, tokens, depth, in_loop)?;
    items.push(item)?;
    Ok(rest)
}

/// The statements before a closing brace, each of at most so many nodes deep.
pub(crate) fn listed<'a, F: Fn(&'a [Signed<'a>], bool) -> Answer<'a, Stmt>>(
    alloc: Global,
    reader: &F,
    tokens: &'a [Signed<'a>],
    depth: u32,
    in_loop: bool,
) -> Answer<'a, Items<Stmt>>
    requires reader { ReadsTo (F.pre reader.now) (F.post reader.now) depth }
    ensures gives { Gives (λ x. (x.0, x.1.now)) result (stmts_at (stmt_pick part_pick depth in_loop) tokens.now) }
    ensures shorter { IfOk result (λ x. length x.1.now ≤ length tokens.now) }
{
    let mut items = Items::new(alloc);
    let mut rest = Rest::new(tokens);
    while !is_closed(rest.tokens()) {
        match add_statement(reader, &mut items, rest.tokens(), depth, in_loop) {
            Err(stop) => return Err(stop),
            Ok(after) => rest = Rest::new(after),
        }
    }
    Ok((items, rest.tokens()))
}

/// The same and the brace, after the one that opens them.
#[tactic(auto, unfolding(nx_cstmt::specs::Reading::block_rest))]
pub(crate) fn block_rest<'a, F: Fn(&'a [Signed<'a>], bool) -> Answer<'a, Stmt>>(
    alloc: Global,
    reader: &F,
    first: &Signed<'a>,
    tokens: &'a [Signed<'a>],
    depth: u32,
    in_loop: bool,
) -> Answer<'a, Stmt>
    requires reader { ReadsTo (F.pre reader.now) (F.post reader.now) depth }
    ensures gives { Gives (λ x. (x.0, x.1.now)) result (block_rest (stmt_pick part_pick depth in_loop) first.now tokens.now) }
    ensures shorter { IfOk result (λ x. length x.1.now ≤ length tokens.now) }
{
    let line = first.line;
    let (items, rest) = listed(alloc, reader, tokens, depth, in_loop)?;
    let (_, rest) = expect(rest, Sign::CloseBrace)?;
    let kind = StmtKind::Block(Shared::new(alloc, items)?);
    Ok((Stmt { line, kind }, rest))
}
