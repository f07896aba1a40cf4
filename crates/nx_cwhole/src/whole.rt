ghost use Rattle.std.specs.Prelude.{◌≡◌, ◌<◌, ◌≤◌, length, IfOk};
ghost use Rattle.nx_grammar.specs.Reading.{dispatch};
ghost use Rattle.nx_cexpr.specs.Reading.{level_at, expr_at};
ghost use Rattle.nx_cexpr.specs.Answers.{Gives, GivesFault, full_pick};

use nx_cexpr::operand::Operand;
use nx_cexpr::parts::tall;
use nx_cexpr::signs::{begins, full_fault};
use nx_cexpr::{ParseStop, Tall};
use nx_clevels::level;
use nx_cterm::below::{Answer, WHOLE};
use nx_ctree::Signed;
use nx_grammar::Kind;
use std::alloc::Global;

/// Why nothing is read where no node is left.
fn full<'a>(tokens: &'a [Signed<'a>]) -> ParseStop<'a>
    ensures { GivesFault result (dispatch full_pick tokens.now) }
{
    match tokens {
        [] => ParseStop::Fault(Kind::Syntax, tokens),
        [first, ..] => ParseStop::Fault(full_fault(begins(first.sign)), tokens),
    }
}

/// An expression of a level, with at most so many nodes on a path.
fn read<'a>(alloc: Global, tokens: &'a [Signed<'a>], depth: u32, n: u32) -> Answer<'a, Operand>
    requires small { depth ≤ 64 }
    requires level { n ≤ 13 }
    ensures gives { Gives (λ x. (x.0, x.1.now)) result (level_at depth n tokens.now) }
    ensures shorter { IfOk result (λ x. length x.1.now < length tokens.now) }
    ensures within { IfOk result (λ x. x.0.height ≤ depth) }
{
    if depth == 0 {
        Err(full(tokens))
    } else {
        level(
            alloc,
            &|tokens: &[Signed<'_>], lower: u32, n: u32| -> Answer<'_, Operand>
                requires small { depth ≤ 64 }
                requires lower { lower < depth }
                requires level { n ≤ 13 }
                ensures gives { Gives (λ x. (x.0, x.1.now)) result (level_at lower n tokens.now) }
                ensures shorter { IfOk result (λ x. length x.1.now < length tokens.now) }
                ensures within { IfOk result (λ x. x.0.height ≤ lower) }
            {
                prove!(lower < depth);
                read(alloc, tokens, lower, n)
            },
            tokens,
            depth - 1,
            n,
        )
    }
}

/// A whole expression (C11 section 6.5) with at most so many nodes on a path.
#[tactic(auto, using(nx_cexpr::proofs::Steps::level_then))]
pub fn expression<'a>(alloc: Global, tokens: &'a [Signed<'a>], depth: u32) -> Answer<'a, Tall>
    requires { depth ≤ 64 }
    ensures gives { Gives (λ x. (x.0, x.1.now)) result (expr_at depth tokens.now) }
    ensures shorter { IfOk result (λ x. length x.1.now < length tokens.now) }
{
    let (operand, rest) = read(alloc, tokens, depth, WHOLE)?;
    Ok((tall(alloc, operand)?, rest))
}
