ghost use Rattle.std.specs.Prelude.{◌≡◌, ◌<◌, ◌≤◌, length, IfOk};
ghost use Rattle.nx_grammar.specs.Reading.{dispatch};
ghost use Rattle.nx_ctok.specs.Tokens.{AreEnded};
ghost use Rattle.nx_ctree.specs.Programs.{IsUnit};
ghost use Rattle.nx_ctree.specs.declared.program.Unit.{Unit as File};
ghost use Rattle.nx_cexpr.specs.Answers.{Gives};
ghost use Rattle.nx_cstmt.specs.Reading.{part_pick};
ghost use Rattle.nx_cparse.specs.Answers.{signs_of, IsParsed, GivesTree};

use nx_cparse::parse_by;
use nx_cstmt::inner::Answer;
use nx_ctok::{CFault, Token};
use nx_ctree::{Expr, Signed, Unit};
use nx_cwhole::expression;
use std::alloc::Global;

/// The tree of an expression with at most so many nodes on a path.
#[tactic(auto, using(nx_cstmt::proofs::Expressions::part_on))]
fn whole<'a>(alloc: Global, tokens: &'a [Signed<'a>], depth: u32) -> Answer<'a, Expr>
    requires { depth ≤ 64 }
    ensures gives { Gives (λ x. (x.0, x.1.now)) result (dispatch (part_pick depth) tokens.now) }
    ensures shorter { IfOk result (λ x. length x.1.now < length tokens.now) }
{
    let (tall, rest) = expression(alloc, tokens, depth)?;
    Ok((tall.expr, rest))
}

/// The tree of a C program's tokens (C11 section 6.9), as far as this C has its grammar.
pub fn parse<'a>(alloc: Global, tokens: &[Token<'a>]) -> Result<Unit, CFault>
    requires { AreEnded tokens.now }
    // A tree is the tokens' by the grammar, and a fault stands at the first token that no accepted list has after those before it.
    ensures read { IsParsed (signs_of tokens.now) result }
    // What has a tree is read, with that tree, unless memory runs out.
    ensures only { (a : File) → IsUnit 64 (signs_of tokens.now) a → GivesTree result a }
{
    parse_by(
        alloc,
        &|tokens: &[Signed<'_>], depth: u32| -> Answer<'_, Expr>
            requires { depth ≤ 64 }
            ensures gives { Gives (λ x. (x.0, x.1.now)) result (dispatch (part_pick depth) tokens.now) }
            ensures shorter { IfOk result (λ x. length x.1.now < length tokens.now) }
        { whole(alloc, tokens, depth) },
        tokens,
    )
}
