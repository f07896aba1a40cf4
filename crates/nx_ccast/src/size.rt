ghost use Rattle.std.specs.Prelude.{◌≡◌, ◌≤◌, length, IfOk};
ghost use Rattle.nx_grammar.specs.Reading.{dispatch, then_pick};
ghost use Rattle.nx_cexpr.specs.Reading as reading;
ghost use Rattle.nx_cexpr.specs.Types.{base_pick};
ghost use Rattle.nx_cexpr.specs.Answers.{Gives};

use nx_cexpr::operand::Operand;
use nx_cexpr::tokens::{expect, is_sign};
use nx_cexpr::trees::{size_of_name, size_of_type};
use nx_cexpr::{ParseStop, base};
use nx_cterm::below::Answer;
use nx_ctree::{Base, Sign, Signed};
use nx_grammar::Kind;
use std::alloc::Global;

/// The end of a `sizeof` of a name.
#[tactic(auto, unfolding(nx_cexpr::specs::Reading::size_of_name_rest))]
fn size_of_name_rest<'a>(
    alloc: Global,
    token: &Signed<'a>,
    named: &Signed<'a>,
    tokens: &'a [Signed<'a>],
) -> Answer<'a, Operand>
    ensures gives { Gives (λ x. (x.0, x.1.now)) result (reading.size_of_name_rest token.now named.now tokens.now) }
    ensures shorter { IfOk result (λ x. length x.1.now ≤ length tokens.now) }
    ensures within { IfOk result (λ x. x.0.height ≤ 1) }
{
    let (_, rest) = expect(tokens, Sign::CloseParen)?;
    Ok((size_of_name(alloc, token, named)?, rest))
}

/// The end of a `sizeof` of a type.
#[tactic(auto, unfolding(nx_cexpr::specs::Reading::size_of_type_rest))]
fn size_of_type_rest<'a>(
    token: &Signed<'a>,
    base: Base,
    tokens: &'a [Signed<'a>],
) -> Answer<'a, Operand>
    ensures gives { Gives (λ x. (x.0, x.1.now)) result (reading.size_of_type_rest token.now base tokens.now) }
    ensures shorter { IfOk result (λ x. length x.1.now ≤ length tokens.now) }
    ensures within { IfOk result (λ x. x.0.height ≤ 1) }
{
    let (_, rest) = expect(tokens, Sign::CloseParen)?;
    Ok((size_of_type(token, base), rest))
}

/// The type of a `sizeof`.
#[tactic(auto, using(nx_cexpr::proofs::Steps::base_then))]
fn size_of_base<'a>(token: &Signed<'a>, tokens: &'a [Signed<'a>]) -> Answer<'a, Operand>
    ensures gives { Gives (λ x. (x.0, x.1.now)) result (dispatch (λ u. then_pick (base_pick u) (reading.size_of_type_rest token.now)) tokens.now) }
    ensures shorter { IfOk result (λ x. length x.1.now ≤ length tokens.now) }
    ensures within { IfOk result (λ x. x.0.height ≤ 1) }
{
    let (base, rest) = base(tokens)?;
    size_of_type_rest(token, base, rest)
}

/// What stands after the `(` of a `sizeof`.
fn size_of_part<'a>(
    alloc: Global,
    token: &Signed<'a>,
    tokens: &'a [Signed<'a>],
) -> Answer<'a, Operand>
    ensures gives { Gives (λ x. (x.0, x.1.now)) result (dispatch (reading.size_of_pick token.now) tokens.now) }
    ensures shorter { IfOk result (λ x. length x.1.now ≤ length tokens.now) }
    ensures within { IfOk result (λ x. x.0.height ≤ 1) }
{
    match tokens {
        [] => Err(ParseStop::Fault(Kind::Syntax, tokens)),
        [first, rest @ ..] if is_sign(Sign::Name, first) => {
            size_of_name_rest(alloc, token, first, rest)
        }
        _ => size_of_base(token, tokens),
    }
}

/// What stands after `sizeof`.
#[tactic(auto, unfolding(nx_cexpr::specs::Reading::size_of_rest))]
pub fn size_of_rest<'a>(
    alloc: Global,
    token: &Signed<'a>,
    tokens: &'a [Signed<'a>],
) -> Answer<'a, Operand>
    ensures gives { Gives (λ x. (x.0, x.1.now)) result (reading.size_of_rest token.now tokens.now) }
    ensures shorter { IfOk result (λ x. length x.1.now ≤ length tokens.now) }
    ensures within { IfOk result (λ x. x.0.height ≤ 1) }
{
    let (_, rest) = expect(tokens, Sign::OpenParen)?;
    size_of_part(alloc, token, rest)
}
