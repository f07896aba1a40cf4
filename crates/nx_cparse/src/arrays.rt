ghost use Rattle.std.specs.Prelude.{◌≡◌, ◌<◌, ◌≤◌, length, IfOk};
ghost use Rattle.nx_grammar.specs.Reading.{dispatch};
ghost use Rattle.nx_cexpr.specs.Answers.{Gives};
ghost use Rattle.nx_cparse.specs.Reading.{initialiser_at, listed_rest, contents_pick, contents_rest, array_rest};

use crate::constant::{array_length, constants};
use nx_cexpr::{ParseStop, expect};
use nx_ctree::{Initialiser, Rest, Sign, Signed};
use nx_grammar::Kind;
use std::alloc::Global;

/// Constants up to a brace.
#[tactic(auto, unfolding(crate::specs::Reading::listed_rest))]
fn listed<'a>(
    alloc: Global,
    tokens: &'a [Signed<'a>],
) -> Result<(Initialiser, &'a [Signed<'a>]), ParseStop<'a>>
    ensures gives { Gives (λ x. (x.0, x.1.now)) result (listed_rest tokens.now) }
    ensures shorter { IfOk result (λ x. length x.1.now ≤ length tokens.now) }
{
    let (items, rest) = constants(alloc, tokens)?;
    let (_, rest) = expect(rest, Sign::CloseBrace)?;
    Ok((Initialiser::Listed(items), rest))
}

/// The first contents of an array.
fn initialiser<'a>(
    alloc: Global,
    tokens: &'a [Signed<'a>],
) -> Result<(Initialiser, &'a [Signed<'a>]), ParseStop<'a>>
    ensures gives { Gives (λ x. (x.0, x.1.now)) result (initialiser_at tokens.now) }
    ensures shorter { IfOk result (λ x. length x.1.now ≤ length tokens.now) }
{
    match tokens {
        [] => Err(ParseStop::Fault(Kind::Syntax, tokens)),
        [first, rest @ ..] => match first.sign {
            Sign::Text => Ok((Initialiser::Text(first.text.text(alloc)?), rest)),
            Sign::OpenBrace => listed(alloc, rest),
            _ => Err(ParseStop::Fault(Kind::Syntax, tokens)),
        },
    }
}

/// Contents after their sign.
#[tactic(auto, unfolding(crate::specs::Reading::contents_rest))]
fn given<'a>(
    alloc: Global,
    tokens: &'a [Signed<'a>],
) -> Result<(Option<Initialiser>, &'a [Signed<'a>]), ParseStop<'a>>
    ensures gives { Gives (λ x. (x.0, x.1.now)) result (contents_rest tokens.now) }
    ensures shorter { IfOk result (λ x. length x.1.now ≤ length tokens.now) }
{
    let (found, rest) = initialiser(alloc, tokens)?;
    Ok((Some(found), rest))
}

/// Contents that may be absent.
fn contents<'a>(
    alloc: Global,
    tokens: &'a [Signed<'a>],
) -> Result<(Option<Initialiser>, &'a [Signed<'a>]), ParseStop<'a>>
    ensures gives { Gives (λ x. (x.0, x.1.now)) result (dispatch contents_pick tokens.now) }
    ensures shorter { IfOk result (λ x. length x.1.now ≤ length tokens.now) }
{
    match tokens {
        [] => Err(ParseStop::Fault(Kind::Syntax, tokens)),
        [first, rest @ ..] if first.sign == Sign::Set => given(alloc, rest),
        _ => Ok((None, tokens)),
    }
}

/// An array at file level after its bracket.
#[tactic(auto, unfolding(crate::specs::Reading::array_rest))]
pub(crate) fn array<'a>(
    alloc: Global,
    tokens: &'a [Signed<'a>],
) -> Result<(Rest, &'a [Signed<'a>]), ParseStop<'a>>
    ensures gives { Gives (λ x. (x.0, x.1.now)) result (array_rest tokens.now) }
    ensures shorter { IfOk result (λ x. length x.1.now ≤ length tokens.now) }
{
    let (length, rest) = array_length(tokens)?;
    let (found, rest) = contents(alloc, rest)?;
    let (_, rest) = expect(rest, Sign::Semicolon)?;
    Ok((Rest::Array(length, found), rest))
}
