ghost use Rattle.std.specs.Prelude.{◌≡◌, ◌<◌, ◌≤◌, length, IfOk};
ghost use Rattle.nx_cexpr.specs.Types.{begins_base as base_begins, const_rest as const_then, base_at, star_at};
ghost use Rattle.nx_cexpr.specs.Answers.{Gives};

use crate::ParseStop;
use crate::tokens::{expect, is_sign};
use nx_ctree::{Base, Sign, Signed};
use nx_grammar::Kind;

/// Whether a base type begins with this sign.
pub fn begins_base(sign: Sign) -> bool
    ensures { result ≡ base_begins sign }
{
    matches!(sign, Sign::Int | Sign::CharWord | Sign::Const)
}

#[tactic(auto, unfolding(crate::specs::Types::const_rest))]
fn const_rest<'a>(tokens: &'a [Signed<'a>]) -> Result<(Base, &'a [Signed<'a>]), ParseStop<'a>>
    ensures gives { Gives (λ x. (x.0, x.1.now)) result (const_then tokens.now) }
    ensures shorter { IfOk result (λ x. length x.1.now < length tokens.now) }
{
    let (_, rest) = expect(tokens, Sign::CharWord)?;
    Ok((Base::ConstChar, rest))
}

/// A base type: `int`, or `char` with `const` before it or without (C11 section 6.7.2).
pub fn base<'a>(tokens: &'a [Signed<'a>]) -> Result<(Base, &'a [Signed<'a>]), ParseStop<'a>>
    ensures gives { Gives (λ x. (x.0, x.1.now)) result (base_at tokens.now) }
    ensures shorter { IfOk result (λ x. length x.1.now < length tokens.now) }
{
    match tokens {
        [] => Err(ParseStop::Fault(Kind::Syntax, tokens)),
        [first, rest @ ..] => match first.sign {
            Sign::Int => Ok((Base::Int, rest)),
            Sign::CharWord => Ok((Base::Char, rest)),
            Sign::Const => const_rest(rest),
            _ => Err(ParseStop::Fault(Kind::Syntax, tokens)),
        },
    }
}

/// Whether a `*` stands next, and the tokens after it (C11 section 6.7.6.1).
pub fn star<'a>(tokens: &'a [Signed<'a>]) -> Result<(bool, &'a [Signed<'a>]), ParseStop<'a>>
    ensures gives { Gives (λ x. (x.0, x.1.now)) result (star_at tokens.now) }
    ensures shorter { IfOk result (λ x. length x.1.now ≤ length tokens.now) }
{
    match tokens {
        [] => Err(ParseStop::Fault(Kind::Syntax, tokens)),
        [first, rest @ ..] if is_sign(Sign::Star, first) => Ok((true, rest)),
        _ => Ok((false, tokens)),
    }
}
