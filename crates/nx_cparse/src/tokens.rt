ghost use Rattle.std.specs.Prelude.{◌≡◌, ◌<◌, ◌≤◌, length, IfOk, IfSome};
ghost use Rattle.std.specs.Option.{option_map};
ghost use Rattle.nx_grammar.specs.Reading.{dispatch};
ghost use Rattle.nx_grammar.specs.Chains.{after_first};
ghost use Rattle.nx_ctree.specs.declared.sign.Sign.TheVariants.{Comma};
ghost use Rattle.nx_ctree.specs.Programs.{first_line as line_of};
ghost use Rattle.nx_cexpr.specs.Answers.{Gives};
ghost use Rattle.nx_cexpr.specs.Signs.{is_sign};
ghost use Rattle.nx_cparse.specs.Reading.{name_pick, pointer_rest};

use nx_cexpr::{ParseStop, expect};
use nx_ctree::{Sign, Signed};
use nx_grammar::Kind;

/// The line of the first token, or 0 where there is none.
pub(crate) fn first_line(tokens: &[Signed]) -> u32
    ensures { result ≡ line_of tokens.now }
{
    match tokens {
        [] => 0,
        [first, ..] => first.line,
    }
}

/// What stands after a comma.
pub(crate) fn after_comma<'a>(tokens: &'a [Signed<'a>]) -> Option<&'a [Signed<'a>]>
    ensures gives { option_map (λ x. x.now) result ≡ after_first (is_sign Comma) tokens.now }
    ensures shorter { IfSome result (λ x. length x.now < length tokens.now) }
{
    match tokens {
        [first, rest @ ..] if first.sign == Sign::Comma => Some(rest),
        _ => None,
    }
}

/// A name after a `*`.
#[tactic(auto, unfolding(crate::specs::Reading::pointer_rest))]
fn pointer_name<'a>(
    tokens: &'a [Signed<'a>],
) -> Result<(bool, &'a Signed<'a>, &'a [Signed<'a>]), ParseStop<'a>>
    ensures gives { Gives (λ x. ((x.0, x.1.now), x.2.now)) result (pointer_rest tokens.now) }
    ensures shorter { IfOk result (λ x. length x.2.now < length tokens.now) }
{
    let (name, rest) = expect(tokens, Sign::Name)?;
    Ok((true, name, rest))
}

/// A name, and whether a `*` stands before it.
pub(crate) fn pointer_or_name<'a>(
    tokens: &'a [Signed<'a>],
) -> Result<(bool, &'a Signed<'a>, &'a [Signed<'a>]), ParseStop<'a>>
    ensures gives { Gives (λ x. ((x.0, x.1.now), x.2.now)) result (dispatch name_pick tokens.now) }
    ensures shorter { IfOk result (λ x. length x.2.now < length tokens.now) }
{
    match tokens {
        [] => Err(ParseStop::Fault(Kind::Syntax, tokens)),
        [first, rest @ ..] => match first.sign {
            Sign::Star => pointer_name(rest),
            Sign::Name => Ok((false, first, rest)),
            _ => Err(ParseStop::Fault(Kind::Syntax, tokens)),
        },
    }
}
