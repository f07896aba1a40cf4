ghost use Rattle.std.specs.Prelude.{◌≡◌, ◌<◌, ◌≤◌, length, IfOk, IfSome};
ghost use Rattle.std.specs.Option.{option_map};
ghost use Rattle.nx_grammar.specs.Chains.{after_first};
ghost use Rattle.nx_grammar.specs.Reading.{expect, loop};
ghost use Rattle.nx_shtree.specs.Words.{is_keyword as is_the_keyword, is_separator as parts_items};
ghost use Rattle.nx_shtree.specs.Reading.{separator_pick, separators as one_or_more, closing as closing_at};
ghost use Rattle.nx_shtree.specs.Answers.{Gives};

use crate::head::{is_keyword, is_separator};
use crate::keyword::Keyword;
use crate::stop::ParseStop;
use nx_grammar::Kind;
use nx_shtok::Token;

/// The next token, which has to be this reserved word, and the tokens after it.
pub(crate) fn keyword<'a>(
    tokens: &'a [Token],
    wanted: Keyword,
) -> Result<(&'a Token, &'a [Token]), ParseStop<'a>>
    ensures gives { Gives (λ x. (x.0.now, x.1.now)) result (expect (is_the_keyword wanted) tokens.now) }
    ensures shorter { IfOk result (λ x. length x.1.now < length tokens.now) }
{
    match tokens {
        [first, rest @ ..] if is_keyword(wanted, first) => Ok((first, rest)),
        _ => Err(ParseStop::Fault(Kind::Syntax, tokens)),
    }
}

/// The next token, which has to be a separator, and the tokens after it.
pub(crate) fn separator(tokens: &[Token]) -> Result<(&Token, &[Token]), ParseStop<'_>>
    ensures gives { Gives (λ x. (x.0.now, x.1.now)) result (expect parts_items tokens.now) }
    ensures shorter { IfOk result (λ x. length x.1.now < length tokens.now) }
{
    match tokens {
        [first, rest @ ..] if is_separator(first) => Ok((first, rest)),
        _ => Err(ParseStop::Fault(Kind::Syntax, tokens)),
    }
}

/// What stands after a separator at the front.
fn after_separator(tokens: &[Token]) -> Option<&[Token]>
    ensures gives { option_map (λ x. x.now) result ≡ after_first parts_items tokens.now }
    ensures shorter { IfSome result (λ x. length x.now < length tokens.now) }
{
    match tokens {
        [first, rest @ ..] if is_separator(first) => Some(rest),
        _ => None,
    }
}

/// What stands after separators, as many as there are.
fn after_separators(tokens: &[Token]) -> Result<&[Token], ParseStop<'_>>
    ensures gives { Gives (λ x. (tt, x.now)) result (loop separator_pick tt tokens.now) }
    ensures shorter { IfOk result (λ x. length x.now ≤ length tokens.now) }
{
    let mut rest = tokens;
    while let Some(others) = after_separator(rest) {
        rest = others;
    }
    match rest {
        [] => Err(ParseStop::Fault(Kind::Syntax, rest)),
        _ => Ok(rest),
    }
}

/// What stands after one or more separators.
#[tactic(auto, unfolding(crate::specs::Reading::separators))]
pub(crate) fn separators(tokens: &[Token]) -> Result<&[Token], ParseStop<'_>>
    ensures gives { Gives (λ x. (tt, x.now)) result (one_or_more tokens.now) }
    ensures shorter { IfOk result (λ x. length x.now < length tokens.now) }
{
    let (_, rest) = separator(tokens)?;
    after_separators(rest)
}

/// What closes an item: this reserved word and a separator.
#[tactic(auto, unfolding(crate::specs::Reading::closing))]
pub(crate) fn closing<'a>(
    tokens: &'a [Token],
    wanted: Keyword,
) -> Result<(&'a Token, &'a [Token]), ParseStop<'a>>
    ensures gives { Gives (λ x. (x.0.now, x.1.now)) result (closing_at wanted tokens.now) }
    ensures shorter { IfOk result (λ x. length x.1.now < length tokens.now) }
{
    let (_, rest) = keyword(tokens, wanted)?;
    separator(rest)
}
