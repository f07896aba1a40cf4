ghost use Rattle.std.specs.Prelude.{◌≡◌, ◌<◌, ◌≤◌, ◌∷◌, [], length, IfOk};
ghost use Rattle.nx_cexpr.specs.Answers.{Gives};
ghost use Rattle.nx_cparse.specs.Commas.{next, commas};
ghost use Rattle.nx_cparse.specs.Reading.{constant_at, minus_rest, length_rest};

use crate::tokens::after_comma;
use nx_cexpr::{ParseStop, Rest, expect};
use nx_ctree::{Constant, ConstantKind, Sign, Signed};
use nx_grammar::Kind;
use sqlite_items::Items;
use std::alloc::Global;

/// A number after a minus sign.
#[tactic(auto, unfolding(crate::specs::Reading::minus_rest))]
fn negative<'a>(
    first: &Signed<'a>,
    tokens: &'a [Signed<'a>],
) -> Result<(Constant, &'a [Signed<'a>]), ParseStop<'a>>
    ensures gives { Gives (λ x. (x.0, x.1.now)) result (minus_rest first.now tokens.now) }
    ensures shorter { IfOk result (λ x. length x.1.now ≤ length tokens.now) }
{
    let (number, rest) = expect(tokens, Sign::Number)?;
    let kind = ConstantKind::Minus(number.text.number());
    Ok((
        Constant {
            line: first.line,
            kind,
        },
        rest,
    ))
}

/// A constant.
pub(crate) fn constant<'a>(
    tokens: &'a [Signed<'a>],
) -> Result<(Constant, &'a [Signed<'a>]), ParseStop<'a>>
    ensures gives { Gives (λ x. (x.0, x.1.now)) result (constant_at tokens.now) }
    ensures shorter { IfOk result (λ x. length x.1.now < length tokens.now) }
{
    match tokens {
        [] => Err(ParseStop::Fault(Kind::Syntax, tokens)),
        [first, rest @ ..] => match first.sign {
            Sign::Number => Ok((
                Constant {
                    line: first.line,
                    kind: ConstantKind::Number(first.text.number()),
                },
                rest,
            )),
            Sign::Minus => negative(first, rest),
            Sign::Char => Ok((
                Constant {
                    line: first.line,
                    kind: ConstantKind::Char(first.text.character()),
                },
                rest,
            )),
            _ => Err(ParseStop::Fault(Kind::Syntax, tokens)),
        },
    }
}

/// An array's length after its bracket.
#[tactic(auto, unfolding(crate::specs::Reading::length_rest))]
pub(crate) fn array_length<'a>(
    tokens: &'a [Signed<'a>],
) -> Result<(Constant, &'a [Signed<'a>]), ParseStop<'a>>
    ensures gives { Gives (λ x. (x.0, x.1.now)) result (length_rest tokens.now) }
    ensures shorter { IfOk result (λ x. length x.1.now < length tokens.now) }
{
    let (length, rest) = constant(tokens)?;
    let (_, rest) = expect(rest, Sign::CloseBracket)?;
    Ok((length, rest))
}

/// A constant more.
fn add_constant<'a>(
    items: &mut Items<Constant>,
    tokens: &'a [Signed<'a>],
) -> Result<&'a [Signed<'a>], ParseStop<'a>>
    ensures gives { Gives (λ x. (items.new, x.now)) result (next constant_at items.old tokens.now) }
    ensures shorter { IfOk result (λ x. length x.now < length tokens.now) }
{
    let (item, rest) = constant(tokens)?;
    items.push(item)?;
    Ok(rest)
}

/// Constants with commas between them.
pub(crate) fn constants<'a>(
    alloc: Global,
    tokens: &'a [Signed<'a>],
) -> Result<(Items<Constant>, &'a [Signed<'a>]), ParseStop<'a>>
    ensures gives { Gives (λ x. (x.0, x.1.now)) result (commas constant_at tokens.now) }
    ensures shorter { IfOk result (λ x. length x.1.now ≤ length tokens.now) }
{
    let mut items = Items::new(alloc);
    let mut rest = Rest::new(add_constant(&mut items, tokens)?);
    while let Some(others) = after_comma(rest.tokens()) {
        match add_constant(&mut items, others) {
            Err(stop) => return Err(stop),
            Ok(after) => rest = Rest::new(after),
        }
    }
    match rest.tokens() {
        [] => Err(ParseStop::Fault(Kind::Syntax, rest.tokens())),
        after => Ok((items, after)),
    }
}
