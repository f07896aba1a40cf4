ghost use Rattle.std.specs.Prelude.{◌≡◌, ◌<◌, ◌≤◌, ◌∷◌, [], length, IfOk};
ghost use Rattle.nx_grammar.specs.Reading.{dispatch, then_pick};
ghost use Rattle.nx_cexpr.specs.Answers.{Gives};
ghost use Rattle.nx_cparse.specs.Commas.{next, commas};
ghost use Rattle.nx_cparse.specs.Reading.{param_at, param_pick, param_rest, params_at, params_rest};

use crate::tokens::{after_comma, first_line, pointer_or_name};
use nx_base::Bytes;
use nx_cexpr::{ParseStop, Rest, base};
use nx_ctree::{Base, Param, Params, Sign, Signed};
use nx_grammar::Kind;
use sqlite_items::Items;
use std::alloc::Global;

/// A parameter after its base type.
#[tactic(auto, unfolding(crate::specs::Reading::param_rest))]
fn named<'a>(
    alloc: Global,
    line: u32,
    base: Base,
    tokens: &'a [Signed<'a>],
) -> Result<(Param, &'a [Signed<'a>]), ParseStop<'a>>
    ensures gives { Gives (λ x. (x.0, x.1.now)) result (param_rest line base tokens.now) }
    ensures shorter { IfOk result (λ x. length x.1.now < length tokens.now) }
{
    let (pointer, name, rest) = pointer_or_name(tokens)?;
    let name = Bytes::from_slice(alloc, name.text.bytes())?;
    Ok((
        Param {
            line,
            base,
            pointer,
            name,
        },
        rest,
    ))
}

/// A parameter.
#[tactic(auto, using(crate::proofs::Splits::param_split))]
fn parameter<'a>(
    alloc: Global,
    tokens: &'a [Signed<'a>],
) -> Result<(Param, &'a [Signed<'a>]), ParseStop<'a>>
    ensures gives { Gives (λ x. (x.0, x.1.now)) result (param_at tokens.now) }
    ensures shorter { IfOk result (λ x. length x.1.now < length tokens.now) }
{
    let (found, rest) = base(tokens)?;
    named(alloc, first_line(tokens), found, rest)
}

/// A parameter more.
fn add_parameter<'a>(
    alloc: Global,
    items: &mut Items<Param>,
    tokens: &'a [Signed<'a>],
) -> Result<&'a [Signed<'a>], ParseStop<'a>>
    ensures gives { Gives (λ x. (items.new, x.now)) result (next param_at items.old tokens.now) }
    ensures shorter { IfOk result (λ x. length x.now < length tokens.now) }
{
    let (item, rest) = parameter(alloc, tokens)?;
    items.push(item)?;
    Ok(rest)
}

/// Parameters with commas between them.
fn parameters<'a>(
    alloc: Global,
    tokens: &'a [Signed<'a>],
) -> Result<(Items<Param>, &'a [Signed<'a>]), ParseStop<'a>>
    ensures gives { Gives (λ x. (x.0, x.1.now)) result (commas param_at tokens.now) }
    ensures shorter { IfOk result (λ x. length x.1.now ≤ length tokens.now) }
{
    let mut items = Items::new(alloc);
    let mut rest = Rest::new(add_parameter(alloc, &mut items, tokens)?);
    while let Some(others) = after_comma(rest.tokens()) {
        match add_parameter(alloc, &mut items, others) {
            Err(stop) => return Err(stop),
            Ok(after) => rest = Rest::new(after),
        }
    }
    match rest.tokens() {
        [] => Err(ParseStop::Fault(Kind::Syntax, rest.tokens())),
        after => Ok((items, after)),
    }
}

/// Parameters, where there are some.
#[tactic(auto, using(crate::proofs::Splits::params_split))]
fn listed<'a>(
    alloc: Global,
    tokens: &'a [Signed<'a>],
) -> Result<(Params, &'a [Signed<'a>]), ParseStop<'a>>
    ensures gives { Gives (λ x. (x.0, x.1.now)) result (dispatch (λ t. then_pick (param_pick t) params_rest) tokens.now) }
    ensures shorter { IfOk result (λ x. length x.1.now ≤ length tokens.now) }
{
    let (items, rest) = parameters(alloc, tokens)?;
    Ok((Params::Listed(items), rest))
}

/// What stands between a function's parentheses.
pub(crate) fn params<'a>(
    alloc: Global,
    tokens: &'a [Signed<'a>],
) -> Result<(Params, &'a [Signed<'a>]), ParseStop<'a>>
    ensures gives { Gives (λ x. (x.0, x.1.now)) result (params_at tokens.now) }
    ensures shorter { IfOk result (λ x. length x.1.now ≤ length tokens.now) }
{
    match tokens {
        [] => Err(ParseStop::Fault(Kind::Syntax, tokens)),
        [first, rest @ ..] => match first.sign {
            Sign::CloseParen => Ok((Params::Empty, tokens)),
            Sign::Void => Ok((Params::Void, rest)),
            _ => listed(alloc, tokens),
        },
    }
}
