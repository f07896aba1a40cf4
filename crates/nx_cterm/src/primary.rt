ghost use Rattle.std.specs.Prelude.{◌≡◌, ◌<◌, ◌≤◌, ◌+◌, length, IfOk, suc};
ghost use Rattle.nx_grammar.specs.Reading.{dispatch, loop, then_pick};
ghost use Rattle.nx_cexpr.specs.Reading as reading;
ghost use Rattle.nx_cexpr.specs.Answers.{Gives};
ghost use Rattle.nx_cterm.specs.Readers.{ReadsTo};

use crate::below::{Answer, WHOLE, below};
use nx_cexpr::ParseStop;
use nx_cexpr::operand::{Arguments, Operand};
use nx_cexpr::signs::{begins, full_fault};
use nx_cexpr::tokens::{Rest, after, closed, expect, has_node, is_sign};
use nx_cexpr::trees::{
    call, character, first_argument, name, next_argument, no_arguments, number, paren, text,
};
use nx_ctree::{Sign, Signed};
use nx_grammar::Kind;
use std::alloc::Global;

/// The argument after a comma.
#[tactic(auto, unfolding(nx_cexpr::specs::Reading::next_rest))]
fn next_rest<'a, F: Fn(&'a [Signed<'a>], u32, u32) -> Answer<'a, Operand>>(
    alloc: Global,
    reader: &F,
    arguments: &mut Arguments,
    tokens: &'a [Signed<'a>],
    lower: u32,
) -> Result<&'a [Signed<'a>], ParseStop<'a>>
    requires small { lower ≤ 63 }
    requires reader { ReadsTo (F.pre reader.now) (F.post reader.now) lower }
    requires arguments { arguments.old.height ≤ lower }
    ensures gives { Gives (λ x. (arguments.new, x.now)) result (reading.next_rest (reading.within lower) arguments.old tokens.now) }
    ensures shorter { IfOk result (λ x. length x.now ≤ length tokens.now) }
    ensures within { IfOk result (λ x. arguments.new.height ≤ lower) }
{
    let (argument, rest) = below(reader, tokens, lower, WHOLE)?;
    next_argument(alloc, arguments, argument)?;
    Ok(rest)
}

/// The arguments after a first one.
fn next_arguments<'a, F: Fn(&'a [Signed<'a>], u32, u32) -> Answer<'a, Operand>>(
    alloc: Global,
    reader: &F,
    first: Arguments,
    tokens: &'a [Signed<'a>],
    lower: u32,
) -> Answer<'a, Arguments>
    requires small { lower ≤ 63 }
    requires reader { ReadsTo (F.pre reader.now) (F.post reader.now) lower }
    requires first { first.height ≤ lower }
    ensures gives { Gives (λ x. (x.0, x.1.now)) result (loop (reading.comma_pick (reading.within lower)) first tokens.now) }
    ensures shorter { IfOk result (λ x. length x.1.now ≤ length tokens.now) }
    ensures within { IfOk result (λ x. x.0.height ≤ lower) }
{
    let mut arguments = first;
    let mut rest = Rest::new(tokens);
    while let Some(others) = after(rest.tokens(), Sign::Comma) {
        match next_rest(alloc, reader, &mut arguments, others, lower) {
            Err(stop) => return Err(stop),
            Ok(others) => rest = Rest::new(others),
        }
    }
    closed(arguments, rest.tokens())
}

/// What stands after a call's first argument.
#[tactic(auto, unfolding(nx_cexpr::specs::Reading::arguments_rest))]
fn arguments_rest<'a, F: Fn(&'a [Signed<'a>], u32, u32) -> Answer<'a, Operand>>(
    alloc: Global,
    reader: &F,
    token: &Signed<'a>,
    first: Operand,
    tokens: &'a [Signed<'a>],
    lower: u32,
) -> Answer<'a, Operand>
    requires small { lower ≤ 63 }
    requires reader { ReadsTo (F.pre reader.now) (F.post reader.now) lower }
    requires first { first.height ≤ lower }
    ensures gives { Gives (λ x. (x.0, x.1.now)) result (reading.arguments_rest (reading.within lower) token.now first tokens.now) }
    ensures shorter { IfOk result (λ x. length x.1.now ≤ length tokens.now) }
    ensures within { IfOk result (λ x. x.0.height ≤ lower + 1) }
{
    let first = first_argument(alloc, first)?;
    let (arguments, rest) = next_arguments(alloc, reader, first, tokens, lower)?;
    let (_, rest) = expect(rest, Sign::CloseParen)?;
    Ok((call(alloc, token, arguments)?, rest))
}

/// A call's arguments, where there is one.
#[tactic(auto, using(nx_cexpr::proofs::Steps::level_then))]
fn arguments<'a, F: Fn(&'a [Signed<'a>], u32, u32) -> Answer<'a, Operand>>(
    alloc: Global,
    reader: &F,
    token: &Signed<'a>,
    tokens: &'a [Signed<'a>],
    lower: u32,
) -> Answer<'a, Operand>
    requires small { lower ≤ 63 }
    requires reader { ReadsTo (F.pre reader.now) (F.post reader.now) lower }
    ensures gives { Gives (λ x. (x.0, x.1.now)) result (dispatch (λ u. then_pick ((reading.within lower).level 13 u) (reading.arguments_rest (reading.within lower) token.now)) tokens.now) }
    ensures shorter { IfOk result (λ x. length x.1.now < length tokens.now) }
    ensures within { IfOk result (λ x. x.0.height ≤ lower + 1) }
{
    let (first, rest) = below(reader, tokens, lower, WHOLE)?;
    arguments_rest(alloc, reader, token, first, rest, lower)
}

/// What stands after a called name and its `(`.
#[tactic(auto, unfolding(nx_cexpr::specs::Reading::call_rest))]
pub fn call_rest<'a, F: Fn(&'a [Signed<'a>], u32, u32) -> Answer<'a, Operand>>(
    alloc: Global,
    reader: &F,
    token: &Signed<'a>,
    tokens: &'a [Signed<'a>],
    lower: u32,
) -> Answer<'a, Operand>
    requires small { lower ≤ 63 }
    requires reader { ReadsTo (F.pre reader.now) (F.post reader.now) lower }
    ensures gives { Gives (λ x. (x.0, x.1.now)) result (reading.call_rest (reading.within lower) (reading.has_node lower) token.now tokens.now) }
    ensures shorter { IfOk result (λ x. length x.1.now < length tokens.now) }
    ensures within { IfOk result (λ x. x.0.height ≤ lower + 1) }
{
    match tokens {
        [] => Err(ParseStop::Fault(Kind::Syntax, tokens)),
        [first, rest @ ..] if is_sign(Sign::CloseParen, first) => {
            Ok((call(alloc, token, no_arguments(alloc))?, rest))
        }
        [first, ..] if !has_node(lower) => Err(ParseStop::Fault(
            full_fault(begins(first.sign)),
            tokens,
        )),
        _ => arguments(alloc, reader, token, tokens, lower),
    }
}

/// What stands after a name.
#[tactic(auto, unfolding(nx_cexpr::specs::Reading::name_rest))]
fn name_rest<'a, F: Fn(&'a [Signed<'a>], u32, u32) -> Answer<'a, Operand>>(
    alloc: Global,
    reader: &F,
    token: &Signed<'a>,
    tokens: &'a [Signed<'a>],
    lower: u32,
) -> Answer<'a, Operand>
    requires small { lower ≤ 63 }
    requires reader { ReadsTo (F.pre reader.now) (F.post reader.now) lower }
    ensures gives { Gives (λ x. (x.0, x.1.now)) result (reading.name_rest (reading.within lower) (reading.has_node lower) token.now tokens.now) }
    ensures shorter { IfOk result (λ x. length x.1.now ≤ length tokens.now) }
    ensures within { IfOk result (λ x. x.0.height ≤ lower + 1) }
{
    match tokens {
        [] => Err(ParseStop::Fault(Kind::Syntax, tokens)),
        [first, rest @ ..] if is_sign(Sign::OpenParen, first) => {
            call_rest(alloc, reader, token, rest, lower)
        }
        _ => Ok((name(alloc, token)?, tokens)),
    }
}

/// What stands after a `(`.
#[tactic(auto, unfolding(nx_cexpr::specs::Reading::paren_rest))]
fn paren_rest<'a, F: Fn(&'a [Signed<'a>], u32, u32) -> Answer<'a, Operand>>(
    alloc: Global,
    reader: &F,
    token: &Signed<'a>,
    tokens: &'a [Signed<'a>],
    lower: u32,
) -> Answer<'a, Operand>
    requires small { lower ≤ 63 }
    requires reader { ReadsTo (F.pre reader.now) (F.post reader.now) lower }
    ensures gives { Gives (λ x. (x.0, x.1.now)) result (reading.paren_rest (reading.within lower) token.now tokens.now) }
    ensures shorter { IfOk result (λ x. length x.1.now ≤ length tokens.now) }
    ensures within { IfOk result (λ x. x.0.height ≤ lower + 1) }
{
    let (inner, others) = below(reader, tokens, lower, WHOLE)?;
    let (_, rest) = expect(others, Sign::CloseParen)?;
    Ok((paren(alloc, token, inner)?, rest))
}

/// A primary expression (C11 section 6.5.1), or a call.
pub fn primary<'a, F: Fn(&'a [Signed<'a>], u32, u32) -> Answer<'a, Operand>>(
    alloc: Global,
    reader: &F,
    tokens: &'a [Signed<'a>],
    lower: u32,
) -> Answer<'a, Operand>
    requires small { lower ≤ 63 }
    requires reader { ReadsTo (F.pre reader.now) (F.post reader.now) lower }
    ensures gives { Gives (λ x. (x.0, x.1.now)) result (dispatch (λ t. reading.primary_pick (reading.within lower) (reading.has_node lower) t t.sign) tokens.now) }
    ensures shorter { IfOk result (λ x. length x.1.now < length tokens.now) }
    ensures within { IfOk result (λ x. x.0.height ≤ lower + 1) }
{
    let fits = has_node(lower);
    match tokens {
        [] => Err(ParseStop::Fault(Kind::Syntax, tokens)),
        [first, rest @ ..] => match first.sign {
            Sign::Name => name_rest(alloc, reader, first, rest, lower),
            Sign::Number => Ok((number(first), rest)),
            Sign::Char => Ok((character(first), rest)),
            Sign::Text => Ok((text(alloc, first)?, rest)),
            Sign::OpenParen if fits => paren_rest(alloc, reader, first, rest, lower),
            Sign::OpenParen => Err(ParseStop::Fault(Kind::Limit, tokens)),
            _ => Err(ParseStop::Fault(Kind::Syntax, tokens)),
        },
    }
}
