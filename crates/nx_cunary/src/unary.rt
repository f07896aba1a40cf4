ghost use Rattle.std.specs.Prelude.{◌≡◌, ◌<◌, ◌≤◌, ◌+◌, length, IfOk, suc, true, false};
ghost use Rattle.nx_grammar.specs.Reading.{dispatch, then_pick};
ghost use Rattle.nx_cexpr.specs.Reading as reading;
ghost use Rattle.nx_cexpr.specs.Answers.{Gives};
ghost use Rattle.nx_cterm.specs.Readers.{ReadsTo};

use nx_ccast::cast::{begins_base, cast_of};
use nx_ccast::size::size_of_rest;
use nx_cexpr::ParseStop;
use nx_cexpr::operand::Operand;
use nx_cexpr::signs::is_prefix;
use nx_cexpr::tokens::{expect, has_node};
use nx_cexpr::trees::paren;
use nx_cpostfix::postfix::post;
use nx_cprefix::prefix::{address_rest, before_rest, unary_rest};
use nx_cterm::below::{Answer, WHOLE, below};
use nx_cterm::primary::primary;
use nx_ctree::{Sign, Signed, StepOperator, UnaryOperator};
use nx_grammar::Kind;
use std::alloc::Global;

/// What stands after an expression in parentheses.
#[tactic(auto, unfolding(nx_cexpr::specs::Reading::group_rest))]
fn group_rest<'a, F: Fn(&'a [Signed<'a>], u32, u32) -> Answer<'a, Operand>>(
    alloc: Global,
    reader: &F,
    token: &Signed<'a>,
    inner: Operand,
    tokens: &'a [Signed<'a>],
    lower: u32,
) -> Answer<'a, Operand>
    requires small { lower ≤ 63 }
    requires reader { ReadsTo (F.pre reader.now) (F.post reader.now) lower }
    requires inner { inner.height ≤ lower }
    ensures gives { Gives (λ x. (x.0, x.1.now)) result (reading.group_rest (reading.within lower) (reading.has_node lower) (suc lower) token.now inner tokens.now) }
    ensures shorter { IfOk result (λ x. length x.1.now ≤ length tokens.now) }
    ensures within { IfOk result (λ x. x.0.height ≤ lower + 1) }
{
    let (_, rest) = expect(tokens, Sign::CloseParen)?;
    post(alloc, reader, paren(alloc, token, inner)?, rest, lower)
}

/// What stands after the `(` of an expression in parentheses.
#[tactic(auto, using(nx_cexpr::proofs::Steps::level_then))]
fn group_of<'a, F: Fn(&'a [Signed<'a>], u32, u32) -> Answer<'a, Operand>>(
    alloc: Global,
    reader: &F,
    token: &Signed<'a>,
    tokens: &'a [Signed<'a>],
    lower: u32,
) -> Answer<'a, Operand>
    requires small { lower ≤ 63 }
    requires reader { ReadsTo (F.pre reader.now) (F.post reader.now) lower }
    ensures gives { Gives (λ x. (x.0, x.1.now)) result (dispatch (λ u. then_pick ((reading.within lower).level 13 u) (reading.group_rest (reading.within lower) (reading.has_node lower) (suc lower) token.now)) tokens.now) }
    ensures shorter { IfOk result (λ x. length x.1.now ≤ length tokens.now) }
    ensures within { IfOk result (λ x. x.0.height ≤ lower + 1) }
{
    let (inner, rest) = below(reader, tokens, lower, WHOLE)?;
    group_rest(alloc, reader, token, inner, rest, lower)
}

/// What stands after the `(` of a cast or of an expression in parentheses.
#[tactic(auto, unfolding(nx_cexpr::specs::Reading::group))]
fn group<'a, F: Fn(&'a [Signed<'a>], u32, u32) -> Answer<'a, Operand>>(
    alloc: Global,
    reader: &F,
    token: &Signed<'a>,
    tokens: &'a [Signed<'a>],
    lower: u32,
) -> Answer<'a, Operand>
    requires small { lower ≤ 63 }
    requires reader { ReadsTo (F.pre reader.now) (F.post reader.now) lower }
    ensures gives { Gives (λ x. (x.0, x.1.now)) result (reading.group (reading.within lower) (reading.has_node lower) (suc lower) token.now tokens.now) }
    ensures shorter { IfOk result (λ x. length x.1.now ≤ length tokens.now) }
    ensures within { IfOk result (λ x. x.0.height ≤ lower + 1) }
{
    match tokens {
        [] => Err(ParseStop::Fault(Kind::Syntax, tokens)),
        [first, ..] if begins_base(first.sign) => cast_of(alloc, reader, token, tokens, lower),
        _ => group_of(alloc, reader, token, tokens, lower),
    }
}

/// An operator before its operand, a cast or parentheses, where a node fits.
fn fitting<'a, F: Fn(&'a [Signed<'a>], u32, u32) -> Answer<'a, Operand>>(
    alloc: Global,
    reader: &F,
    tokens: &'a [Signed<'a>],
    lower: u32,
) -> Answer<'a, Operand>
    requires small { lower ≤ 63 }
    requires reader { ReadsTo (F.pre reader.now) (F.post reader.now) lower }
    requires positive { 1 ≤ lower }
    requires fits { reading.has_node lower ≡ true }
    ensures gives { Gives (λ x. (x.0, x.1.now)) result (dispatch (λ t. reading.prefix_pick (reading.within lower) (reading.has_node lower) (suc lower) t t.sign) tokens.now) }
    ensures shorter { IfOk result (λ x. length x.1.now < length tokens.now) }
    ensures within { IfOk result (λ x. x.0.height ≤ lower + 1) }
{
    match tokens {
        [] => Err(ParseStop::Fault(Kind::Syntax, tokens)),
        [first, rest @ ..] => match first.sign {
            Sign::SizeOf => size_of_rest(alloc, first, rest),
            Sign::Minus => unary_rest(alloc, reader, UnaryOperator::Minus, first, rest, lower),
            Sign::Not => unary_rest(alloc, reader, UnaryOperator::Not, first, rest, lower),
            Sign::Complement => {
                unary_rest(alloc, reader, UnaryOperator::Complement, first, rest, lower)
            }
            Sign::Star => unary_rest(alloc, reader, UnaryOperator::Deref, first, rest, lower),
            Sign::BitAnd => address_rest(alloc, reader, first, rest, lower),
            Sign::Increment => {
                before_rest(alloc, reader, StepOperator::Increment, first, rest, lower)
            }
            Sign::Decrement => {
                before_rest(alloc, reader, StepOperator::Decrement, first, rest, lower)
            }
            Sign::OpenParen => group(alloc, reader, first, rest, lower),
            _ => Err(ParseStop::Fault(Kind::Syntax, tokens)),
        },
    }
}

/// What an operator before its operand is where no node fits: `sizeof` alone is read.
fn full<'a>(alloc: Global, tokens: &'a [Signed<'a>], lower: u32) -> Answer<'a, Operand>
    requires full { reading.has_node lower ≡ false }
    ensures gives { Gives (λ x. (x.0, x.1.now)) result (dispatch (λ t. reading.prefix_pick (reading.within lower) (reading.has_node lower) (suc lower) t t.sign) tokens.now) }
    ensures shorter { IfOk result (λ x. length x.1.now < length tokens.now) }
    ensures within { IfOk result (λ x. x.0.height ≤ lower + 1) }
{
    match tokens {
        [] => Err(ParseStop::Fault(Kind::Syntax, tokens)),
        [first, rest @ ..] => match first.sign {
            Sign::SizeOf => size_of_rest(alloc, first, rest),
            Sign::Minus
            | Sign::Not
            | Sign::Complement
            | Sign::Star
            | Sign::BitAnd
            | Sign::Increment
            | Sign::Decrement
            | Sign::OpenParen => Err(ParseStop::Fault(Kind::Limit, tokens)),
            _ => Err(ParseStop::Fault(Kind::Syntax, tokens)),
        },
    }
}

/// An operator before its operand, a cast or parentheses.
fn prefixed<'a, F: Fn(&'a [Signed<'a>], u32, u32) -> Answer<'a, Operand>>(
    alloc: Global,
    reader: &F,
    tokens: &'a [Signed<'a>],
    lower: u32,
) -> Answer<'a, Operand>
    requires small { lower ≤ 63 }
    requires reader { ReadsTo (F.pre reader.now) (F.post reader.now) lower }
    ensures gives { Gives (λ x. (x.0, x.1.now)) result (dispatch (λ t. reading.prefix_pick (reading.within lower) (reading.has_node lower) (suc lower) t t.sign) tokens.now) }
    ensures shorter { IfOk result (λ x. length x.1.now < length tokens.now) }
    ensures within { IfOk result (λ x. x.0.height ≤ lower + 1) }
{
    if has_node(lower) {
        fitting(alloc, reader, tokens, lower)
    } else {
        full(alloc, tokens, lower)
    }
}

/// A primary expression, and what stands after it.
#[tactic(auto, using(nx_cexpr::proofs::Steps::primary_then))]
fn posted<'a, F: Fn(&'a [Signed<'a>], u32, u32) -> Answer<'a, Operand>>(
    alloc: Global,
    reader: &F,
    tokens: &'a [Signed<'a>],
    lower: u32,
) -> Answer<'a, Operand>
    requires small { lower ≤ 63 }
    requires reader { ReadsTo (F.pre reader.now) (F.post reader.now) lower }
    ensures gives { Gives (λ x. (x.0, x.1.now)) result (dispatch (λ t. then_pick (reading.primary_pick (reading.within lower) (reading.has_node lower) t t.sign) (reading.post (reading.within lower) (reading.has_node lower) (suc lower))) tokens.now) }
    ensures shorter { IfOk result (λ x. length x.1.now < length tokens.now) }
    ensures within { IfOk result (λ x. x.0.height ≤ lower + 1) }
{
    let (operand, rest) = primary(alloc, reader, tokens, lower)?;
    post(alloc, reader, operand, rest, lower)
}

/// A unary expression (C11 section 6.5.3).
pub fn unary<'a, F: Fn(&'a [Signed<'a>], u32, u32) -> Answer<'a, Operand>>(
    alloc: Global,
    reader: &F,
    tokens: &'a [Signed<'a>],
    lower: u32,
) -> Answer<'a, Operand>
    requires small { lower ≤ 63 }
    requires reader { ReadsTo (F.pre reader.now) (F.post reader.now) lower }
    ensures gives { Gives (λ x. (x.0, x.1.now)) result (dispatch (reading.unary_pick (reading.within lower) (reading.has_node lower) (suc lower)) tokens.now) }
    ensures shorter { IfOk result (λ x. length x.1.now < length tokens.now) }
    ensures within { IfOk result (λ x. x.0.height ≤ lower + 1) }
{
    match tokens {
        [] => Err(ParseStop::Fault(Kind::Syntax, tokens)),
        [first, ..] if is_prefix(first.sign) => prefixed(alloc, reader, tokens, lower),
        _ => posted(alloc, reader, tokens, lower),
    }
}
