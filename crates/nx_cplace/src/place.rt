ghost use Rattle.std.specs.Prelude.{◌≡◌, ◌<◌, ◌≤◌, ◌+◌, length, IfOk, suc};
ghost use Rattle.nx_grammar.specs.Reading.{dispatch, then_pick};
ghost use Rattle.nx_cexpr.specs.Reading as reading;
ghost use Rattle.nx_cexpr.specs.Answers.{Gives};
ghost use Rattle.nx_cterm.specs.Readers.{ReadsTo};

use nx_celement::element::{element_rest, elements, indexed};
use nx_cexpr::ParseStop;
use nx_cexpr::operand::{Lvalue, Operand};
use nx_cexpr::signs::{begins_primary, full_fault};
use nx_cexpr::tokens::{has_node, is_sign};
use nx_cexpr::trees::{deref_lvalue, element_lvalue, name, name_lvalue};
use nx_cterm::below::{Answer, below};
use nx_cterm::primary::call_rest;
use nx_ctree::{Sign, Signed};
use nx_grammar::Kind;
use std::alloc::Global;

/// An index of a primary expression.
#[tactic(auto, unfolding(nx_cexpr::specs::Reading::place_rest))]
fn place_rest<'a, F: Fn(&'a [Signed<'a>], u32, u32) -> Answer<'a, Operand>>(
    alloc: Global,
    reader: &F,
    base: Operand,
    tokens: &'a [Signed<'a>],
    lower: u32,
) -> Answer<'a, Lvalue>
    requires small { lower ≤ 63 }
    requires reader { ReadsTo (F.pre reader.now) (F.post reader.now) lower }
    requires base { base.height ≤ lower }
    ensures gives { Gives (λ x. (x.0, x.1.now)) result (reading.place_rest (reading.within lower) (reading.has_node lower) (suc lower) base tokens.now) }
    ensures shorter { IfOk result (λ x. length x.1.now ≤ length tokens.now) }
    ensures within { IfOk result (λ x. x.0.height ≤ lower + 1) }
{
    let (read, rest) = indexed(alloc, reader, base, tokens, lower)?;
    Ok((element_lvalue(read), rest))
}

/// Indexes after a `[`.
#[tactic(auto, unfolding(nx_cexpr::specs::Reading::place_element))]
fn place_element<'a, F: Fn(&'a [Signed<'a>], u32, u32) -> Answer<'a, Operand>>(
    alloc: Global,
    reader: &F,
    base: Operand,
    tokens: &'a [Signed<'a>],
    lower: u32,
) -> Answer<'a, Lvalue>
    requires small { lower ≤ 63 }
    requires reader { ReadsTo (F.pre reader.now) (F.post reader.now) lower }
    requires base { base.height ≤ lower }
    ensures gives { Gives (λ x. (x.0, x.1.now)) result (reading.place_element (reading.within lower) (reading.has_node lower) (suc lower) base tokens.now) }
    ensures shorter { IfOk result (λ x. length x.1.now ≤ length tokens.now) }
    ensures within { IfOk result (λ x. x.0.height ≤ lower + 1) }
{
    let (first, rest) = element_rest(alloc, reader, base, tokens, lower)?;
    let (read, rest) = elements(alloc, reader, first, rest, lower)?;
    Ok((element_lvalue(read), rest))
}

/// What stands after a called name and its `(`, with at most so many nodes on a path.
#[tactic(auto, using(nx_cexpr::proofs::Steps::call_down, nx_cterm::proofs::Fewer::reads_fewer))]
fn called<'a, F: Fn(&'a [Signed<'a>], u32, u32) -> Answer<'a, Operand>>(
    alloc: Global,
    reader: &F,
    token: &Signed<'a>,
    tokens: &'a [Signed<'a>],
    depth: u32,
) -> Answer<'a, Operand>
    requires small { depth ≤ 64 }
    requires reader { ReadsTo (F.pre reader.now) (F.post reader.now) depth }
    requires positive { 1 ≤ depth }
    ensures gives { Gives (λ x. (x.0, x.1.now)) result ((reading.within depth).call token.now tokens.now) }
    ensures shorter { IfOk result (λ x. length x.1.now < length tokens.now) }
    ensures within { IfOk result (λ x. x.0.height ≤ depth) }
{
    call_rest(alloc, reader, token, tokens, depth - 1)
}

/// A call that is indexed.
#[tactic(auto, unfolding(nx_cexpr::specs::Reading::place_call))]
fn place_call<'a, F: Fn(&'a [Signed<'a>], u32, u32) -> Answer<'a, Operand>>(
    alloc: Global,
    reader: &F,
    token: &Signed<'a>,
    tokens: &'a [Signed<'a>],
    lower: u32,
) -> Answer<'a, Lvalue>
    requires small { lower ≤ 63 }
    requires reader { ReadsTo (F.pre reader.now) (F.post reader.now) lower }
    requires positive { 1 ≤ lower }
    ensures gives { Gives (λ x. (x.0, x.1.now)) result (reading.place_call (reading.within lower) (reading.has_node lower) (suc lower) token.now tokens.now) }
    ensures shorter { IfOk result (λ x. length x.1.now ≤ length tokens.now) }
    ensures within { IfOk result (λ x. x.0.height ≤ lower + 1) }
{
    let (base, rest) = called(alloc, reader, token, tokens, lower)?;
    place_rest(alloc, reader, base, rest, lower)
}

/// What stands after a name that is written to.
#[tactic(auto, unfolding(nx_cexpr::specs::Reading::place_name))]
fn place_name<'a, F: Fn(&'a [Signed<'a>], u32, u32) -> Answer<'a, Operand>>(
    alloc: Global,
    reader: &F,
    token: &Signed<'a>,
    tokens: &'a [Signed<'a>],
    lower: u32,
) -> Answer<'a, Lvalue>
    requires small { lower ≤ 63 }
    requires reader { ReadsTo (F.pre reader.now) (F.post reader.now) lower }
    ensures gives { Gives (λ x. (x.0, x.1.now)) result (reading.place_name (reading.within lower) (reading.has_node lower) (suc lower) token.now tokens.now) }
    ensures shorter { IfOk result (λ x. length x.1.now ≤ length tokens.now) }
    ensures within { IfOk result (λ x. x.0.height ≤ lower + 1) }
{
    let fits = has_node(lower);
    match tokens {
        [] => Err(ParseStop::Fault(Kind::Syntax, tokens)),
        [first, rest @ ..] if is_sign(Sign::OpenBracket, first) => {
            if fits {
                place_element(alloc, reader, name(alloc, token)?, rest, lower)
            } else {
                Err(ParseStop::Fault(Kind::Limit, tokens))
            }
        }
        [first, rest @ ..] if is_sign(Sign::OpenParen, first) => {
            if fits {
                place_call(alloc, reader, token, rest, lower)
            } else {
                Err(ParseStop::Fault(Kind::Limit, tokens))
            }
        }
        _ => Ok((name_lvalue(alloc, token)?, tokens)),
    }
}

/// What a pointer points to.
#[tactic(auto, unfolding(nx_cexpr::specs::Reading::deref_rest))]
fn deref_rest<'a, F: Fn(&'a [Signed<'a>], u32, u32) -> Answer<'a, Operand>>(
    alloc: Global,
    reader: &F,
    token: &Signed<'a>,
    tokens: &'a [Signed<'a>],
    lower: u32,
) -> Answer<'a, Lvalue>
    requires small { lower ≤ 63 }
    requires reader { ReadsTo (F.pre reader.now) (F.post reader.now) lower }
    ensures gives { Gives (λ x. (x.0, x.1.now)) result (reading.deref_rest (reading.within lower) token.now tokens.now) }
    ensures shorter { IfOk result (λ x. length x.1.now ≤ length tokens.now) }
    ensures within { IfOk result (λ x. x.0.height ≤ lower + 1) }
{
    let (part, rest) = below(reader, tokens, lower, 1)?;
    Ok((deref_lvalue(alloc, token, part)?, rest))
}

/// A primary expression that is indexed.
#[tactic(auto, using(nx_cexpr::proofs::Steps::level_then))]
fn place_primary<'a, F: Fn(&'a [Signed<'a>], u32, u32) -> Answer<'a, Operand>>(
    alloc: Global,
    reader: &F,
    tokens: &'a [Signed<'a>],
    lower: u32,
) -> Answer<'a, Lvalue>
    requires small { lower ≤ 63 }
    requires reader { ReadsTo (F.pre reader.now) (F.post reader.now) lower }
    ensures gives { Gives (λ x. (x.0, x.1.now)) result (dispatch (λ t. then_pick ((reading.within lower).level 0 t) (reading.place_rest (reading.within lower) (reading.has_node lower) (suc lower))) tokens.now) }
    ensures shorter { IfOk result (λ x. length x.1.now < length tokens.now) }
    ensures within { IfOk result (λ x. x.0.height ≤ lower + 1) }
{
    let (base, rest) = below(reader, tokens, lower, 0)?;
    place_rest(alloc, reader, base, rest, lower)
}

/// What can be written to.
fn place_of<'a, F: Fn(&'a [Signed<'a>], u32, u32) -> Answer<'a, Operand>>(
    alloc: Global,
    reader: &F,
    tokens: &'a [Signed<'a>],
    lower: u32,
) -> Answer<'a, Lvalue>
    requires small { lower ≤ 63 }
    requires reader { ReadsTo (F.pre reader.now) (F.post reader.now) lower }
    ensures gives { Gives (λ x. (x.0, x.1.now)) result (dispatch (reading.place_pick (reading.within lower) (reading.has_node lower) (suc lower)) tokens.now) }
    ensures shorter { IfOk result (λ x. length x.1.now < length tokens.now) }
    ensures within { IfOk result (λ x. x.0.height ≤ lower + 1) }
{
    match tokens {
        [] => Err(ParseStop::Fault(Kind::Syntax, tokens)),
        [first, rest @ ..] if is_sign(Sign::Name, first) => place_name(
            alloc, reader, first, rest, lower,
        ),
        [first, rest @ ..] if is_sign(Sign::Star, first) => {
            if has_node(lower) {
                deref_rest(alloc, reader, first, rest, lower)
            } else {
                Err(ParseStop::Fault(Kind::Limit, tokens))
            }
        }
        [first, ..] => {
            if has_node(lower) {
                place_primary(alloc, reader, tokens, lower)
            } else {
                Err(ParseStop::Fault(full_fault(begins_primary(first.sign)), tokens))
            }
        }
    }
}

/// What can be written to, with at most so many nodes on a path.
#[tactic(auto, using(nx_cexpr::proofs::Steps::place_down, nx_cterm::proofs::Fewer::reads_fewer))]
pub fn place<'a, F: Fn(&'a [Signed<'a>], u32, u32) -> Answer<'a, Operand>>(
    alloc: Global,
    reader: &F,
    tokens: &'a [Signed<'a>],
    depth: u32,
) -> Answer<'a, Lvalue>
    requires small { depth ≤ 64 }
    requires reader { ReadsTo (F.pre reader.now) (F.post reader.now) depth }
    requires positive { 1 ≤ depth }
    ensures gives { Gives (λ x. (x.0, x.1.now)) result (dispatch (reading.within depth).place tokens.now) }
    ensures shorter { IfOk result (λ x. length x.1.now < length tokens.now) }
    ensures within { IfOk result (λ x. x.0.height ≤ depth) }
{
    place_of(alloc, reader, tokens, depth - 1)
}
