ghost use Rattle.std.specs.Prelude.{◌≡◌, ◌<◌, ◌≤◌, length, IfOk, IfSome};
ghost use Rattle.std.specs.Option.{option_map};
ghost use Rattle.nx_grammar.specs.Reading.{dispatch, expect, loop};
ghost use Rattle.nx_grammar.specs.Chains.{after_first, closed};
ghost use Rattle.nx_conditions.specs.Parsing.{
  is_open,
  is_close,
  is_and,
  is_or,
  is_end,
  name_pick,
  defined_rest,
  not_rest,
  group_rest,
  unary_pick,
  compare_rest,
  comparison,
  and_rest,
  or_rest,
  and_pick,
  or_pick,
  conjunction,
  disjunction,
  whole,
  unary_at,
  full_at,
  condition_at,
};
ghost use Rattle.nx_conditions.specs.Answers.{IsParsed};
ghost use Rattle.nx_conditions.specs.declared.parse.ParseStop.TheVariants.{Memory};

use crate::{Comparison, Condition, Token};
use nx_grammar::Kind;
use sqlite_items::{Boxed, Items};
use std::alloc::{AllocError, Global};

/// Why no tree was read: memory, or the fault and the tokens from it on.
#[derive(Clone, Copy, Debug)]
pub(crate) enum ParseStop<'a> {
    /// Out of memory.
    Memory,
    /// What is wrong, and the tokens from there on.
    Fault(Kind, &'a [Token]),
}

impl From<AllocError> for ParseStop<'_> {
    ghost from_gives = { λ _ e. e ≡ Memory };

    fn from(_: AllocError) -> Self {
        ParseStop::Memory
    }
}

fn is_open(token: &Token) -> bool
    ensures { result ≡ is_open token.now }
{
    matches!(token, Token::Open)
}

fn is_close(token: &Token) -> bool
    ensures { result ≡ is_close token.now }
{
    matches!(token, Token::Close)
}

fn is_end(token: &Token) -> bool
    ensures { result ≡ is_end token.now }
{
    matches!(token, Token::End)
}

fn is_and(token: &Token) -> bool
    ensures { result ≡ is_and token.now }
{
    matches!(token, Token::And)
}

fn is_or(token: &Token) -> bool
    ensures { result ≡ is_or token.now }
{
    matches!(token, Token::Or)
}

fn open(tokens: &[Token]) -> Result<(&Token, &[Token]), ParseStop>
    ensures gives { IsParsed (λ x. (x.0.now, x.1.now)) result (expect is_open tokens.now) }
    ensures shorter { IfOk result (λ x. length x.1.now ≤ length tokens.now) }
{
    match tokens {
        [first, rest @ ..] if is_open(first) => Ok((first, rest)),
        _ => Err(ParseStop::Fault(Kind::Syntax, tokens)),
    }
}

fn close(tokens: &[Token]) -> Result<(&Token, &[Token]), ParseStop>
    ensures gives { IsParsed (λ x. (x.0.now, x.1.now)) result (expect is_close tokens.now) }
    ensures shorter { IfOk result (λ x. length x.1.now ≤ length tokens.now) }
{
    match tokens {
        [first, rest @ ..] if is_close(first) => Ok((first, rest)),
        _ => Err(ParseStop::Fault(Kind::Syntax, tokens)),
    }
}

fn end(tokens: &[Token]) -> Result<(&Token, &[Token]), ParseStop>
    ensures gives { IsParsed (λ x. (x.0.now, x.1.now)) result (expect is_end tokens.now) }
{
    match tokens {
        [first, rest @ ..] if is_end(first) => Ok((first, rest)),
        _ => Err(ParseStop::Fault(Kind::Syntax, tokens)),
    }
}

fn name(alloc: Global, tokens: &[Token]) -> Result<(Items<u8>, &[Token]), ParseStop>
    ensures gives { IsParsed (λ x. (x.0, x.1.now)) result (dispatch name_pick tokens.now) }
    ensures shorter { IfOk result (λ x. length x.1.now ≤ length tokens.now) }
{
    match tokens {
        [Token::Name(name), rest @ ..] => {
            let name = Items::from_slice(alloc, name.as_slice())?;
            Ok((name, rest))
        }
        _ => Err(ParseStop::Fault(Kind::Syntax, tokens)),
    }
}

#[tactic(auto, unfolding(crate::specs::Parsing::defined_rest))]
fn defined_rest(alloc: Global, tokens: &[Token]) -> Result<(Condition, &[Token]), ParseStop>
    ensures gives { IsParsed (λ x. (x.0, x.1.now)) result (defined_rest tokens.now) }
    ensures shorter { IfOk result (λ x. length x.1.now ≤ length tokens.now) }
{
    let (_, rest) = open(tokens)?;
    let (name, rest) = name(alloc, rest)?;
    let (_, rest) = close(rest)?;
    Ok((Condition::Defined(name), rest))
}

#[tactic(auto, unfolding(crate::specs::Parsing::not_rest))]
#[cycle(parse)]
fn not_rest(alloc: Global, tokens: &[Token], depth: u32) -> Result<(Condition, &[Token]), ParseStop>
    ensures gives { IsParsed (λ x. (x.0, x.1.now)) result (not_rest (unary_at depth) tokens.now) }
    ensures shorter { IfOk result (λ x. length x.1.now ≤ length tokens.now) }
{
    let (part, rest) = unary(alloc, tokens, depth)?;
    Ok((Condition::Not(Boxed::new(alloc, part)?), rest))
}

#[tactic(auto, unfolding(crate::specs::Parsing::group_rest))]
#[cycle(parse)]
fn group_rest(
    alloc: Global,
    tokens: &[Token],
    depth: u32,
) -> Result<(Condition, &[Token]), ParseStop>
    ensures gives { IsParsed (λ x. (x.0, x.1.now)) result (group_rest (whole (unary_at depth)) tokens.now) }
    ensures shorter { IfOk result (λ x. length x.1.now ≤ length tokens.now) }
{
    let (inner, rest) = disjunction(alloc, tokens, depth)?;
    let (_, rest) = close(rest)?;
    Ok((inner, rest))
}

/// What the first token begins, where its parts have at most so many negations and parentheses.
#[cycle(parse)]
fn begun(alloc: Global, tokens: &[Token], depth: u32) -> Result<(Condition, &[Token]), ParseStop>
    ensures gives { IsParsed (λ x. (x.0, x.1.now)) result (dispatch (unary_pick (unary_at depth) (whole (unary_at depth))) tokens.now) }
    ensures shorter { IfOk result (λ x. length x.1.now ≤ length tokens.now) }
{
    match tokens {
        [Token::Number(n), rest @ ..] => Ok((Condition::Number(*n), rest)),
        [Token::Name(name), rest @ ..] => {
            let name = Items::from_slice(alloc, name.as_slice())?;
            Ok((Condition::Name(name), rest))
        }
        [Token::Defined, rest @ ..] => defined_rest(alloc, rest),
        [Token::Not, rest @ ..] => not_rest(alloc, rest, depth),
        [Token::Open, rest @ ..] => group_rest(alloc, rest, depth),
        _ => Err(ParseStop::Fault(Kind::Syntax, tokens)),
    }
}

/// A unary with at most so many negations and parentheses.
#[tactic(auto, unfolding(crate::specs::Parsing::unary_at))]
#[cycle(parse)]
fn unary(alloc: Global, tokens: &[Token], depth: u32) -> Result<(Condition, &[Token]), ParseStop>
    ensures gives { IsParsed (λ x. (x.0, x.1.now)) result (unary_at depth tokens.now) }
    ensures shorter { IfOk result (λ x. length x.1.now ≤ length tokens.now) }
{
    if depth == 0 {
        Err(ParseStop::Fault(Kind::Limit, tokens))
    } else {
        begun(alloc, tokens, depth - 1)
    }
}

#[tactic(auto, unfolding(crate::specs::Parsing::compare_rest))]
#[cycle(parse)]
fn compare_rest(
    alloc: Global,
    by: Comparison,
    left: Condition,
    tokens: &[Token],
    depth: u32,
) -> Result<(Condition, &[Token]), ParseStop>
    ensures gives { IsParsed (λ x. (x.0, x.1.now)) result (compare_rest (unary_at depth) by left tokens.now) }
    ensures shorter { IfOk result (λ x. length x.1.now ≤ length tokens.now) }
{
    let (right, rest) = unary(alloc, tokens, depth)?;
    let left = Boxed::new(alloc, left)?;
    let right = Boxed::new(alloc, right)?;
    Ok((Condition::Compare(by, left, right), rest))
}

#[tactic(auto, unfolding(crate::specs::Parsing::comparison))]
#[cycle(parse)]
fn comparison(
    alloc: Global,
    tokens: &[Token],
    depth: u32,
) -> Result<(Condition, &[Token]), ParseStop>
    ensures gives { IsParsed (λ x. (x.0, x.1.now)) result (comparison (unary_at depth) tokens.now) }
    ensures shorter { IfOk result (λ x. length x.1.now ≤ length tokens.now) }
{
    let (left, rest) = unary(alloc, tokens, depth)?;
    match rest {
        [] => Err(ParseStop::Fault(Kind::Syntax, rest)),
        [Token::Compare(by), others @ ..] => compare_rest(alloc, *by, left, others, depth),
        _ => Ok((left, rest)),
    }
}

fn after_and(tokens: &[Token]) -> Option<&[Token]>
    ensures gives { option_map (λ x. x.now) result ≡ after_first is_and tokens.now }
    ensures shorter { IfSome result (λ x. length x.now < length tokens.now) }
{
    match tokens {
        [first, rest @ ..] if is_and(first) => Some(rest),
        _ => None,
    }
}

fn after_or(tokens: &[Token]) -> Option<&[Token]>
    ensures gives { option_map (λ x. x.now) result ≡ after_first is_or tokens.now }
    ensures shorter { IfSome result (λ x. length x.now < length tokens.now) }
{
    match tokens {
        [first, rest @ ..] if is_or(first) => Some(rest),
        _ => None,
    }
}

/// What was read, where a token stands after it.
fn closed(left: Condition, tokens: &[Token]) -> Result<(Condition, &[Token]), ParseStop>
    ensures gives { IsParsed (λ x. (x.0, x.1.now)) result (closed left tokens.now) }
    ensures shorter { IfOk result (λ x. length x.1.now ≤ length tokens.now) }
{
    match tokens {
        [] => Err(ParseStop::Fault(Kind::Syntax, tokens)),
        _ => Ok((left, tokens)),
    }
}

#[tactic(auto, unfolding(crate::specs::Parsing::and_rest))]
#[cycle(parse)]
fn and_rest(
    alloc: Global,
    left: Condition,
    tokens: &[Token],
    depth: u32,
) -> Result<(Condition, &[Token]), ParseStop>
    ensures gives { IsParsed (λ x. (x.0, x.1.now)) result (and_rest (comparison (unary_at depth)) left tokens.now) }
    ensures shorter { IfOk result (λ x. length x.1.now ≤ length tokens.now) }
{
    let (right, rest) = comparison(alloc, tokens, depth)?;
    let left = Boxed::new(alloc, left)?;
    let right = Boxed::new(alloc, right)?;
    Ok((Condition::And(left, right), rest))
}

/// The rest of a conjunction after its first part.
#[cycle(parse)]
fn and_chain(
    alloc: Global,
    left: Condition,
    tokens: &[Token],
    depth: u32,
) -> Result<(Condition, &[Token]), ParseStop>
    ensures gives { IsParsed (λ x. (x.0, x.1.now)) result (loop (and_pick (comparison (unary_at depth))) left tokens.now) }
    ensures shorter { IfOk result (λ x. length x.1.now ≤ length tokens.now) }
{
    let mut left = left;
    let mut rest = tokens;
    while let Some(others) = after_and(rest) {
        match and_rest(alloc, left, others, depth) {
            Err(stop) => return Err(stop),
            Ok((joined, others)) => {
                left = joined;
                rest = others;
            }
        }
    }
    closed(left, rest)
}

#[tactic(auto, unfolding(crate::specs::Parsing::conjunction))]
#[cycle(parse)]
fn conjunction(
    alloc: Global,
    tokens: &[Token],
    depth: u32,
) -> Result<(Condition, &[Token]), ParseStop>
    ensures gives { IsParsed (λ x. (x.0, x.1.now)) result (conjunction (comparison (unary_at depth)) tokens.now) }
    ensures shorter { IfOk result (λ x. length x.1.now ≤ length tokens.now) }
{
    match comparison(alloc, tokens, depth) {
        Err(stop) => Err(stop),
        Ok((left, rest)) => and_chain(alloc, left, rest, depth),
    }
}

#[tactic(auto, unfolding(crate::specs::Parsing::or_rest))]
#[cycle(parse)]
fn or_rest(
    alloc: Global,
    left: Condition,
    tokens: &[Token],
    depth: u32,
) -> Result<(Condition, &[Token]), ParseStop>
    ensures gives { IsParsed (λ x. (x.0, x.1.now)) result (or_rest (conjunction (comparison (unary_at depth))) left tokens.now) }
    ensures shorter { IfOk result (λ x. length x.1.now ≤ length tokens.now) }
{
    let (right, rest) = conjunction(alloc, tokens, depth)?;
    let left = Boxed::new(alloc, left)?;
    let right = Boxed::new(alloc, right)?;
    Ok((Condition::Or(left, right), rest))
}

/// The rest of a disjunction after its first part.
#[cycle(parse)]
fn or_chain(
    alloc: Global,
    left: Condition,
    tokens: &[Token],
    depth: u32,
) -> Result<(Condition, &[Token]), ParseStop>
    ensures gives { IsParsed (λ x. (x.0, x.1.now)) result (loop (or_pick (conjunction (comparison (unary_at depth)))) left tokens.now) }
    ensures shorter { IfOk result (λ x. length x.1.now ≤ length tokens.now) }
{
    let mut left = left;
    let mut rest = tokens;
    while let Some(others) = after_or(rest) {
        match or_rest(alloc, left, others, depth) {
            Err(stop) => return Err(stop),
            Ok((joined, others)) => {
                left = joined;
                rest = others;
            }
        }
    }
    closed(left, rest)
}

#[tactic(auto, unfolding(crate::specs::Parsing::disjunction))]
#[cycle(parse)]
fn disjunction(
    alloc: Global,
    tokens: &[Token],
    depth: u32,
) -> Result<(Condition, &[Token]), ParseStop>
    ensures gives { IsParsed (λ x. (x.0, x.1.now)) result (whole (unary_at depth) tokens.now) }
    ensures shorter { IfOk result (λ x. length x.1.now ≤ length tokens.now) }
{
    match conjunction(alloc, tokens, depth) {
        Err(stop) => Err(stop),
        Ok((left, rest)) => or_chain(alloc, left, rest, depth),
    }
}

#[tactic(auto, unfolding(crate::specs::Parsing::full_at))]
fn full(alloc: Global, tokens: &[Token], depth: u32) -> Result<(Condition, &[Token]), ParseStop>
    ensures { IsParsed (λ x. (x.0, x.1.now)) result (full_at depth tokens.now) }
{
    let (inner, rest) = disjunction(alloc, tokens, depth)?;
    let (_, rest) = end(rest)?;
    Ok((inner, rest))
}

/// Nothing and the end, or a disjunction and the end.
pub(crate) fn condition(
    alloc: Global,
    tokens: &[Token],
    depth: u32,
) -> Result<(Condition, &[Token]), ParseStop>
    ensures { IsParsed (λ x. (x.0, x.1.now)) result (condition_at depth tokens.now) }
{
    match tokens {
        [] => Err(ParseStop::Fault(Kind::Syntax, tokens)),
        [Token::End, rest @ ..] => Ok((Condition::Always, rest)),
        _ => full(alloc, tokens, depth),
    }
}
