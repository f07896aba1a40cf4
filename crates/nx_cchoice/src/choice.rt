ghost use Rattle.std.specs.Prelude.{◌≡◌, ◌<◌, ◌≤◌, ◌+◌, length, IfOk, suc, ◌&&◌, nat_lt};
ghost use Rattle.nx_grammar.specs.Reading.{dispatch};
ghost use Rattle.nx_cexpr.specs.Reading as reading;
ghost use Rattle.nx_cexpr.specs.Answers.{Gives, part_at};
ghost use Rattle.nx_cterm.specs.Readers.{ReadsTo};
ghost use Rattle.nx_cchoice.specs.Parts as parts;

use nx_cexpr::ParseStop;
use nx_cexpr::operand::Operand;
use nx_cexpr::tokens::{expect, goes_down, is_sign};
use nx_cexpr::trees::conditional;
use nx_cterm::below::{Answer, WHOLE, below};
use nx_ctree::{Sign, Signed};
use nx_grammar::Kind;
use std::alloc::Global;

/// The level of conditional expressions.
const CONDITIONAL: u32 = 12;

/// The first of the two expressions that a test chooses from, and the `:` after it.
#[tactic(auto, unfolding(crate::specs::Parts::then_rest))]
fn then_rest<'a, F: Fn(&'a [Signed<'a>], u32, u32) -> Answer<'a, Operand>>(
    reader: &F,
    tokens: &'a [Signed<'a>],
    lower: u32,
) -> Answer<'a, Operand>
    requires reader { ReadsTo (F.pre reader.now) (F.post reader.now) lower }
    ensures gives { Gives (λ x. (x.0, x.1.now)) result (parts.then_rest (reading.within lower) tokens.now) }
    ensures shorter { IfOk result (λ x. length x.1.now < length tokens.now) }
    ensures within { IfOk result (λ x. x.0.height ≤ lower) }
{
    let (then, rest) = below(reader, tokens, lower, WHOLE)?;
    let (_, rest) = expect(rest, Sign::Colon)?;
    Ok((then, rest))
}

/// The second one.
#[tactic(auto, unfolding(crate::specs::Parts::otherwise_rest))]
fn otherwise_rest<'a, F: Fn(&'a [Signed<'a>], u32, u32) -> Answer<'a, Operand>>(
    alloc: Global,
    reader: &F,
    test: Operand,
    then: Operand,
    tokens: &'a [Signed<'a>],
    lower: u32,
) -> Answer<'a, Operand>
    requires small { lower ≤ 63 }
    requires reader { ReadsTo (F.pre reader.now) (F.post reader.now) lower }
    requires test { test.height ≤ lower }
    requires then { then.height ≤ lower }
    ensures gives { Gives (λ x. (x.0, x.1.now)) result (parts.otherwise_rest (reading.within lower) test then tokens.now) }
    ensures shorter { IfOk result (λ x. length x.1.now < length tokens.now) }
    ensures within { IfOk result (λ x. x.0.height ≤ lower + 1) }
{
    let (otherwise, rest) = below(reader, tokens, lower, CONDITIONAL)?;
    Ok((conditional(alloc, test, then, otherwise)?, rest))
}

/// What stands after a `?` (C11 section 6.5.15).
#[tactic(auto, using(crate::proofs::Choices::choice_by))]
fn conditional_rest<'a, F: Fn(&'a [Signed<'a>], u32, u32) -> Answer<'a, Operand>>(
    alloc: Global,
    reader: &F,
    test: Operand,
    tokens: &'a [Signed<'a>],
    lower: u32,
) -> Answer<'a, Operand>
    requires small { lower ≤ 63 }
    requires reader { ReadsTo (F.pre reader.now) (F.post reader.now) lower }
    requires test { test.height ≤ lower }
    ensures gives { Gives (λ x. (x.0, x.1.now)) result (reading.conditional_rest (reading.within lower) test tokens.now) }
    ensures shorter { IfOk result (λ x. length x.1.now ≤ length tokens.now) }
    ensures within { IfOk result (λ x. x.0.height ≤ lower + 1) }
{
    let (then, rest) = then_rest(reader, tokens, lower)?;
    otherwise_rest(alloc, reader, test, then, rest, lower)
}

/// What stands after a `?`, where the test may go down by a node.
fn chosen<'a, F: Fn(&'a [Signed<'a>], u32, u32) -> Answer<'a, Operand>>(
    alloc: Global,
    reader: &F,
    test: Operand,
    tokens: &'a [Signed<'a>],
    following: &'a [Signed<'a>],
    lower: u32,
) -> Answer<'a, Operand>
    requires small { lower ≤ 63 }
    requires reader { ReadsTo (F.pre reader.now) (F.post reader.now) lower }
    ensures gives { Gives (λ x. (x.0, x.1.now)) result (part_at (reading.conditional_rest (reading.within lower) test) (reading.has_node lower && nat_lt test.height (suc lower)) tokens.now following.now) }
    ensures shorter { IfOk result (λ x. length x.1.now ≤ length following.now) }
    ensures within { IfOk result (λ x. x.0.height ≤ lower + 1) }
{
    if goes_down(test.height, lower) {
        conditional_rest(alloc, reader, test, following, lower)
    } else {
        Err(ParseStop::Fault(Kind::Limit, tokens))
    }
}

/// A `?` and its parts after a test, or none.
#[tactic(auto, using(nx_cexpr::proofs::Steps::picked_part))]
pub fn conditional_at<'a, F: Fn(&'a [Signed<'a>], u32, u32) -> Answer<'a, Operand>>(
    alloc: Global,
    reader: &F,
    test: Operand,
    tokens: &'a [Signed<'a>],
    lower: u32,
) -> Answer<'a, Operand>
    requires small { lower ≤ 63 }
    requires reader { ReadsTo (F.pre reader.now) (F.post reader.now) lower }
    requires test { test.height ≤ lower + 1 }
    ensures gives { Gives (λ x. (x.0, x.1.now)) result (dispatch (reading.conditional_pick (reading.within lower) (reading.has_node lower) (suc lower) test) tokens.now) }
    ensures shorter { IfOk result (λ x. length x.1.now ≤ length tokens.now) }
    ensures within { IfOk result (λ x. x.0.height ≤ lower + 1) }
{
    match tokens {
        [] => Err(ParseStop::Fault(Kind::Syntax, tokens)),
        [first, rest @ ..] if is_sign(Sign::Question, first) => {
            chosen(alloc, reader, test, tokens, rest, lower)
        }
        _ => Ok((test, tokens)),
    }
}
