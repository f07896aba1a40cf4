ghost use Rattle.std.specs.Prelude.{◌≡◌, ◌<◌, ◌≤◌, ◌+◌, length, IfOk, suc, ◌&&◌, nat_lt};
ghost use Rattle.nx_cexpr.specs.Reading as reading;
ghost use Rattle.nx_cexpr.specs.Operands as operands;
ghost use Rattle.nx_cexpr.specs.Answers.{Gives, part_at};
ghost use Rattle.nx_cterm.specs.Readers.{ReadsTo};
ghost use Rattle.nx_celement.specs.Indexes as indexes;

use nx_cexpr::ParseStop;
use nx_cexpr::operand::{Element, Operand};
use nx_cexpr::tokens::{Rest, after, closed, expect, goes_down};
use nx_cexpr::trees::{element, element_operand, take_element};
use nx_cterm::below::{Answer, WHOLE, below};
use nx_ctree::{Sign, Signed};
use nx_grammar::Kind;
use std::alloc::Global;

/// An index and the `]` after it.
#[tactic(auto, unfolding(crate::specs::Indexes::index_rest))]
fn index_rest<'a, F: Fn(&'a [Signed<'a>], u32, u32) -> Answer<'a, Operand>>(
    reader: &F,
    tokens: &'a [Signed<'a>],
    lower: u32,
) -> Answer<'a, Operand>
    requires reader { ReadsTo (F.pre reader.now) (F.post reader.now) lower }
    ensures gives { Gives (λ x. (x.0, x.1.now)) result (indexes.index_rest (reading.within lower) tokens.now) }
    ensures shorter { IfOk result (λ x. length x.1.now ≤ length tokens.now) }
    ensures within { IfOk result (λ x. x.0.height ≤ lower) }
{
    let (index, rest) = below(reader, tokens, lower, WHOLE)?;
    let (_, rest) = expect(rest, Sign::CloseBracket)?;
    Ok((index, rest))
}

/// What stands after a `[`.
#[tactic(auto, using(crate::proofs::Indexes::element_by))]
pub fn element_rest<'a, F: Fn(&'a [Signed<'a>], u32, u32) -> Answer<'a, Operand>>(
    alloc: Global,
    reader: &F,
    base: Operand,
    tokens: &'a [Signed<'a>],
    lower: u32,
) -> Answer<'a, Element>
    requires small { lower ≤ 63 }
    requires reader { ReadsTo (F.pre reader.now) (F.post reader.now) lower }
    requires base { base.height ≤ lower }
    ensures gives { Gives (λ x. (x.0, x.1.now)) result (reading.element_rest (reading.within lower) base tokens.now) }
    ensures shorter { IfOk result (λ x. length x.1.now ≤ length tokens.now) }
    ensures within { IfOk result (λ x. x.0.height ≤ lower + 1) }
{
    let (index, rest) = index_rest(reader, tokens, lower)?;
    Ok((element(alloc, base, index)?, rest))
}

/// An index more, where what stands before it may go down by a node.
fn next_element<'a, F: Fn(&'a [Signed<'a>], u32, u32) -> Answer<'a, Operand>>(
    alloc: Global,
    reader: &F,
    read: &mut Element,
    tokens: &'a [Signed<'a>],
    following: &'a [Signed<'a>],
    lower: u32,
) -> Result<&'a [Signed<'a>], ParseStop<'a>>
    requires small { lower ≤ 63 }
    requires reader { ReadsTo (F.pre reader.now) (F.post reader.now) lower }
    ensures gives { Gives (λ x. (read.new, x.now)) result (part_at (reading.element_rest (reading.within lower) (operands.element_operand read.old)) (reading.has_node lower && nat_lt read.old.height (suc lower)) tokens.now following.now) }
    ensures shorter { IfOk result (λ x. length x.now ≤ length following.now) }
    ensures within { IfOk result (λ x. read.new.height ≤ lower + 1) }
{
    if goes_down(read.height, lower) {
        let base = element_operand(take_element(read));
        let (more, rest) = element_rest(alloc, reader, base, following, lower)?;
        *read = more;
        Ok(rest)
    } else {
        Err(ParseStop::Fault(Kind::Limit, tokens))
    }
}

/// Further indexes after a first one.
pub fn elements<'a, F: Fn(&'a [Signed<'a>], u32, u32) -> Answer<'a, Operand>>(
    alloc: Global,
    reader: &F,
    first: Element,
    tokens: &'a [Signed<'a>],
    lower: u32,
) -> Answer<'a, Element>
    requires small { lower ≤ 63 }
    requires reader { ReadsTo (F.pre reader.now) (F.post reader.now) lower }
    requires first { first.height ≤ lower + 1 }
    ensures gives { Gives (λ x. (x.0, x.1.now)) result (reading.elements (reading.within lower) (reading.has_node lower) (suc lower) first tokens.now) }
    ensures shorter { IfOk result (λ x. length x.1.now ≤ length tokens.now) }
    ensures within { IfOk result (λ x. x.0.height ≤ lower + 1) }
{
    let mut read = first;
    let mut rest = Rest::new(tokens);
    while let Some(following) = after(rest.tokens(), Sign::OpenBracket) {
        match next_element(alloc, reader, &mut read, rest.tokens(), following, lower) {
            Err(stop) => return Err(stop),
            Ok(others) => rest = Rest::new(others),
        }
    }
    closed(read, rest.tokens())
}

/// One index or more.
#[tactic(auto, unfolding(nx_cexpr::specs::Reading::indexed))]
pub fn indexed<'a, F: Fn(&'a [Signed<'a>], u32, u32) -> Answer<'a, Operand>>(
    alloc: Global,
    reader: &F,
    base: Operand,
    tokens: &'a [Signed<'a>],
    lower: u32,
) -> Answer<'a, Element>
    requires small { lower ≤ 63 }
    requires reader { ReadsTo (F.pre reader.now) (F.post reader.now) lower }
    requires base { base.height ≤ lower }
    ensures gives { Gives (λ x. (x.0, x.1.now)) result (reading.indexed (reading.within lower) (reading.has_node lower) (suc lower) base tokens.now) }
    ensures shorter { IfOk result (λ x. length x.1.now ≤ length tokens.now) }
    ensures within { IfOk result (λ x. x.0.height ≤ lower + 1) }
{
    let (_, rest) = expect(tokens, Sign::OpenBracket)?;
    let (first, rest) = element_rest(alloc, reader, base, rest, lower)?;
    elements(alloc, reader, first, rest, lower)
}
