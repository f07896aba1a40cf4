ghost use Rattle.std.specs.Prelude.{◌≡◌, ◌≤◌, ◌+◌, length, IfOk, suc};
ghost use Rattle.nx_cexpr.specs.Reading as reading;
ghost use Rattle.nx_cexpr.specs.Answers.{Gives};
ghost use Rattle.nx_cterm.specs.Readers.{ReadsTo};

use nx_celement::element::indexed;
use nx_cexpr::operand::Operand;
use nx_cexpr::trees::{address, before, unary_operand};
use nx_cplace::place::place;
use nx_cterm::below::{Answer, below};
use nx_ctree::{Signed, StepOperator, UnaryOperator};
use std::alloc::Global;

/// What stands after an operator before its operand.
#[tactic(auto, unfolding(nx_cexpr::specs::Reading::unary_rest))]
pub fn unary_rest<'a, F: Fn(&'a [Signed<'a>], u32, u32) -> Answer<'a, Operand>>(
    alloc: Global,
    reader: &F,
    operator: UnaryOperator,
    token: &Signed<'a>,
    tokens: &'a [Signed<'a>],
    lower: u32,
) -> Answer<'a, Operand>
    requires small { lower ≤ 63 }
    requires reader { ReadsTo (F.pre reader.now) (F.post reader.now) lower }
    ensures gives { Gives (λ x. (x.0, x.1.now)) result (reading.unary_rest (reading.within lower) operator token.now tokens.now) }
    ensures shorter { IfOk result (λ x. length x.1.now ≤ length tokens.now) }
    ensures within { IfOk result (λ x. x.0.height ≤ lower + 1) }
{
    let (part, rest) = below(reader, tokens, lower, 1)?;
    Ok((unary_operand(alloc, token, operator, part)?, rest))
}

/// What stands after a `&`.
#[tactic(auto, unfolding(nx_cexpr::specs::Reading::address_rest))]
pub fn address_rest<'a, F: Fn(&'a [Signed<'a>], u32, u32) -> Answer<'a, Operand>>(
    alloc: Global,
    reader: &F,
    token: &Signed<'a>,
    tokens: &'a [Signed<'a>],
    lower: u32,
) -> Answer<'a, Operand>
    requires small { lower ≤ 63 }
    requires reader { ReadsTo (F.pre reader.now) (F.post reader.now) lower }
    ensures gives { Gives (λ x. (x.0, x.1.now)) result (reading.address_rest (reading.within lower) (reading.has_node lower) (suc lower) token.now tokens.now) }
    ensures shorter { IfOk result (λ x. length x.1.now ≤ length tokens.now) }
    ensures within { IfOk result (λ x. x.0.height ≤ lower + 1) }
{
    let (base, rest) = below(reader, tokens, lower, 0)?;
    let (read, rest) = indexed(alloc, reader, base, rest, lower)?;
    Ok((address(alloc, token, read)?, rest))
}

/// What stands after a `++` or `--`.
#[tactic(auto, unfolding(nx_cexpr::specs::Reading::before_rest))]
pub fn before_rest<'a, F: Fn(&'a [Signed<'a>], u32, u32) -> Answer<'a, Operand>>(
    alloc: Global,
    reader: &F,
    operator: StepOperator,
    token: &Signed<'a>,
    tokens: &'a [Signed<'a>],
    lower: u32,
) -> Answer<'a, Operand>
    requires small { lower ≤ 63 }
    requires reader { ReadsTo (F.pre reader.now) (F.post reader.now) lower }
    requires positive { 1 ≤ lower }
    ensures gives { Gives (λ x. (x.0, x.1.now)) result (reading.before_rest (reading.within lower) operator token.now tokens.now) }
    ensures shorter { IfOk result (λ x. length x.1.now ≤ length tokens.now) }
    ensures within { IfOk result (λ x. x.0.height ≤ lower + 1) }
{
    let (lvalue, rest) = place(alloc, reader, tokens, lower)?;
    Ok((before(alloc, token, operator, lvalue)?, rest))
}
