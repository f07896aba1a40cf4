ghost use Rattle.std.specs.Prelude.{◌≡◌, ◌≤◌, ◌+◌, length, IfOk, suc, ◌&&◌, nat_lt};
ghost use Rattle.nx_grammar.specs.Reading.{dispatch, done};
ghost use Rattle.nx_cexpr.specs.Reading as reading;
ghost use Rattle.nx_cexpr.specs.Operands as operands;
ghost use Rattle.nx_cexpr.specs.Answers.{Gives, part_at, stepped_at};
ghost use Rattle.nx_cterm.specs.Readers.{ReadsTo};

use nx_celement::element::{element_rest, elements};
use nx_cexpr::ParseStop;
use nx_cexpr::operand::{Lvalue, Operand};
use nx_cexpr::parts::post_lvalue;
use nx_cexpr::signs::step_of;
use nx_cexpr::tokens::{goes_down, is_sign};
use nx_cexpr::trees::{after, element_operand};
use nx_cterm::below::Answer;
use nx_ctree::{Sign, Signed, StepOperator};
use nx_grammar::Kind;
use std::alloc::Global;

/// A `++` or `--` after what can be written to, where that may go down by a node.
fn stepped<'a>(
    alloc: Global,
    operator: StepOperator,
    lvalue: Lvalue,
    tokens: &'a [Signed<'a>],
    following: &'a [Signed<'a>],
    lower: u32,
) -> Answer<'a, Operand>
    requires small { lower ≤ 63 }
    ensures gives { Gives (λ x. (x.0, x.1.now)) result (part_at (done (operands.after operator lvalue)) (nat_lt lvalue.height (suc lower)) tokens.now following.now) }
    ensures shorter { IfOk result (λ x. length x.1.now ≤ length following.now) }
    ensures within { IfOk result (λ x. x.0.height ≤ lower + 1) }
{
    if lvalue.height <= lower {
        Ok((after(alloc, operator, lvalue)?, following))
    } else {
        Err(ParseStop::Fault(Kind::Limit, tokens))
    }
}

/// A `++` or `--` after an operand, if it can be written to.
fn step_on<'a>(
    alloc: Global,
    operator: StepOperator,
    target: Option<Lvalue>,
    tokens: &'a [Signed<'a>],
    following: &'a [Signed<'a>],
    lower: u32,
) -> Answer<'a, Operand>
    requires small { lower ≤ 63 }
    ensures gives { Gives (λ x. (x.0, x.1.now)) result (stepped_at operator target (suc lower) tokens.now following.now) }
    ensures shorter { IfOk result (λ x. length x.1.now ≤ length following.now) }
    ensures within { IfOk result (λ x. x.0.height ≤ lower + 1) }
{
    match target {
        None => Err(ParseStop::Fault(Kind::Syntax, tokens)),
        Some(lvalue) => stepped(alloc, operator, lvalue, tokens, following, lower),
    }
}

/// `++` or `--` after what it may stand after.
#[tactic(auto, using(nx_cexpr::proofs::Steps::step_same))]
fn step<'a>(
    alloc: Global,
    operand: Operand,
    tokens: &'a [Signed<'a>],
    lower: u32,
) -> Answer<'a, Operand>
    requires small { lower ≤ 63 }
    requires operand { operand.height ≤ lower + 1 }
    ensures gives { Gives (λ x. (x.0, x.1.now)) result (dispatch (reading.step_pick (suc lower) operand) tokens.now) }
    ensures shorter { IfOk result (λ x. length x.1.now ≤ length tokens.now) }
    ensures within { IfOk result (λ x. x.0.height ≤ lower + 1) }
{
    match tokens {
        [] => Err(ParseStop::Fault(Kind::Syntax, tokens)),
        [first, rest @ ..] => match step_of(first.sign) {
            None => Ok((operand, tokens)),
            Some(operator) => step_on(alloc, operator, post_lvalue(operand), tokens, rest, lower),
        },
    }
}

/// Indexes after a `[`, and then `++` or `--`.
#[tactic(auto, unfolding(nx_cexpr::specs::Reading::post_element))]
fn post_element<'a, F: Fn(&'a [Signed<'a>], u32, u32) -> Answer<'a, Operand>>(
    alloc: Global,
    reader: &F,
    base: Operand,
    tokens: &'a [Signed<'a>],
    lower: u32,
) -> Answer<'a, Operand>
    requires small { lower ≤ 63 }
    requires reader { ReadsTo (F.pre reader.now) (F.post reader.now) lower }
    requires base { base.height ≤ lower }
    ensures gives { Gives (λ x. (x.0, x.1.now)) result (reading.post_element (reading.within lower) (reading.has_node lower) (suc lower) base tokens.now) }
    ensures shorter { IfOk result (λ x. length x.1.now ≤ length tokens.now) }
    ensures within { IfOk result (λ x. x.0.height ≤ lower + 1) }
{
    let (first, rest) = element_rest(alloc, reader, base, tokens, lower)?;
    let (read, rest) = elements(alloc, reader, first, rest, lower)?;
    step(alloc, element_operand(read), rest, lower)
}

/// A `[` after an operand, where that may go down by a node.
fn post_index<'a, F: Fn(&'a [Signed<'a>], u32, u32) -> Answer<'a, Operand>>(
    alloc: Global,
    reader: &F,
    operand: Operand,
    tokens: &'a [Signed<'a>],
    following: &'a [Signed<'a>],
    lower: u32,
) -> Answer<'a, Operand>
    requires small { lower ≤ 63 }
    requires reader { ReadsTo (F.pre reader.now) (F.post reader.now) lower }
    ensures gives { Gives (λ x. (x.0, x.1.now)) result (part_at (reading.post_element (reading.within lower) (reading.has_node lower) (suc lower) operand) (reading.has_node lower && nat_lt operand.height (suc lower)) tokens.now following.now) }
    ensures shorter { IfOk result (λ x. length x.1.now ≤ length following.now) }
    ensures within { IfOk result (λ x. x.0.height ≤ lower + 1) }
{
    if goes_down(operand.height, lower) {
        post_element(alloc, reader, operand, following, lower)
    } else {
        Err(ParseStop::Fault(Kind::Limit, tokens))
    }
}

/// What stands after a primary expression (C11 section 6.5.2).
#[tactic(auto, using(nx_cexpr::proofs::Steps::picked_part))]
pub fn post<'a, F: Fn(&'a [Signed<'a>], u32, u32) -> Answer<'a, Operand>>(
    alloc: Global,
    reader: &F,
    operand: Operand,
    tokens: &'a [Signed<'a>],
    lower: u32,
) -> Answer<'a, Operand>
    requires small { lower ≤ 63 }
    requires reader { ReadsTo (F.pre reader.now) (F.post reader.now) lower }
    requires operand { operand.height ≤ lower + 1 }
    ensures gives { Gives (λ x. (x.0, x.1.now)) result (reading.post (reading.within lower) (reading.has_node lower) (suc lower) operand tokens.now) }
    ensures shorter { IfOk result (λ x. length x.1.now ≤ length tokens.now) }
    ensures within { IfOk result (λ x. x.0.height ≤ lower + 1) }
{
    match tokens {
        [first, rest @ ..] if is_sign(Sign::OpenBracket, first) => {
            post_index(alloc, reader, operand, tokens, rest, lower)
        }
        _ => step(alloc, operand, tokens, lower),
    }
}
