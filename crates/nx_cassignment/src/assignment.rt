ghost use Rattle.std.specs.Prelude.{◌≡◌, ◌≤◌, ◌+◌, length, IfOk, IfSome, suc, ◌&&◌, nat_lt};
ghost use Rattle.nx_ctree.specs.Expressions.{written};
ghost use Rattle.nx_grammar.specs.Reading.{dispatch};
ghost use Rattle.nx_cexpr.specs.Reading as reading;
ghost use Rattle.nx_cexpr.specs.Operands as operands;
ghost use Rattle.nx_cexpr.specs.Answers.{Gives, part_at, assigned_at};
ghost use Rattle.nx_cterm.specs.Readers.{ReadsTo};

use nx_cexpr::ParseStop;
use nx_cexpr::operand::{Lvalue, Operand};
use nx_cexpr::parts::{lvalue_of, written};
use nx_cexpr::signs::assign_of;
use nx_cexpr::tokens::goes_down;
use nx_cexpr::trees::assign;
use nx_cterm::below::{Answer, WHOLE, below};
use nx_ctree::{AssignOperator, Signed};
use nx_grammar::Kind;
use std::alloc::Global;

/// The right side of an assignment (C11 section 6.5.16).
#[tactic(auto, unfolding(nx_cexpr::specs::Reading::assign_rest))]
fn assign_rest<'a, F: Fn(&'a [Signed<'a>], u32, u32) -> Answer<'a, Operand>>(
    alloc: Global,
    reader: &F,
    operator: AssignOperator,
    lvalue: Lvalue,
    tokens: &'a [Signed<'a>],
    lower: u32,
) -> Answer<'a, Operand>
    requires small { lower ≤ 63 }
    requires reader { ReadsTo (F.pre reader.now) (F.post reader.now) lower }
    requires lvalue { lvalue.height ≤ lower + 1 }
    requires written { written operator (operands.place_kind lvalue.target) lvalue.height ≤ lower }
    ensures gives { Gives (λ x. (x.0, x.1.now)) result (reading.assign_rest (reading.within lower) operator lvalue tokens.now) }
    ensures shorter { IfOk result (λ x. length x.1.now ≤ length tokens.now) }
    ensures within { IfOk result (λ x. x.0.height ≤ lower + 1) }
{
    let (right, rest) = below(reader, tokens, lower, WHOLE)?;
    Ok((assign(alloc, operator, lvalue, right)?, rest))
}

/// The right side of an assignment, where what is written to may go down by a node.
fn assign_to<'a, F: Fn(&'a [Signed<'a>], u32, u32) -> Answer<'a, Operand>>(
    alloc: Global,
    reader: &F,
    operator: AssignOperator,
    lvalue: Lvalue,
    tokens: &'a [Signed<'a>],
    following: &'a [Signed<'a>],
    lower: u32,
) -> Answer<'a, Operand>
    requires small { lower ≤ 63 }
    requires reader { ReadsTo (F.pre reader.now) (F.post reader.now) lower }
    requires lvalue { lvalue.height ≤ lower + 1 }
    ensures gives { Gives (λ x. (x.0, x.1.now)) result (part_at (reading.assign_rest (reading.within lower) operator lvalue) (reading.has_node lower && nat_lt (written operator (operands.place_kind lvalue.target) lvalue.height) (suc lower)) tokens.now following.now) }
    ensures shorter { IfOk result (λ x. length x.1.now ≤ length following.now) }
    ensures within { IfOk result (λ x. x.0.height ≤ lower + 1) }
{
    if goes_down(written(operator, &lvalue.target, lvalue.height), lower) {
        assign_rest(alloc, reader, operator, lvalue, following, lower)
    } else {
        Err(ParseStop::Fault(Kind::Limit, tokens))
    }
}

/// The right side of an assignment, if its left side can be written to.
fn assign_on<'a, F: Fn(&'a [Signed<'a>], u32, u32) -> Answer<'a, Operand>>(
    alloc: Global,
    reader: &F,
    operator: AssignOperator,
    target: Option<Lvalue>,
    tokens: &'a [Signed<'a>],
    following: &'a [Signed<'a>],
    lower: u32,
) -> Answer<'a, Operand>
    requires small { lower ≤ 63 }
    requires reader { ReadsTo (F.pre reader.now) (F.post reader.now) lower }
    requires target { IfSome target (λ p. p.height ≤ lower + 1) }
    ensures gives { Gives (λ x. (x.0, x.1.now)) result (assigned_at (reading.within lower) (reading.has_node lower) (suc lower) operator target tokens.now following.now) }
    ensures shorter { IfOk result (λ x. length x.1.now ≤ length following.now) }
    ensures within { IfOk result (λ x. x.0.height ≤ lower + 1) }
{
    match target {
        None => Err(ParseStop::Fault(Kind::Syntax, tokens)),
        Some(lvalue) => assign_to(alloc, reader, operator, lvalue, tokens, following, lower),
    }
}

/// An assignment's sign and its right side after what is written to, or none.
#[tactic(auto, using(nx_cexpr::proofs::Steps::assign_same))]
pub fn assigned<'a, F: Fn(&'a [Signed<'a>], u32, u32) -> Answer<'a, Operand>>(
    alloc: Global,
    reader: &F,
    left: Operand,
    tokens: &'a [Signed<'a>],
    lower: u32,
) -> Answer<'a, Operand>
    requires small { lower ≤ 63 }
    requires reader { ReadsTo (F.pre reader.now) (F.post reader.now) lower }
    requires left { left.height ≤ lower + 1 }
    ensures gives { Gives (λ x. (x.0, x.1.now)) result (dispatch (reading.assign_pick (reading.within lower) (reading.has_node lower) (suc lower) left) tokens.now) }
    ensures shorter { IfOk result (λ x. length x.1.now ≤ length tokens.now) }
    ensures within { IfOk result (λ x. x.0.height ≤ lower + 1) }
{
    match tokens {
        [] => Err(ParseStop::Fault(Kind::Syntax, tokens)),
        [first, rest @ ..] => match assign_of(first.sign) {
            None => Ok((left, tokens)),
            Some(operator) => assign_on(
                alloc,
                reader,
                operator,
                lvalue_of(left),
                tokens,
                rest,
                lower,
            ),
        },
    }
}
