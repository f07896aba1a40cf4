ghost use Rattle.std.specs.Prelude.{◌≡◌, ◌<◌, ◌≤◌, ◌+◌, length, IfOk, IfSome, suc, ◌&&◌, nat_lt};
ghost use Rattle.std.specs.Option.{option_map};
ghost use Rattle.nx_grammar.specs.Reading.{loop};
ghost use Rattle.nx_cexpr.specs.Reading as reading;
ghost use Rattle.nx_cexpr.specs.Answers.{Gives, part_at, operator_after};
ghost use Rattle.nx_cterm.specs.Readers.{ReadsTo};

use nx_cexpr::ParseStop;
use nx_cexpr::operand::Operand;
use nx_cexpr::signs::operator_at;
use nx_cexpr::tokens::{Rest, closed, goes_down};
use nx_cexpr::trees::{binary, take_operand};
use nx_cterm::below::{Answer, below};
use nx_ctree::{BinaryOperator, Signed};
use nx_grammar::Kind;
use std::alloc::Global;

/// The right side of an operator of the level above `n`.
#[tactic(auto, unfolding(nx_cexpr::specs::Reading::right_rest))]
fn right_rest<'a, F: Fn(&'a [Signed<'a>], u32, u32) -> Answer<'a, Operand>>(
    alloc: Global,
    reader: &F,
    n: u32,
    operator: BinaryOperator,
    left: Operand,
    tokens: &'a [Signed<'a>],
    lower: u32,
) -> Answer<'a, Operand>
    requires small { lower ≤ 63 }
    requires reader { ReadsTo (F.pre reader.now) (F.post reader.now) lower }
    requires level { n ≤ 13 }
    requires left { left.height ≤ lower }
    ensures gives { Gives (λ x. (x.0, x.1.now)) result (reading.right_rest (reading.within lower) n operator left tokens.now) }
    ensures shorter { IfOk result (λ x. length x.1.now ≤ length tokens.now) }
    ensures within { IfOk result (λ x. x.0.height ≤ lower + 1) }
{
    let (right, rest) = below(reader, tokens, lower, n)?;
    Ok((binary(alloc, operator, left, right)?, rest))
}

/// The right side of an operator, where the left side may go down by a node.
fn right<'a, F: Fn(&'a [Signed<'a>], u32, u32) -> Answer<'a, Operand>>(
    alloc: Global,
    reader: &F,
    n: u32,
    operator: BinaryOperator,
    read: &mut Operand,
    tokens: &'a [Signed<'a>],
    following: &'a [Signed<'a>],
    lower: u32,
) -> Result<&'a [Signed<'a>], ParseStop<'a>>
    requires small { lower ≤ 63 }
    requires reader { ReadsTo (F.pre reader.now) (F.post reader.now) lower }
    requires level { n ≤ 13 }
    ensures gives { Gives (λ x. (read.new, x.now)) result (part_at (reading.right_rest (reading.within lower) n operator read.old) (reading.has_node lower && nat_lt read.old.height (suc lower)) tokens.now following.now) }
    ensures shorter { IfOk result (λ x. length x.now ≤ length following.now) }
    ensures within { IfOk result (λ x. read.new.height ≤ lower + 1) }
{
    if goes_down(read.height, lower) {
        let left = take_operand(read);
        let (more, rest) = right_rest(alloc, reader, n, operator, left, following, lower)?;
        *read = more;
        Ok(rest)
    } else {
        Err(ParseStop::Fault(Kind::Limit, tokens))
    }
}

/// An operator of a level, where it stands next, and the tokens after it.
fn operator_next<'a>(
    tokens: &'a [Signed<'a>],
    level: u32,
) -> Option<(BinaryOperator, &'a [Signed<'a>])>
    ensures gives { option_map (λ x. (x.0, x.1.now)) result ≡ operator_after level tokens.now }
    ensures shorter { IfSome result (λ x. length x.1.now < length tokens.now) }
{
    match tokens {
        [] => None,
        [first, rest @ ..] => match operator_at(level, first.sign) {
            None => None,
            Some(operator) => Some((operator, rest)),
        },
    }
}

/// Operators of the level above `n` and their right sides, after an operand.
pub fn operators<'a, F: Fn(&'a [Signed<'a>], u32, u32) -> Answer<'a, Operand>>(
    alloc: Global,
    reader: &F,
    left: Operand,
    n: u32,
    tokens: &'a [Signed<'a>],
    lower: u32,
) -> Answer<'a, Operand>
    requires small { lower ≤ 63 }
    requires reader { ReadsTo (F.pre reader.now) (F.post reader.now) lower }
    requires level { n ≤ 12 }
    requires left { left.height ≤ lower + 1 }
    ensures gives { Gives (λ x. (x.0, x.1.now)) result (loop (reading.operator_pick (reading.within lower) (reading.has_node lower) (suc lower) n) left tokens.now) }
    ensures shorter { IfOk result (λ x. length x.1.now ≤ length tokens.now) }
    ensures within { IfOk result (λ x. x.0.height ≤ lower + 1) }
{
    let mut read = left;
    let mut rest = Rest::new(tokens);
    while let Some((operator, following)) = operator_next(rest.tokens(), n + 1) {
        match right(
            alloc,
            reader,
            n,
            operator,
            &mut read,
            rest.tokens(),
            following,
            lower,
        ) {
            Err(stop) => return Err(stop),
            Ok(others) => rest = Rest::new(others),
        }
    }
    closed(read, rest.tokens())
}
