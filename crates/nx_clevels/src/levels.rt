ghost use Rattle.std.specs.Prelude.{◌≡◌, ◌<◌, ◌≤◌, ◌+◌, List, length, IfOk, Ok, suc};
ghost use Rattle.nx_grammar.specs.Reading.{dispatch};
ghost use Rattle.nx_ctree.specs.declared.sign.Signed.{Signed as SignedToken};
ghost use Rattle.nx_cexpr.specs.Reading as reading;
ghost use Rattle.nx_cexpr.specs.Answers.{Gives};
ghost use Rattle.nx_cterm.specs.Readers.{ReadsTo};

use nx_cassignment::assignment::assigned;
use nx_cchoice::choice::conditional_at;
use nx_cexpr::ParseStop;
use nx_cexpr::operand::Operand;
use nx_cexpr::tokens::Rest;
use nx_cexpr::trees::take_operand;
use nx_coperators::operators::operators;
use nx_cterm::below::Answer;
use nx_cterm::primary::primary;
use nx_ctree::Signed;
use nx_cunary::unary::unary;
use std::alloc::Global;

/// What makes an expression of level `n` one of the next level.
#[tactic(auto, unfolding(nx_cexpr::specs::Reading::level_rest), using(crate::proofs::Rising::choice_rest, crate::proofs::Rising::assignment_rest))]
fn level_rest<'a, F: Fn(&'a [Signed<'a>], u32, u32) -> Answer<'a, Operand>>(
    alloc: Global,
    reader: &F,
    left: Operand,
    n: u32,
    tokens: &'a [Signed<'a>],
    lower: u32,
) -> Answer<'a, Operand>
    requires small { lower ≤ 63 }
    requires reader { ReadsTo (F.pre reader.now) (F.post reader.now) lower }
    requires level { n ≤ 12 }
    requires left { left.height ≤ lower + 1 }
    ensures gives { Gives (λ x. (x.0, x.1.now)) result (reading.level_rest (reading.within lower) (reading.has_node lower) (suc lower) n left tokens.now) }
    ensures shorter { IfOk result (λ x. length x.1.now ≤ length tokens.now) }
    ensures within { IfOk result (λ x. x.0.height ≤ lower + 1) }
{
    if n == 11 {
        conditional_at(alloc, reader, left, tokens, lower)
    } else if n == 12 {
        assigned(alloc, reader, left, tokens, lower)
    } else {
        operators(alloc, reader, left, n, tokens, lower)
    }
}

/// What makes an expression of level `n` one of the next level, added to what was read.
fn raise<'a, F: Fn(&'a [Signed<'a>], u32, u32) -> Answer<'a, Operand>>(
    alloc: Global,
    reader: &F,
    read: &mut Operand,
    n: u32,
    tokens: &'a [Signed<'a>],
    lower: u32,
) -> Result<&'a [Signed<'a>], ParseStop<'a>>
    requires small { lower ≤ 63 }
    requires reader { ReadsTo (F.pre reader.now) (F.post reader.now) lower }
    requires level { n ≤ 12 }
    requires read { read.old.height ≤ lower + 1 }
    ensures gives { Gives (λ x. (read.new, x.now)) result (reading.level_rest (reading.within lower) (reading.has_node lower) (suc lower) n read.old tokens.now) }
    ensures shorter { IfOk result (λ x. length x.now ≤ length tokens.now) }
    ensures within { IfOk result (λ x. read.new.height ≤ lower + 1) }
{
    let left = take_operand(read);
    let (more, rest) = level_rest(alloc, reader, left, n, tokens, lower)?;
    *read = more;
    Ok(rest)
}

/// A unary expression that was read, made one of level `n`, level by level.
fn rise<'a, F: Fn(&'a [Signed<'a>], u32, u32) -> Answer<'a, Operand>>(
    alloc: Global,
    reader: &F,
    read: &mut Operand,
    tokens: &'a [Signed<'a>],
    lower: u32,
    n: u32,
) -> Result<&'a [Signed<'a>], ParseStop<'a>>
    requires small { lower ≤ 63 }
    requires reader { ReadsTo (F.pre reader.now) (F.post reader.now) lower }
    requires unary { 1 ≤ n }
    requires level { n ≤ 13 }
    requires read { read.old.height ≤ lower + 1 }
    ensures gives { (ts : List SignedToken) → dispatch (reading.unary_pick (reading.within lower) (reading.has_node lower) (suc lower)) ts ≡ Ok (read.old, tokens.now) →
        Gives (λ x. (read.new, x.now)) result (dispatch (reading.level_pick (reading.within lower) (reading.has_node lower) (suc lower) n) ts) }
    ensures shorter { IfOk result (λ x. length x.now ≤ length tokens.now) }
    ensures within { IfOk result (λ x. read.new.height ≤ lower + 1) }
{
    let mut rest = Rest::new(tokens);
    let mut level = 1;
    while level < n {
        match raise(alloc, reader, read, level, rest.tokens(), lower) {
            Err(stop) => return Err(stop),
            Ok(others) => rest = Rest::new(others),
        }
        level += 1;
    }
    Ok(rest.tokens())
}

/// An expression of a level from the unary one on, where a node fits.
#[tactic(auto, using(crate::proofs::Rising::fails_unary))]
fn raised<'a, F: Fn(&'a [Signed<'a>], u32, u32) -> Answer<'a, Operand>>(
    alloc: Global,
    reader: &F,
    tokens: &'a [Signed<'a>],
    lower: u32,
    n: u32,
) -> Answer<'a, Operand>
    requires small { lower ≤ 63 }
    requires reader { ReadsTo (F.pre reader.now) (F.post reader.now) lower }
    requires unary { 1 ≤ n }
    requires level { n ≤ 13 }
    ensures gives { Gives (λ x. (x.0, x.1.now)) result (dispatch (reading.level_pick (reading.within lower) (reading.has_node lower) (suc lower) n) tokens.now) }
    ensures shorter { IfOk result (λ x. length x.1.now < length tokens.now) }
    ensures within { IfOk result (λ x. x.0.height ≤ lower + 1) }
{
    let (mut read, others) = unary(alloc, reader, tokens, lower)?;
    let rest = rise(alloc, reader, &mut read, others, lower, n)?;
    Ok((read, rest))
}

/// An expression of a level, where a node fits.
#[tactic(auto, using(nx_cexpr::proofs::Steps::level_zero))]
pub fn level<'a, F: Fn(&'a [Signed<'a>], u32, u32) -> Answer<'a, Operand>>(
    alloc: Global,
    reader: &F,
    tokens: &'a [Signed<'a>],
    lower: u32,
    n: u32,
) -> Answer<'a, Operand>
    requires small { lower ≤ 63 }
    requires reader { ReadsTo (F.pre reader.now) (F.post reader.now) lower }
    requires level { n ≤ 13 }
    ensures gives { Gives (λ x. (x.0, x.1.now)) result (dispatch (reading.level_pick (reading.within lower) (reading.has_node lower) (suc lower) n) tokens.now) }
    ensures shorter { IfOk result (λ x. length x.1.now < length tokens.now) }
    ensures within { IfOk result (λ x. x.0.height ≤ lower + 1) }
{
    if n == 0 {
        primary(alloc, reader, tokens, lower)
    } else {
        raised(alloc, reader, tokens, lower, n)
    }
}
