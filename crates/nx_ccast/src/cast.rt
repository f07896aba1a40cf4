ghost use Rattle.std.specs.Prelude.{◌≡◌, ◌≤◌, ◌+◌, length, IfOk};
ghost use Rattle.nx_grammar.specs.Reading.{dispatch, then_pick};
ghost use Rattle.nx_cexpr.specs.Reading as reading;
ghost use Rattle.nx_cexpr.specs.Types.{base_pick, begins_base as base_begins};
ghost use Rattle.nx_cexpr.specs.Answers.{Gives};
ghost use Rattle.nx_cterm.specs.Readers.{ReadsTo};

use nx_cexpr::operand::Operand;
use nx_cexpr::tokens::expect;
use nx_cexpr::trees::cast;
use nx_cexpr::{base, star};
use nx_cterm::below::{Answer, below};
use nx_ctree::{Base, Sign, Signed};
use std::alloc::Global;

/// Whether a base type begins with this sign (C11 section 6.7.2).
pub fn begins_base(sign: Sign) -> bool
    ensures { result ≡ base_begins sign }
{
    matches!(sign, Sign::Int | Sign::CharWord | Sign::Const)
}

/// What stands after the base type of a cast.
#[tactic(auto, unfolding(nx_cexpr::specs::Reading::cast_rest))]
fn cast_rest<'a, F: Fn(&'a [Signed<'a>], u32, u32) -> Answer<'a, Operand>>(
    alloc: Global,
    reader: &F,
    token: &Signed<'a>,
    base: Base,
    tokens: &'a [Signed<'a>],
    lower: u32,
) -> Answer<'a, Operand>
    requires small { lower ≤ 63 }
    requires reader { ReadsTo (F.pre reader.now) (F.post reader.now) lower }
    ensures gives { Gives (λ x. (x.0, x.1.now)) result (reading.cast_rest (reading.within lower) token.now base tokens.now) }
    ensures shorter { IfOk result (λ x. length x.1.now ≤ length tokens.now) }
    ensures within { IfOk result (λ x. x.0.height ≤ lower + 1) }
{
    let (pointer, rest) = star(tokens)?;
    let (_, rest) = expect(rest, Sign::CloseParen)?;
    let (part, rest) = below(reader, rest, lower, 1)?;
    Ok((cast(alloc, token, base, pointer, part)?, rest))
}

/// What stands after the `(` of a cast.
#[tactic(auto, using(nx_cexpr::proofs::Steps::base_then))]
pub fn cast_of<'a, F: Fn(&'a [Signed<'a>], u32, u32) -> Answer<'a, Operand>>(
    alloc: Global,
    reader: &F,
    token: &Signed<'a>,
    tokens: &'a [Signed<'a>],
    lower: u32,
) -> Answer<'a, Operand>
    requires small { lower ≤ 63 }
    requires reader { ReadsTo (F.pre reader.now) (F.post reader.now) lower }
    ensures gives { Gives (λ x. (x.0, x.1.now)) result (dispatch (λ u. then_pick (base_pick u) (reading.cast_rest (reading.within lower) token.now)) tokens.now) }
    ensures shorter { IfOk result (λ x. length x.1.now ≤ length tokens.now) }
    ensures within { IfOk result (λ x. x.0.height ≤ lower + 1) }
{
    let (base, rest) = base(tokens)?;
    cast_rest(alloc, reader, token, base, rest, lower)
}
