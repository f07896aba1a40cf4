ghost use Rattle.std.specs.Prelude.{◌≡◌, ◌<◌, ◌≤◌, length, IfOk};
ghost use Rattle.nx_cexpr.specs.Reading.{level_at};
ghost use Rattle.nx_cexpr.specs.Answers.{Gives};
ghost use Rattle.nx_cterm.specs.Readers.{ReadsTo};

use nx_cexpr::ParseStop;
use nx_cexpr::operand::Operand;
use nx_ctree::Signed;

/// What was read and the tokens after it, or why nothing was.
pub type Answer<'a, T> = Result<(T, &'a [Signed<'a>]), ParseStop<'a>>;

/// The level of whole expressions.
pub const WHOLE: u32 = 13;

/// An expression of a level further down, by what reads it.
pub fn below<'a, F: Fn(&'a [Signed<'a>], u32, u32) -> Answer<'a, Operand>>(
    reader: &F,
    tokens: &'a [Signed<'a>],
    lower: u32,
    n: u32,
) -> Answer<'a, Operand>
    requires reader { ReadsTo (F.pre reader.now) (F.post reader.now) lower }
    requires level { n ≤ 13 }
    ensures gives { Gives (λ x. (x.0, x.1.now)) result (level_at lower n tokens.now) }
    ensures shorter { IfOk result (λ x. length x.1.now < length tokens.now) }
    ensures within { IfOk result (λ x. x.0.height ≤ lower) }
{
    reader(tokens, lower, n)
}
