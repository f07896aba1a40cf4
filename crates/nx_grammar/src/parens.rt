ghost use Rattle.std.specs.Prelude.{◌≡◌, ◌∷◌, ℕ, ◌+◌, ◌<◌, ◌≤◌, Ok, IfOk};
ghost use Rattle.nx_grammar.specs.declared.parens.Piece.TheVariants.{Open as open_piece, Number as number_piece, End as end_piece};
ghost use Rattle.nx_grammar.specs.declared.parens.Nested.{Nested};
ghost use Rattle.nx_grammar.specs.Faults.{EndsIn};
ghost use Rattle.nx_grammar.specs.Nested.{IsWhole, IsEnd, IsReadOf, Gives, deeper, is_close as closes, inner_rest, open_pick, nested_at as nested_reading, whole_at as whole_reading};
ghost use Rattle.nx_grammar.specs.Reading.{picked, seq, done, expect};

use crate::{Grammar, Kind, ended_fault_is_first, one_tree};

/// A token.
#[derive(Clone, Copy, Debug, PartialEq, Eq)]
pub enum Piece {
    /// `(`
    Open,
    /// `)`
    Close,
    /// A number.
    Number(u32),
    /// The end of the text.
    End,
}

/// A number in parentheses.
#[derive(Clone, Copy, Debug, PartialEq, Eq)]
pub struct Nested {
    /// The number.
    pub number: u32,
    /// How many pairs of parentheses stand around it.
    pub depth: u32,
}

/// Why nothing was read.
#[derive(Clone, Copy, Debug)]
pub struct Refusal<'a> {
    /// What is wrong with a token.
    pub kind: Kind,
    /// The tokens from it on.
    pub from: &'a [Piece],
}

/// Numbers in parentheses as a grammar, whose limit is on the pairs.
#[derive(Clone, Copy, Debug)]
pub struct Nestings;

impl Grammar for Nestings {
    type Token = Piece;

    type Tree = Nested;

    ghost reading = { whole_reading };

    ghost has = { IsWhole };

    ghost follows = { IsEnd };

    ghost begins = { λ t. t ≡ number_piece 0 };

    ghost last = { end_piece };

    ghost margin = { 1 };
}

/// What stands inside a pair of parentheses, and its end.
fn closed(inner: Nested, tokens: &[Piece]) -> Result<(Nested, &[Piece]), Refusal<'_>>
    requires small { inner.depth < 4294967295 }
    ensures gives { Gives (λ x. (x.0, x.1.now)) result (seq (expect closes) (λ c. done (deeper inner)) tokens.now) }
    ensures one { IfOk result (λ x. x.0.depth ≡ inner.depth + 1) }
{
    match tokens {
        [Piece::Close, rest @ ..] => Ok((
            Nested {
                number: inner.number,
                depth: inner.depth + 1,
            },
            rest,
        )),
        _ => Err(Refusal {
            kind: Kind::Syntax,
            from: tokens,
        }),
    }
}

/// What stands after a `(`, where so many pairs are left.
#[cycle(pairs)]
fn opened<'a>(
    here: &'a [Piece],
    rest: &'a [Piece],
    limit: u32,
) -> Result<(Nested, &'a [Piece]), Refusal<'a>>
    requires first { here.now ≡ open_piece ∷ rest.now }
    ensures gives { Gives (λ x. (x.0, x.1.now)) result (picked (open_pick limit) open_piece rest.now) }
    ensures within { IfOk result (λ x. x.0.depth ≤ limit) }
{
    if limit == 0 {
        return Err(Refusal {
            kind: Kind::Limit,
            from: here,
        });
    }
    inside(rest, limit - 1)
}

/// What stands in a pair of parentheses, and its end.
#[cycle(pairs)]
#[tactic(auto, unfolding(crate::specs::Nested::inner_rest))]
fn inside(tokens: &[Piece], limit: u32) -> Result<(Nested, &[Piece]), Refusal<'_>>
    requires small { limit < 4294967295 }
    ensures gives { Gives (λ x. (x.0, x.1.now)) result (inner_rest (nested_reading limit) tokens.now) }
    ensures within { IfOk result (λ x. x.0.depth ≤ limit + 1) }
{
    let (inner, rest) = pairs(tokens, limit)?;
    closed(inner, rest)
}

/// A number in at most so many pairs of parentheses.
#[cycle(pairs)]
fn pairs(tokens: &[Piece], limit: u32) -> Result<(Nested, &[Piece]), Refusal<'_>>
    ensures gives { Gives (λ x. (x.0, x.1.now)) result (nested_reading limit tokens.now) }
    ensures within { IfOk result (λ x. x.0.depth ≤ limit) }
{
    match tokens {
        [Piece::Number(number), rest @ ..] => Ok((
            Nested {
                number: *number,
                depth: 0,
            },
            rest,
        )),
        [Piece::Open, rest @ ..] => opened(tokens, rest, limit),
        _ => Err(Refusal {
            kind: Kind::Syntax,
            from: tokens,
        }),
    }
}

/// The same before the end.
fn whole(tokens: &[Piece], limit: u32) -> Result<(Nested, &[Piece]), Refusal<'_>>
    ensures gives { Gives (λ x. (x.0, x.1.now)) result (whole_reading limit tokens.now) }
{
    let (read, rest) = pairs(tokens, limit)?;
    match rest {
        [Piece::End, ..] => Ok((read, rest)),
        _ => Err(Refusal {
            kind: Kind::Syntax,
            from: rest,
        }),
    }
}

/// Reads a number in at most `limit` pairs of parentheses, with the end after it: what is read has
/// its tree by the grammar, what has a tree is read with it, and what is refused is refused at the
/// first token that ends no beginning of such a text.
pub fn read_nested(tokens: &[Piece], limit: u32) -> Result<Nested, Refusal<'_>>
    requires ended { EndsIn IsEnd tokens.now }
    ensures read { IsReadOf limit tokens.now result }
    ensures only { (x : Nested) → IsWhole limit tokens.now x → result ≡ Ok x }
{
    ended_fault_is_first::<Nestings>();
    one_tree::<Nestings>();
    match whole(tokens, limit) {
        Ok((read, _)) => Ok(read),
        Err(refusal) => Err(refusal),
    }
}
