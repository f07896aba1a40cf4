ghost use Rattle.std.specs.Prelude.{◌≡◌, ◌==◌, ◌∷◌, false, IfOk};
ghost use Rattle.nx_shtok.specs.Words.{itself as byte_itself, escaped as escaped_byte, escaped_on_the_line as escaped_there, expanded as expanded_part, single_at as in_single, double_at as in_double, quoted_at as a_quoted_at, front_at as a_front_at};
ghost use Rattle.nx_shtok.specs.Views.{piece_seen, PieceLeft, QuoteLeft, front_seen, FrontLeft};

use crate::expansion::expansion;
use crate::fault::ShKind;
use crate::part::Part;
use crate::script_bytes::{ends_word, is_script_byte};
use std::alloc::{AllocError, Global};

/// A kind of quotes.
#[derive(Clone, Copy, Debug, PartialEq, Eq)]
pub enum Quote {
    /// `'`
    Single,
    /// `"`
    Double,
}

/// What stands at the front of the rest of a word or a quote.
#[derive(Drop)]
pub(crate) enum Piece<'a> {
    /// It is over, before these bytes.
    Over(&'a [u8]),
    /// A part, whether it was quoted, and what stands after it.
    Gives(Part, bool, &'a [u8]),
    Wrong(ShKind),
}

/// What a word goes on with.
#[derive(Drop)]
pub(crate) enum Front<'a> {
    /// A quote, and what stands after its first byte.
    Opens(Quote, &'a [u8]),
    Plain(Piece<'a>),
}

/// A byte that stands for itself.
fn itself(quoted: bool, byte: u8, rest: &[u8]) -> Piece<'_>
    ensures gives { piece_seen result ≡ byte_itself quoted byte rest.now }
    ensures left { PieceLeft result (byte ∷ rest.now) }
    ensures within { (byte == 10) ≡ false → QuoteLeft result (byte ∷ rest.now) }
{
    if is_script_byte(byte) {
        return Piece::Gives(Part::Byte(byte), quoted, rest);
    }
    Piece::Wrong(ShKind::BadByte)
}

/// What stands after a backslash outside quotes.
#[tactic(auto, using(crate::proofs::Pieces::piece_further))]
fn escaped(bytes: &[u8]) -> Piece<'_>
    ensures gives { piece_seen result ≡ escaped_byte bytes.now }
    ensures left { PieceLeft result (92 ∷ bytes.now) }
{
    match bytes {
        [] => Piece::Wrong(ShKind::OpenQuote),
        [first, rest @ ..] => itself(true, *first, rest),
    }
}

/// What stands after a backslash in double quotes.
#[tactic(auto, using(crate::proofs::Pieces::quote_further))]
fn escaped_on_the_line(bytes: &[u8]) -> Piece<'_>
    ensures gives { piece_seen result ≡ escaped_there bytes.now }
    ensures left { QuoteLeft result (92 ∷ bytes.now) }
{
    match bytes {
        [] => Piece::Wrong(ShKind::OpenQuote),
        [b'\n', ..] => Piece::Wrong(ShKind::OpenQuote),
        [first, rest @ ..] => itself(true, *first, rest),
    }
}

/// What stands after a `$`.
#[tactic(auto, using(crate::proofs::Pieces::expanded_is))]
fn expanded(alloc: Global, quoted: bool, bytes: &[u8]) -> Result<Piece<'_>, AllocError>
    ensures gives { IfOk result (λ p. piece_seen p ≡ expanded_part quoted bytes.now) }
    ensures left { IfOk result (λ p. PieceLeft p (36 ∷ bytes.now)) }
    ensures within { IfOk result (λ p. QuoteLeft p (36 ∷ bytes.now)) }
{
    let (part, rest) = expansion(alloc, bytes)?;
    Ok(Piece::Gives(part, quoted, rest))
}

/// What stands at the front of the rest of a single quote.
#[tactic(auto, unfolding(crate::specs::Words::single_at))]
fn single_at(bytes: &[u8]) -> Piece<'_>
    ensures gives { piece_seen result ≡ in_single bytes.now }
    ensures left { QuoteLeft result bytes.now }
{
    match bytes {
        [] => Piece::Wrong(ShKind::OpenQuote),
        [b'\'', rest @ ..] => Piece::Over(rest),
        [b'\n', ..] => Piece::Wrong(ShKind::OpenQuote),
        [first, rest @ ..] => itself(true, *first, rest),
    }
}

/// What stands at the front of the rest of a double quote.
#[tactic(auto, unfolding(crate::specs::Words::double_at))]
fn double_at(alloc: Global, bytes: &[u8]) -> Result<Piece<'_>, AllocError>
    ensures gives { IfOk result (λ p. piece_seen p ≡ in_double bytes.now) }
    ensures left { IfOk result (λ p. QuoteLeft p bytes.now) }
{
    match bytes {
        [] => Ok(Piece::Wrong(ShKind::OpenQuote)),
        [b'"', rest @ ..] => Ok(Piece::Over(rest)),
        [b'\n', ..] => Ok(Piece::Wrong(ShKind::OpenQuote)),
        [b'\\', rest @ ..] => Ok(escaped_on_the_line(rest)),
        [b'$', rest @ ..] => expanded(alloc, true, rest),
        [first, rest @ ..] => Ok(itself(true, *first, rest)),
    }
}

/// What stands at the front of the rest of a quote.
pub(crate) fn quoted_at(alloc: Global, quote: Quote, bytes: &[u8]) -> Result<Piece<'_>, AllocError>
    ensures gives { IfOk result (λ p. piece_seen p ≡ a_quoted_at quote bytes.now) }
    ensures left { IfOk result (λ p. QuoteLeft p bytes.now) }
{
    match quote {
        Quote::Single => Ok(single_at(bytes)),
        Quote::Double => double_at(alloc, bytes),
    }
}

/// What stands at the front of the rest of a word.
#[tactic(auto, unfolding(crate::specs::Words::front_at))]
pub(crate) fn front_at(alloc: Global, bytes: &[u8]) -> Result<Front<'_>, AllocError>
    ensures gives { IfOk result (λ f. front_seen f ≡ a_front_at bytes.now) }
    ensures left { IfOk result (λ f. FrontLeft f bytes.now) }
{
    match bytes {
        [] => Ok(Front::Plain(Piece::Over(bytes))),
        [first, ..] if ends_word(*first) => Ok(Front::Plain(Piece::Over(bytes))),
        [b'\'', rest @ ..] => Ok(Front::Opens(Quote::Single, rest)),
        [b'"', rest @ ..] => Ok(Front::Opens(Quote::Double, rest)),
        [b'\\', rest @ ..] => Ok(Front::Plain(escaped(rest))),
        [b'$', rest @ ..] => Ok(Front::Plain(expanded(alloc, false, rest)?)),
        [first, rest @ ..] => Ok(Front::Plain(itself(false, *first, rest))),
    }
}
