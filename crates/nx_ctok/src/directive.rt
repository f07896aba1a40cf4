ghost use Rattle.std.specs.Prelude.{◌≡◌, ◌<◌, List, ℕ, length, IfSome};
ghost use Rattle.std.specs.Option.{option_map};
ghost use Rattle.nx_ctok.specs.Comments.{newlines, ends_line as ends_a_line};
ghost use Rattle.nx_ctok.specs.Directives.{is_too_wide as is_wide, name_at, constant_at, value_at, ended as ended_at, definition_at, defined as defined_by, dropped as dropped_at, directive as directive_at};
ghost use Rattle.nx_ctok.specs.Views.{IsLeft, piece_seen, PieceLeft};

use crate::CKind;
use crate::comment::{after_blanks, after_ignored, ends_line, gap};
use crate::number::is_too_wide;
use crate::piece::Piece;
use crate::token::{Spelling, TokenKind};
use crate::value::{Definition, Value};
use crate::word::word;

/// A name, and what stands after it.
#[tactic(auto, unfolding(crate::specs::Directives::name_at))]
fn name(bytes: &[u8]) -> Option<(Spelling<'_>, &[u8])>
    ensures gives { option_map (λ x. (x.0, x.1.now)) result ≡ name_at bytes.now }
    ensures left { IfSome result (λ x. IsLeft x.1.now 0 bytes.now) }
{
    let word = word(bytes)?;
    match word.kind {
        TokenKind::Name => Some((word.text, word.rest.bytes())),
        _ => None,
    }
}

/// A number or a character, and what stands after it.
#[tactic(auto, unfolding(crate::specs::Directives::constant_at))]
fn constant(minus: bool, bytes: &[u8]) -> Option<(Value<'_>, &[u8])>
    ensures gives { option_map (λ x. (x.0, x.1.now)) result ≡ constant_at minus bytes.now }
    ensures left { IfSome result (λ x. IsLeft x.1.now 0 bytes.now) }
{
    let word = word(bytes)?;
    match word.kind {
        TokenKind::Number => Some((
            Value {
                minus,
                kind: TokenKind::Number,
                text: word.text,
            },
            word.rest.bytes(),
        )),
        TokenKind::Char => Some((
            Value {
                minus,
                kind: TokenKind::Char,
                text: word.text,
            },
            word.rest.bytes(),
        )),
        _ => None,
    }
}

/// A value, and what stands after it.
fn value(bytes: &[u8]) -> Option<(Value<'_>, &[u8])>
    ensures gives { option_map (λ x. (x.0, x.1.now)) result ≡ value_at bytes.now }
    ensures left { IfSome result (λ x. IsLeft x.1.now 0 bytes.now) }
{
    match bytes {
        [] => None,
        [b'-', rest @ ..] => constant(true, rest),
        _ => constant(false, bytes),
    }
}

/// A definition, where the line ends after it.
fn ended<'a>(
    name: Spelling<'a>,
    value: Value<'a>,
    rest: &'a [u8],
) -> Option<(Definition<'a>, &'a [u8])>
    ensures gives { option_map (λ x. (x.0, x.1.now)) result ≡ ended_at name.entry value.entry rest.now }
    ensures same { IfSome result (λ x. x.1.now ≡ rest.now) }
{
    if ends_line(rest) {
        return Some((Definition { name, value }, rest));
    }
    None
}

/// What stands after `#define` in its line.
#[tactic(auto, unfolding(crate::specs::Directives::definition_at))]
fn definition(bytes: &[u8]) -> Option<(Definition<'_>, &[u8])>
    ensures gives { option_map (λ x. (x.0, x.1.now)) result ≡ definition_at bytes.now }
    ensures left { IfSome result (λ x. IsLeft x.1.now 0 bytes.now) }
{
    let rest = gap(bytes)?;
    let (name, rest) = name(rest)?;
    let rest = gap(rest)?;
    let (value, rest) = value(rest)?;
    ended(name, value, after_blanks(rest))
}

/// A line after its `#define`.
fn define(bytes: &[u8]) -> Piece<'_>
    ensures gives { piece_seen result ≡ defined_by (definition_at bytes.now) }
    ensures left { PieceLeft result bytes.now }
{
    let Some((definition, rest)) = definition(bytes) else {
        return Piece::Wrong(CKind::BadToken);
    };
    if is_too_wide(definition.value.kind, definition.value.text.bytes()) {
        return Piece::Wrong(CKind::TooWide);
    }
    Piece::Define(definition, Spelling::new(rest))
}

/// An ignored line is dropped up to its end.
fn dropped(rest: &[u8]) -> Piece<'_>
    ensures gives { piece_seen result ≡ dropped_at rest.now }
    ensures left { (bytes : List ℕ) → newlines rest.now ≡ newlines bytes → length rest.now < length bytes → PieceLeft result bytes }
{
    if ends_line(rest) {
        return Piece::Space(Spelling::new(rest), 0);
    }
    Piece::Wrong(CKind::BadToken)
}

/// A line that begins with `#`.
#[tactic(auto, unfolding(crate::specs::Directives::directive), using(crate::proofs::Pieces::left_after))]
pub(crate) fn directive(bytes: &[u8]) -> Piece<'_>
    ensures gives { piece_seen result ≡ directive_at bytes.now }
    ensures left { PieceLeft result bytes.now }
{
    if bytes.starts_with(b"#include") {
        return dropped(after_ignored(&bytes[8..]));
    }
    if bytes.starts_with(b"#define") {
        return define(&bytes[7..]);
    }
    Piece::Wrong(CKind::BadToken)
}
