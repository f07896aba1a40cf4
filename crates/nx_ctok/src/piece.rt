ghost use Rattle.std.specs.Prelude.{◌≡◌};
ghost use Rattle.nx_ctok.specs.Tokens.{checked as checked_of, is_hash as is_a_hash, uncommented, piece_at as piece_of};
ghost use Rattle.nx_ctok.specs.Longest.{word_at};
ghost use Rattle.nx_ctok.specs.Views.{piece_seen, PieceLeft};

use crate::CKind;
use crate::comment::{Comment, comment_at};
use crate::directive::directive;
use crate::number::is_too_wide;
use crate::token::{Spelling, Word};
use crate::value::Definition;
use crate::word::word;
use nx_base::is_line_blank;

/// What stands at the start of a text.
#[derive(Debug, Drop)]
pub(crate) enum Piece<'a> {
    /// A blank, a newline, a comment, or a line that is ignored: what stands after it, and how many
    /// newlines it has.
    Space(Spelling<'a>, usize),
    Spelled(Word<'a>),
    /// A definition, and what stands after it.
    Define(Definition<'a>, Spelling<'a>),
    Wrong(CKind),
}

/// The word at the start of a text, unless it is a number that is too wide.
fn checked(bytes: &[u8]) -> Piece<'_>
    ensures gives { piece_seen result ≡ checked_of (word_at bytes.now) }
    ensures left { PieceLeft result bytes.now }
{
    let Some(word) = word(bytes) else {
        return Piece::Wrong(CKind::BadToken);
    };
    if is_too_wide(word.kind, word.text.bytes()) {
        return Piece::Wrong(CKind::TooWide);
    }
    Piece::Spelled(word)
}

fn is_hash(bytes: &[u8]) -> bool
    ensures { result ≡ is_a_hash bytes.now }
{
    matches!(bytes, [b'#', ..])
}

/// What stands after blanks and comments: the line's first `#`, or a token.
fn token_or_directive(fresh: bool, bytes: &[u8]) -> Piece<'_>
    ensures gives { piece_seen result ≡ uncommented fresh bytes.now }
    ensures left { PieceLeft result bytes.now }
{
    if fresh && is_hash(bytes) {
        return directive(bytes);
    }
    checked(bytes)
}

/// What stands at the start of a text, where it isn't empty. `fresh` says that nothing but blanks
/// and comments stands before it on its line.
#[tactic(auto, unfolding(crate::specs::Tokens::piece_at))]
pub(crate) fn piece_at(fresh: bool, bytes: &[u8]) -> Piece<'_>
    ensures gives { piece_seen result ≡ piece_of fresh bytes.now }
    ensures left { PieceLeft result bytes.now }
{
    match bytes {
        [] => Piece::Wrong(CKind::BadToken),
        [b'\n', rest @ ..] => Piece::Space(Spelling::new(rest), 1),
        [first, rest @ ..] if is_line_blank(*first) => Piece::Space(Spelling::new(rest), 0),
        _ => match comment_at(bytes) {
            Comment::Absent => token_or_directive(fresh, bytes),
            Comment::Open => Piece::Wrong(CKind::BadToken),
            Comment::Closed(rest, lines) => Piece::Space(rest, lines),
        },
    }
}
