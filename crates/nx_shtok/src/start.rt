ghost use Rattle.std.specs.Prelude.{◌≡◌, ◌∷◌};
ghost use Rattle.nx_shtok.specs.Tokens.{comment as comment_of, greater as greater_of, start_at as a_start_at};
ghost use Rattle.nx_shtok.specs.Views.{start_seen, StartLeft};

use crate::fault::ShKind;
use crate::script_bytes::is_script_byte;
use crate::token::TokenKind;
use nx_base::is_line_blank;

/// What stands where a word could begin.
#[derive(Drop)]
pub(crate) enum Start<'a> {
    /// A blank or a comment: what stands after it.
    Skips(&'a [u8]),
    /// A token that is no word, and what stands after it.
    Marks(TokenKind, &'a [u8]),
    /// A word.
    Begins,
    Wrong(ShKind),
}

/// A comment, after its `#`.
#[tactic(auto, unfolding(crate::specs::Tokens::comment))]
fn comment(bytes: &[u8]) -> Start<'_>
    ensures gives { start_seen result ≡ comment_of bytes.now }
    ensures left { StartLeft result (35 ∷ bytes.now) }
{
    let mut rest = bytes;
    while let [first, others @ ..] = rest {
        if *first == b'\n' {
            return Start::Skips(rest);
        }
        if !is_script_byte(*first) {
            return Start::Wrong(ShKind::BadByte);
        }
        rest = others;
    }
    Start::Skips(rest)
}

/// What a `>` is, by what stands after it.
fn greater(bytes: &[u8]) -> Start<'_>
    ensures gives { start_seen result ≡ greater_of bytes.now }
    ensures left { StartLeft result (62 ∷ bytes.now) }
{
    match bytes {
        [b'>', rest @ ..] => Start::Marks(TokenKind::Append, rest),
        _ => Start::Marks(TokenKind::Into, bytes),
    }
}

/// What stands at the front of a text that isn't empty.
#[tactic(auto, unfolding(crate::specs::Tokens::start_at))]
pub(crate) fn start_at(bytes: &[u8]) -> Start<'_>
    ensures gives { start_seen result ≡ a_start_at bytes.now }
    ensures left { StartLeft result bytes.now }
{
    match bytes {
        [] => Start::Wrong(ShKind::BadByte),
        [first, rest @ ..] if is_line_blank(*first) => Start::Skips(rest),
        [b'#', rest @ ..] => comment(rest),
        [b'\n', rest @ ..] => Start::Marks(TokenKind::Newline, rest),
        [b';', rest @ ..] => Start::Marks(TokenKind::Semi, rest),
        [b'&', rest @ ..] => Start::Marks(TokenKind::And, rest),
        [b'>', rest @ ..] => greater(rest),
        _ => Start::Begins,
    }
}
