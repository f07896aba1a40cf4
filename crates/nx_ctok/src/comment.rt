ghost use Rattle.std.specs.Prelude.{◌≡◌, ◌≤◌, ◌<◌, length, IfSome};
ghost use Rattle.std.specs.Option.{option_map};
ghost use Rattle.nx_ctok.specs.Comments.{newlines, after_close as after_the_close, from_newline as from_the_newline, block as block_of, comment_at, on_its_line as on_a_line, after_one_blank as after_a_blank, after_either, after_one_ignored as after_an_ignored, after_blanks as after_the_blanks, all_steps, gap as gap_at, is_closed, ends_line as ends_a_line};
ghost use Rattle.nx_ctok.specs.Views.{IsLeft, comment_seen, CommentLeft};

use crate::scan::is_source_byte;
use crate::token::Spelling;
use nx_base::is_line_blank;

/// The comment at the start of a text (C11 section 6.4.9).
#[derive(Debug, Drop)]
pub(crate) enum Comment<'a> {
    Absent,
    /// It is never closed.
    Open,
    /// What stands after it, and how many newlines it has.
    Closed(Spelling<'a>, usize),
}

/// What stands after the first `*/`, and how many newlines stand before it.
#[tactic(auto, unfolding(crate::specs::Comments::after_close))]
fn after_close(bytes: &[u8]) -> Option<(&[u8], usize)>
    ensures rest { option_map (λ x. x.0.now) result ≡ after_the_close bytes.now }
    ensures left { IfSome result (λ x. IsLeft x.0.now x.1 bytes.now) }
{
    let mut rest = bytes;
    let mut lines: usize = 0;
    while let [first, others @ ..] = rest {
        if let [b'*', b'/', after @ ..] = rest {
            return Some((after, lines));
        }
        lines += usize::from(*first == b'\n');
        rest = others;
    }
    None
}

/// A line's newline and what stands after it.
#[tactic(auto, unfolding(crate::specs::Comments::from_newline))]
fn from_newline(bytes: &[u8]) -> &[u8]
    ensures rest { result.now ≡ from_the_newline bytes.now }
    ensures lines { newlines result.now ≡ newlines bytes.now }
    ensures shorter { length result.now ≤ length bytes.now }
{
    let mut rest = bytes;
    while let [first, others @ ..] = rest {
        if *first == b'\n' {
            return rest;
        }
        rest = others;
    }
    rest
}

/// A comment after its `/*`.
fn block(bytes: &[u8]) -> Comment<'_>
    ensures gives { comment_seen result ≡ block_of (after_the_close bytes.now) }
    ensures left { CommentLeft result bytes.now }
{
    match after_close(bytes) {
        Some((rest, lines)) => Comment::Closed(Spelling::new(rest), lines),
        None => Comment::Open,
    }
}

/// The comment at the start of a text.
pub(crate) fn comment_at(bytes: &[u8]) -> Comment<'_>
    ensures gives { comment_seen result ≡ comment_at bytes.now }
    ensures left { CommentLeft result bytes.now }
{
    match bytes {
        [b'/', b'*', rest @ ..] => block(rest),
        [b'/', b'/', rest @ ..] => Comment::Closed(Spelling::new(from_newline(rest)), 0),
        _ => Comment::Absent,
    }
}

/// What stands after a comment that ends on the line where it begins.
fn on_its_line(bytes: &[u8]) -> Option<&[u8]>
    ensures gives { option_map (λ x. x.now) result ≡ on_a_line bytes.now (comment_at bytes.now) }
    ensures left { IfSome result (λ x. IsLeft x.now 0 bytes.now) }
{
    match comment_at(bytes) {
        Comment::Closed(rest, 0) => Some(rest.bytes()),
        _ => None,
    }
}

/// What stands after a blank of a directive's line.
fn after_one_blank(bytes: &[u8]) -> Option<&[u8]>
    ensures gives { option_map (λ x. x.now) result ≡ after_a_blank bytes.now }
    ensures left { IfSome result (λ x. IsLeft x.now 0 bytes.now) }
{
    match bytes {
        [first, rest @ ..] if is_line_blank(*first) => Some(rest),
        _ => on_its_line(bytes),
    }
}

/// What stands after a source byte, or after a comment on the line.
fn after_one_ignored(bytes: &[u8]) -> Option<&[u8]>
    ensures gives { option_map (λ x. x.now) result ≡ after_an_ignored bytes.now }
    ensures left { IfSome result (λ x. IsLeft x.now 0 bytes.now) }
{
    let [first, rest @ ..] = bytes else {
        return None;
    };
    match comment_at(bytes) {
        Comment::Absent if is_source_byte(*first) => Some(rest),
        Comment::Closed(after, 0) => Some(after.bytes()),
        _ => None,
    }
}

/// What stands after the blanks of a directive's line.
pub(crate) fn after_blanks(bytes: &[u8]) -> &[u8]
    ensures rest { result.now ≡ after_the_blanks bytes.now }
    ensures lines { newlines result.now ≡ newlines bytes.now }
    ensures shorter { length result.now ≤ length bytes.now }
{
    let mut rest = bytes;
    while let Some(after) = after_one_blank(rest) {
        rest = after;
    }
    rest
}

/// What stands after what is ignored on a line.
pub(crate) fn after_ignored(bytes: &[u8]) -> &[u8]
    ensures rest { result.now ≡ all_steps after_an_ignored bytes.now }
    ensures lines { newlines result.now ≡ newlines bytes.now }
    ensures shorter { length result.now ≤ length bytes.now }
{
    let mut rest = bytes;
    while let Some(after) = after_one_ignored(rest) {
        rest = after;
    }
    rest
}

/// What stands after one or more blanks of a directive's line.
pub(crate) fn gap(bytes: &[u8]) -> Option<&[u8]>
    ensures gives { option_map (λ x. x.now) result ≡ gap_at bytes.now }
    ensures left { IfSome result (λ x. IsLeft x.now 0 bytes.now) }
{
    match after_one_blank(bytes) {
        Some(rest) => Some(after_blanks(rest)),
        None => None,
    }
}

/// Whether a directive's line ends here, after its blanks.
pub(crate) fn ends_line(bytes: &[u8]) -> bool
    ensures { result ≡ ends_a_line bytes.now }
{
    match bytes {
        [] | [b'\n', ..] => true,
        _ => matches!(comment_at(bytes), Comment::Closed(_, _)),
    }
}
