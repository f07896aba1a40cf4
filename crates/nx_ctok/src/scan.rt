ghost use Rattle.std.specs.Prelude.{◌≡◌, ◌≤◌, ◌<◌, ◌+◌, length, take, drop, Some, None, is_some, IfSome, Option, false};
ghost use Rattle.nx_ctok.specs.Spellings.{is_source_byte as is_a_source_byte, is_plain as is_plain_byte, escaped as escaped_byte, word_kind as kind_of_word};
ghost use Rattle.nx_ctok.specs.Scanning.{is_in, starts_with_quote, run as run_of, number_length as length_of_number, zero_length as length_of_zero, text_length as length_of_text, char_length as length_of_char, mark_length as length_of_mark, longer, with_kind as kind_with, scanned as scanned_of};

use crate::TokenKind;
use crate::keyword::Keyword;
use crate::mark::{is_double_mark, is_single_mark};
use nx_base::{is_word_byte, is_word_start};

/// A class of bytes.
#[derive(Clone, Copy, Debug, PartialEq, Eq)]
pub(crate) enum Class {
    /// Letters, digits and the underscore.
    Word,
    /// Decimal digits.
    Decimal,
    /// Hexadecimal digits.
    Hexadecimal,
}

impl Class {
    fn has(self, byte: u8) -> bool
        ensures { result ≡ is_in self byte }
    {
        match self {
            Class::Word => is_word_byte(byte),
            Class::Decimal => byte.is_ascii_digit(),
            Class::Hexadecimal => byte.is_ascii_hexdigit(),
        }
    }
}

/// How many bytes at the start are of a class.
fn run(class: Class, bytes: &[u8]) -> usize
    ensures count { result ≡ run_of class bytes.now }
    ensures within { result ≤ length bytes.now }
{
    let mut count = 0;
    let mut rest = bytes;
    while let [first, others @ ..] = rest {
        if !class.has(*first) {
            return count;
        }
        count += 1;
        rest = others;
    }
    count
}

fn word_kind(word: &[u8]) -> TokenKind
    ensures { result ≡ kind_of_word word.now }
{
    if Keyword::named(word).is_some() {
        return TokenKind::Keyword;
    }
    TokenKind::Name
}

/// Whether a byte may stand in a source, a newline aside.
pub(crate) fn is_source_byte(byte: u8) -> bool
    ensures { result ≡ is_a_source_byte byte }
{
    byte == b'\t' || (byte == b'\r' || (byte > 31 && byte < 127))
}

fn is_plain(quote: u8, byte: u8) -> bool
    ensures { result ≡ is_plain_byte quote byte }
{
    is_source_byte(byte) && !(byte == quote || byte == b'\\')
}

/// What a backslash makes of the byte after it.
pub(crate) fn escaped(byte: u8) -> Option<u8>
    ensures { result ≡ escaped_byte byte }
{
    match byte {
        b'n' => Some(b'\n'),
        b't' => Some(b'\t'),
        b'r' => Some(b'\r'),
        b'0' => Some(0),
        b'\\' => Some(b'\\'),
        b'\'' => Some(b'\''),
        b'"' => Some(b'"'),
        _ => None,
    }
}

fn zero_length(rest: &[u8]) -> usize
    ensures count { result ≡ length_of_zero rest.now }
    ensures within { result ≤ length rest.now }
{
    let [b'x', digits @ ..] = rest else {
        return 0;
    };
    let count = run(Class::Hexadecimal, digits);
    if count == 0 {
        return 0;
    }
    1 + count
}

fn number_length(first: u8, rest: &[u8]) -> usize
    ensures count { result ≡ length_of_number first rest.now }
    ensures within { result ≤ length rest.now }
{
    if first == b'0' {
        return zero_length(rest);
    }
    run(Class::Decimal, rest)
}

/// How many bytes the next byte of a text takes, or its escape.
#[tactic(auto, unfolding(crate::specs::Scanning::text_length))]
fn text_step(bytes: &[u8]) -> Option<usize>
    requires { starts_with_quote bytes.now ≡ false }
    ensures none { result ≡ None → length_of_text bytes.now ≡ None }
    ensures some { IfSome result (λ n. (0 < n) × (n ≤ length bytes.now) × (length_of_text bytes.now ≡ longer n (length_of_text (drop n bytes.now)))) }
{
    match bytes {
        [b'\\', second, ..] if escaped(*second).is_some() => Some(2),
        [first, _, ..] if is_plain(b'"', *first) => Some(1),
        _ => None,
    }
}

/// Whether a quote stands here.
fn closes(bytes: &[u8]) -> bool
    ensures { result ≡ starts_with_quote bytes.now }
{
    matches!(bytes, [b'"', ..])
}

/// How many bytes a text has after its opening quote.
fn text_length(bytes: &[u8]) -> Option<usize>
    ensures count { result ≡ length_of_text bytes.now }
    ensures within { IfSome result (λ n. n ≤ length bytes.now) }
{
    let mut count = 0;
    while !closes(&bytes[count..]) {
        match text_step(&bytes[count..]) {
            None => return None,
            Some(step) => count += step,
        }
    }
    Some(count + 1)
}

/// How many bytes a character has after its opening quote.
fn char_length(bytes: &[u8]) -> Option<usize>
    ensures count { result ≡ length_of_char bytes.now }
    ensures within { IfSome result (λ n. n ≤ length bytes.now) }
{
    match bytes {
        [first, b'\'', ..] if is_plain(b'\'', *first) => Some(2),
        [b'\\', second, b'\'', ..] if escaped(*second).is_some() => Some(3),
        _ => None,
    }
}

/// How many bytes a mark has after its first.
fn mark_length(first: u8, rest: &[u8]) -> Option<usize>
    ensures count { result ≡ length_of_mark first rest.now }
    ensures within { IfSome result (λ n. n ≤ length rest.now) }
{
    match rest {
        [second, ..] if is_double_mark(first, *second) => Some(1),
        _ if is_single_mark(first) => Some(0),
        _ => None,
    }
}

fn with_kind(kind: TokenKind, length: Option<usize>) -> Option<(TokenKind, usize)>
    requires { IfSome length (λ n. n < usize.MAX) }
    ensures { result ≡ kind_with kind length }
{
    match length {
        Some(count) => Some((kind, 1 + count)),
        None => None,
    }
}

/// The kind of the token at the start, and how many bytes it has.
pub(crate) fn scan(bytes: &[u8]) -> Option<(TokenKind, usize)>
    ensures gives { result ≡ scanned_of bytes.now }
    ensures within { IfSome result (λ x. (0 < x.1) × (x.1 ≤ length bytes.now)) }
{
    let [first, rest @ ..] = bytes else {
        return None;
    };
    match *first {
        byte if is_word_start(byte) => {
            let count = run(Class::Word, rest);
            with_kind(word_kind(&bytes[..1 + count]), Some(count))
        }
        byte if byte.is_ascii_digit() => {
            with_kind(TokenKind::Number, Some(number_length(byte, rest)))
        }
        b'\'' => with_kind(TokenKind::Char, char_length(rest)),
        b'"' => with_kind(TokenKind::Text, text_length(rest)),
        byte => with_kind(TokenKind::Mark, mark_length(byte, rest)),
    }
}
