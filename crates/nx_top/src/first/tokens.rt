// nx_ctok will take its place.

ghost use Rattle.std.specs.Prelude.{◌≡◌, map};
ghost use Rattle.std.specs.List.{list_all};
ghost use Rattle.std.specs.Option.{option_map};
ghost use Rattle.nx_top.specs.first.Program.{is_gap_byte as is_gap_byte_value, begins_word as begins_word_text, ends_word as ends_word_text};
ghost use Rattle.nx_top.specs.first.ProgramReading as read;

use nx_base::is_word_byte;

fn is_gap_byte(byte: u8) -> bool
    ensures { result ≡ is_gap_byte_value byte }
{
    byte == b' ' || byte == b'\n'
}

fn after_blanks(bytes: &[u8]) -> &[u8]
    ensures { result.now ≡ read.after_blanks bytes.now }
{
    let mut rest = bytes;
    while let [first, tail @ ..] = rest {
        if !is_gap_byte(*first) {
            return rest;
        }
        rest = tail;
    }
    rest
}

fn begins_blank(bytes: &[u8]) -> bool
    ensures { result ≡ read.begins_blank bytes.now }
{
    match bytes {
        [first, ..] => is_gap_byte(*first),
        _ => false,
    }
}

fn begins_word(bytes: &[u8]) -> bool
    ensures { result ≡ begins_word_text bytes.now }
{
    match bytes {
        [first, ..] => is_word_byte(*first),
        _ => false,
    }
}

fn ends_word(bytes: &[u8]) -> bool
    ensures { result ≡ ends_word_text bytes.now }
{
    match bytes {
        [.., last] => is_word_byte(*last),
        _ => false,
    }
}

#[tactic(auto, unfolding(crate::specs::first::ProgramReading::after_gap))]
fn after_gap(bytes: &[u8], is_wanted: bool) -> Option<&[u8]>
    ensures { option_map (λ s. s.now) result ≡ read.after_gap is_wanted bytes.now }
{
    if is_wanted && !begins_blank(bytes) {
        return None;
    }
    Some(after_blanks(bytes))
}

#[tactic(auto, unfolding(crate::specs::first::ProgramReading::after_text))]
fn after_text<'a>(bytes: &'a [u8], text: &[u8]) -> Option<&'a [u8]>
    ensures { option_map (λ s. s.now) result ≡ read.after_text text.now bytes.now }
{
    if !bytes.starts_with(text) {
        return None;
    }
    Some(&bytes[text.len()..])
}

/// The bytes after a token and the blanks before it, if it stands here. After a word a token
/// that begins as a word has one blank at least before it.
#[tactic(auto, unfolding(crate::specs::first::ProgramReading::after_token))]
pub fn after_token<'a>(bytes: &'a [u8], is_word: bool, token: &[u8]) -> Option<&'a [u8]>
    ensures { option_map (λ s. s.now) result ≡ read.after_token is_word token.now bytes.now }
{
    let rest = after_gap(bytes, is_word && begins_word(token))?;
    after_text(rest, token)
}

/// The bytes after several tokens, as `after_token` has them one by one.
#[tactic(auto, unfolding(crate::specs::first::ProgramReading::after_tokens))]
pub fn after_tokens<'a>(bytes: &'a [u8], is_word: bool, tokens: &[&str]) -> Option<&'a [u8]>
    ensures { option_map (λ s. s.now) result ≡ read.after_tokens is_word (map (λ t. t.now) tokens.now) bytes.now }
{
    match tokens {
        [token, tokens @ ..] => {
            let token = token.as_bytes();
            let rest = after_token(bytes, is_word, token)?;
            after_tokens(rest, ends_word(token), tokens)
        }
        _ => Some(bytes),
    }
}

// The number that goes on with the digits here, if it is at most 255, and the bytes after it.
#[tactic(auto, unfolding(crate::specs::first::ProgramReading::number_from))]
fn number_from(number: u8, bytes: &[u8]) -> Option<(u8, &[u8])>
    ensures { option_map (λ x. (x.0, x.1.now)) result ≡ read.number_from number bytes.now }
{
    match bytes {
        [first @ b'0'..=b'9', rest @ ..] => {
            let next = u16::from(number) * 10 + u16::from(*first - b'0');
            if next > 255 {
                return None;
            }
            number_from(next as u8, rest)
        }
        _ => Some((number, bytes)),
    }
}

fn begins_digit(bytes: &[u8]) -> bool
    ensures { result ≡ read.begins_digit bytes.now }
{
    match bytes {
        [first, ..] => first.is_ascii_digit(),
        _ => false,
    }
}

#[tactic(auto, unfolding(crate::specs::first::ProgramReading::digits_at))]
fn digits_at(bytes: &[u8]) -> Option<(u8, &[u8])>
    ensures { option_map (λ x. (x.0, x.1.now)) result ≡ read.digits_at bytes.now }
{
    match bytes {
        [b'0', rest @ ..] => {
            if begins_digit(rest) {
                return None;
            }
            Some((0, rest))
        }
        [first @ b'1'..=b'9', rest @ ..] => number_from(*first - b'0', rest),
        _ => None,
    }
}

/// A decimal number of 0 to 255 with no leading zero, and the bytes after it. After a word it has
/// one blank at least before it.
#[tactic(auto, unfolding(crate::specs::first::ProgramReading::number_at))]
pub fn number_at(bytes: &[u8], is_word: bool) -> Option<(u8, &[u8])>
    ensures { option_map (λ x. (x.0, x.1.now)) result ≡ read.number_at is_word bytes.now }
{
    let rest = after_gap(bytes, is_word)?;
    digits_at(rest)
}

/// Whether all bytes are spaces and newlines.
pub fn are_blanks(bytes: &[u8]) -> bool
    ensures { result ≡ list_all is_gap_byte_value bytes.now }
{
    bytes.iter().all(|byte| is_gap_byte(*byte))
}
