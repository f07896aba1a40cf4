ghost use Rattle.std.specs.Prelude.{◌≡◌, ◌<◌, ◌≤◌, ◌+◌, length, IfOk, IfSome, List, ◌∷◌};
ghost use Rattle.std.specs.Char.{is_ascii_digit, is_ascii_hexdigit};
ghost use Rattle.std.specs.Option.{option_map};
ghost use Rattle.std.specs.List.{list_all, prefix_len, take_while};
ghost use Rattle.nx_base.specs.TextBytes.{is_word_byte as is_a_word_byte, without_leading};
ghost use Rattle.nx_conditions.specs.Tokens.{are_some, after_prefix, word_token, two_mark, one_mark, mark_at, word_at, token_at, after_blanks, AreTokensOf};
ghost use Rattle.nx_conditions.specs.Answers.{IsFound, IsGiven};
ghost use Rattle.nx_conditions.specs.declared.token.Token.{Token};

use crate::{Comparison, ConditionStop, Token};
use nx_base::{is_blank, is_word_byte, number_of};
use sqlite_items::Items;
use std::alloc::Global;

/// The bytes without the spaces and tabs that they begin with.
fn after_blanks(bytes: &[u8]) -> &[u8]
    ensures rest { result.now ≡ after_blanks bytes.now }
    ensures shorter { length result.now ≤ length bytes.now }
{
    let mut rest = bytes;
    while let [first, others @ ..] = rest {
        if !is_blank(*first) {
            return rest;
        }
        rest = others;
    }
    rest
}

/// How many bytes the word has that the bytes begin with.
fn word_length(bytes: &[u8]) -> usize
    ensures length { result ≡ prefix_len is_a_word_byte bytes.now }
    ensures within { result ≤ length bytes.now }
{
    let mut count = 0;
    let mut rest = bytes;
    while let [first, others @ ..] = rest {
        if !is_word_byte(*first) {
            return count;
        }
        count += 1;
        rest = others;
    }
    count
}

fn are_digits(word: &[u8]) -> bool
    ensures { result ≡ list_all is_ascii_digit word.now }
{
    word.iter().all(|byte| byte.is_ascii_digit())
}

fn all_hexadecimal(digits: &[u8]) -> bool
    ensures { result ≡ list_all is_ascii_hexdigit digits.now }
{
    digits.iter().all(|byte| byte.is_ascii_hexdigit())
}

fn are_hexadecimal(digits: &[u8]) -> bool
    ensures { result ≡ are_some is_ascii_hexdigit digits.now }
{
    0 < digits.len() && all_hexadecimal(digits)
}

fn after_prefix(word: &[u8]) -> &[u8]
    ensures { result.now ≡ after_prefix word.now }
{
    match word {
        [a, b, digits @ ..] if *a == b'0' && *b == b'x' => digits,
        _ => &[],
    }
}

/// The token of a number that was found.
fn number_token(number: Option<u64>) -> Result<Token, ConditionStop>
    ensures { IsFound (λ t. t) result (option_map Token.Number number) }
{
    match number {
        Some(n) => Ok(Token::Number(n)),
        None => Err(ConditionStop::Bad),
    }
}

/// The token of a word.
fn word_token(alloc: Global, word: &[u8]) -> Result<Token, ConditionStop>
    ensures { IsFound (λ t. t) result (word_token word.now) }
{
    if word == b"defined".as_slice() {
        return Ok(Token::Defined);
    }
    if are_digits(word) {
        return number_token(number_of(10, word));
    }
    let digits = after_prefix(word);
    if are_hexadecimal(digits) {
        return number_token(number_of(16, digits));
    }
    Ok(Token::Name(Items::from_slice(alloc, word)?))
}

fn two_mark(a: u8, b: u8) -> Option<Token>
    ensures { result ≡ two_mark a b }
{
    if a == b'|' && b == b'|' {
        Some(Token::Or)
    } else if a == b'&' && b == b'&' {
        Some(Token::And)
    } else if a == b'=' && b == b'=' {
        Some(Token::Compare(Comparison::Equal))
    } else if a == b'!' && b == b'=' {
        Some(Token::Compare(Comparison::NotEqual))
    } else if a == b'<' && b == b'=' {
        Some(Token::Compare(Comparison::AtMost))
    } else if a == b'>' && b == b'=' {
        Some(Token::Compare(Comparison::AtLeast))
    } else {
        None
    }
}

fn one_mark(a: u8) -> Option<Token>
    ensures { result ≡ one_mark a }
{
    if a == b'<' {
        Some(Token::Compare(Comparison::Less))
    } else if a == b'>' {
        Some(Token::Compare(Comparison::Greater))
    } else if a == b'!' {
        Some(Token::Not)
    } else if a == b'(' {
        Some(Token::Open)
    } else if a == b')' {
        Some(Token::Close)
    } else {
        None
    }
}

/// The longest mark that the bytes begin with.
fn mark_at(a: u8, rest: &[u8]) -> Option<(Token, &[u8])>
    ensures gives { option_map (λ x. (x.0, x.1.now)) result ≡ mark_at a rest.now }
    ensures shorter { IfSome result (λ x. length x.1.now ≤ length rest.now) }
{
    if let [b, others @ ..] = rest {
        if let Some(token) = two_mark(a, *b) {
            return Some((token, others));
        }
    }
    match one_mark(a) {
        Some(token) => Some((token, rest)),
        None => None,
    }
}

/// The longest word that the bytes begin with.
fn word_at(alloc: Global, bytes: &[u8]) -> Result<(Token, &[u8]), ConditionStop>
    requires { 0 < prefix_len is_a_word_byte bytes.now }
    ensures gives { IsFound (λ x. (x.0, x.1.now)) result (word_at bytes.now) }
    ensures shorter { IfOk result (λ x. length x.1.now < length bytes.now) }
{
    let count = word_length(bytes);
    let rest = &bytes[count..];
    match word_token(alloc, &bytes[..count]) {
        Ok(token) => Ok((token, rest)),
        Err(stop) => Err(stop),
    }
}

/// The token that the bytes begin with.
fn token_at(alloc: Global, bytes: &[u8]) -> Result<(Token, &[u8]), ConditionStop>
    ensures gives { IsFound (λ x. (x.0, x.1.now)) result (token_at bytes.now) }
    ensures shorter { IfOk result (λ x. length x.1.now < length bytes.now) }
{
    match bytes {
        [] => Err(ConditionStop::Bad),
        [first, ..] if is_word_byte(*first) => word_at(alloc, bytes),
        [first, rest @ ..] => match mark_at(*first, rest) {
            Some(found) => Ok(found),
            None => Err(ConditionStop::Bad),
        },
    }
}

/// The tokens of a condition, with the end.
pub fn tokens(alloc: Global, bytes: &[u8]) -> Result<Items<Token>, ConditionStop>
    // What is given is the bytes' tokens.
    ensures read { IfOk result (λ ts. AreTokensOf bytes.now ts) }
    // Each but the end takes a byte.
    ensures few { IfOk result (λ ts. length ts ≤ length bytes.now + 1) }
    // Where the bytes have tokens, those are given, unless memory runs out.
    ensures only { (ts : List Token) → AreTokensOf bytes.now ts → IsGiven result ts }
{
    let mut found = Items::new(alloc);
    let mut rest = after_blanks(bytes);
    while !rest.is_empty() {
        match token_at(alloc, rest) {
            Err(stop) => return Err(stop),
            Ok((token, others)) => {
                found.push(token)?;
                rest = after_blanks(others);
            }
        }
    }
    found.push(Token::End)?;
    Ok(found)
}
