ghost use Rattle.std.specs.Prelude.{◌≡◌, ◌%◌, ◌^◌, ◌∷◌, ◌++◌, [], IfOk, OnOk, List, ℕ, length, ◌<◌, ◌≤◌, IfSome, MatchOption};
ghost use Rattle.std.specs.Str.Parse.{digits_value};
ghost use Rattle.nx_ctok.specs.Values.{number_of as number_in, escape_value as value_of_escape, character_of, text_rest_of, text_of};
ghost use Rattle.nx_ctok.specs.Spellings.{escaped as escaped_byte};

use crate::number::digits_of;
use crate::scan::escaped;
use crate::token::Spelling;
use nx_base::{Bytes, digit_value};
use std::alloc::{AllocError, Global};

/// The low 32 bits of what digits write to a base.
fn low_number(base: u64, digits: &[u8]) -> u64
    requires { base ≤ 16 }
    ensures { result ≡ digits_value base digits.now % 2 ^ 32 }
{
    let mut value: u64 = 0;
    for digit in digits {
        value = (value * base + u64::from(digit_value(*digit))) % 0x1_0000_0000;
    }
    value
}

/// The byte that a byte after a backslash stands for.
fn escape(byte: u8) -> u8
    ensures { result ≡ value_of_escape (escaped_byte byte) }
{
    escaped(byte).unwrap_or(0)
}

/// The next byte of a text, and what stands after it.
#[tactic(auto, unfolding(crate::specs::Values::text_rest_of))]
fn next_byte(bytes: &[u8]) -> Option<(u8, &[u8])>
    ensures gives { MatchOption result (text_rest_of bytes.now ≡ []) (λ x. text_rest_of bytes.now ≡ x.0 ∷ text_rest_of x.1.now) }
    ensures less { IfSome result (λ x. length x.1.now < length bytes.now) }
{
    match bytes {
        [b'\\', second, rest @ ..] => Some((escape(*second), rest)),
        [first, second_on @ ..] if !second_on.is_empty() => Some((*first, second_on)),
        _ => None,
    }
}

impl<'a> Spelling<'a> {
    /// The number that a number's spelling writes, modulo 2^32.
    pub fn number(&self) -> u32
        ensures { result ≡ number_in self.now % 2 ^ 32 }
    {
        let (base, digits) = digits_of(self.bytes());
        low_number(base, digits) as u32
    }

    /// The byte that a character's spelling stands for.
    pub fn character(&self) -> u8
        ensures { result ≡ character_of self.now }
    {
        match self.bytes() {
            [_, byte, _] => *byte,
            [_, _, second, _] => escape(*second),
            _ => 0,
        }
    }

    /// The bytes that a text's spelling stands for, without a zero byte after them.
    pub fn text(&self, alloc: Global) -> Result<Bytes, AllocError>
        ensures { IfOk result (λ b. b ≡ text_of self.now) }
    {
        match self.bytes() {
            [] => Ok(Bytes::new(alloc)),
            [_, rest @ ..] => text_rest(alloc, rest),
        }
    }
}

/// The bytes that a text stands for, after its opening quote.
fn text_rest(alloc: Global, bytes: &[u8]) -> Result<Bytes, AllocError>
    ensures { IfOk result (λ b. b ≡ text_rest_of bytes.now) }
{
    let mut found = Bytes::new(alloc);
    let mut rest = bytes;
    while let Some((byte, after)) = next_byte(rest) {
        found.push(byte)?;
        rest = after;
    }
    Ok(found)
}
