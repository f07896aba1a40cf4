ghost use Rattle.std.specs.Prelude.{◌≡◌, ◌≤◌, ◌^◌, nat_le};
ghost use Rattle.std.specs.Str.Parse.{digits_value};
ghost use Rattle.nx_ctok.specs.Spellings.{digits_of as digits_in};
ghost use Rattle.nx_ctok.specs.Directives.{is_too_wide as is_wide};

use crate::TokenKind;
use nx_base::number_of;

/// The base and the digits of a number.
pub(crate) fn digits_of(text: &[u8]) -> (u64, &[u8])
    ensures digits { (result.0, result.1.now) ≡ digits_in text.now }
    ensures least { 1 ≤ result.0 }
    ensures most { result.0 ≤ 16 }
{
    match text {
        [_, b'x', digits @ ..] => (16, digits),
        _ => (10, text),
    }
}

/// Whether a token is a number that 32 bits can't hold.
pub(crate) fn is_too_wide(kind: TokenKind, text: &[u8]) -> bool
    ensures { result ≡ is_wide kind text.now }
{
    if kind != TokenKind::Number {
        return false;
    }
    let (base, digits) = digits_of(text);
    match number_of(base, digits) {
        None => true,
        Some(number) => number > u64::from(u32::MAX),
    }
}
