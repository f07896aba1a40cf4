ghost use Rattle.std.specs.Prelude.{◌≡◌, ◌≤◌, true, false};
ghost use Rattle.std.specs.Char.{is_ascii_digit, is_ascii_hexdigit};
ghost use Rattle.std.specs.List.{list_all};
ghost use Rattle.nx_base.specs.TextBytes.{number_of_digits};
ghost use Rattle.nx_config.specs.Numbers.{or_too_wide, numeral_of, magnitude_of, integer_of, signed_by};

use crate::fault::ConfigKind;
use nx_base::number_of;

fn are_decimal(digits: &[u8]) -> bool
    ensures { result ≡ list_all is_ascii_digit digits.now }
{
    digits.iter().all(|digit| digit.is_ascii_digit())
}

fn are_hexadecimal(digits: &[u8]) -> bool
    ensures { result ≡ list_all is_ascii_hexdigit digits.now }
{
    digits.iter().all(|digit| digit.is_ascii_hexdigit())
}

/// The number of digits, or that it is too wide.
fn number(base: u64, digits: &[u8]) -> Result<u64, ConfigKind>
    requires { 1 ≤ base }
    ensures { result ≡ or_too_wide (number_of_digits base digits.now) }
{
    match number_of(base, digits) {
        Some(number) => Ok(number),
        None => Err(ConfigKind::BadNumber),
    }
}

fn decimal(digits: &[u8]) -> Result<u64, ConfigKind>
    ensures { result ≡ numeral_of 10 is_ascii_digit digits.now }
{
    if digits.is_empty() || !are_decimal(digits) {
        return Err(ConfigKind::BadLine);
    }
    number(10, digits)
}

fn hexadecimal(digits: &[u8]) -> Result<u64, ConfigKind>
    ensures { result ≡ numeral_of 16 is_ascii_hexdigit digits.now }
{
    if digits.is_empty() || !are_hexadecimal(digits) {
        return Err(ConfigKind::BadLine);
    }
    number(16, digits)
}

#[tactic(auto, unfolding(crate::specs::Numbers::magnitude_of))]
fn magnitude(text: &[u8]) -> Result<u64, ConfigKind>
    ensures { result ≡ magnitude_of text.now }
{
    if text.starts_with(b"0x") {
        return hexadecimal(&text[2..]);
    }
    decimal(text)
}

/// The number that a text writes.
#[tactic(auto, unfolding(crate::specs::Numbers::integer_of))]
pub fn integer(text: &[u8]) -> Result<i128, ConfigKind>
    ensures { result ≡ integer_of text.now }
{
    match text {
        [] => Err(ConfigKind::BadLine),
        [b'-', rest @ ..] => negated(magnitude(rest)),
        _ => signed(magnitude(text)),
    }
}

fn signed(magnitude: Result<u64, ConfigKind>) -> Result<i128, ConfigKind>
    ensures { result ≡ signed_by false magnitude }
{
    match magnitude {
        Ok(number) => Ok(number as i128),
        Err(kind) => Err(kind),
    }
}

fn negated(magnitude: Result<u64, ConfigKind>) -> Result<i128, ConfigKind>
    ensures { result ≡ signed_by true magnitude }
{
    match magnitude {
        Ok(number) => Ok(-(number as i128)),
        Err(kind) => Err(kind),
    }
}
