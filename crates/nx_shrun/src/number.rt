ghost use Rattle.std.specs.Prelude.{◌≡◌};
ghost use Rattle.std.specs.List.{list_all};
ghost use Rattle.std.specs.Char.{is_ascii_digit};
ghost use Rattle.nx_shrun.specs.Numbers.{magnitude as magnitude_of, positive as positive_of, negative as negative_of, number as number_of_word};

use nx_base::number_of;

fn are_decimal(digits: &[u8]) -> bool
    ensures { result ≡ list_all is_ascii_digit digits.now }
{
    digits.iter().all(|digit| digit.is_ascii_digit())
}

fn magnitude(digits: &[u8]) -> Option<u64>
    ensures { result ≡ magnitude_of digits.now }
{
    if digits.is_empty() || !are_decimal(digits) {
        return None;
    }
    number_of(10, digits)
}

fn positive(magnitude: Option<u64>) -> Option<i32>
    ensures { result ≡ positive_of magnitude }
{
    match magnitude {
        Some(n) => {
            if n <= 0x7fff_ffff {
                Some(n as i32)
            } else {
                None
            }
        }
        None => None,
    }
}

fn negative(magnitude: Option<u64>) -> Option<i32>
    ensures { result ≡ negative_of magnitude }
{
    match magnitude {
        Some(n) => {
            if n <= 0x8000_0000 {
                Some((-(n as i64)) as i32)
            } else {
                None
            }
        }
        None => None,
    }
}

/// The number that a word writes: an optional `-` and digits, from -2147483648 to 2147483647.
#[tactic(auto, unfolding(crate::specs::Numbers::number))]
pub(crate) fn number(word: &[u8]) -> Option<i32>
    ensures { result ≡ number_of_word word.now }
{
    match word {
        [] => None,
        [b'-', digits @ ..] => negative(magnitude(digits)),
        _ => positive(magnitude(word)),
    }
}
