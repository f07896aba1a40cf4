ghost use Rattle.std.specs.Prelude.{◌≡◌, ◌≤◌, ◌∷◌, length, IfOk, IfSome};
ghost use Rattle.std.specs.List.{prefix_len};
ghost use Rattle.std.specs.Option.{option_map};
ghost use Rattle.nx_base.specs.TextBytes.{is_word_byte as is_a_word_byte};
ghost use Rattle.nx_shtok.specs.Bytes.{newlines};
ghost use Rattle.nx_shtok.specs.Words.{name_at as a_name_at, braced as braced_name, name_after as a_name_after, named as named_part, expansion as expansion_of};
ghost use Rattle.nx_shtok.specs.Views.{IsAfter, newline_of};

use crate::part::Part;
use nx_base::{is_word_byte, is_word_start};
use sqlite_items::Items;
use std::alloc::{AllocError, Global};

/// How many word bytes stand at the front.
fn word_length(bytes: &[u8]) -> usize
    ensures length { result ≡ prefix_len is_a_word_byte bytes.now }
    ensures within { result ≤ length bytes.now }
{
    let mut count = 0;
    let mut rest = bytes;
    while let [first, others @ ..] = rest {
        if !is_word_byte(*first) {
            return count;
        }
        count += 1;
        rest = others;
    }
    count
}

/// The longest name at the front, and what stands after it.
#[tactic(auto, using(crate::proofs::Names::after_name))]
fn name_at(bytes: &[u8]) -> Option<(&[u8], &[u8])>
    ensures gives { option_map (λ x. (x.0.now, x.1.now)) result ≡ a_name_at bytes.now }
    ensures left { IfSome result (λ x. IsAfter 0 x.1.now bytes.now) }
{
    let [first, ..] = bytes else {
        return None;
    };
    if !is_word_start(*first) {
        return None;
    }
    let (name, rest) = bytes.split_at(word_length(bytes));
    Some((name, rest))
}

/// A name in braces, after its `{`.
fn braced(bytes: &[u8]) -> Option<(&[u8], &[u8])>
    ensures gives { option_map (λ x. (x.0.now, x.1.now)) result ≡ braced_name (a_name_at bytes.now) }
    ensures left { IfSome result (λ x. IsAfter 0 x.1.now (123 ∷ bytes.now)) }
{
    let Some((name, rest)) = name_at(bytes) else {
        return None;
    };
    match rest {
        [b'}', after @ ..] => Some((name, after)),
        _ => None,
    }
}

/// The name after a `$`.
#[tactic(auto, unfolding(crate::specs::Words::name_after))]
fn name_after(bytes: &[u8]) -> Option<(&[u8], &[u8])>
    ensures gives { option_map (λ x. (x.0.now, x.1.now)) result ≡ a_name_after bytes.now }
    ensures left { IfSome result (λ x. IsAfter 0 x.1.now bytes.now) }
{
    match bytes {
        [b'{', rest @ ..] => braced(rest),
        _ => name_at(bytes),
    }
}

/// A name after a `$`; without one the `$` is itself.
fn named<'a>(
    alloc: Global,
    found: Option<(&'a [u8], &'a [u8])>,
    bytes: &'a [u8],
) -> Result<(Part, &'a [u8]), AllocError>
    requires { IfSome found (λ x. IsAfter 0 x.1.now bytes.now) }
    ensures gives { IfOk result (λ x. (x.0, x.1.now) ≡ named_part bytes.now (option_map (λ y. (y.0.now, y.1.now)) found.entry)) }
    ensures left { IfOk result (λ x. IsAfter 0 x.1.now bytes.now) }
    ensures plain { IfOk result (λ x. newline_of x.0 ≡ 0) }
{
    match found {
        Some((name, rest)) => {
            let name = Items::from_slice(alloc, name)?;
            Ok((Part::Name(name), rest))
        }
        None => Ok((Part::Byte(b'$'), bytes)),
    }
}

/// What a `$` stands for, and what stands after that.
#[tactic(auto, unfolding(crate::specs::Words::expansion))]
pub(crate) fn expansion(alloc: Global, bytes: &[u8]) -> Result<(Part, &[u8]), AllocError>
    ensures gives { IfOk result (λ x. (x.0, x.1.now) ≡ expansion_of bytes.now) }
    ensures left { IfOk result (λ x. IsAfter 0 x.1.now bytes.now) }
    ensures plain { IfOk result (λ x. newline_of x.0 ≡ 0) }
{
    match bytes {
        [] => Ok((Part::Byte(b'$'), bytes)),
        [b'?', rest @ ..] => Ok((Part::Status, rest)),
        _ => named(alloc, name_after(bytes), bytes),
    }
}
