ghost use Rattle.std.specs.Prelude.{◌≡◌, ◌==◌, ◌≤◌, length, None, Some, Option, codes, option_map, false};
ghost use Rattle.nx_calls.specs.declared.types.CallType.{CallType};
ghost use Rattle.std.specs.List.{list_any};
ghost use Rattle.std.specs.Str.{bytes_eq};
ghost use Rattle.nx_calls.specs.Kinds.{
  has_star as has_star_text,
  is_size as is_size_type,
  is_input as is_input_type,
  is_output as is_output_type,
  is_text as is_text_type,
  is_number as is_number_type,
  is_pair as is_pair_type,
  lone_kind as lone_kind_of,
  is_buffer as is_buffer_type,
  neighbour_is,
  first_of,
  kind_of as kind_of_type,
  kinds_of as kinds_of_types,
};

use crate::CallType;
use arrayvec::ArrayVec;
use nx_base::Kind;

/// Whether a type has a `*`.
pub(crate) fn has_star(text: &[u8]) -> bool
    ensures { result ≡ has_star_text text.now }
{
    text.contains(&b'*')
}

#[tactic(auto, unfolding(crate::specs::Kinds::is_size))]
fn is_size(t: &CallType) -> bool
    ensures { result ≡ is_size_type t.now }
{
    t.actual.as_slice() == b"size_t".as_slice()
}

#[tactic(auto, unfolding(crate::specs::Kinds::is_input))]
fn is_input(t: &CallType) -> bool
    ensures { result ≡ is_input_type t.now }
{
    let actual = t.actual.as_slice();
    actual == b"const char *".as_slice() || actual == b"const void *".as_slice()
}

#[tactic(auto, unfolding(crate::specs::Kinds::is_output))]
fn is_output(t: &CallType) -> bool
    ensures { result ≡ is_output_type t.now }
{
    let actual = t.actual.as_slice();
    actual == b"char *".as_slice() || actual == b"void *".as_slice()
}

#[tactic(auto, unfolding(crate::specs::Kinds::is_text))]
fn is_text(t: &CallType) -> bool
    ensures { result ≡ is_text_type t.now }
{
    t.actual.as_slice() == b"const char *".as_slice()
}

#[tactic(auto, unfolding(crate::specs::Kinds::is_number))]
fn is_number(t: &CallType) -> bool
    ensures { result ≡ is_number_type t.now }
{
    let actual = t.actual.as_slice();
    actual == b"int *".as_slice() || actual == b"unsigned int *".as_slice()
}

#[tactic(auto, unfolding(crate::specs::Kinds::is_pair))]
fn is_pair(t: &CallType) -> bool
    ensures { result ≡ is_pair_type t.now }
{
    t.formal.as_slice() == b"int [2]".as_slice() && t.actual.as_slice() == b"int *".as_slice()
}

#[tactic(auto, unfolding(crate::specs::Kinds::lone_kind))]
fn lone_kind(t: &CallType) -> Option<Kind>
    ensures { result ≡ lone_kind_of t.now }
{
    if is_text(t) {
        return Some(Kind::Text);
    }
    if is_pair(t) {
        return Some(Kind::Out8);
    }
    if is_number(t) {
        return Some(Kind::Out4);
    }
    if has_star(t.actual.as_slice()) {
        return None;
    }
    Some(Kind::Word)
}

fn is_buffer(t: &CallType) -> bool
    ensures { result ≡ is_buffer_type t.now }
{
    is_input(t) || is_output(t)
}

fn is_sized(types: &[CallType]) -> bool
    ensures { result ≡ neighbour_is is_size_type (first_of types.now) }
{
    match types {
        [first, ..] => is_size(first),
        [] => false,
    }
}

/// The kind of a type: whether a buffer stands before it, and which types come after it.
#[tactic(auto, unfolding(crate::specs::Kinds::kind_of))]
fn kind_of(after_buffer: bool, t: &CallType, others: &[CallType]) -> Option<Kind>
    ensures { (before : Option CallType) → after_buffer ≡ neighbour_is is_buffer_type before → result ≡ kind_of_type before t.now (first_of others.now) }
{
    if after_buffer && is_size(t) {
        return Some(Kind::Len);
    }
    if is_input(t) && is_sized(others) {
        return Some(Kind::In);
    }
    if is_output(t) && is_sized(others) {
        return Some(Kind::Out);
    }
    lone_kind(t)
}

/// The kinds of the parameters of a row, where each type has one.
pub fn kinds_of(types: &[CallType]) -> Option<ArrayVec<Kind, 6>>
    requires { length types.now ≤ 6 }
    ensures { option_map (λ kinds. kinds.items) result ≡ kinds_of_types types.now }
{
    let mut kinds = ArrayVec::new();
    let mut after_buffer = false;
    let mut rest = types;
    while let [first, others @ ..] = rest {
        match kind_of(after_buffer, first, others) {
            None => return None,
            Some(kind) => kinds.push(kind),
        }
        after_buffer = is_buffer(first);
        rest = others;
    }
    Some(kinds)
}
