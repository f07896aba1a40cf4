ghost use Rattle.std.specs.Prelude.{◌≡◌, ◌∷◌, [], ◌++◌, Some, None, OnOk, IfOk, if◌then◌else◌, List, ℕ, ◌≢◌};
ghost use Rattle.std.specs.Prelude.{true};
ghost use Rattle.nx_cobjects.specs.Values.{number_in};
ghost use Rattle.nx_cobjects.specs.declared.value.Value.TheVariants.{Int};
ghost use Rattle.nx_cobjects.specs.Memory.{memory, object_in};
ghost use Rattle.nx_cobjects.specs.Buffers.{
  buffer,
  is_text,
  room,
  text,
  part_of,
  text_of,
  on_number,
  input_after,
  inputs_after,
  enters,
  inputs_by,
  inputs_of,
  outputs_of,
  words_of,
  with_output,
  replied,
  with_input,
  where_there,
};

use crate::memory::{Objects, put_bytes_in, value_at};
use crate::object::Object;
use crate::value::{Name, Value, number, word};
use nx_base::{Bytes, Kind};
use nx_checked::UsedCall;
use sqlite_items::Items;
use std::alloc::{AllocError, Global};

fn part_in(
    alloc: Global,
    objects: &[Object],
    i: usize,
    at: u32,
    n: u32,
) -> Result<Option<Bytes>, AllocError>
    requires { n ≢ 0 }
    ensures { IfOk result (λ r. r ≡ part_of (object_in objects.now i) at n) }
{
    match objects.get(i) {
        Some(o) => o.part(alloc, at, n),
        None => Ok(None),
    }
}

/// The first bytes, at most 4,096, of a buffer.
fn buffer(
    alloc: Global,
    group: &Objects,
    own: &[Object],
    v: Value,
    n: u32,
) -> Result<Option<Bytes>, AllocError>
    ensures { IfOk result (λ r. r ≡ buffer (memory group.now own.now) v n) }
{
    if n == 0 {
        return Ok(Some(Bytes::new(alloc)));
    }
    match v {
        Value::Point(Name::Array(i), at) => part_in(alloc, group.arrays(), i as usize, at, n),
        Value::Point(Name::Text(i), at) => part_in(alloc, group.texts(), i as usize, at, n),
        Value::Point(Name::Own(i), at) => part_in(alloc, own, i as usize, at, n),
        Value::Int(_) | Value::Forged(_) | Value::Entry(_) => Ok(None),
    }
}

fn text_in(
    alloc: Global,
    objects: &[Object],
    i: usize,
    at: u32,
) -> Result<Option<Bytes>, AllocError>
    ensures { IfOk result (λ r. r ≡ text_of (object_in objects.now i) at) }
{
    match objects.get(i) {
        Some(o) => o.text(alloc, at),
        None => Ok(None),
    }
}

/// The bytes of a text.
fn text(
    alloc: Global,
    group: &Objects,
    own: &[Object],
    v: Value,
) -> Result<Option<Bytes>, AllocError>
    ensures { IfOk result (λ r. r ≡ text (memory group.now own.now) v) }
{
    match v {
        Value::Point(Name::Array(i), at) => text_in(alloc, group.arrays(), i as usize, at),
        Value::Point(Name::Text(i), at) => text_in(alloc, group.texts(), i as usize, at),
        Value::Point(Name::Own(i), at) => text_in(alloc, own, i as usize, at),
        Value::Int(_) | Value::Forged(_) | Value::Entry(_) => Ok(None),
    }
}

fn put(done: &mut Items<Bytes>, bytes: Option<Bytes>) -> Result<bool, AllocError>
    ensures { IfOk result (λ ok. (if ok then Some done.new else None) ≡ with_input done.old bytes) }
{
    match bytes {
        None => Ok(false),
        Some(bytes) => {
            done.push(bytes)?;
            Ok(true)
        }
    }
}

// Puts the input of a buffer of so many bytes to others. False where it isn't there.
fn put_buffer(
    alloc: Global,
    group: &Objects,
    own: &[Object],
    done: &mut Items<Bytes>,
    v: Value,
    next: Value,
) -> Result<bool, AllocError>
    ensures { IfOk result (λ ok. (if ok then Some done.new else None) ≡ on_number (number_in next) (λ n. with_input done.old (buffer (memory group.now own.now) v n))) }
{
    match number(next) {
        Err(_) => Ok(false),
        Ok(n) => {
            let bytes = buffer(alloc, group, own, v, n)?;
            put(done, bytes)
        }
    }
}

fn is_text(v: Value) -> bool
    ensures { result ≡ is_text v }
{
    match v {
        Value::Point(Name::Text(_), _) => true,
        Value::Point(Name::Array(_), _) | Value::Point(Name::Own(_), _) => false,
        Value::Int(_) | Value::Forged(_) | Value::Entry(_) => false,
    }
}

// Whether a buffer that is written is there.
fn has_room(
    alloc: Global,
    group: &Objects,
    own: &[Object],
    v: Value,
    n: u32,
) -> Result<bool, AllocError>
    ensures { (done : List (List ℕ)) → IfOk result (λ ok. (if ok then Some done else None) ≡ where_there done (room (memory group.now own.now) v n)) }
{
    if is_text(v) && n != 0 {
        return Ok(false);
    }
    match buffer(alloc, group, own, v, n)? {
        None => Ok(false),
        Some(_) => Ok(true),
    }
}

fn has_room_of(
    alloc: Global,
    group: &Objects,
    own: &[Object],
    v: Value,
    next: Value,
) -> Result<bool, AllocError>
    ensures { (done : List (List ℕ)) → IfOk result (λ ok. (if ok then Some done else None) ≡ on_number (number_in next) (λ n. where_there done (room (memory group.now own.now) v n))) }
{
    match number(next) {
        Err(_) => Ok(false),
        Ok(n) => has_room(alloc, group, own, v, n),
    }
}

// Puts the input of a parameter to others. False where it isn't what its kind asks for.
fn put_input(
    alloc: Global,
    group: &Objects,
    own: &[Object],
    done: &mut Items<Bytes>,
    kind: Kind,
    v: Value,
    next: Value,
) -> Result<bool, AllocError>
    ensures { IfOk result (λ ok. (if ok then Some done.new else None) ≡ input_after (memory group.now own.now) done.old kind v next) }
{
    match kind {
        Kind::Word | Kind::Len => match number(v) {
            Err(_) => Ok(false),
            Ok(_) => Ok(true),
        },
        Kind::In => put_buffer(alloc, group, own, done, v, next),
        Kind::Text => {
            let bytes = text(alloc, group, own, v)?;
            put(done, bytes)
        }
        Kind::Out => has_room_of(alloc, group, own, v, next),
        Kind::Out4 => has_room(alloc, group, own, v, 4),
        Kind::Out8 => has_room(alloc, group, own, v, 8),
    }
}

fn put_inputs(
    alloc: Global,
    group: &Objects,
    own: &[Object],
    done: &mut Items<Bytes>,
    kinds: &[Kind],
    values: &[Value],
) -> Result<bool, AllocError>
    ensures { IfOk result (λ ok. (if ok then Some done.new else None) ≡ inputs_after (memory group.now own.now) done.old kinds.now values.now) }
{
    match kinds {
        [] => Ok(true),
        [kind, kinds @ ..] => match values {
            [] => Ok(true),
            [v, values @ ..] => {
                let next = value_at(values, 0);
                if put_input(alloc, group, own, done, *kind, *v, next)? {
                    put_inputs(alloc, group, own, done, kinds, values)
                } else {
                    Ok(false)
                }
            }
        },
    }
}

// The same where the first value is a function's place.
fn put_entry(
    alloc: Global,
    group: &Objects,
    own: &[Object],
    done: &mut Items<Bytes>,
    kinds: &[Kind],
    function: u32,
    values: &[Value],
) -> Result<bool, AllocError>
    ensures { IfOk result (λ ok. (if ok then Some done.new else None) ≡ inputs_after (memory group.now own.now) done.old kinds.now (Int function ∷ values.now)) }
{
    match kinds {
        [] => Ok(true),
        [kind, kinds @ ..] => {
            let next = value_at(values, 0);
            if put_input(alloc, group, own, done, *kind, Value::Int(function), next)? {
                put_inputs(alloc, group, own, done, kinds, values)
            } else {
                Ok(false)
            }
        }
    }
}

fn put_thread(
    alloc: Global,
    group: &Objects,
    own: &[Object],
    done: &mut Items<Bytes>,
    kinds: &[Kind],
    values: &[Value],
) -> Result<bool, AllocError>
    requires { done.old ≡ [] }
    ensures { IfOk result (λ ok. (if ok then Some done.new else None) ≡ inputs_by (memory group.now own.now) true kinds.now values.now) }
{
    match values {
        [] => Ok(false),
        [v, values @ ..] => match *v {
            Value::Entry(f) => put_entry(alloc, group, own, done, kinds, f, values),
            Value::Int(_) | Value::Point(_, _) | Value::Forged(_) => Ok(false),
        },
    }
}

/// Whether a call starts a thread: its first argument is a function.
#[tactic(auto, unfolding(crate::specs::Buffers::enters))]
fn enters(c: &UsedCall) -> bool
    ensures { result ≡ enters c.now }
{
    c.name.as_slice() == b"nx_thread".as_slice()
}

/// The bytes that go with a call whose parameters have these values. None where a value isn't what its parameter asks for.
pub fn inputs(
    alloc: Global,
    group: &Objects,
    own: &[Object],
    c: &UsedCall,
    values: &[Value],
) -> Result<Option<Items<Bytes>>, AllocError>
    ensures { IfOk result (λ r. r ≡ inputs_of (memory group.now own.now) c.now values.now) }
{
    let mut done = Items::new(alloc);
    let there = if enters(c) {
        put_thread(alloc, group, own, &mut done, c.kinds.as_slice(), values)?
    } else {
        put_inputs(alloc, group, own, &mut done, c.kinds.as_slice(), values)?
    };
    if there { Ok(Some(done)) } else { Ok(None) }
}

fn push_outputs(done: &mut Items<Value>, kinds: &[Kind], values: &[Value]) -> Result<(), AllocError>
    ensures { OnOk result (done.new ≡ done.old ++ outputs_of kinds.now values.now) }
{
    match kinds {
        [] => Ok(()),
        [kind, kinds @ ..] => match values {
            [] => Ok(()),
            [v, values @ ..] => match kind {
                Kind::Out | Kind::Out4 | Kind::Out8 => {
                    done.push(*v)?;
                    push_outputs(done, kinds, values)
                }
                Kind::Word | Kind::Len | Kind::In | Kind::Text => {
                    push_outputs(done, kinds, values)
                }
            },
        },
    }
}

/// The pointers at which the outputs of a call are put.
pub fn outputs(alloc: Global, kinds: &[Kind], values: &[Value]) -> Result<Items<Value>, AllocError>
    ensures { IfOk result (λ vs. vs ≡ outputs_of kinds.now values.now) }
{
    let mut done = Items::new(alloc);
    push_outputs(&mut done, kinds, values)?;
    Ok(done)
}

/// The words of a call: those of its values, and 0 after them.
pub fn words(values: &[Value]) -> [u32; 6]
    ensures { result ≡ words_of values.now }
{
    [
        word(value_at(values, 0)),
        word(value_at(values, 1)),
        word(value_at(values, 2)),
        word(value_at(values, 3)),
        word(value_at(values, 4)),
        word(value_at(values, 5)),
    ]
}

fn put_reply(group: &mut Objects, own: &mut [Object], v: Value, new: &[u8])
    ensures { memory group.new own.new ≡ with_output (memory group.old own.old) v new.now }
{
    match v {
        Value::Point(Name::Array(i), at) => group.put_bytes(i as usize, at, new),
        Value::Point(Name::Own(i), at) => put_bytes_in(own, i as usize, at, new),
        Value::Point(Name::Text(_), _) | Value::Int(_) | Value::Forged(_) | Value::Entry(_) => {}
    }
}

/// Puts the outputs of a reply at these pointers.
pub fn put_replies(
    group: &mut Objects,
    own: &mut [Object],
    outputs: &[Value],
    first: &[u8],
    second: &[u8],
)
    ensures { memory group.new own.new ≡ replied (memory group.old own.old) outputs.now first.now second.now }
{
    match outputs {
        [] => {}
        [v] => put_reply(group, own, *v, first),
        [v, w, ..] => {
            put_reply(group, own, *v, first);
            put_reply(group, own, *w, second)
        }
    }
}
