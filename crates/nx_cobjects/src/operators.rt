ghost use Rattle.std.specs.Prelude.{◌≡◌, slice_get};
ghost use Rattle.nx_cobjects.specs.Memory.{memory, is_of, has_elements, moved, of_prefix, prefixed, infixed};

use crate::memory::{Objects, load};
use crate::object::Object;
use crate::value::{Infix, Name, Prefix, Value, WrongKind, negated, number, operate};
use nx_alu::alu;
use nx_base::AluOp;
use nx_checked::{Conversion, Element, IntPrefix};

fn are(objects: &[Object], i: usize, element: Element) -> bool
    ensures { result ≡ is_of element (slice_get objects.now i) }
{
    match objects.get(i) {
        None => false,
        Some(o) => o.is_of(element),
    }
}

fn has_elements(group: &Objects, own: &[Object], element: Element, name: Name) -> bool
    ensures { result ≡ has_elements (memory group.now own.now) element name }
{
    match name {
        Name::Array(i) => are(group.arrays(), i as usize, element),
        Name::Text(i) => are(group.texts(), i as usize, element),
        Name::Own(i) => are(own, i as usize, element),
    }
}

/// A pointer that is moved up by `n` elements.
pub fn moved(
    group: &Objects,
    own: &[Object],
    element: Element,
    v: Value,
    n: u32,
) -> Result<Value, WrongKind>
    ensures { result ≡ moved (memory group.now own.now) element v n }
{
    match v {
        Value::Point(object, place) => {
            if has_elements(group, own, element, object) {
                Ok(Value::Point(object, place.wrapping_add(n)))
            } else {
                Err(WrongKind::Bounds)
            }
        }
        Value::Forged(k) => match element {
            Element::Int => Ok(Value::Forged(k.wrapping_add(n.wrapping_mul(4)))),
            Element::Char => Ok(Value::Forged(k.wrapping_add(n))),
        },
        Value::Int(_) | Value::Entry(_) => Err(WrongKind::Bounds),
    }
}

fn of_prefix(op: IntPrefix, n: u32) -> u32
    ensures { result ≡ of_prefix op n }
{
    match op {
        IntPrefix::Minus => negated(n),
        IntPrefix::Not => u32::from(n == 0),
        IntPrefix::Complement => alu(AluOp::Xor, n, 4294967295),
    }
}

/// What is done to one value.
pub fn apply_prefix(
    group: &Objects,
    own: &[Object],
    op: Prefix,
    v: Value,
) -> Result<Value, WrongKind>
    ensures { result ≡ prefixed (memory group.now own.now) op v }
{
    match op {
        Prefix::Number(op) => {
            let n = number(v)?;
            Ok(Value::Int(of_prefix(op, n)))
        }
        Prefix::Cast(Conversion::ToInt) => Ok(v),
        Prefix::Cast(Conversion::ToChar) => {
            let n = number(v)?;
            Ok(Value::Int(n % 256))
        }
        Prefix::Cast(Conversion::ToPointer) => {
            let n = number(v)?;
            Ok(Value::Forged(n))
        }
        Prefix::Truth => {
            let n = number(v)?;
            Ok(Value::Int(u32::from(n != 0)))
        }
        Prefix::Load(element) => load(group, own, element, v),
    }
}

/// What is done to two values.
pub fn apply_infix(
    group: &Objects,
    own: &[Object],
    op: Infix,
    a: Value,
    b: Value,
) -> Result<Value, WrongKind>
    ensures { result ≡ infixed (memory group.now own.now) op a b }
{
    match op {
        Infix::Number(op) => {
            let x = number(a)?;
            let y = number(b)?;
            Ok(Value::Int(operate(op, x, y)))
        }
        Infix::Advance(element) => {
            let n = number(b)?;
            moved(group, own, element, a, n)
        }
        Infix::AdvanceBy(element) => {
            let n = number(a)?;
            moved(group, own, element, b, n)
        }
        Infix::Retreat(element) => {
            let n = number(b)?;
            moved(group, own, element, a, negated(n))
        }
        Infix::Load(element) => {
            let n = number(b)?;
            let at = moved(group, own, element, a, n)?;
            load(group, own, element, at)
        }
    }
}
