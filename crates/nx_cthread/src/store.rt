ghost use Rattle.std.specs.Prelude.{◌≡◌, ◌∷◌, [], IfOk, Ok, Err, Option, Some, None, Result, List};
ghost use Rattle.nx_cobjects.specs.Memory.{memory, store};
ghost use Rattle.nx_cobjects.specs.Groups.{Object as PlainObject};
ghost use Rattle.nx_cobjects.specs.Values.{cut};
ghost use Rattle.nx_cmean.specs.Items.{Write, Raise, Bump, Lay, Lift, Shift};
ghost use Rattle.nx_cmean.specs.Meaning.{raised, stepping, stored, assigned, then_value, changed};
ghost use Rattle.nx_cmean.specs.Shape.{item_of};
ghost use Rattle.nx_cthread.specs.Threads.{frame_of, unless};

use crate::entry::Frame;
use crate::evaluate::evaluate;
use nx_checked::{Cell, Element, IntOperator, Scalar, StepValue};
use nx_cmean::Item;
use nx_cobjects::{
    Object, Objects, Value, WrongKind, kept, moved, negated, new_array, number, operate, put_local,
    store,
};
use std::alloc::{AllocError, Global};

// What an element keeps of a number that is stored.
fn cut(element: Element, n: u32) -> u32
    ensures { result ≡ cut element n }
{
    match element {
        Element::Int => n,
        Element::Char => n % 256,
    }
}

// What a compound assignment stores.
fn raised(
    group: &Objects,
    own: &[Object],
    op: IntOperator,
    scalar: Scalar,
    v: Value,
    e: Value,
) -> Result<Value, WrongKind>
    ensures { result ≡ raised (memory group.now own.now) op scalar v e }
{
    match scalar {
        Scalar::Int => {
            let x = number(v)?;
            let y = number(e)?;
            Ok(Value::Int(operate(op, x, y)))
        }
        Scalar::Char => {
            let x = number(v)?;
            let y = number(e)?;
            Ok(Value::Int(operate(op, x, y) % 256))
        }
        Scalar::Pointer(w) => {
            let n = number(e)?;
            match op {
                IntOperator::Subtract => moved(group, own, w, v, negated(n)),
                _ => moved(group, own, w, v, n),
            }
        }
    }
}

fn stepping(up: bool) -> IntOperator
    ensures { result ≡ stepping up }
{
    if up {
        IntOperator::Add
    } else {
        IntOperator::Subtract
    }
}

// A variable gets a value, and another is the value of the assignment.
fn assign(
    group: &mut Objects,
    frame: &mut Frame,
    x: Cell,
    v: Value,
    value: Value,
) -> Result<Option<WrongKind>, AllocError>
    ensures { (own : List PlainObject) → IfOk result (λ r. unless r (changed (memory group.new own) (frame_of frame.new)) ≡ assigned (memory group.old own) (frame_of frame.old) x v value (frame_of frame.old).values) }
{
    match x {
        Cell::Local(i) => {
            put_local(&mut frame.cells, i as usize, v);
            frame.values.push(value)?;
            Ok(None)
        }
        Cell::Global(i) => match number(v) {
            Err(kind) => Ok(Some(kind)),
            Ok(n) => {
                group.put_scalar(i as usize, n);
                frame.values.push(value)?;
                Ok(None)
            }
        },
    }
}

// The same of the element at a pointer.
fn lay(
    group: &mut Objects,
    own: &mut [Object],
    frame: &mut Frame,
    element: Element,
    at: Value,
    n: u32,
    value: u32,
) -> Result<Option<WrongKind>, AllocError>
    ensures { IfOk result (λ r. unless r (changed (memory group.new own.new) (frame_of frame.new)) ≡ then_value (frame_of frame.old) (frame_of frame.old).values value (store (memory group.old own.old) element at n)) }
{
    match store(group, own, element, at, n) {
        Err(kind) => Ok(Some(kind)),
        Ok(()) => {
            frame.values.push(Value::Int(value))?;
            Ok(None)
        }
    }
}

fn write(
    group: &mut Objects,
    frame: &mut Frame,
    s: Scalar,
    x: Cell,
) -> Result<Option<WrongKind>, AllocError>
    ensures { (own : List PlainObject) → IfOk result (λ r. unless r (changed (memory group.new own) (frame_of frame.new)) ≡ stored (memory group.old own) (frame_of frame.old) (Write s x)) }
{
    match frame.values.pop() {
        None => Ok(Some(WrongKind::Bounds)),
        Some(v) => match kept(s, v) {
            Err(kind) => Ok(Some(kind)),
            Ok(v) => assign(group, frame, x, v, v),
        },
    }
}

fn raise(
    group: &mut Objects,
    own: &[Object],
    frame: &mut Frame,
    op: IntOperator,
    s: Scalar,
    x: Cell,
) -> Result<Option<WrongKind>, AllocError>
    ensures { IfOk result (λ r. unless r (changed (memory group.new own.now) (frame_of frame.new)) ≡ stored (memory group.old own.now) (frame_of frame.old) (Raise op s x)) }
{
    match frame.values.pop() {
        None => Ok(Some(WrongKind::Bounds)),
        Some(e) => match frame.values.pop() {
            None => Ok(Some(WrongKind::Bounds)),
            Some(v) => match raised(group, own, op, s, v, e) {
                Err(kind) => Ok(Some(kind)),
                Ok(v) => assign(group, frame, x, v, v),
            },
        },
    }
}

fn bump(
    group: &mut Objects,
    own: &[Object],
    frame: &mut Frame,
    value: StepValue,
    up: bool,
    s: Scalar,
    x: Cell,
) -> Result<Option<WrongKind>, AllocError>
    ensures { IfOk result (λ r. unless r (changed (memory group.new own.now) (frame_of frame.new)) ≡ stored (memory group.old own.now) (frame_of frame.old) (Bump value up s x)) }
{
    match frame.values.pop() {
        None => Ok(Some(WrongKind::Bounds)),
        Some(old) => match raised(group, own, stepping(up), s, old, Value::Int(1)) {
            Err(kind) => Ok(Some(kind)),
            Ok(v) => match value {
                StepValue::New => assign(group, frame, x, v, v),
                StepValue::Old => assign(group, frame, x, v, old),
            },
        },
    }
}

fn lay_value(
    group: &mut Objects,
    own: &mut [Object],
    frame: &mut Frame,
    w: Element,
) -> Result<Option<WrongKind>, AllocError>
    ensures { IfOk result (λ r. unless r (changed (memory group.new own.new) (frame_of frame.new)) ≡ stored (memory group.old own.old) (frame_of frame.old) (Lay w)) }
{
    match frame.values.pop() {
        None => Ok(Some(WrongKind::Bounds)),
        Some(v) => match frame.values.pop() {
            None => Ok(Some(WrongKind::Bounds)),
            Some(a) => match number(v) {
                Err(kind) => Ok(Some(kind)),
                Ok(n) => lay(group, own, frame, w, a, n, cut(w, n)),
            },
        },
    }
}

fn lift(
    group: &mut Objects,
    own: &mut [Object],
    frame: &mut Frame,
    op: IntOperator,
    w: Element,
) -> Result<Option<WrongKind>, AllocError>
    ensures { IfOk result (λ r. unless r (changed (memory group.new own.new) (frame_of frame.new)) ≡ stored (memory group.old own.old) (frame_of frame.old) (Lift op w)) }
{
    match frame.values.pop() {
        None => Ok(Some(WrongKind::Bounds)),
        Some(e) => match frame.values.pop() {
            None => Ok(Some(WrongKind::Bounds)),
            Some(v) => match frame.values.pop() {
                None => Ok(Some(WrongKind::Bounds)),
                Some(a) => match number(v) {
                    Err(kind) => Ok(Some(kind)),
                    Ok(x) => match number(e) {
                        Err(kind) => Ok(Some(kind)),
                        Ok(y) => {
                            let n = operate(op, x, y);
                            lay(group, own, frame, w, a, n, cut(w, n))
                        }
                    },
                },
            },
        },
    }
}

fn shift(
    group: &mut Objects,
    own: &mut [Object],
    frame: &mut Frame,
    value: StepValue,
    up: bool,
    w: Element,
) -> Result<Option<WrongKind>, AllocError>
    ensures { IfOk result (λ r. unless r (changed (memory group.new own.new) (frame_of frame.new)) ≡ stored (memory group.old own.old) (frame_of frame.old) (Shift value up w)) }
{
    match frame.values.pop() {
        None => Ok(Some(WrongKind::Bounds)),
        Some(old) => match frame.values.pop() {
            None => Ok(Some(WrongKind::Bounds)),
            Some(a) => match number(old) {
                Err(kind) => Ok(Some(kind)),
                Ok(old) => {
                    let n = operate(stepping(up), old, 1);
                    match value {
                        StepValue::New => lay(group, own, frame, w, a, n, cut(w, n)),
                        StepValue::Old => lay(group, own, frame, w, a, n, old),
                    }
                }
            },
        },
    }
}

/// An item that changes objects or its call alone. Some says what is wrong.
pub fn change(
    alloc: Global,
    group: &mut Objects,
    own: &mut Vec<Object>,
    frame: &mut Frame,
    item: Item,
) -> Result<Option<WrongKind>, AllocError>
    ensures { IfOk result (λ r. unless r (changed (memory group.new own.new.items) (frame_of frame.new)) ≡ stored (memory group.old own.old.items) (frame_of frame.old) (item_of item)) }
{
    match item {
        Item::Write(s, x) => write(group, frame, s, x),
        Item::Raise(op, s, x) => raise(group, own, frame, op, s, x),
        Item::Bump(v, up, s, x) => bump(group, own, frame, v, up, s, x),
        Item::Lay(w) => lay_value(group, own, frame, w),
        Item::Lift(op, w) => lift(group, own, frame, op, w),
        Item::Shift(v, up, w) => shift(group, own, frame, v, up, w),
        Item::Make(s) => {
            new_array(alloc, own, s)?;
            Ok(None)
        }
        other => evaluate(group, own, frame, other),
    }
}
