ghost use Rattle.std.specs.Prelude.{◌≡◌, ◌∷◌, [], IfOk, Ok, Err, Option, Some, None, Result, drop};
ghost use Rattle.nx_checked.specs.Trees.{stmts_of};
ghost use Rattle.nx_cobjects.specs.Memory.{memory, load};
ghost use Rattle.nx_cobjects.specs.Values.{first_value};
ghost use Rattle.nx_cmean.specs.Items.{Rest, Apply, FetchAt};
ghost use Rattle.nx_cmean.specs.Meaning.{leaf_value, proceeded, evaluated, put_value};
ghost use Rattle.nx_cmean.specs.Shape.{item_of, items_of};
ghost use Rattle.nx_cthread.specs.Threads.{frame_of, unless};

use crate::entry::{Frame, put_gaps};
use nx_checked::{ArrayName, CheckedStmt, Element, Scalar};
use nx_cmean::{Item, Leaf, begin, put_rest, put_test};
use nx_cobjects::{
    Infix, Name, Object, Objects, Value, WrongKind, apply_infix, apply_prefix, cell, load, moved,
    number,
};
use nx_shared::Shared;
use sqlite_items::Items;
use std::alloc::{AllocError, Global};

// An operand, in a call whose arrays stand from a place on.
fn leaf(from: u32, leaf: Leaf) -> Result<Value, AllocError>
    ensures { IfOk result (λ v. v ≡ leaf_value from leaf) }
{
    match leaf {
        Leaf::Number(n) => Ok(Value::Int(n)),
        Leaf::Text(i) => Ok(Value::Point(Name::Text(i), 0)),
        Leaf::Function(f) => Ok(Value::Entry(f)),
        Leaf::Array(ArrayName::Global(i)) => Ok(Value::Point(Name::Array(i), 0)),
        Leaf::Array(ArrayName::Local(i)) => match from.checked_add(i) {
            None => Err(AllocError),
            Some(place) => Ok(Value::Point(Name::Own(place), 0)),
        },
    }
}

// What a variable starts as.
fn first_value(scalar: Scalar) -> Value
    ensures { result ≡ first_value scalar }
{
    match scalar {
        Scalar::Int | Scalar::Char => Value::Int(0),
        Scalar::Pointer(_) => Value::Forged(0),
    }
}

#[tactic(auto, using(nx_cmean::proofs::Blocks::rest_at, nx_cmean::proofs::Blocks::rest_past))]
fn run_rest(
    frame: &mut Frame,
    ss: Shared<Items<CheckedStmt>>,
    at: usize,
) -> Result<Option<WrongKind>, AllocError>
    ensures { IfOk result (λ r. unless r (frame_of frame.new) ≡ proceeded (frame_of frame.old) (Rest (stmts_of (drop at ss)))) }
{
    let block = ss.another()?;
    match block.get().as_slice().get(at) {
        None => Ok(Some(WrongKind::Bounds)),
        Some(s) => {
            put_rest(&mut frame.todo, ss, at + 1)?;
            begin(&mut frame.todo, s)?;
            Ok(None)
        }
    }
}

// Statements and arrays.
fn proceed(frame: &mut Frame, item: Item) -> Result<Option<WrongKind>, AllocError>
    ensures { IfOk result (λ r. unless r (frame_of frame.new) ≡ proceeded (frame_of frame.old) (item_of item)) }
{
    match item {
        Item::Exec(s) => {
            begin(&mut frame.todo, s.get())?;
            Ok(None)
        }
        Item::Rest(ss, at) => run_rest(frame, ss, at),
        Item::Again(c, t, s) => {
            put_test(&mut frame.todo, &c, t, s)?;
            Ok(None)
        }
        Item::Start(s) => {
            frame.cells.push(first_value(s))?;
            Ok(None)
        }
        Item::Gap(n) => {
            put_gaps(&mut frame.todo, n)?;
            Ok(None)
        }
        _ => Ok(Some(WrongKind::Bounds)),
    }
}

// A value comes, or what is wrong.
fn put_value(
    frame: &mut Frame,
    v: Result<Value, WrongKind>,
) -> Result<Option<WrongKind>, AllocError>
    ensures { IfOk result (λ r. unless r (frame_of frame.new) ≡ put_value (frame_of frame.old) (frame_of frame.old).values v) }
{
    match v {
        Err(kind) => Ok(Some(kind)),
        Ok(v) => {
            frame.values.push(v)?;
            Ok(None)
        }
    }
}

fn fetch(
    group: &Objects,
    own: &[Object],
    frame: &mut Frame,
    element: Element,
    at: Value,
) -> Result<Option<WrongKind>, AllocError>
    ensures { IfOk result (λ r. unless r (frame_of frame.new) ≡ put_value (frame_of frame.old) (at ∷ (frame_of frame.old).values) (load (memory group.now own.now) element at)) }
{
    frame.values.push(at)?;
    let v = load(group, own, element, at);
    put_value(frame, v)
}

fn fetch_at(
    group: &Objects,
    own: &[Object],
    frame: &mut Frame,
    element: Element,
) -> Result<Option<WrongKind>, AllocError>
    ensures { IfOk result (λ r. unless r (frame_of frame.new) ≡ evaluated (memory group.now own.now) (frame_of frame.old) (FetchAt element)) }
{
    match frame.values.pop() {
        None => Ok(Some(WrongKind::Bounds)),
        Some(i) => match frame.values.pop() {
            None => Ok(Some(WrongKind::Bounds)),
            Some(a) => match number(i) {
                Err(kind) => Ok(Some(kind)),
                Ok(n) => match moved(group, own, element, a, n) {
                    Err(kind) => Ok(Some(kind)),
                    Ok(at) => fetch(group, own, frame, element, at),
                },
            },
        },
    }
}

fn apply(
    group: &Objects,
    own: &[Object],
    frame: &mut Frame,
    op: Infix,
) -> Result<Option<WrongKind>, AllocError>
    ensures { IfOk result (λ r. unless r (frame_of frame.new) ≡ evaluated (memory group.now own.now) (frame_of frame.old) (Apply op)) }
{
    match frame.values.pop() {
        None => Ok(Some(WrongKind::Bounds)),
        Some(b) => match frame.values.pop() {
            None => Ok(Some(WrongKind::Bounds)),
            Some(a) => {
                let v = apply_infix(group, own, op, a, b);
                put_value(frame, v)
            }
        },
    }
}

/// Expressions. Some says what is wrong.
pub fn evaluate(
    group: &Objects,
    own: &[Object],
    frame: &mut Frame,
    item: Item,
) -> Result<Option<WrongKind>, AllocError>
    ensures { IfOk result (λ r. unless r (frame_of frame.new) ≡ evaluated (memory group.now own.now) (frame_of frame.old) (item_of item)) }
{
    match item {
        Item::Take(l) => {
            let v = leaf(frame.from, l)?;
            frame.values.push(v)?;
            Ok(None)
        }
        Item::Get(x) => {
            let v = cell(group, own, &frame.cells, x);
            frame.values.push(v)?;
            Ok(None)
        }
        Item::Alter(op) => match frame.values.pop() {
            None => Ok(Some(WrongKind::Bounds)),
            Some(v) => {
                let v = apply_prefix(group, own, op, v);
                put_value(frame, v)
            }
        },
        Item::Apply(op) => apply(group, own, frame, op),
        Item::Fetch(w) => match frame.values.pop() {
            None => Ok(Some(WrongKind::Bounds)),
            Some(a) => fetch(group, own, frame, w, a),
        },
        Item::FetchAt(w) => fetch_at(group, own, frame, w),
        Item::Reached | Item::Chosen | Item::Called => Ok(None),
        other => proceed(frame, other),
    }
}
