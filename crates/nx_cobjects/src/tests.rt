use super::*;
use nx_base::{Bytes, Kind};
use nx_checked::{Checked, Conversion, Element, IntOperator, IntPrefix, Scalar, Shape, UsedCall};
use sqlite_items::Items;
use std::alloc::{AllocError, Global};
use std::test::Fail;

// Signed comparisons and shifts, and what RV32IM gives for a division by zero (RISC-V unprivileged specification,
// sections 2.4 and 7.2).
#[test]
fn operators_are_of_signed_numbers(rt: HostRuntime) {
    let all = 0xffffffff;
    for (op, a, b, result) in [
        (IntOperator::Less, all, 0, 1),
        (IntOperator::Greater, all, 0, 0),
        (IntOperator::AtMost, 3, 3, 1),
        (IntOperator::ShiftRight, 0x80000000, 31, all),
        (IntOperator::ShiftLeft, 1, 33, 2),
        (IntOperator::Divide, 7, 0, all),
        (IntOperator::Divide, 0x80000000, all, 0x80000000),
        (IntOperator::Remainder, 0xfffffff9, 2, all),
        (IntOperator::Multiply, 0x10000, 0x10000, 0),
    ] {
        assert_eq!(rt; operate(op, a, b), result);
    }
    assert!(rt; reads(kept(Scalar::Char, Value::Int(300)), Some(44)));
    assert!(rt; reads(kept(Scalar::Char, Value::Forged(300)), None));
    assert_eq!(rt; word(Value::Forged(7)) + word(Value::Entry(2)), 2);
}

fn forged(v: Result<Value, WrongKind>) -> u32 {
    match v {
        Ok(Value::Forged(n)) => n,
        _ => 0,
    }
}

#[test]
fn a_pointer_to_nothing_moves_by_bytes(rt: HostRuntime) -> Result<(), Fail> {
    let group = with_text(rt.alloc(), b"ab\0")?;
    let down = negated(1);
    for (element, n, result) in [
        (Element::Int, 1, 1004),
        (Element::Char, 1, 1001),
        (Element::Int, down, 996),
    ] {
        assert_eq!(rt;
            forged(moved(&group, &[], element, Value::Forged(1000), n)),
            result
        );
    }
    Ok(())
}

// Which of these are wrong: a pointer as a number, one to other elements, and a number as a pointer.
#[test]
fn what_does_not_fit_is_wrong(rt: HostRuntime) -> Result<(), Fail> {
    let group = with_text(rt.alloc(), b"ab\0")?;
    let text = Value::Point(Name::Text(0), 0);
    let one = Value::Int(1);
    let add = Infix::Number(IntOperator::Add);
    for (op, a, b, right) in [
        (add, one, one, true),
        (add, text, one, false),
        (add, one, Value::Forged(1), false),
        (add, one, Value::Entry(1), false),
        (Infix::Load(Element::Char), text, one, true),
        (Infix::Load(Element::Int), text, Value::Int(0), false),
        (Infix::Advance(Element::Int), text, one, false),
        (Infix::Advance(Element::Char), one, one, false),
        (Infix::AdvanceBy(Element::Char), one, text, true),
    ] {
        assert_eq!(rt; apply_infix(&group, &[], op, a, b).is_ok(), right);
    }
    for (op, v, right) in [
        (Prefix::Truth, text, false),
        (Prefix::Cast(Conversion::ToChar), text, false),
        (Prefix::Number(IntPrefix::Minus), one, true),
    ] {
        assert_eq!(rt; apply_prefix(&group, &[], op, v).is_ok(), right);
    }
    Ok(())
}

// Whether a read gives this number, or is wrong where none is wanted.
fn reads(v: Result<Value, WrongKind>, wanted: Option<u32>) -> bool {
    match v {
        Ok(Value::Int(n)) => wanted == Some(n),
        Ok(_) => false,
        Err(_) => wanted.is_none(),
    }
}

#[test]
fn elements_lie_in_their_object(rt: HostRuntime) -> Result<(), Fail> {
    let mut object = Object::zeros(
        rt.alloc(),
        Shape {
            element: Element::Int,
            count: 2,
        },
    )?;
    assert!(rt; object.put(Element::Int, 1, 0x01020304));
    assert!(rt; !object.put(Element::Int, 2, 1));
    for (element, at, wanted) in [
        (Element::Int, 0, Some(0)),
        (Element::Int, 1, Some(0x01020304)),
        (Element::Int, 2, None),
        (Element::Char, 4, None),
    ] {
        assert!(rt; reads(object.get(element, at), wanted));
    }
    object.end();
    assert!(rt; reads(object.get(Element::Int, 0), None));
    Ok(())
}

// A program with one text.
fn with_text(alloc: Global, text: &[u8]) -> Result<Objects, Fail> {
    let mut literals = Items::new(alloc);
    literals.push(Bytes::from_slice(alloc, text)?)?;
    let program = Checked {
        functions: Items::new(alloc),
        main: 0,
        scalars: Items::new(alloc),
        arrays: Items::new(alloc),
        literals,
        calls: Items::new(alloc),
    };
    Ok(Objects::new(alloc, &program)?)
}

fn call(alloc: Global, name: &[u8], kinds: &[Kind]) -> Result<UsedCall, AllocError> {
    Ok(UsedCall {
        name: Bytes::from_slice(alloc, name)?,
        number: 16,
        kinds: Items::from_slice(alloc, kinds)?,
        returns: true,
    })
}

// How many bytes go with a call of one parameter and a length. None where they aren't there.
fn bytes_of(
    alloc: Global,
    group: &Objects,
    kind: Kind,
    v: Value,
    length: u32,
) -> Result<Option<usize>, AllocError> {
    let c = call(alloc, b"call", &[kind, Kind::Len])?;
    match inputs(alloc, group, &[], &c, &[v, Value::Int(length)])? {
        None => Ok(None),
        Some(buffers) => match buffers.as_slice() {
            [bytes] => Ok(Some(bytes.as_slice().len())),
            _ => Ok(Some(0)),
        },
    }
}

#[test]
fn buffers_and_texts_of_calls(rt: HostRuntime) -> Result<(), Fail> {
    let group = with_text(rt.alloc(), b"ab\0cd\0")?;
    let at = |place: u32| Value::Point(Name::Text(0), place);
    for (kind, v, length, wanted) in [
        (Kind::Text, at(0), 0, Some(2)),
        (Kind::Text, at(2), 0, Some(0)),
        (Kind::Text, at(3), 0, Some(2)),
        (Kind::Text, at(6), 0, None),
        (Kind::Text, Value::Forged(0), 0, None),
        (Kind::In, at(1), 5, Some(5)),
        (Kind::In, at(1), 6, None),
        (Kind::In, Value::Forged(0), 0, Some(0)),
        (Kind::In, at(0), 0xffffffff, None),
        (Kind::Out, at(0), 6, None),
        (Kind::Out, at(0), 0, Some(0)),
        (Kind::Out4, at(0), 0, None),
        (Kind::Word, Value::Int(7), 0, Some(0)),
        (Kind::Word, Value::Entry(0), 0, None),
        (Kind::Word, at(0), 0, None),
    ] {
        assert_eq!(rt; bytes_of(rt.alloc(), &group, kind, v, length)?, wanted);
    }
    Ok(())
}

// The call that starts a thread has a function as its first argument, and no other call has one.
#[test]
fn a_thread_starts_with_a_function(rt: HostRuntime) -> Result<(), Fail> {
    let group = with_text(rt.alloc(), b"\0")?;
    let starts = call(rt.alloc(), b"nx_thread", &[Kind::Word, Kind::Word])?;
    let other = call(rt.alloc(), b"usleep", &[Kind::Word, Kind::Word])?;
    let one = Value::Int(1);
    for (c, first, second, there) in [
        (&starts, Value::Entry(0), one, true),
        (&starts, one, one, false),
        (&starts, Value::Entry(0), Value::Entry(0), false),
        (&other, Value::Entry(0), one, false),
        (&other, one, one, true),
    ] {
        let found = inputs(rt.alloc(), &group, &[], c, &[first, second])?.is_some();
        assert_eq!(rt; found, there);
    }
    Ok(())
}

#[test]
fn outputs_are_put_in_their_order(rt: HostRuntime) -> Result<(), Fail> {
    let mut group = with_text(rt.alloc(), b"\0")?;
    let mut own = Vec::new(rt.alloc());
    let shape = Shape {
        element: Element::Char,
        count: 8,
    };
    new_array(rt.alloc(), &mut own, shape)?;
    new_array(rt.alloc(), &mut own, shape)?;
    let values = [
        Value::Point(Name::Own(1), 4),
        Value::Int(0),
        Value::Point(Name::Own(0), 0),
    ];
    let places = outputs(rt.alloc(), &[Kind::Out4, Kind::Word, Kind::Out8], &values)?;
    put_replies(
        &mut group,
        &mut own,
        places.as_slice(),
        b"wxyz",
        b"12345678",
    );
    for (array, place, wanted) in [(1, 4, b'w'), (1, 7, b'z'), (0, 0, b'1'), (0, 7, b'8')] {
        let v = load(
            &group,
            &own,
            Element::Char,
            Value::Point(Name::Own(array), place),
        );
        assert!(rt; reads(v, Some(wanted as u32)));
    }
    Ok(())
}
