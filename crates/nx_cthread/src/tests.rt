use super::*;
use nx_checked::{
    Checked, CheckedExpr, CheckedFunction, CheckedStmt, Element, IntOperator, Scalar, Shape,
    StepValue,
};
use nx_cobjects::{Objects, WrongKind};
use nx_shared::Shared;
use sqlite_items::Items;
use std::alloc::{AllocError, Global};
use std::test::Fail;
use trees::{
    I, N, binary, constant, element, expression, function, part, program, run, transfer, write,
};

mod trees;

// How a thread ends.
#[derive(Clone, Copy, Debug, PartialEq, Eq)]
enum End {
    Ends(i32),
    Bounds,
    Forged,
    Buffer,
    Other,
}

fn end_of(kind: WrongKind) -> End {
    match kind {
        WrongKind::Bounds => End::Bounds,
        WrongKind::Forged => End::Forged,
        WrongKind::Buffer => End::Buffer,
        WrongKind::Shared | WrongKind::Raw => End::Other,
    }
}

// How many steps a program's thread takes that makes no call, and how it ends.
fn outcome(alloc: Global, program: &Checked) -> Result<(u32, End), Fail> {
    let mut globals = Objects::new(alloc, program)?;
    let mut thread = CThread::new(alloc, program, 0, 0)?;
    for steps in 1..200u32 {
        match thread.step(alloc, program, &mut globals)? {
            CStep::Next => {}
            CStep::Call(_) => return Ok((steps, End::Other)),
            CStep::Ends(value) => return Ok((steps, End::Ends(value))),
            CStep::Wrong(kind) => return Ok((steps, end_of(kind))),
        }
    }
    Ok((0, End::Other))
}

// A main function with one local, `int a[2]`, and one statement.
fn short(alloc: Global, s: CheckedStmt) -> Result<CheckedFunction, AllocError> {
    let mut body = Items::new(alloc);
    body.push(s)?;
    let array = Shape {
        element: Element::Int,
        count: 2,
    };
    function(alloc, &[], &[Scalar::Int], &[array], body)
}

// `int f(void) { return 1; }`
fn one(alloc: Global) -> Result<CheckedFunction, AllocError> {
    let mut body = Items::new(alloc);
    body.push(CheckedStmt::Return(Some(constant(alloc, 1)?)))?;
    function(alloc, &[], &[], &[], body)
}

// Such a main function, an empty function, and one that returns 1.
fn three(alloc: Global, s: CheckedStmt) -> Result<Checked, AllocError> {
    let mut functions = Items::new(alloc);
    functions.push(short(alloc, s)?)?;
    functions.push(function(alloc, &[], &[], &[], Items::new(alloc))?)?;
    functions.push(one(alloc)?)?;
    program(alloc, functions)
}

// The entry takes 3 steps, and the fall off the end one.
#[test]
fn statements_take_their_steps(rt: HostRuntime) -> Result<(), Fail> {
    for (case, steps, ends) in [
        (0, 3 + 4, End::Ends(0)),
        (1, 4 + 4, End::Ends(0)),
        (2, 3 + 4, End::Ends(0)),
        (3, 6 + 4, End::Ends(0)),
        (4, 6 + 4, End::Ends(0)),
        (5, 5 + 4, End::Ends(0)),
        (6, 3 + 4, End::Ends(0)),
        (7, 4 + 4, End::Ends(0)),
        (8, 3 + 4, End::Ends(0)),
        (9, 3 + 4, End::Ends(0)),
        (10, 3 + 6, End::Bounds),
        (11, 3 + 4, End::Bounds),
        (12, 3 + 6, End::Forged),
        (13, 3 + 5, End::Buffer),
        (14, 3 + 4, End::Ends(0)),
        (15, 5 + 4, End::Ends(0)),
    ] {
        let e = expression(rt.alloc(), case)?;
        let program = three(rt.alloc(), run(rt.alloc(), e)?)?;
        assert_eq!(rt; outcome(rt.alloc(), &program)?, (steps, ends), "{case}");
    }
    let program = three(rt.alloc(), CheckedStmt::Empty)?;
    assert_eq!(rt; outcome(rt.alloc(), &program)?, (1 + 4, End::Ends(0)));
    Ok(())
}

// `return e;` takes a step for the statement, three for `e`, and one more.
#[test]
fn values_are_those_of_the_machine(rt: HostRuntime) -> Result<(), Fail> {
    for (op, a, b, value) in [
        (IntOperator::Divide, 0x80000000, 0xffffffff, -2147483648),
        (IntOperator::Divide, 7, 0, -1),
        (IntOperator::Remainder, 7, 0, 7),
        (IntOperator::ShiftLeft, 1, 33, 2),
    ] {
        let e = part(rt.alloc(), binary(rt.alloc(), op, a, b)?)?;
        let program = three(rt.alloc(), CheckedStmt::Return(Some(e)))?;
        assert_eq!(rt; outcome(rt.alloc(), &program)?, (3 + 5, End::Ends(value)));
    }
    Ok(())
}

// `for (i = 0; i < n; i++) a[i] -= 32;`
fn lowering(alloc: Global) -> Result<CheckedStmt, AllocError> {
    let zero = constant(alloc, 0)?;
    let first = part(alloc, CheckedExpr::Assign(Scalar::Int, I, zero))?;
    let left = part(alloc, CheckedExpr::Read(I))?;
    let right = part(alloc, CheckedExpr::Read(N))?;
    let test = part(alloc, CheckedExpr::Binary(IntOperator::Less, left, right))?;
    let third = part(
        alloc,
        CheckedExpr::Step(StepValue::Old, true, Scalar::Int, I),
    )?;
    let place = element(alloc, CheckedExpr::Read(I))?;
    let by = constant(alloc, 32)?;
    let change = CheckedExpr::CompoundElement(IntOperator::Subtract, Element::Char, place, by);
    let body = Shared::new(alloc, run(alloc, change)?)?;
    Ok(CheckedStmt::For(Some(first), Some(test), Some(third), body))
}

// `n = read(0, a, 8)`
fn read(alloc: Global) -> Result<CheckedExpr, AllocError> {
    let call = transfer(alloc, 0, CheckedExpr::Constant(0), CheckedExpr::Constant(8))?;
    Ok(CheckedExpr::Assign(Scalar::Int, N, part(alloc, call)?))
}

// `{ n = read(0, a, 8); ..; write(1, a, n); }`
fn turn(alloc: Global) -> Result<CheckedStmt, AllocError> {
    let mut ss = Items::new(alloc);
    ss.push(run(alloc, read(alloc)?)?)?;
    ss.push(lowering(alloc)?)?;
    let write = transfer(alloc, 1, CheckedExpr::Constant(1), CheckedExpr::Read(N))?;
    ss.push(run(alloc, write)?)?;
    Ok(CheckedStmt::Block(Shared::new(alloc, ss)?))
}

// `n > 0`
fn more(alloc: Global) -> Result<Shared<CheckedExpr>, AllocError> {
    let left = part(alloc, CheckedExpr::Read(N))?;
    let right = constant(alloc, 0)?;
    part(
        alloc,
        CheckedExpr::Binary(IntOperator::Greater, left, right),
    )
}

// `char a[8]; int n, i; do .. while (n > 0); return 3;`
fn capitals(alloc: Global) -> Result<Checked, AllocError> {
    let body = Shared::new(alloc, turn(alloc)?)?;
    let mut ss = Items::new(alloc);
    ss.push(CheckedStmt::Do(body, more(alloc)?))?;
    ss.push(CheckedStmt::Return(Some(constant(alloc, 3)?)))?;
    let array = Shape {
        element: Element::Char,
        count: 8,
    };
    let mut functions = Items::new(alloc);
    functions.push(function(alloc, &[], &[Scalar::Int, Scalar::Int], &[array], ss)?)?;
    program(alloc, functions)
}

// Whether a call of `write` has these bytes.
fn writes(call: &CCall, text: &[u8]) -> bool {
    match call.buffers.as_slice() {
        [bytes] => call.number == 16 && bytes.as_slice() == text,
        _ => false,
    }
}

// Entry 4, `do` 1, 54 for a turn with three bytes and 18 for one without, their tests 3 and 4, `return` 3.
#[test]
fn a_text_is_read_and_written_in_capitals(rt: HostRuntime) -> Result<(), Fail> {
    let program = capitals(rt.alloc())?;
    let mut globals = Objects::new(rt.alloc(), &program)?;
    let mut thread = CThread::new(rt.alloc(), &program, 0, 0)?;
    let mut calls = 0u32;
    for steps in 1..200u32 {
        match thread.step(rt.alloc(), &program, &mut globals)? {
            CStep::Next => {}
            CStep::Call(call) => {
                calls = calls.saturating_add(1);
                let value = if calls < 3 { 3 } else { 0 };
                if calls == 2 {
                    assert!(rt; writes(&call, b"ABC"));
                }
                thread.reply(rt.alloc(), &mut globals, value, b"abc", b"")?;
            }
            CStep::Ends(value) => {
                assert_eq!(rt; (steps, calls, value), (4 + 1 + 54 + 3 + 18 + 4 + 3, 4, 3));
                return Ok(());
            }
            CStep::Wrong(_) => return Err(Fail::new("wrong")),
        }
    }
    Err(Fail::new("it doesn't end"))
}

// `g(n)`, where g is the third function.
fn call_of_g(alloc: Global, n: u32) -> Result<CheckedExpr, AllocError> {
    let mut args = Items::new(alloc);
    args.push(CheckedExpr::Constant(n))?;
    Ok(CheckedExpr::Call(2, args))
}

// `f(g(1), g(2));`
fn nested_calls(alloc: Global) -> Result<Items<CheckedStmt>, AllocError> {
    let mut args = Items::new(alloc);
    args.push(call_of_g(alloc, 1)?)?;
    args.push(call_of_g(alloc, 2)?)?;
    let mut body = Items::new(alloc);
    body.push(run(alloc, CheckedExpr::Call(1, args))?)?;
    Ok(body)
}

// `int g(int n) { char a[1]; return write(n, a, 0); }`
fn writing(alloc: Global) -> Result<CheckedFunction, AllocError> {
    let call = transfer(alloc, 1, CheckedExpr::Read(N), CheckedExpr::Constant(0))?;
    let mut body = Items::new(alloc);
    body.push(CheckedStmt::Return(Some(part(alloc, call)?)))?;
    let array = Shape {
        element: Element::Char,
        count: 1,
    };
    function(alloc, &[Scalar::Int], &[], &[array], body)
}

fn nested(alloc: Global) -> Result<Checked, AllocError> {
    let mut functions = Items::new(alloc);
    functions.push(function(alloc, &[], &[], &[], nested_calls(alloc)?)?)?;
    let two = [Scalar::Int, Scalar::Int];
    functions.push(function(alloc, &two, &[], &[], Items::new(alloc))?)?;
    functions.push(writing(alloc)?)?;
    program(alloc, functions)
}

#[test]
fn arguments_are_evaluated_from_left_to_right(rt: HostRuntime) -> Result<(), Fail> {
    let program = nested(rt.alloc())?;
    let mut globals = Objects::new(rt.alloc(), &program)?;
    let mut thread = CThread::new(rt.alloc(), &program, 0, 0)?;
    let mut next = 1u32;
    for _step in 1..200u32 {
        match thread.step(rt.alloc(), &program, &mut globals)? {
            CStep::Next => {}
            CStep::Call(call) => {
                assert_eq!(rt; call.words[0], next);
                next = next.saturating_add(1);
                thread.reply(rt.alloc(), &mut globals, 0, b"", b"")?;
            }
            CStep::Ends(_) => {
                assert_eq!(rt; next, 3);
                return Ok(());
            }
            CStep::Wrong(_) => return Err(Fail::new("wrong")),
        }
    }
    Err(Fail::new("it doesn't end"))
}
