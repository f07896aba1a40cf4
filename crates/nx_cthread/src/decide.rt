ghost use Rattle.std.specs.Prelude.{◌≡◌, [], OnOk, option_map};
ghost use Rattle.nx_checked.specs.Trees.{program_of, expr_of, stmt_of};
ghost use Rattle.nx_cmean.specs.Items.{Enter, AndThen, OrElse, Choose, Test, TestLoop};
ghost use Rattle.nx_cmean.specs.Meaning.{decided_frame, decide, decided, stays, opened_with, with_values, all_kept, fun_at};
ghost use Rattle.nx_cmean.specs.Shape.{item_of, items_of};
ghost use Rattle.nx_cthread.specs.Threads.{frame_of, frames_of};

use crate::entry::{Frame, keep_args, open, take_args};
use nx_checked::{Checked, CheckedExpr, CheckedStmt};
use nx_cmean::{Item, Stack, another_option, put_expr, put_option};
use nx_cobjects::{Prefix, Value};
use nx_shared::Shared;
use std::alloc::{AllocError, Global};

fn and_then(frame: &mut Frame, b: Shared<CheckedExpr>) -> Result<(), AllocError>
    ensures { OnOk result (frame_of frame.new ≡ decided_frame (frame_of frame.old) (AndThen (expr_of b))) }
{
    match frame.values.pop() {
        None => frame.todo.push(Item::AndThen(b)),
        Some(v) => match v {
            Value::Int(n) => {
                if n == 0 {
                    frame.values.push(v)?;
                    frame.todo.push(Item::Alter(Prefix::Truth))
                } else {
                    frame.todo.push(Item::Alter(Prefix::Truth))?;
                    put_expr(&mut frame.todo, b.get())
                }
            }
            Value::Point(_, _) | Value::Forged(_) | Value::Entry(_) => {
                frame.values.push(v)?;
                frame.todo.push(Item::AndThen(b))
            }
        },
    }
}

fn or_else(frame: &mut Frame, b: Shared<CheckedExpr>) -> Result<(), AllocError>
    ensures { OnOk result (frame_of frame.new ≡ decided_frame (frame_of frame.old) (OrElse (expr_of b))) }
{
    match frame.values.pop() {
        None => frame.todo.push(Item::OrElse(b)),
        Some(v) => match v {
            Value::Int(n) => {
                if n == 0 {
                    frame.todo.push(Item::Alter(Prefix::Truth))?;
                    put_expr(&mut frame.todo, b.get())
                } else {
                    frame.values.push(v)?;
                    frame.todo.push(Item::Alter(Prefix::Truth))
                }
            }
            Value::Point(_, _) | Value::Forged(_) | Value::Entry(_) => {
                frame.values.push(v)?;
                frame.todo.push(Item::OrElse(b))
            }
        },
    }
}

fn choose(
    frame: &mut Frame,
    a: Shared<CheckedExpr>,
    b: Shared<CheckedExpr>,
) -> Result<(), AllocError>
    ensures { OnOk result (frame_of frame.new ≡ decided_frame (frame_of frame.old) (Choose (expr_of a) (expr_of b))) }
{
    match frame.values.pop() {
        None => frame.todo.push(Item::Choose(a, b)),
        Some(v) => match v {
            Value::Int(n) => {
                frame.todo.push(Item::Chosen)?;
                if n == 0 {
                    put_expr(&mut frame.todo, b.get())
                } else {
                    put_expr(&mut frame.todo, a.get())
                }
            }
            Value::Point(_, _) | Value::Forged(_) | Value::Entry(_) => {
                frame.values.push(v)?;
                frame.todo.push(Item::Choose(a, b))
            }
        },
    }
}

fn test(
    frame: &mut Frame,
    a: Shared<CheckedStmt>,
    b: Option<Shared<CheckedStmt>>,
) -> Result<(), AllocError>
    ensures { OnOk result (frame_of frame.new ≡ decided_frame (frame_of frame.old) (Test (stmt_of a) (option_map stmt_of b))) }
{
    match frame.values.pop() {
        None => frame.todo.push(Item::Test(a, b)),
        Some(v) => match v {
            Value::Int(n) => {
                if n == 0 {
                    match b {
                        None => Ok(()),
                        Some(b) => frame.todo.push(Item::Exec(b)),
                    }
                } else {
                    frame.todo.push(Item::Exec(a))
                }
            }
            Value::Point(_, _) | Value::Forged(_) | Value::Entry(_) => {
                frame.values.push(v)?;
                frame.todo.push(Item::Test(a, b))
            }
        },
    }
}

fn test_loop(
    frame: &mut Frame,
    c: Shared<CheckedExpr>,
    t: Option<Shared<CheckedExpr>>,
    s: Shared<CheckedStmt>,
) -> Result<(), AllocError>
    ensures { OnOk result (frame_of frame.new ≡ decided_frame (frame_of frame.old) (TestLoop (expr_of c) (option_map expr_of t) (stmt_of s))) }
{
    match frame.values.pop() {
        None => frame.todo.push(Item::TestLoop(c, t, s)),
        Some(v) => match v {
            Value::Int(n) => {
                if n == 0 {
                    Ok(())
                } else {
                    let body = s.another()?;
                    frame.todo.push(Item::Turn(Some(c), t, s))?;
                    frame.todo.push(Item::Exec(body))
                }
            }
            Value::Point(_, _) | Value::Forged(_) | Value::Entry(_) => {
                frame.values.push(v)?;
                frame.todo.push(Item::TestLoop(c, t, s))
            }
        },
    }
}

// A decision within a call.
fn decide_frame(frame: &mut Frame, item: Item) -> Result<(), AllocError>
    ensures { OnOk result (frame_of frame.new ≡ decided_frame (frame_of frame.old) (item_of item)) }
{
    match item {
        Item::AndThen(b) => and_then(frame, b),
        Item::OrElse(b) => or_else(frame, b),
        Item::Choose(a, b) => choose(frame, a, b),
        Item::Forget => match frame.values.pop() {
            None => frame.todo.push(Item::Forget),
            Some(_) => Ok(()),
        },
        Item::Test(a, b) => test(frame, a, b),
        Item::FirstTest(c, s) => {
            let test = c.another()?;
            frame.todo.push(Item::TestLoop(c, None, s))?;
            put_expr(&mut frame.todo, test.get())
        }
        Item::TestLoop(c, t, s) => test_loop(frame, c, t, s),
        Item::Turn(c, t, s) => {
            let third = another_option(&t)?;
            frame.todo.push(Item::Again(c, t, s))?;
            put_option(&mut frame.todo, &third)
        }
        other => frame.todo.push(other),
    }
}

// A call of a function begins, or stays where an argument isn't what its parameter can keep.
fn enter_with(
    alloc: Global,
    program: &Checked,
    names: u32,
    frames: &mut Stack<Frame>,
    mut frame: Frame,
    function: u32,
    count: usize,
    args: &[Value],
) -> Result<(), AllocError>
    ensures { OnOk result (frames_of frames.new ≡ opened_with (program_of program.now) function names (frame_of frame) (frames_of frames.old) (stays (with_values (frame_of frame) []) (Enter function count)) (all_kept [] (fun_at (program_of program.now) function).params args.now)) }
{
    let mut params = Vec::new(alloc);
    match keep_args(program, function, &mut params, args)? {
        Some(_) => {
            frame.values = Stack::new(alloc);
            frame.todo.push(Item::Enter(function, count))?;
            frames.push(frame)
        }
        None => {
            frames.push(frame)?;
            frames.push(open(alloc, program, function, names, params)?)
        }
    }
}

fn enter(
    alloc: Global,
    program: &Checked,
    names: usize,
    frames: &mut Stack<Frame>,
    mut frame: Frame,
    function: u32,
    count: usize,
) -> Result<(), AllocError>
    ensures { OnOk result (frames_of frames.new ≡ decide (program_of program.now) names (frames_of frames.old) (frame_of frame) (Enter function count)) }
{
    let Ok(names) = u32::try_from(names) else {
        return Err(AllocError);
    };
    match take_args(alloc, &mut frame.values, count)? {
        None => {
            frame.todo.push(Item::Enter(function, count))?;
            frames.push(frame)
        }
        Some(args) => enter_with(alloc, program, names, frames, frame, function, count, &args),
    }
}

fn decide_item(
    alloc: Global,
    program: &Checked,
    names: usize,
    frames: &mut Stack<Frame>,
    mut frame: Frame,
    item: Item,
) -> Result<(), AllocError>
    ensures { OnOk result (frames_of frames.new ≡ decide (program_of program.now) names (frames_of frames.old) (frame_of frame) (item_of item)) }
{
    match item {
        Item::Enter(function, count) => {
            enter(alloc, program, names, frames, frame, function, count)
        }
        other => {
            decide_frame(&mut frame, other)?;
            frames.push(frame)
        }
    }
}

/// The item that stands first decides, if it is a decision. `names` is how many arrays the thread has made.
pub fn decide(
    alloc: Global,
    program: &Checked,
    names: usize,
    frames: &mut Stack<Frame>,
) -> Result<(), AllocError>
    ensures { OnOk result (frames_of frames.new ≡ decided (program_of program.now) names (frames_of frames.old)) }
{
    match frames.pop() {
        None => Ok(()),
        Some(mut frame) => match frame.todo.pop() {
            None => frames.push(frame),
            Some(item) => decide_item(alloc, program, names, frames, frame, item),
        },
    }
}
