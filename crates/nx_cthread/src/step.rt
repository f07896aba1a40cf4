ghost use Rattle.std.specs.Prelude.{◌≡◌, ◌∷◌, [], IfOk, Ok, Err, slice_get, Some, None};
ghost use Rattle.nx_base.specs.Arithmetic.{signed};
ghost use Rattle.nx_checked.specs.Trees.{program_of};
ghost use Rattle.nx_cobjects.specs.Memory.{memory};
ghost use Rattle.nx_cmean.specs.Items.{Ask};
ghost use Rattle.nx_cmean.specs.Meaning.{act, asked, left, turn, thread, on_call, goes_on, stored};
ghost use Rattle.nx_cmean.specs.Shape.{item_of, items_of};
ghost use Rattle.nx_cthread.specs.Threads.{frame_of, frames_of, answer_of};

use crate::entry::{Frame, take_args};
use crate::store::change;
use crate::thread::{CCall, CStep};
use nx_checked::{Checked, UsedCall};
use nx_cmean::{Item, Stack};
use nx_cobjects::{Object, Objects, Value, WrongKind, end_arrays, inputs, number, outputs, words};
use sqlite_items::Items;
use std::alloc::{AllocError, Global};

// A call of the kernel.
fn ask_call(
    alloc: Global,
    group: &Objects,
    own: &[Object],
    frames: &mut Stack<Frame>,
    waiting: &mut Items<Value>,
    frame: Frame,
    args: &[Value],
    c: &UsedCall,
) -> Result<CStep, AllocError>
    requires { waiting.old ≡ [] }
    ensures { IfOk result (λ s. answer_of s group.now (thread own.now (frames_of frames.new) waiting.new) ≡ asked (memory group.now own.now) (frames_of frames.old) (frame_of frame) args.now (frame_of frame).values c.now) }
{
    match inputs(alloc, group, own, c, args)? {
        None => Ok(CStep::Wrong(WrongKind::Buffer)),
        Some(buffers) => {
            *waiting = outputs(alloc, c.kinds.as_slice(), args)?;
            frames.push(frame)?;
            Ok(CStep::Call(CCall {
                number: c.number,
                words: words(args),
                buffers,
            }))
        }
    }
}

fn ask(
    alloc: Global,
    program: &Checked,
    group: &Objects,
    own: &[Object],
    frames: &mut Stack<Frame>,
    waiting: &mut Items<Value>,
    mut frame: Frame,
    n: u32,
    count: usize,
) -> Result<CStep, AllocError>
    requires { waiting.old ≡ [] }
    ensures { IfOk result (λ s. answer_of s group.now (thread own.now (frames_of frames.new) waiting.new) ≡ act (program_of program.now) (memory group.now own.now) (frames_of frames.old) (frame_of frame) (Ask n count)) }
{
    match take_args(alloc, &mut frame.values, count)? {
        None => Ok(CStep::Wrong(WrongKind::Bounds)),
        Some(args) => match program.calls.get(n as usize) {
            None => Ok(CStep::Wrong(WrongKind::Bounds)),
            Some(c) => ask_call(alloc, group, own, frames, waiting, frame, &args, c),
        },
    }
}

// A call is over.
fn leave(
    group: &Objects,
    own: &mut [Object],
    frames: &mut Stack<Frame>,
    frame: Frame,
    value: Value,
) -> Result<CStep, AllocError>
    ensures { IfOk result (λ s. answer_of s group.now (thread own.new (frames_of frames.new) []) ≡ left (memory group.now own.old) (frame_of frame) (frames_of frames.old) value) }
{
    match frames.pop() {
        None => match number(value) {
            Err(kind) => Ok(CStep::Wrong(kind)),
            Ok(n) => Ok(CStep::Ends(n.cast_signed())),
        },
        Some(mut below) => {
            end_arrays(own, frame.from as usize, frame.arrays);
            below.values.push(value)?;
            frames.push(below)?;
            Ok(CStep::Next)
        }
    }
}

fn change_frame(
    alloc: Global,
    group: &mut Objects,
    own: &mut Vec<Object>,
    frames: &mut Stack<Frame>,
    mut frame: Frame,
    item: Item,
) -> Result<CStep, AllocError>
    ensures { IfOk result (λ s. answer_of s group.new (thread own.new.items (frames_of frames.new) []) ≡ goes_on (frames_of frames.old) (stored (memory group.old own.old.items) (frame_of frame) (item_of item))) }
{
    match change(alloc, group, own, &mut frame, item)? {
        Some(kind) => Ok(CStep::Wrong(kind)),
        None => {
            frames.push(frame)?;
            Ok(CStep::Next)
        }
    }
}

// An item that takes a step.
fn act_item(
    alloc: Global,
    program: &Checked,
    group: &mut Objects,
    own: &mut Vec<Object>,
    frames: &mut Stack<Frame>,
    waiting: &mut Items<Value>,
    mut frame: Frame,
    item: Item,
) -> Result<CStep, AllocError>
    requires { waiting.old ≡ [] }
    ensures { IfOk result (λ s. answer_of s group.new (thread own.new.items (frames_of frames.new) waiting.new) ≡ act (program_of program.now) (memory group.old own.old.items) (frames_of frames.old) (frame_of frame) (item_of item)) }
{
    match item {
        Item::Ask(n, count) => { ask(alloc, program, group, own, frames, waiting, frame, n, count) }
        Item::Leave => match frame.values.pop() {
            None => Ok(CStep::Wrong(WrongKind::Bounds)),
            Some(value) => leave(group, own, frames, frame, value),
        },
        Item::Fall => leave(group, own, frames, frame, Value::Int(0)),
        other => change_frame(alloc, group, own, frames, frame, other),
    }
}

/// The item that stands first takes its step.
pub fn take_turn(
    alloc: Global,
    program: &Checked,
    group: &mut Objects,
    own: &mut Vec<Object>,
    frames: &mut Stack<Frame>,
    waiting: &mut Items<Value>,
) -> Result<CStep, AllocError>
    requires { waiting.old ≡ [] }
    ensures { IfOk result (λ s. answer_of s group.new (thread own.new.items (frames_of frames.new) waiting.new) ≡ turn (program_of program.now) (memory group.old own.old.items) (frames_of frames.old)) }
{
    match frames.pop() {
        None => Ok(CStep::Wrong(WrongKind::Bounds)),
        Some(mut frame) => match frame.todo.pop() {
            None => Ok(CStep::Wrong(WrongKind::Bounds)),
            Some(item) => { act_item(alloc, program, group, own, frames, waiting, frame, item) }
        },
    }
}
