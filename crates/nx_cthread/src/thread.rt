ghost use Rattle.std.specs.Prelude.{◌≡◌, ◌∷◌, [], IfOk, OnOk};
ghost use Rattle.nx_base.specs.Arithmetic.{word_of};
ghost use Rattle.nx_checked.specs.Trees.{program_of, fun_of};
ghost use Rattle.nx_cobjects.specs.Memory.{memory};
ghost use Rattle.nx_cmean.specs.Meaning.{step, first_thread, first_args, settled, decided, replied_memory, replied_thread, given, fun_at, thread};
ghost use Rattle.nx_cthread.specs.CThreads.{thread_of};
ghost use Rattle.nx_cthread.specs.Threads.{answer_of, frames_of};

use crate::decide::decide;
use crate::entry::{Frame, open};
use crate::step::take_turn;
use nx_base::{Bytes, OutOfMemory};
use nx_checked::Checked;
use nx_cmean::Stack;
use nx_cobjects::{Object, Objects, Value, WrongKind, put_replies};
use sqlite_items::Items;
use std::alloc::{AllocError, Global};

/// A call of the kernel.
#[derive(Drop)]
pub struct CCall {
    /// Its number in the call table.
    pub number: u16,
    /// Its parameters: a number as 32 bits, a function by its place, 0 for a pointer. Words past the parameters are 0.
    pub words: [u32; 6],
    /// The bytes that go with it, in the order of its parameters: of a buffer the first, at most 4,096, and of a text
    /// those before its zero byte.
    pub buffers: Items<Bytes>,
}

/// What a step answers.
#[derive(Drop)]
pub enum CStep {
    /// The thread goes on.
    Next,
    /// It makes this call, and waits for its reply.
    Call(CCall),
    /// Its first function has ended, with this value.
    Ends(i32),
    /// It does something that has no meaning.
    Wrong(WrongKind),
}

/// A thread of a checked program. It has no addresses. Contracts see it by `thread_of`: its own objects, its open calls,
/// and where the outputs of the call are put for whose reply it waits.
#[derive(Drop)]
pub struct CThread {
    own: Vec<Object>,
    frames: Stack<Frame>,
    outputs: Items<Value>,
}

// The arguments of a thread's first function: a main function has no parameter.
fn first_values(
    alloc: Global,
    program: &Checked,
    entry: usize,
    arg: i32,
) -> Result<Vec<Value>, AllocError>
    ensures { IfOk result (λ vs. vs.items ≡ first_args (fun_at (program_of program.now) entry).params (word_of arg)) }
{
    match program.functions.as_slice().get(entry) {
        None => Ok(Vec::new(alloc)),
        Some(f) => {
            if f.params.is_empty() {
                Ok(Vec::new(alloc))
            } else {
                Ok(vec![in alloc; Value::Int(arg.cast_unsigned())]?)
            }
        }
    }
}

impl CThread {
    /// A thread that begins with the function at `entry`: the main function, or a function `int f(int)`, whose argument
    /// is `arg`.
    pub fn new(
        alloc: Global,
        program: &Checked,
        entry: usize,
        arg: i32,
    ) -> Result<CThread, OutOfMemory>
        ensures { IfOk result (λ t. thread_of t ≡ first_thread (program_of program.now) entry (word_of arg)) }
    {
        let Ok(function) = u32::try_from(entry) else {
            return Err(OutOfMemory);
        };
        let args = first_values(alloc, program, entry, arg)?;
        let frame = open(alloc, program, function, 0, args)?;
        let mut frames = Stack::new(alloc);
        frames.push(frame)?;
        Ok(CThread {
            own: Vec::new(alloc),
            frames,
            outputs: Items::new(alloc),
        })
    }

    /// One step. After `Err` the thread isn't used again.
    pub fn step(
        &mut self,
        alloc: Global,
        program: &Checked,
        globals: &mut Objects,
    ) -> Result<CStep, OutOfMemory>
        ensures { IfOk result (λ s. answer_of s globals.new (thread_of self.new) ≡ step (program_of program.now) globals.old (thread_of self.old)) }
    {
        self.outputs = Items::new(alloc);
        let names = self.own.len();
        decide(alloc, program, names, &mut self.frames)?;
        decide(alloc, program, names, &mut self.frames)?;
        decide(alloc, program, names, &mut self.frames)?;
        let answer = take_turn(
            alloc,
            program,
            globals,
            &mut self.own,
            &mut self.frames,
            &mut self.outputs,
        )?;
        Ok(answer)
    }

    /// The reply to the call that the thread waits for: its value, and the bytes of its first and second output. After
    /// `Err` the thread isn't used again.
    pub fn reply(
        &mut self,
        alloc: Global,
        globals: &mut Objects,
        value: i32,
        first: &[u8],
        second: &[u8],
    ) -> Result<(), OutOfMemory>
        ensures globals { OnOk result (globals.new ≡ (replied_memory globals.old (thread_of self.old) first.now second.now).group) }
        ensures thread { OnOk result (thread_of self.new ≡ replied_thread globals.old (thread_of self.old) (word_of value) first.now second.now) }
    {
        put_replies(
            globals,
            &mut self.own,
            self.outputs.as_slice(),
            first,
            second,
        );
        self.outputs = Items::new(alloc);
        give(&mut self.frames, Value::Int(value.cast_unsigned()))?;
        Ok(())
    }
}

// A value comes to the call that waits for it.
fn give(frames: &mut Stack<Frame>, value: Value) -> Result<(), AllocError>
    ensures { OnOk result (frames_of frames.new ≡ given (frames_of frames.old) value) }
{
    match frames.pop() {
        None => Ok(()),
        Some(mut frame) => {
            frame.values.push(value)?;
            frames.push(frame)
        }
    }
}
