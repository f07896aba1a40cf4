use crate::replies::reply_to;
use anyhow::Result;
use nx_checked::{Checked, UsedCall};
use nx_cobjects::{Objects, WrongKind};
use nx_cthread::{CCall, CStep, CThread};
use std::alloc::Global;

/// After so many steps a thread is left.
const MOST_STEPS: u64 = 1_000_000_000;

fn name_of(kind: WrongKind) -> &'static str {
    match kind {
        WrongKind::Bounds => "bounds",
        WrongKind::Forged => "forged",
        WrongKind::Buffer => "buffer",
        WrongKind::Shared => "shared",
        WrongKind::Raw => "raw",
    }
}

fn used_call(program: &Checked, number: u16) -> Option<&UsedCall> {
    program
        .calls
        .as_slice()
        .iter()
        .find(|call| call.number == number)
}

fn print_call(rt: &impl Print, alloc: Global, used: &UsedCall, call: &CCall) -> Result<()> {
    let name = String::from_utf8_lossy(alloc, used.name.as_slice())?;
    print!(rt; "{name}")?;
    for word in call.words {
        print!(rt; " {word}")?;
    }
    for bytes in call.buffers.as_slice() {
        let digits = hex::encode(alloc, bytes.as_slice())?;
        print!(rt; " [{digits}]")?;
    }
    println!(rt;)?;
    Ok(())
}

/// Prints the calls of a program's first thread, and how it ends. Answers how many steps it took.
pub fn trace(rt: &impl Print, alloc: Global, program: &Checked) -> Result<u64> {
    let mut globals = Objects::new(alloc, program)?;
    let mut thread = CThread::new(alloc, program, program.main as usize, 0)?;
    let mut turn = 0u32;
    for step in 0..MOST_STEPS {
        match thread.step(alloc, program, &mut globals)? {
            CStep::Next => {}
            CStep::Call(call) => {
                let Some(used) = used_call(program, call.number) else {
                    println!(rt; "a call without a row")?;
                    return Ok(step);
                };
                print_call(rt, alloc, used, &call)?;
                let reply = reply_to(alloc, turn, used.kinds.as_slice(), &call.words)?;
                thread.reply(
                    alloc,
                    &mut globals,
                    reply.value,
                    reply.first.as_slice(),
                    reply.second.as_slice(),
                )?;
                turn = turn.wrapping_add(1);
            }
            CStep::Ends(value) => {
                println!(rt; "ends {value}")?;
                return Ok(step + 1);
            }
            CStep::Wrong(kind) => {
                println!(rt; "wrong {}", name_of(kind))?;
                return Ok(step + 1);
            }
        }
    }
    println!(rt; "goes on")?;
    Ok(MOST_STEPS)
}
