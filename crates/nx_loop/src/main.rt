//! Runs a loop of instructions in a space of one layout, as many as its second argument says, and
//! prints the loop's words as a flat space has them, how many instructions were made, and a0.
//! scripts/benchmark.sh measures it.
#![tactic(auto)]

mod board;
mod turns;

ghost use Rattle.nx_space.specs.World.{IsEntered};

use anyhow::{Context, Result, bail};
use board::{Board, WORD_AT, flat_board, paged_board, protected_board};
use nx_base::Count;
use nx_machine::Machine;
use nx_space::Space;
use std::env;
use std::rt::Env;
use turns::{A0, turn_words};

const USAGE: &str = "usage: nx_loop flat|protected|paged COUNT";

/// What a run made, and where the loop's counter stood then.
#[derive(Drop)]
struct Made {
    instructions: u64,
    turns: u32,
}

fn run<S: Space + Drop>(board: Board<S>, limit: u64) -> Made
    requires { IsEntered (S.world board.space) }
{
    let mut space = board.space;
    let mut machine = Machine::new();
    machine.set(board.regs);
    let mut count = Count::new(limit);
    let _ = machine.run(&mut space, &mut count);
    Made {
        instructions: count.used(),
        turns: machine.regs().get(A0),
    }
}

fn main(rt: HostRuntime) -> Result<()> {
    let mut args = env::args(&rt)?.skip(1);
    let layout = args.next().context(USAGE)?;
    let text = args.next().context(USAGE)?;
    let limit = text.as_str().parse::<u64>().context("reading the count")?;
    print!(rt; "words")?;
    for word in &turn_words(WORD_AT) {
        print!(rt; " {word:08x}")?;
    }
    println!(rt; "")?;

    let made = match layout.as_str() {
        "flat" => run(flat_board(rt.alloc())?, limit),
        "protected" => run(protected_board(rt.alloc())?, limit),
        "paged" => run(paged_board(rt.alloc())?, limit),
        _ => bail!(USAGE),
    };
    println!(rt; "instructions {}", made.instructions)?;
    println!(rt; "a0 {}", made.turns)?;
    Ok(())
}

#[cfg(test)]
mod tests;
