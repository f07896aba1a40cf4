//! Runs each C text in standard input as one thread without a kernel: it prints each call with its
//! words and the bytes that go with it, and how the thread ends. A line `====` ends a text. The
//! first text is the call table. Replies are made up, by the rule in `replies`. With the argument
//! `steps` the last line is the number of steps of all texts.
#![tactic(auto)]

mod replies;
mod trace;

use anyhow::{Context, Result, bail};
use nx_calls::{CallRow, Calls, read_calls};
use nx_cfront::check_text;
use nx_config::read_config;
use std::alloc::Global;
use std::env;
use std::io::{BufRead, BufReader};
use trace::trace;

/// What ends a text.
const BORDER: &str = "====";

/// How many bytes a text has at most.
const MOST_BYTES: usize = 1_048_576;

fn call_table(alloc: Global, text: &str) -> Result<Calls> {
    if text.len() > MOST_BYTES {
        bail!("the call table is too long");
    }
    let config = read_config(alloc, b"".as_slice()).context("there is no configuration")?;
    read_calls(alloc, text.as_bytes(), &config).context("the call table has no reading")
}

/// Runs a text, and answers how many steps its thread took.
fn run(rt: &impl Print, alloc: Global, rows: &[CallRow], text: &str) -> Result<u64> {
    if text.len() > MOST_BYTES {
        bail!("a text is too long");
    }
    match check_text(alloc, rows, text.as_bytes()) {
        Ok(program) => trace(rt, alloc, &program),
        Err(fault) => {
            println!(rt; "refused {fault}")?;
            Ok(0)
        }
    }
}

fn main(rt: HostRuntime) -> Result<()> {
    let alloc = rt.alloc();
    let mut table = None;
    let mut text = String::new(alloc);
    let mut steps = 0u64;
    for line in BufReader::new(alloc, rt.reader())?.lines(alloc) {
        let line = line?;
        if line.as_str() != BORDER {
            text.push_str(line.as_str())?;
            text.push('\n')?;
            continue;
        }
        match &table {
            None => table = Some(call_table(alloc, text.as_str())?),
            Some(calls) => {
                steps = steps.saturating_add(run(&rt, alloc, calls.rows(), text.as_str())?);
            }
        }
        text = String::new(alloc);
    }
    if env::args(&rt)?.count() > 1 {
        println!(rt; "{steps} steps")?;
    }
    Ok(())
}
