//! Says of each C text in standard input what the front of C says: it prints `accepted`, or the
//! line of the text's first fault and what is wrong there. A line `====` ends a text. The first
//! text is the call table by which the others are checked.
#![tactic(auto)]

mod answer;

use answer::verdict;
use anyhow::{Context, Result, bail};
use nx_calls::{CallRow, Calls, read_calls};
use nx_config::read_config;
use std::alloc::Global;
use std::io::{BufRead, BufReader};

/// What ends a text.
const BORDER: &str = "====";

/// How many bytes a text has at most.
const MOST_BYTES: usize = 1_048_576;

fn call_table(alloc: Global, text: &str) -> Result<Calls> {
    if text.len() > MOST_BYTES {
        bail!("the call table is too long");
    }
    let config = read_config(alloc, b"".as_slice()).context("there is no configuration")?;
    read_calls(alloc, text.as_bytes(), &config).context("the call table has no reading")
}

fn print_verdict(rt: &impl Print, alloc: Global, rows: &[CallRow], text: &str) -> Result<()> {
    match verdict(alloc, rows, text.as_bytes()).context("a text is too long")? {
        Ok(_) => println!(rt; "accepted")?,
        Err(fault) => println!(rt; "{fault}")?,
    }
    Ok(())
}

fn main(rt: HostRuntime) -> Result<()> {
    let alloc = rt.alloc();
    let mut table = None;
    let mut text = String::new(alloc);
    for line in BufReader::new(alloc, rt.reader())?.lines(alloc) {
        let line = line?;
        if line.as_str() != BORDER {
            text.push_str(line.as_str())?;
            text.push('\n')?;
            continue;
        }
        match &table {
            None => table = Some(call_table(alloc, text.as_str())?),
            Some(calls) => print_verdict(&rt, alloc, calls.rows(), text.as_str())?,
        }
        text = String::new(alloc);
    }
    Ok(())
}
