//! Lists instruction words: for each line of standard input, a word of eight hexadecimal digits, it
//! prints the word, the instruction with its fields in decimal or `none`, and the word again as the
//! instruction encodes to it.
#![tactic(auto)]

mod listing;
mod word;

use anyhow::{Context, Result};
use listing::{Listing, round_trip};
use std::io::{BufRead, BufReader};
use word::parse_word;

fn print_word(rt: &impl Print, word: u32) -> Result<()> {
    match round_trip(word) {
        None => println!(rt; "{word:08x} none")?,
        Some((inst, encoded)) => {
            let listing = Listing(inst);
            println!(rt; "{word:08x} {listing} {encoded:08x}")?;
        }
    }
    Ok(())
}

fn main(rt: HostRuntime) -> Result<()> {
    let alloc = rt.alloc();
    for line in BufReader::new(alloc, rt.reader())?.lines(alloc) {
        let line = line?;
        let text = line.as_str();
        let word = parse_word(text).context(format_args!("reading {text:?}"))?;
        print_word(&rt, word)?;
    }
    Ok(())
}
