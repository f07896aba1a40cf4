//! Answers questions about the protection of memory. Each line of standard input is a request, with
//! its numbers in decimal: `entry PLACE CFG ADDR` sets an entry of PMP, `allows AT LEN ACCESS MODE`
//! prints `yes` or `no`; `memory BYTES` makes a RAM of zeros, `word PLACE VALUE` stores a word in it,
//! `walk SATP AT ACCESS` prints the physical address or `fault`.
#![tactic(auto)]

mod answers;
mod request;

use answers::{allowed, set_entry, store_word, translated};
use anyhow::{Context, Result};
use nx_base::OutOfMemory;
use nx_pmp::{Pmp, PmpEntry};
use nx_ram::Ram;
use request::{Request, parse_request};
use std::alloc::Global;
use std::io::{BufRead, BufReader};

/// The entries and the RAM that the questions are about.
#[derive(Drop)]
struct Board {
    pmp: Pmp,
    ram: Ram,
}

impl Board {
    fn new(alloc: Global) -> Result<Board, OutOfMemory> {
        let off = PmpEntry { cfg: 0, addr: 0 };
        let ram = Ram::new(alloc, 0)?;
        Ok(Board {
            pmp: Pmp { entries: [off; 16] },
            ram,
        })
    }
}

fn respond(rt: &impl Print, alloc: Global, board: &mut Board, request: Request) -> Result<()> {
    match request {
        Request::Entry { place, entry } => {
            set_entry(&mut board.pmp, place, entry).context("no such entry")?;
        }
        Request::Allows(question) => {
            let answer = allowed(&board.pmp, question).context("no such access")?;
            println!(rt; "{}", if answer { "yes" } else { "no" })?;
        }
        Request::Memory(bytes) => board.ram = Ram::new(alloc, bytes)?,
        Request::Word { place, value } => {
            store_word(&mut board.ram, place, value).context("no such place")?;
        }
        Request::Walk { satp, at, access } => {
            match translated(&board.ram, satp, at, access).context("too large a RAM")? {
                Ok(to) => println!(rt; "{to}")?,
                Err(_) => println!(rt; "fault")?,
            }
        }
    }
    Ok(())
}

fn main(rt: HostRuntime) -> Result<()> {
    let alloc = rt.alloc();
    let mut board = Board::new(alloc)?;
    for line in BufReader::new(alloc, rt.reader())?.lines(alloc) {
        let line = line?;
        let text = line.as_str();
        let request = parse_request(text).context(format_args!("reading {text:?}"))?;
        respond(&rt, alloc, &mut board, request)?;
    }
    Ok(())
}
