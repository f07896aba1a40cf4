//! The program: it hands its words, the host's files and its standard output to the top call.
#![tactic(auto)]

mod host_files;
mod host_reader;
mod host_sink;
#[cfg(test)]
mod tests;

use host_files::HostFiles;
use host_sink::HostSink;
use nx_top::nxsim;
use std::alloc::{AllocError, Global};
use std::process::ExitCode;
use std::{env, io};

const NO_MEMORY: u8 = 12;

// The words after the program's name.
fn words_of(
    rt: &(impl std::rt::Env + AllocGlobal),
    alloc: Global,
) -> Result<Vec<String>, AllocError> {
    let mut words = Vec::new(alloc);
    let Ok(args) = env::args(rt) else {
        return Err(AllocError);
    };
    for word in args.skip(1) {
        words.push(word)?;
    }
    Ok(words)
}

fn main(rt: HostRuntime) -> ExitCode {
    let alloc = rt.alloc();
    let Ok(words) = words_of(&rt, alloc) else {
        return ExitCode::from(NO_MEMORY);
    };
    let Ok(texts) = words
        .iter()
        .map(|word| word.as_str())
        .collect::<Vec<&str>>(alloc)
    else {
        return ExitCode::from(NO_MEMORY);
    };
    let mut files = HostFiles::new(&rt);
    let mut out = HostSink::new(io::writer(&rt));
    ExitCode::from(nxsim(alloc, &texts, &mut files, &mut out))
}
