ghost use Rattle.std.specs.Prelude.{◌≡◌, ◌≤◌, ◌++◌, [], List, ℕ, map, length, All, IfOk, IsSome, true};
ghost use Rattle.std.specs.List.{flat_map};
ghost use Rattle.nx_outside.specs.Outside.{Told};
ghost use Rattle.nx_top.specs.Answers.{status_of, text_of};
ghost use Rattle.nx_top.specs.CommandLine.{HasName, command_of, files_of, stops_at_long};
ghost use Rattle.nx_top.specs.FilesRead.{IsShort};
ghost use Rattle.nx_top.specs.Promises.{ContentsComeTo, Follows, IsCaused, Ends, EveryCommand, OfGates, OfRun, top_call};
ghost use Rattle.nx_top.specs.Refusals.{refusal, fault_text};

use crate::answer::{Answer, stopped};
use crate::command_line::{CommandWords, form};
use crate::commands::gates::list_gates;
use crate::commands::run::run_program;
use crate::output::put_all;
use crate::reading::read_files;
use crate::refusal::{FileFault, refusal_line};
use nx_base::{Bytes, OutOfMemory};
use nx_outside::{Files, Sink};
use std::alloc::Global;

const USAGE: u8 = 2;

const NO_READING: u8 = 3;

const CANNOT_READ: u8 = 9;

const TOO_LONG: u8 = 10;

const PUT_FAILED: u8 = 11;

const NO_MEMORY: u8 = 12;

const NOT_BUILT: u8 = 13;

// What the contents of a command's files come to: one arm for each command.
fn examine(
    alloc: Global,
    command: &CommandWords<'_>,
    contents: &[Option<Bytes>],
) -> Result<Answer, OutOfMemory>
    requires name { HasName (command_of command.now) }
    requires each { length contents.now ≡ length (files_of (command_of command.now)) }
    requires short { All IsShort contents.now }
    requires go_on { stops_at_long (command_of command.now) ≡ true → All IsSome contents.now }
    ensures { IfOk result (ContentsComeTo (command_of command.now) contents.now) }
{
    match command {
        CommandWords::Run(form) => run_program(alloc, form, contents),
        CommandWords::Gates(form) => list_gates(alloc, form, contents),
    }
}

// Reads the files of a command, and examines them.
fn follow<F: Files>(
    alloc: Global,
    command: &CommandWords<'_>,
    files: &mut F,
) -> Result<Answer, OutOfMemory>
    requires { HasName (command_of command.now) }
    ensures { IfOk result (Follows (command_of command.now) (F.told files.old) (F.told files.new) (F.faults files.old) (F.faults files.new)) }
{
    let names = command.files(alloc)?;
    match read_files(alloc, names.as_slice(), command.stops_at_long(), files) {
        Ok(contents) => examine(alloc, command, contents.as_slice()),
        Err(stop) => stopped(alloc, stop),
    }
}

// The answer to the words of a command line.
fn answer_to<F: Files>(alloc: Global, words: &[&str], files: &mut F) -> Result<Answer, OutOfMemory>
    ensures { IfOk result (IsCaused (map (λ w. w.now) words.now) (F.told files.old) (F.told files.new) (F.faults files.old) (F.faults files.new)) }
{
    match form(words) {
        None => Ok(Answer::Usage),
        Some(command) => follow(alloc, &command, files),
    }
}

fn put_pieces<S: Sink>(out: &mut S, status: u8, pieces: &[Bytes]) -> u8
    ensures { Ends result status (flat_map (λ p. p) pieces.now) (S.told out.old) (S.told out.new) (S.faults out.old) (S.faults out.new) }
{
    match put_all(out, pieces) {
        Ok(()) => status,
        Err(_) => PUT_FAILED,
    }
}

fn put_line<S: Sink>(out: &mut S, status: u8, line: Bytes) -> u8
    ensures { Ends result status line (S.told out.old) (S.told out.new) (S.faults out.old) (S.faults out.new) }
{
    put_pieces(out, status, &[line])
}

fn put_refusal<S: Sink>(alloc: Global, out: &mut S, status: u8, what: &[u8], name: &[u8]) -> u8
    ensures { Ends result status (refusal (what.now ++ name.now)) (S.told out.old) (S.told out.new) (S.faults out.old) (S.faults out.new) }
{
    match refusal_line(alloc, what, name) {
        Ok(line) => put_line(out, status, line),
        Err(_) => NO_MEMORY,
    }
}

fn put_fault<S: Sink>(alloc: Global, out: &mut S, fault: &FileFault) -> u8
    ensures { Ends result 3 (refusal (fault_text fault.now)) (S.told out.old) (S.told out.new) (S.faults out.old) (S.faults out.new) }
{
    match fault.line_and_kind(alloc) {
        Ok(line_and_kind) => put_refusal(
            alloc,
            out,
            NO_READING,
            fault.file.as_slice(),
            line_and_kind.as_slice(),
        ),
        Err(_) => NO_MEMORY,
    }
}

fn put_answer<S: Sink>(alloc: Global, out: &mut S, answer: &Answer) -> u8
    ensures { Ends result (status_of answer.now) (text_of answer.now) (S.told out.old) (S.told out.new) (S.faults out.old) (S.faults out.new) }
{
    match answer {
        Answer::Usage => put_refusal(alloc, out, USAGE, b"usage", b""),
        Answer::CannotRead(file) => {
            put_refusal(alloc, out, CANNOT_READ, b"cannot read ", file.as_slice())
        }
        Answer::TooLong(file) => put_refusal(alloc, out, TOO_LONG, b"too long ", file.as_slice()),
        Answer::Faulty(fault) => put_fault(alloc, out, fault),
        Answer::NotBuilt(file) => {
            put_refusal(alloc, out, NOT_BUILT, b"not built ", file.as_slice())
        }
        Answer::Done { status, pieces } => put_pieces(out, *status, pieces.as_slice()),
    }
}

/// The top call. It reads the files that the words name, does what the command is for, and puts
/// what it came to in pieces, which are all made before the first is put. A refusal is one line.
///
/// It answers the status of the command, or 2 where the words have no form, 3 where a file has no
/// reading, 9 where a file can't be read, 10 where a file is too long, 13 where a file of a run has
/// not the form that is built so far, 11 in place of any of these where a put failed, and 12 where
/// memory ran out before the first put.
pub fn nxsim<F: Files, S: Sink>(alloc: Global, words: &[&str], files: &mut F, out: &mut S) -> u8
    ensures every_command { EveryCommand (top_call (map (λ w. w.now) words.now) result (F.told files.old) (F.told files.new) (F.faults files.old) (F.faults files.new) (S.told out.old) (S.told out.new) (S.faults out.old) (S.faults out.new)) }
    ensures run { OfRun (top_call (map (λ w. w.now) words.now) result (F.told files.old) (F.told files.new) (F.faults files.old) (F.faults files.new) (S.told out.old) (S.told out.new) (S.faults out.old) (S.faults out.new)) }
    ensures gates { OfGates (top_call (map (λ w. w.now) words.now) result (F.told files.old) (F.told files.new) (F.faults files.old) (F.faults files.new) (S.told out.old) (S.told out.new) (S.faults out.old) (S.faults out.new)) }
{
    match answer_to(alloc, words, files) {
        Ok(answer) => put_answer(alloc, out, &answer),
        Err(_) => NO_MEMORY,
    }
}
