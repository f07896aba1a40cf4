ghost use Rattle.std.specs.Prelude.{◌≡◌, ◌≤◌, [], ◌∷◌, length, IfOk, map, Some, All, IsSome};
ghost use Rattle.nx_gate.specs.Gates.{gate_of, listing_of};
ghost use Rattle.nx_top.specs.CommandLine.{Gates, gates_form_of};
ghost use Rattle.nx_top.specs.FilesRead.{IsShort};
ghost use Rattle.nx_top.specs.Promises.{ContentsComeTo};

use crate::answer::Answer;
use crate::command_line::GatesWords;
use crate::pieces::Pieces;
use crate::refusal::{FaultKind, FileFault};
use nx_base::{Bytes, OutOfMemory};
use nx_calls::{Calls, CallsFault, read_calls};
use nx_config::{ConfigFault, read_config};
use nx_gate::{listing, plan};
use std::alloc::Global;

fn faulty(alloc: Global, file: &str, line: u32, kind: FaultKind) -> Result<Answer, OutOfMemory>
    ensures { IfOk result (λ a. a ≡ Answer.Faulty (record { file = file.now; line = line; kind = kind })) }
{
    let file = Bytes::from_slice(alloc, file.as_bytes())?;
    Ok(Answer::Faulty(FileFault { file, line, kind }))
}

fn listed(alloc: Global, calls: &Calls) -> Result<Answer, OutOfMemory>
    ensures { IfOk result (λ a. a ≡ Answer.Done 0 (listing_of (map gate_of calls.now) ∷ [])) }
{
    let gates = plan(alloc, calls)?;
    let mut pieces = Pieces::new(alloc);
    pieces.push(listing(alloc, &gates)?)?;
    Ok(Answer::Done { status: 0, pieces })
}

// Reads a configuration and a call table, and lists the gates of its rows.
fn list_texts(
    alloc: Global,
    form: &GatesWords<'_>,
    config: &[u8],
    calls: &[u8],
) -> Result<Answer, OutOfMemory>
    requires config { length config.now ≤ 1048576 }
    requires calls { length calls.now ≤ 1048576 }
    ensures { IfOk result (λ a. ContentsComeTo (Gates (gates_form_of form.now)) (Some config.now ∷ Some calls.now ∷ []) a) }
{
    let config = match read_config(alloc, config) {
        Ok(config) => config,
        Err(ConfigFault::Memory) => return Err(OutOfMemory),
        Err(ConfigFault::Text { line, kind }) => {
            return faulty(alloc, form.config, line, FaultKind::Config(kind));
        }
    };
    match read_calls(alloc, calls, &config) {
        Ok(calls) => listed(alloc, &calls),
        Err(CallsFault::Memory) => Err(OutOfMemory),
        Err(CallsFault::Text { row, kind }) => {
            faulty(alloc, form.calls, row, FaultKind::Calls(kind))
        }
    }
}

/// Lists the gates of a call table under a configuration.
pub fn list_gates(
    alloc: Global,
    form: &GatesWords<'_>,
    contents: &[Option<Bytes>],
) -> Result<Answer, OutOfMemory>
    requires two { length contents.now ≡ 2 }
    requires short { All IsShort contents.now }
    requires all { All IsSome contents.now }
    ensures { IfOk result (ContentsComeTo (Gates (gates_form_of form.now)) contents.now) }
{
    match contents {
        [Some(config), Some(calls)] => {
            list_texts(alloc, form, config.as_slice(), calls.as_slice())
        }
        _ => unreachable!(),
    }
}
