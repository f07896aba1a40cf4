ghost use Rattle.std.specs.Prelude.{◌≡◌, ◌↔◌, ◌≤◌, [], ◌∷◌, length, All, IsTrue, IfOk, MatchOption};
ghost use Rattle.nx_top.specs.CommandLine.{Run, run_form_of};
ghost use Rattle.nx_top.specs.Promises.{ContentsComeTo};
ghost use Rattle.nx_top.specs.commands.RunCommand.{IsReportAnswer};
ghost use Rattle.nx_top.specs.first.Inputs.{IsConfig, IsCalls, IsScript, HasProgram};
ghost use Rattle.nx_top.specs.first.Program.{Program};

use crate::answer::{Answer, not_built};
use crate::command_line::RunWords;
use crate::first::inputs::{is_calls, is_config, is_script};
use crate::first::program::{WriteProgram, read_program};
use crate::first::run_program::report_of;
use nx_base::{Bytes, OutOfMemory};
use std::alloc::Global;

fn has_config(content: &Option<Bytes>) -> bool
    ensures { IsTrue result ↔ IsConfig content.now }
{
    match content {
        Some(bytes) => is_config(bytes.as_slice()),
        None => false,
    }
}

fn has_calls(content: &Option<Bytes>) -> bool
    ensures { IsTrue result ↔ IsCalls content.now }
{
    match content {
        Some(bytes) => is_calls(bytes.as_slice()),
        None => false,
    }
}

fn has_script(name: &str, content: &Option<Bytes>) -> bool
    ensures { IsTrue result ↔ IsScript name.now content.now }
{
    match content {
        Some(bytes) => is_script(name.as_bytes(), bytes.as_slice()),
        None => false,
    }
}

fn program_of(alloc: Global, content: &Option<Bytes>) -> Result<Option<WriteProgram>, OutOfMemory>
    ensures { IfOk result (λ o. MatchOption o ((p : Program) → ¬ HasProgram content.now p) (λ p. HasProgram content.now p)) }
{
    match content {
        Some(bytes) => Ok(read_program(alloc, bytes.as_slice())?),
        None => Ok(None),
    }
}

// Builds a program, runs it, and answers its report.
fn report_answer(alloc: Global, name: &str, program: &WriteProgram) -> Result<Answer, OutOfMemory>
    requires name { length name.now ≤ 32 }
    requires few { length program.now.writes ≤ 16 }
    requires short { All (λ s. length s ≤ 255) program.now.writes }
    ensures { IfOk result (IsReportAnswer name.now program.now) }
{
    let report = report_of(alloc, name, program)?;
    Ok(Answer::Done {
        status: report.stop.status(),
        pieces: report.pieces(alloc)?,
    })
}

// Examines the files of a run in the order config, calls, program, script, and runs the program.
fn run_files(
    alloc: Global,
    form: &RunWords<'_>,
    config: &Option<Bytes>,
    calls: &Option<Bytes>,
    script: &Option<Bytes>,
    program: &Option<Bytes>,
) -> Result<Answer, OutOfMemory>
    requires { length form.now.name.now ≤ 32 }
    ensures { IfOk result (λ a. ContentsComeTo (Run (run_form_of form.now)) (config.now ∷ calls.now ∷ script.now ∷ program.now ∷ []) a) }
{
    if !has_config(config) {
        return not_built(alloc, form.config);
    }
    if !has_calls(calls) {
        return not_built(alloc, form.calls);
    }
    match program_of(alloc, program)? {
        None => not_built(alloc, form.file),
        Some(program) => {
            if !has_script(form.name, script) {
                return not_built(alloc, form.script);
            }
            report_answer(alloc, form.name, &program)
        }
    }
}

/// Runs the program of a run's files, or refuses the first that has not the form that is built so
/// far, in the order config, calls, program, script.
pub fn run_program(
    alloc: Global,
    form: &RunWords<'_>,
    contents: &[Option<Bytes>],
) -> Result<Answer, OutOfMemory>
    requires four { length contents.now ≡ 4 }
    requires name { length form.now.name.now ≤ 32 }
    ensures { IfOk result (ContentsComeTo (Run (run_form_of form.now)) contents.now) }
{
    match contents {
        [config, calls, script, program] => {
            run_files(alloc, form, config, calls, script, program)
        }
        _ => unreachable!(),
    }
}
