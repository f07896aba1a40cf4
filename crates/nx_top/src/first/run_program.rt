// nx_build and nx_system will take its place.

ghost use Rattle.std.specs.Prelude.{◌≡◌, ◌<◌, ◌≤◌, ◌^◌, ◌∷◌, [], length, All, IfOk, codes};
ghost use Rattle.nx_top.specs.declared.report.EndedGroup.{EndedGroup};
ghost use Rattle.nx_top.specs.first.Program.{Program};
ghost use Rattle.nx_top.specs.first.IsCompiled.{FitsText, IsCompiled, IsLaidOut};
ghost use Rattle.nx_top.specs.first.ReportOf.{IsRunOf, IsReportOf};

use crate::first::boot::{Booted, boot};
use crate::first::build::build;
use crate::first::guest::{GuestRun, run_guest};
use crate::first::layout::RAM_BYTES;
use crate::first::program::WriteProgram;
use crate::first::table_gates::table_gates;
use crate::image::image_bytes;
use crate::report::{EndedGroup, Report, RunStop};
use nx_base::{Build, Bytes, OutOfMemory};
use nx_ram::ProgImage;
use std::alloc::Global;

// The shell asks for its number, starts the program, waits for it, and ends.
const SHELL_CALLS: u64 = 4;

// Boots a compiled program, and runs its words.
fn run_image(alloc: Global, image: ProgImage) -> Result<GuestRun, OutOfMemory>
    requires compiled { (p : Program) × FitsText p × IsCompiled image p }
    requires laid_out { IsLaidOut image image.name }
    ensures { IfOk result (λ run. (p : Program) → FitsText p → IsCompiled image p → IsRunOf image p run) }
{
    let Booted { mut space, regs } = boot(alloc, image, RAM_BYTES)?;
    match run_guest(alloc, regs, &mut space)? {
        Some(run) => Ok(run),
        None => unreachable!(),
    }
}

// The program, group 2, ended with a status, and the shell, group 1, with the same.
fn ended_groups(alloc: Global, name: &str, status: u8) -> Result<Vec<EndedGroup>, OutOfMemory>
    ensures { IfOk result (λ groups. groups.items ≡ record { number = 2; name = name.now; status = status } ∷ record { number = 1; name = codes "nsh"; status = status } ∷ []) }
{
    let program = EndedGroup {
        number: 2,
        name: Bytes::from_slice(alloc, name.as_bytes())?,
        status,
    };
    let shell = EndedGroup {
        number: 1,
        name: Bytes::from_slice(alloc, b"nsh")?,
        status,
    };
    let mut groups = Vec::new(alloc);
    groups.push(program)?;
    groups.push(shell)?;
    Ok(groups)
}

/// Builds a program that writes strings and returns a status, runs it, and tells what it came to.
pub fn report_of(alloc: Global, name: &str, program: &WriteProgram) -> Result<Report, OutOfMemory>
    requires name { length name.now ≤ 32 }
    requires few { length program.now.writes ≤ 16 }
    requires short { All (λ s. length s ≤ 255) program.now.writes }
    ensures { IfOk result (IsReportOf name.now program.now) }
{
    let gates = table_gates(alloc)?;
    let [gate] = gates.as_slice() else {
        unreachable!();
    };
    let image = build(alloc, name, program.writes(), program.status(), gate)?;
    let bytes = image_bytes(
        alloc,
        Build::Flat,
        RAM_BYTES,
        gates.as_slice(),
        std::slice::from_ref(&image),
    )?;
    let run = run_image(alloc, image)?;
    Ok(Report {
        build: Build::Flat,
        image: bytes,
        shown: false,
        console: run.console,
        stop: RunStop::Ended,
        calls: SHELL_CALLS + 1 + run.writes,
        instructions: run.instructions + SHELL_CALLS,
        ended: ended_groups(alloc, name, run.status)?,
    })
}
