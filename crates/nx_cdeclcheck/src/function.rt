ghost use Rattle.std.specs.Prelude.{◌≡◌, [], OnOk};
ghost use Rattle.nx_checked.specs.Frames.{frame_of};
ghost use Rattle.nx_crules.specs.Answers.{IsGiven};
ghost use Rattle.nx_ctype.specs.declared.names.Names.{Names as KnownNames};
ghost use Rattle.nx_ctyping.specs.Checks.{IsGivenUsing};
ghost use Rattle.nx_cbody.specs.Functions.{checked_function, within_frame, function_verdict};
ghost use Rattle.nx_cdeclcheck.specs.Done.{declared};

use crate::items::add_decls;
use crate::params::{add_params, begin, close};
use nx_calls::CallRow;
use nx_cbody::Locals;
use nx_cframes::frame_bytes;
use nx_checked::{CheckedFunction, CheckedStmt};
use nx_cstmtcheck::check_statements;
use nx_ctok::{CFault, CKind};
use nx_ctree::{Function, Param};
use nx_ctype::{Names, Used};
use nx_shared::Shared;
use sqlite_items::Items;
use std::alloc::Global;

/// The most bytes of stack that a call of a function may take.
const LARGEST_FRAME: u32 = 1_048_576;

fn too_large(line: u32) -> CFault
    ensures { result ≡ CFault.Text line CKind.Limit }
{
    CFault::Text {
        line,
        kind: CKind::Limit,
    }
}

/// A function with its frame, which isn't too large.
fn within(line: u32, function: CheckedFunction) -> Result<CheckedFunction, CFault>
    ensures { result ≡ within_frame line (record function { frame = frame_of function }) }
{
    let mut function = function;
    match frame_bytes(&function) {
        None => Err(too_large(line)),
        Some(frame) => {
            if frame > LARGEST_FRAME {
                return Err(too_large(line));
            }
            function.frame = frame;
            Ok(function)
        }
    }
}

/// A function of such locals and statements.
fn framed(
    alloc: Global,
    line: u32,
    locals: Locals,
    body: Items<CheckedStmt>,
) -> Result<CheckedFunction, CFault>
    ensures { (names : KnownNames) → IsGiven result (within_frame line (checked_function (declared names locals) body)) }
{
    let body = Shared::new(alloc, body)?;
    let Locals {
        params,
        scalars,
        arrays,
        initials,
    } = locals;
    let function = CheckedFunction {
        params,
        locals: scalars,
        arrays,
        initials,
        body,
        frame: 0,
    };
    within(line, function)
}

/// What a function does that returns a number or nothing, or its first fault: its parameters, then
/// its declarations, then its statements, then its frame. The line is that of its first word.
/// The names of its parameters and locals are let go.
pub fn check_function(
    alloc: Global,
    rows: &[CallRow],
    names: &mut Names,
    used: &mut Used,
    line: u32,
    returns: bool,
    params: &[Param],
    function: &Function,
) -> Result<CheckedFunction, CFault>
    ensures given { IsGivenUsing result used.new (function_verdict rows.now names.old line returns params.now function.now used.old) }
    ensures closed { OnOk result (names.new ≡ record names.old { locals = [] }) }
{
    let mut locals = begin(alloc, names);
    add_params(alloc, names, &mut locals, params)?;
    let decls = function.decls.as_slice();
    add_decls(alloc, rows, names, &mut locals, used, decls)?;
    let statements = function.body.get().as_slice();
    let body = check_statements(alloc, names, rows, used, returns, statements)?;
    close(alloc, names);
    framed(alloc, line, locals, body)
}
