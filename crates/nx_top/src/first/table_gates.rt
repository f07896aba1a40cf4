// nx_build will take its place.

ghost use Rattle.std.specs.Prelude.{◌≡◌, [], ◌∷◌, IfOk};
ghost use Rattle.nx_gate.specs.declared.gate.Gate.{Gate};
ghost use Rattle.nx_top.specs.first.Compiled.{IsWriteGate};
ghost use Rattle.nx_top.specs.first.ReportOf.{AreGatesRead};

use crate::first::inputs::{flat_config, write_table};
use nx_base::OutOfMemory;
use nx_calls::{CallsFault, read_calls};
use nx_config::{ConfigFault, read_config};
use nx_gate::{Gates, plan};
use std::alloc::Global;

/// The gates of the table of `write` under the configuration of the flat build.
pub fn table_gates(alloc: Global) -> Result<Gates, OutOfMemory>
    ensures read { IfOk result AreGatesRead }
    ensures one { IfOk result (λ gates. (gate : Gate) × IsWriteGate gate × (gates ≡ gate ∷ [])) }
{
    let config = match read_config(alloc, flat_config()) {
        Ok(config) => config,
        Err(ConfigFault::Memory) => return Err(OutOfMemory),
        Err(ConfigFault::Text { line: _, kind: _ }) => unreachable!(),
    };
    match read_calls(alloc, write_table(), &config) {
        Ok(calls) => Ok(plan(alloc, &calls)?),
        Err(CallsFault::Memory) => Err(OutOfMemory),
        Err(CallsFault::Text { row: _, kind: _ }) => unreachable!(),
    }
}
