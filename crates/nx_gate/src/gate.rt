ghost use Rattle.std.specs.Prelude.{◌≡◌, IfOk, IfSome, map};
ghost use Rattle.std.specs.Option.{option_copied};
ghost use Rattle.nx_gate.specs.Gates.{gate_of as gate_of_row, gate_numbered, AreSmall, IsGate, AreGates};

use arrayvec::ArrayVec;
use nx_base::{Bytes, KCall, Kind, OutOfMemory};
use nx_calls::{CallRow, Calls};
use std::alloc::{AllocError, Global};
use std::marker::Model;

/// The gate of a call. It has the fields of the call's row.
#[derive(Debug, Drop)]
pub struct Gate {
    /// The name of the call.
    pub name: Bytes,
    /// The number by which a program makes the call.
    pub number: u16,
    /// The kinds of its parameters, in their order.
    pub kinds: ArrayVec<Kind, 6>,
    /// Whether its return type isn't `void`.
    pub returns: bool,
    /// The call of this name, if the kernel has one.
    pub kernel: Option<KCall>,
}

fn gate_of(alloc: Global, row: &CallRow) -> Result<Gate, AllocError>
    ensures { IfOk result (λ gate. gate ≡ gate_of_row row.now) }
{
    let name = Bytes::from_slice(alloc, row.name.as_slice())?;
    Ok(Gate {
        name,
        number: row.number,
        kinds: row.kinds.clone()?,
        returns: row.returns,
        kernel: row.kernel,
    })
}

fn same_gate(alloc: Global, gate: &Gate) -> Result<Gate, AllocError>
    ensures { IfOk result (λ copy. copy ≡ gate.now) }
{
    let name = Bytes::from_slice(alloc, gate.name.as_slice())?;
    Ok(Gate {
        name,
        number: gate.number,
        kinds: gate.kinds.clone()?,
        returns: gate.returns,
        kernel: gate.kernel,
    })
}

fn same_gates(alloc: Global, gates: &[Gate]) -> Result<Vec<Gate>, AllocError>
    ensures { IfOk result (λ v. v.items ≡ gates.now) }
{
    let mut same = Vec::new(alloc);
    for gate in gates {
        let copy = same_gate(alloc, gate)?;
        same.push(copy)?;
    }
    Ok(same)
}

/// The gates of a call table, in the order of its rows.
#[derive(Debug, Drop)]
pub struct Gates {
    gates: Vec<Gate>,
}

impl Model for Gates {
    ghost use Rattle.std.specs.Prelude.{List};
    ghost use Rattle.nx_gate.specs.declared.gate.Gate.{Gate};

    ghost Value = { List Gate };

    ghost view = { λ g. g.gates.items };

    ghost use Rattle.nx_gate.specs.Gates.{AreGates};

    ghost invariant = { λ g. AreGates g.gates.items };
}

impl Gates {
    /// The gate of a number, if there is one. It fits its call.
    pub fn find(&self, number: u32) -> Option<&Gate>
        ensures value { option_copied result ≡ gate_numbered number self.now }
        ensures fits { IfSome (option_copied result) IsGate }
    {
        self.gates.iter().find(|gate| gate.number as u32 == number)
    }

    /// The gates, whose numbers are from 16 to 527.
    pub fn as_slice(&self) -> &[Gate]
        ensures value { result.now ≡ self.now }
        ensures small { AreSmall result.now }
        ensures hold { AreGates result.now }
    {
        self.gates.as_slice()
    }

    /// A copy of them.
    pub fn copy(&self, alloc: Global) -> Result<Gates, OutOfMemory>
        ensures { IfOk result (λ copy. copy ≡ self.now) }
    {
        let gates = same_gates(alloc, self.gates.as_slice())?;
        Ok(Gates { gates })
    }
}

fn gates_of(alloc: Global, rows: &[CallRow]) -> Result<Vec<Gate>, AllocError>
    ensures { IfOk result (λ v. v.items ≡ map gate_of_row rows.now) }
{
    let mut gates = Vec::new(alloc);
    for row in rows {
        let gate = gate_of(alloc, row)?;
        gates.push(gate)?;
    }
    Ok(gates)
}

/// The gates of a call table: one for each row, in the order of the rows.
pub fn plan(alloc: Global, calls: &Calls) -> Result<Gates, OutOfMemory>
    ensures { IfOk result (λ gates. gates ≡ map gate_of_row calls.now) }
{
    let gates = gates_of(alloc, calls.rows())?;
    Ok(Gates { gates })
}
