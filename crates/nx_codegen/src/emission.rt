//! A function's words.
ghost use Rattle.std.specs.Prelude.{◌≡◌, ◌+◌, ◌*◌, ◌<◌, ◌≤◌, ◌^◌, [], IfOk, OnOk, length, map};
ghost use Rattle.nx_rv.specs.Table.{encode_of};
ghost use Rattle.nx_codegen.specs.Addresses.{no_links};
ghost use Rattle.nx_codegen.specs.Calling.{enter_code};
ghost use Rattle.nx_codegen.specs.Cells.{AllHaveCells};
ghost use Rattle.nx_codegen.specs.Code.{code_of, is_near, offset};
ghost use Rattle.nx_codegen.specs.Emitted.{ArePlaces, AreWords, destination};
ghost use Rattle.nx_codegen.specs.Frames.{IsFunction};
ghost use Rattle.nx_codegen.specs.Refs.{refs_of};

use crate::calling::put_enter;
use crate::layout::places_of;
use crate::operation::{Emission, Place, put_operation};
use crate::output::Words;
use nx_base::OutOfMemory;
use nx_rv::{Inst, encode};
use nx_slot::{SlotFunction, SlotOp};
use std::alloc::{AllocError, Global};

/// The place so many operations behind one, or the end.
#[tactic(auto, using(crate::proofs::Emitting::offset_past))]
fn place_behind(function: &SlotFunction, places: &[u32], at: usize, past: usize, near: bool) -> u32
    requires within { at < length function.now.ops }
    requires known { ArePlaces near function.now (length function.now.ops) places.now }
    ensures { result ≡ offset near function.now function.now.ops (at + 1 + past) }
{
    let last = function.ops.len();
    let left = last - at - 1;
    if past < left {
        places[at + 1 + past]
    } else {
        places[last]
    }
}

/// Where the operation begins that a jump leads to.
fn jump_place(
    function: &SlotFunction,
    places: &[u32],
    at: usize,
    operation: &SlotOp,
    near: bool,
) -> u32
    requires within { at < length function.now.ops }
    requires known { ArePlaces near function.now (length function.now.ops) places.now }
    ensures { result ≡ offset near function.now function.now.ops (destination at operation.now) }
{
    match *operation {
        SlotOp::SkipUnless { past, .. } => place_behind(function, places, at, past, near),
        SlotOp::Skip { past } => place_behind(function, places, at, past, near),
        SlotOp::Back { by } => places[at.saturating_sub(by)],
        _ => places[0],
    }
}

/// All operations, behind the entry.
fn put_operations(
    out: &mut Emission,
    function: &SlotFunction,
    near: bool,
    places: &[u32],
) -> Result<(), AllocError>
    requires framed { IsFunction function.now }
    requires operations_there { AllHaveCells function.now function.now.ops }
    requires few { length function.now.ops ≤ 2 ^ 20 }
    requires reached { near ≡ is_near function.now }
    requires known { ArePlaces near function.now (length function.now.ops) places.now }
    requires entered { out.old.code.items ≡ enter_code function.now }
    requires none { out.old.refs.items ≡ [] }
    ensures code { OnOk result (out.new.code.items ≡ code_of no_links function.now) }
    ensures refs { OnOk result (out.new.refs.items ≡ refs_of function.now) }
{
    let entry = 4 * out.code.len() as u32;
    for k in 0..function.ops.len() {
        let Some(operation) = function.ops.get(k) else {
            return Ok(());
        };
        let place = Place {
            near,
            here: entry + places[k],
            there: entry + jump_place(function, places, k, operation, near),
        };
        put_operation(out, function, &place, operation)?;
    }
    Ok(())
}

/// The words of instructions.
fn words_of(alloc: Global, code: &[Inst]) -> Result<Vec<u32>, AllocError>
    ensures { IfOk result (λ words. words.items ≡ map encode_of code.now) }
{
    let mut words = Vec::new(alloc);
    for inst in code {
        words.push(encode(inst))?;
    }
    Ok(words)
}

/// Where the last operation ends.
fn end_place(function: &SlotFunction, places: &[u32], near: bool) -> u32
    requires { ArePlaces near function.now (length function.now.ops) places.now }
    ensures { result ≡ offset near function.now function.now.ops (length function.now.ops) }
{
    places[function.ops.len()]
}

/// Where a function's operations begin.
#[derive(Drop)]
struct Layout {
    /// Whether a branch reaches from end to end.
    near: bool,
    places: Vec<u32>,
}

fn layout_of(alloc: Global, function: &SlotFunction, entry: u32) -> Result<Layout, AllocError>
    requires framed { IsFunction function.now }
    requires operations_there { AllHaveCells function.now function.now.ops }
    requires few { length function.now.ops ≤ 2 ^ 20 }
    requires entered { entry ≡ 4 * length (enter_code function.now) }
    ensures reached { IfOk result (λ layout. layout.near ≡ is_near function.now) }
    ensures known { IfOk result (λ layout. ArePlaces layout.near function.now (length function.now.ops) layout.places.items) }
{
    let places = places_of(alloc, function, true)?;
    if entry + end_place(function, places.as_slice(), true) < 4096 {
        return Ok(Layout { near: true, places });
    }
    let places = places_of(alloc, function, false)?;
    Ok(Layout {
        near: false,
        places,
    })
}

/// A function's words and refs.
///
/// The function's frame holds its cells and arrays, its operations name its cells, and there are at most 2^20 of them.
pub fn emit(alloc: Global, function: &SlotFunction) -> Result<Words, OutOfMemory>
    requires framed { IsFunction function.now }
    requires operations_there { AllHaveCells function.now function.now.ops }
    requires few { length function.now.ops ≤ 2 ^ 20 }
    ensures { IfOk result (λ emitted. AreWords function.now emitted.words.items emitted.refs.items) }
{
    let mut out = Emission {
        code: Vec::new(alloc),
        refs: Vec::new(alloc),
    };
    put_enter(&mut out.code, function)?;
    let layout = layout_of(alloc, function, 4 * out.code.len() as u32)?;
    put_operations(&mut out, function, layout.near, layout.places.as_slice())?;
    let words = words_of(alloc, out.code.as_slice())?;
    Ok(Words {
        words,
        refs: out.refs,
    })
}
