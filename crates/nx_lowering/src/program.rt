// The slot program of a checked file.

ghost use Rattle.std.specs.Prelude.{◌≡◌, ◌++◌, map, IfOk, OnOk};
ghost use Rattle.nx_cobjects.specs.Starts.{first_group, array_of as array_object};
ghost use Rattle.nx_cobjects.specs.Groups.{object};
ghost use Rattle.nx_checked.specs.declared.checked.Element.TheVariants as element;
ghost use Rattle.nx_lower.specs.Bodies.{lowered};
ghost use Rattle.nx_lowerexpr.specs.Sources.{source_of};
ghost use Rattle.nx_lowering.specs.Programs.{HasFrames, scalars_bytes, in_words, arrays_bytes, texts_bytes, global_bytes, literal_bytes, lowered_program};

use crate::function::lower_function;
use nx_base::{Bytes, OutOfMemory};
use nx_checked::{Checked, GlobalArray, GlobalScalar};
use nx_slot::{SlotFunction, SlotProgram};
use sqlite_items::Items;
use std::alloc::{AllocError, Global};

fn functions(alloc: Global, program: &Checked) -> Result<Items<SlotFunction>, AllocError>
    requires { HasFrames program.now }
    ensures { IfOk result (λ fs. fs ≡ lowered (source_of program.now)) }
{
    let mut all = Items::new(alloc);
    for g in program.functions.as_slice() {
        let f = lower_function(alloc, program, g)?;
        all.push(f)?;
    }
    Ok(all)
}

fn put_scalars(bytes: &mut Bytes, scalars: &[GlobalScalar]) -> Result<(), AllocError>
    ensures { OnOk result (bytes.new ≡ bytes.old ++ scalars_bytes (map (λ x. x.value) scalars.now)) }
{
    for x in scalars {
        bytes.append_le32(x.value)?;
    }
    Ok(())
}

fn put_array(alloc: Global, bytes: &mut Bytes, array: &[u8]) -> Result<(), AllocError>
    ensures { OnOk result (bytes.new ≡ bytes.old ++ in_words array.now) }
{
    bytes.append(array)?;
    bytes.append_zeros(alloc, (4 - array.len() % 4) % 4)
}

fn put_arrays(alloc: Global, bytes: &mut Bytes, arrays: &[GlobalArray]) -> Result<(), AllocError>
    ensures { OnOk result (bytes.new ≡ bytes.old ++ arrays_bytes (map array_object arrays.now)) }
{
    for x in arrays {
        put_array(alloc, bytes, x.bytes.as_slice())?;
    }
    Ok(())
}

fn put_texts(bytes: &mut Bytes, texts: &[Bytes]) -> Result<(), AllocError>
    ensures { OnOk result (bytes.new ≡ bytes.old ++ texts_bytes (map (object element.Char) texts.now)) }
{
    for x in texts {
        bytes.append(x.as_slice())?;
    }
    Ok(())
}

// The first bytes of variables and arrays.
fn globals(alloc: Global, program: &Checked) -> Result<Bytes, AllocError>
    ensures { IfOk result (λ b. b ≡ global_bytes (first_group program.now)) }
{
    let mut bytes = Bytes::new(alloc);
    put_scalars(&mut bytes, program.scalars.as_slice())?;
    put_arrays(alloc, &mut bytes, program.arrays.as_slice())?;
    Ok(bytes)
}

// The bytes of texts.
fn literals(alloc: Global, program: &Checked) -> Result<Bytes, AllocError>
    ensures { IfOk result (λ b. b ≡ literal_bytes (first_group program.now)) }
{
    let mut bytes = Bytes::new(alloc);
    put_texts(&mut bytes, program.literals.as_slice())?;
    Ok(bytes)
}

/// The slot program of a checked file: its functions in their order, which of them is the main function, and the first
/// bytes of its objects: variables of four bytes each and arrays, each filled up to four bytes, and apart from them texts.
pub fn lower(alloc: Global, program: &Checked) -> Result<SlotProgram, OutOfMemory>
    requires { HasFrames program.now }
    ensures { IfOk result (λ s. s ≡ lowered_program program.now) }
{
    Ok(SlotProgram {
        functions: functions(alloc, program)?,
        main: program.main as usize,
        globals: globals(alloc, program)?,
        literals: literals(alloc, program)?,
    })
}
