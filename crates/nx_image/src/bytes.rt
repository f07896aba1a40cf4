ghost use Rattle.std.specs.Prelude.{◌≡◌, ◌-◌, ◌<◌, ◌≤◌, ◌^◌, ◌++◌, [], ◌∷◌, length, map, codes, replicate, All, OnOk, IfOk};
ghost use Rattle.std.specs.List.{flat_map};
ghost use Rattle.nx_base.specs.ByteLists.{to_le};
ghost use Rattle.nx_gate.specs.Gates.{AreSmall};
ghost use Rattle.nx_image.specs.Bytes.{build_number, kind_number, filled, program_numbers, program_bytes, gate_bytes, head_bytes, bytes_of, HasRoom};

use crate::layout::Layout;
use nx_base::{Build, Bytes, Kind, OutOfMemory};
use nx_gate::Gate;
use nx_ram::ProgImage;
use std::alloc::Global;

fn number_of_build(build: Build) -> u32
    ensures { result ≡ build_number build }
{
    match build {
        Build::Flat => 0,
        Build::Protected => 1,
        Build::Kernel => 2,
    }
}

fn number_of_kind(kind: Kind) -> u8
    ensures { result ≡ kind_number kind }
{
    match kind {
        Kind::Word => 0,
        Kind::In => 1,
        Kind::Text => 2,
        Kind::Out => 3,
        Kind::Len => 4,
        Kind::Out4 => 5,
        Kind::Out8 => 6,
    }
}

// Puts zeros after bytes that stand for a field of a width.
fn put_gap(alloc: Global, bytes: &mut Bytes, width: usize, count: usize) -> Result<(), OutOfMemory>
    requires { count ≤ width }
    ensures { OnOk result (bytes.new ≡ bytes.old ++ replicate (width - count) 0) }
{
    bytes.append_zeros(alloc, width - count)?;
    Ok(())
}

// Puts bytes, and zeros after them up to a width.
fn put_filled(
    alloc: Global,
    bytes: &mut Bytes,
    width: usize,
    field: &[u8],
) -> Result<(), OutOfMemory>
    requires { length field.now ≤ width }
    ensures { OnOk result (bytes.new ≡ bytes.old ++ filled width field.now) }
{
    bytes.append(field)?;
    put_gap(alloc, bytes, width, field.len())
}

fn put_kinds(bytes: &mut Bytes, kinds: &[Kind]) -> Result<(), OutOfMemory>
    ensures { OnOk result (bytes.new ≡ bytes.old ++ map kind_number kinds.now) }
{
    for kind in kinds {
        bytes.push(number_of_kind(*kind))?;
    }
    Ok(())
}

// The numbers of six kinds.
fn put_six_kinds(alloc: Global, bytes: &mut Bytes, kinds: &[Kind]) -> Result<(), OutOfMemory>
    requires { length kinds.now ≤ 6 }
    ensures { OnOk result (bytes.new ≡ bytes.old ++ filled 6 (map kind_number kinds.now)) }
{
    put_kinds(bytes, kinds)?;
    put_gap(alloc, bytes, 6, kinds.len())
}

#[tactic(auto, unfolding(crate::specs::Bytes::gate_bytes))]
fn put_gate(alloc: Global, bytes: &mut Bytes, gate: &Gate) -> Result<(), OutOfMemory>
    ensures { OnOk result (bytes.new ≡ bytes.old ++ gate_bytes gate.now) }
{
    let kinds = gate.kinds.as_slice();
    bytes.append_le16(gate.number)?;
    bytes.push(kinds.len() as u8)?;
    bytes.push(0)?;
    put_six_kinds(alloc, bytes, kinds)?;
    bytes.append(&[0, 0])?;
    Ok(())
}

fn put_gates(alloc: Global, bytes: &mut Bytes, gates: &[Gate]) -> Result<(), OutOfMemory>
    ensures { OnOk result (bytes.new ≡ bytes.old ++ flat_map gate_bytes gates.now) }
{
    for gate in gates {
        put_gate(alloc, bytes, gate)?;
    }
    Ok(())
}

// The addresses and lengths of a program.
#[tactic(auto, unfolding(crate::specs::Bytes::program_numbers))]
fn put_numbers(bytes: &mut Bytes, program: &ProgImage) -> Result<(), OutOfMemory>
    requires { HasRoom program.now }
    ensures { OnOk result (bytes.new ≡ bytes.old ++ program_numbers program.now) }
{
    bytes.append_le32(program.text_at)?;
    bytes.append_le32(program.text.len() as u32)?;
    bytes.append_le32(program.data_at)?;
    bytes.append_le32(program.init.len() as u32)?;
    bytes.append_le32(program.main)?;
    bytes.append_le32(program.end_group)?;
    bytes.append_le32(program.end_thread)?;
    Ok(())
}

#[tactic(auto, unfolding(crate::specs::Bytes::program_bytes))]
fn put_program(alloc: Global, bytes: &mut Bytes, program: &ProgImage) -> Result<(), OutOfMemory>
    requires { HasRoom program.now }
    ensures { OnOk result (bytes.new ≡ bytes.old ++ program_bytes program.now) }
{
    put_filled(alloc, bytes, 32, program.name.as_str().as_bytes())?;
    put_numbers(bytes, program)?;
    bytes.append(program.text.as_slice())?;
    bytes.append(program.init.as_slice())?;
    Ok(())
}

fn put_programs(alloc: Global, bytes: &mut Bytes, programs: &[ProgImage]) -> Result<(), OutOfMemory>
    requires { All HasRoom programs.now }
    ensures { OnOk result (bytes.new ≡ bytes.old ++ flat_map program_bytes programs.now) }
{
    for program in programs {
        put_program(alloc, bytes, program)?;
    }
    Ok(())
}

#[tactic(auto, unfolding(crate::specs::Bytes::head_bytes))]
fn put_head(
    alloc: Global,
    bytes: &mut Bytes,
    layout: &Layout,
    gates: &[Gate],
    programs: usize,
) -> Result<(), OutOfMemory>
    requires gates { length gates.now < 2 ^ 32 }
    requires programs { programs < 2 ^ 32 }
    ensures { OnOk result (bytes.new ≡ bytes.old ++ head_bytes layout.now gates.now programs) }
{
    bytes.append(b"NXI1")?;
    bytes.append_le32(number_of_build(layout.build))?;
    bytes.append_le32(layout.limits.ram)?;
    bytes.append_le32(gates.len() as u32)?;
    put_gates(alloc, bytes, gates)?;
    bytes.append_le32(programs as u32)?;
    Ok(())
}

/// The bytes of an image of these gates and programs.
#[tactic(auto, unfolding(crate::specs::Bytes::bytes_of))]
pub fn image_bytes(
    alloc: Global,
    layout: &Layout,
    gates: &[Gate],
    programs: &[ProgImage],
) -> Result<Bytes, OutOfMemory>
    requires gates { length gates.now < 2 ^ 32 }
    requires count { length programs.now < 2 ^ 32 }
    requires programs { All HasRoom programs.now }
    ensures { IfOk result (λ bytes. bytes ≡ bytes_of (record { layout = layout.now; programs = programs.now; gates = gates.now })) }
{
    let mut bytes = Bytes::new(alloc);
    put_head(alloc, &mut bytes, layout, gates, programs.len())?;
    put_programs(alloc, &mut bytes, programs)?;
    Ok(bytes)
}
