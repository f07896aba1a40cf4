// nx_link and nx_build will take its place.

ghost use Rattle.std.specs.Prelude.{◌≡◌, ◌<◌, ◌≤◌, ◌^◌, length, All, IfOk};
ghost use Rattle.nx_top.specs.first.Compiled.{IsWriteGate};
ghost use Rattle.nx_top.specs.first.IsCompiled.{IsCompiled, IsLaidOut};

use crate::first::compile::{compile, main_at};
use crate::first::layout::{TEXT_START, data_start};
use nx_base::{Bytes, Text};
use nx_gate::Gate;
use nx_ram::ProgImage;
use std::alloc::{AllocError, Global};

/// The bytes of a stub, of three words.
const STUB_BYTES: u32 = 12;

/// Compiles a program that writes strings and returns a status, over the gate of `write`, and gives
/// its parts their places.
pub fn build(
    alloc: Global,
    name: &str,
    strings: &[Bytes],
    status: u8,
    gate: &Gate,
) -> Result<ProgImage, AllocError>
    requires gate { IsWriteGate gate.now }
    requires few { length strings.now ≤ 16 }
    requires short { All (λ s. length s ≤ 255) strings.now }
    ensures compiled { IfOk result (λ image. IsCompiled image (record { writes = strings.now; status = status })) }
    ensures laid_out { IfOk result (λ image. IsLaidOut image name.now) }
{
    let text = compile(alloc, gate, strings, status)?;
    let data_at = data_start(text.len() as u32);
    let name = Text::from_str(alloc, name)?;
    Ok(ProgImage {
        name,
        text_at: TEXT_START,
        text,
        data_at,
        init: Bytes::new(alloc),
        main: main_at(strings),
        end_group: TEXT_START,
        end_thread: TEXT_START + STUB_BYTES,
    })
}
