// nx_load will take its place.

ghost use Rattle.std.specs.Prelude.{◌≡◌, ℕ, List, ◌≤◌, length, IfOk};
ghost use Rattle.nx_space.specs.World.{view_in, IsEntered};
ghost use Rattle.nx_top.specs.first.IsCompiled.{IsLaidOut};
ghost use Rattle.nx_top.specs.first.Layout.{ram_bytes};
ghost use Rattle.nx_top.specs.first.BootedRuns.{IsBooted, flat_view, start_regs};

use crate::first::layout::{STACK_BYTES, THREADS};
use nx_base::{OutOfMemory, Regs};
use nx_ram::{ProgImage, Ram};
use nx_space::{FlatSpace, RAM_START, Space};
use std::alloc::Global;

// The program is the second group, and has the slot after the shell's.
const PROGRAM_GROUP: u32 = 2;

const PROGRAM_SLOT: u32 = 1;

/// A space in which a program's group has its view, and the registers of its main thread.
#[derive(Drop)]
pub struct Booted {
    /// The space, whose entered group is the program's.
    pub space: FlatSpace,
    /// The registers of the main thread.
    pub regs: Regs,
}

/// Puts a program's text into a RAM of so many bytes, and starts and enters its group.
pub fn boot(alloc: Global, image: ProgImage, size: u32) -> Result<Booted, OutOfMemory>
    requires laid_out { IsLaidOut image image.name }
    requires whole { size ≡ ram_bytes }
    requires short { length image.text ≤ 8192 }
    ensures regs { IfOk result (λ b. b.regs ≡ start_regs image) }
    ensures sees { IfOk result (λ b. (ram : List ℕ) × IsBooted image ram × (view_in (⟦<FlatSpace as Space>⟧.world b.space) ≡ flat_view ram) × IsEntered (⟦<FlatSpace as Space>⟧.world b.space)) }
{
    let mut ram = Ram::new(alloc, size)?;
    ram.put(image.text_at - RAM_START, image.text.as_slice());
    let low = image.data_at;
    let mut programs = Vec::new(alloc);
    programs.push(image)?;
    let mut space = FlatSpace::new(alloc, ram, programs, low, STACK_BYTES, THREADS)?;
    match space.start(PROGRAM_GROUP, 0, PROGRAM_SLOT, true) {
        Ok(regs) => {
            space.enter(PROGRAM_GROUP);
            Ok(Booted { space, regs })
        }
        Err(_) => unreachable!(),
    }
}
