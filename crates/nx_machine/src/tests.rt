ghost use Rattle.std.specs.Prelude.{true};

use super::*;
use nx_base::{Bytes, Count, OutOfMemory, Text};
use nx_ram::{ProgImage, Ram};
use nx_space::{FlatSpace, RAM_START, Space};
use std::alloc::Global;
use std::test::Fail;

// Runs words from the start of a RAM of 64 bytes: why it stops, how many instructions were made,
// and what register 10 and pc hold.
#[tactic(auto, unfolding(nx_space::specs::World::has_view))]
fn run_words(
    alloc: Global,
    first: u32,
    second: u32,
    limit: u64,
) -> Result<(Stop, u64, u32, u32), OutOfMemory> {
    let mut ram = Ram::new(alloc, 64)?;
    ram.store32(0, 0x800002B7);
    ram.store32(4, first);
    ram.store32(8, second);
    ram.store32(16, 0x0000F080);
    let mut programs = Vec::new(alloc);
    programs.push(ProgImage {
        name: Text::from_str(alloc, "p")?,
        text_at: RAM_START,
        text: Bytes::new(alloc),
        data_at: RAM_START + 24,
        init: Bytes::new(alloc),
        main: RAM_START,
        end_group: RAM_START,
        end_thread: RAM_START,
    })?;
    let mut space = FlatSpace::new(alloc, ram, programs, RAM_START + 32, 16, 2)?;
    let regs = match space.start(1, 0, 0, false) {
        Ok(regs) => regs,
        Err(_) => return Err(OutOfMemory),
    };
    space.enter(1);
    let mut machine = Machine::new();
    machine.set(regs);
    let mut count = Count::new(limit);
    let stop = machine.run(&mut space, &mut count);
    Ok((
        stop,
        count.used(),
        machine.regs().get(10),
        machine.regs().pc,
    ))
}

#[test]
fn stretches_of_three_words(rt: HostRuntime) -> Result<(), Fail> {
    for (first, second, limit, stop, used, value, pc) in [
        // addi a0, x0, 7; ecall
        (0x00700513, 0x00000073, 9, Stop::Call, 3, 7, 0x8000000C),
        (0x00700513, 0x00000073, 2, Stop::Fuel, 2, 7, 0x80000008),
        // lw a0, 2(t0)
        (0x0022A503, 0, 9, Stop::Trap { cause: 4 }, 2, 0, 0x80000004),
        // sw x0, -4(t0)
        (0xFE02AE23, 0, 9, Stop::Trap { cause: 7 }, 2, 0, 0x80000004),
        // lb a0, 16(t0); lhu a0, 16(t0)
        (
            0x01028503,
            0x00000073,
            9,
            Stop::Call,
            3,
            0xFFFFFF80,
            0x8000000C,
        ),
        (
            0x0102D503,
            0x00000073,
            9,
            Stop::Call,
            3,
            0x0000F080,
            0x8000000C,
        ),
        // no instruction
        (0, 0, 9, Stop::Trap { cause: 2 }, 2, 0, 0x80000004),
        // beq x0, x0, 2; bne x0, x0, 2
        (0x00000163, 0, 9, Stop::Trap { cause: 0 }, 2, 0, 0x80000004),
        (0x00001163, 0x00000073, 9, Stop::Call, 3, 0, 0x8000000C),
        // jalr a0, 1(t0), which clears bit 0; ebreak
        (0x00128567, 0, 3, Stop::Fuel, 3, 0x80000008, 0x80000004),
        (0x00100073, 0, 9, Stop::Trap { cause: 3 }, 2, 0, 0x80000004),
    ] {
        assert_eq!(rt;
            run_words(rt.alloc(), first, second, limit)?,
            (stop, used, value, pc)
        );
    }
    Ok(())
}
