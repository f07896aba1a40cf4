ghost use Rattle.std.specs.Prelude.{◌≡◌, ◌%◌, [], true, length, IfOk};
ghost use Rattle.nx_ram.specs.Widths.{IsWidth};
ghost use Rattle.nx_space.specs.World.{IsEntered, has_view};

use super::*;
use nx_base::{Access, Bytes, Mode, OutOfMemory, Text};
use nx_pmp::Question;
use nx_ram::{ProgImage, Ram};
use std::alloc::Global;
use std::test::Fail;

// A RAM of 128 bytes: a text of 8 at its start, data of 4 at 32, and two stacks of 16 from 64 on.
fn board(alloc: Global) -> Result<FlatSpace, OutOfMemory>
    ensures groups { IfOk result (λ space. (⟦<FlatSpace as Space>⟧.world space).groups ≡ []) }
    ensures threads { IfOk result (λ space. (⟦<FlatSpace as Space>⟧.world space).memory_map.threads ≡ 2) }
    ensures programs { IfOk result (λ space. length (⟦<FlatSpace as Space>⟧.world space).memory_map.programs ≡ 1) }
{
    let mut ram = Ram::new(alloc, 128)?;
    ram.store32(0, 0x00000073);
    ram.store32(64, 0xFFFFFFFF);
    let program = ProgImage {
        name: Text::from_str(alloc, "p")?,
        text_at: RAM_START,
        text: Bytes::from_slice(alloc, &[0x73, 0, 0, 0, 0, 0, 0, 0])?,
        data_at: RAM_START + 32,
        init: Bytes::from_slice(alloc, &[1, 2, 3, 4])?,
        main: RAM_START,
        end_group: RAM_START + 4,
        end_thread: RAM_START + 6,
    };
    let mut programs = Vec::new(alloc);
    programs.push(program)?;
    FlatSpace::new(alloc, ram, programs, RAM_START + 64, 16, 2)
}

// The same board, with the view of a group that has started.
#[tactic(auto, unfolding(crate::specs::World::has_view), using(crate::proofs::Joins::started_has_view))]
fn running(alloc: Global) -> Result<FlatSpace, OutOfMemory>
    ensures entered { IfOk result (λ space. (⟦<FlatSpace as Space>⟧.world space).entered ≡ 7) }
    ensures view { IfOk result (λ space. has_view (⟦<FlatSpace as Space>⟧.world space).groups 7 ≡ true) }
    ensures threads { IfOk result (λ space. (⟦<FlatSpace as Space>⟧.world space).memory_map.threads ≡ 2) }
{
    let mut space = board(alloc)?;
    match space.start(7, 0, 0, true) {
        Ok(_) => {}
        Err(_) => return Err(OutOfMemory),
    }
    space.enter(7);
    Ok(space)
}

// Stores a number, and leaves the group entered.
fn put(space: &mut FlatSpace, at: u32, width: u8, value: u32) -> Result<(), u8>
    requires entered { IsEntered (⟦<FlatSpace as Space>⟧.world space.old) }
    requires width { IsWidth width }
    requires aligned { at % width ≡ 0 }
    ensures { IsEntered (⟦<FlatSpace as Space>⟧.world space.new) }
{
    space.store(at, width, value)
}

#[test]
fn accesses_of_one_window(rt: HostRuntime) -> Result<(), Fail> {
    let mut space = running(rt.alloc())?;
    assert_eq!(rt; space.fetch(RAM_START), Ok(0x73));
    assert_eq!(rt; space.fetch(RAM_START - 4), Err(1));
    assert_eq!(rt; space.load(RAM_START + 33, 1), Ok(2));
    assert_eq!(rt; space.load(RAM_START + 34, 2), Ok(0x0403));
    assert_eq!(rt; space.load(RAM_START + 128, 4), Err(5));
    assert_eq!(rt; put(&mut space, RAM_START + 34, 2, 0xAABBCCDD), Ok(()));
    assert_eq!(rt; space.load(RAM_START + 32, 4), Ok(0xCCDD0201));
    assert_eq!(rt; space.load(RAM_START + 36, 4), Ok(0));
    assert_eq!(rt; space.load(RAM_START + 64, 4), Ok(0));
    assert_eq!(rt; put(&mut space, 0x7FFFFFFC, 4, 1), Err(7));
    assert_eq!(rt; space.good(0, 0, Access::Load), true);
    assert_eq!(rt; space.good(RAM_START, 128, Access::Fetch), true);
    assert_eq!(rt; space.good(RAM_START, 129, Access::Load), false);
    assert_eq!(rt; space.good(0xFFFFFFFF, 2, Access::Load), false);
    Ok(())
}

#[test]
fn starts_of_groups_and_threads(rt: HostRuntime) -> Result<(), Fail> {
    let mut space = running(rt.alloc())?;
    match space.grow_stack_slot(7, 1) {
        Ok(regs) => {
            for (k, value) in [
                (1, RAM_START + 6),
                (2, RAM_START + 96),
                (4, RAM_START + 80),
                (10, 0),
            ] {
                assert_eq!(rt; regs.get(k), value);
            }
            assert_eq!(rt; regs.pc, 0);
        }
        Err(few) => assert_eq!(rt; few.need, 0),
    }
    Ok(())
}

#[test]
fn an_end_of_a_group(rt: HostRuntime) -> Result<(), Fail> {
    let mut space = running(rt.alloc())?;
    assert_eq!(rt; space.good(RAM_START, 1, Access::Store), true);
    space.finish(7);
    Ok(())
}

// A RAM of 256 bytes with a pool of 64: texts from 64 on, data from 128 on, and two stacks of 16 from 160 on.
fn walls(alloc: Global) -> Result<PmpSpace, OutOfMemory>
    ensures groups { IfOk result (λ space. (⟦<PmpSpace as Space>⟧.world space).groups ≡ []) }
    ensures threads { IfOk result (λ space. (⟦<PmpSpace as Space>⟧.world space).memory_map.threads ≡ 2) }
    ensures programs { IfOk result (λ space. length (⟦<PmpSpace as Space>⟧.world space).memory_map.programs ≡ 1) }
{
    let mut ram = Ram::new(alloc, 256)?;
    ram.store32(64, 0x00000073);
    let program = ProgImage {
        name: Text::from_str(alloc, "p")?,
        text_at: RAM_START + 64,
        text: Bytes::from_slice(alloc, &[0x73, 0, 0, 0])?,
        data_at: RAM_START + 128,
        init: Bytes::from_slice(alloc, &[1, 2, 3, 4])?,
        main: RAM_START + 64,
        end_group: RAM_START + 64,
        end_thread: RAM_START + 64,
    };
    let mut programs = Vec::new(alloc);
    programs.push(program)?;
    PmpSpace::new(
        alloc,
        ram,
        programs,
        RAM_START + 64,
        RAM_START + 128,
        RAM_START + 160,
        16,
        2,
    )
}

// The same, with the view of a group that has started.
#[tactic(auto, unfolding(crate::specs::World::has_view), using(crate::proofs::Joins::started_has_view))]
fn walled(alloc: Global) -> Result<PmpSpace, OutOfMemory>
    ensures { IfOk result (λ space. IsEntered (⟦<PmpSpace as Space>⟧.world space)) }
{
    let mut space = walls(alloc)?;
    match space.start(7, 0, 0, true) {
        Ok(_) => {}
        Err(_) => return Err(OutOfMemory),
    }
    space.enter(7);
    Ok(space)
}

#[test]
fn accesses_of_two_windows_ask_the_unit(rt: HostRuntime) -> Result<(), Fail> {
    let mut space = walled(rt.alloc())?;
    assert_eq!(rt; space.fetch(RAM_START + 64), Ok(0x73));
    assert_eq!(rt; space.fetch(RAM_START + 128), Err(1));
    assert_eq!(rt; space.load(RAM_START + 128, 4), Ok(0x04030201));
    assert_eq!(rt; space.load(RAM_START + 60, 4), Err(5));
    assert_eq!(rt; space.load(RAM_START + 192, 1), Err(5));
    assert_eq!(rt; space.load(0, 4), Err(5));
    assert_eq!(rt; space.unit().asked(), 6);
    assert_eq!(rt; space.good(RAM_START + 120, 16, Access::Load), true);
    assert_eq!(rt; space.good(RAM_START + 120, 16, Access::Store), false);
    assert_eq!(rt; space.good(RAM_START + 128, 64, Access::Store), true);
    assert_eq!(rt; space.good(RAM_START + 64, 65, Access::Fetch), false);
    assert_eq!(rt; space.store(RAM_START + 64, 4, 0), Err(7));
    let last = Question {
        at: RAM_START + 64,
        len: 4,
        access: Access::Store,
        mode: Mode::User,
    };
    assert_eq!(rt; space.unit().last(), Some(last));
    Ok(())
}
