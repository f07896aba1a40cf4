ghost use Rattle.std.specs.Prelude.{◌≡◌, ◌*◌, ◌%◌, ◌≤◌, ◌<◌, true, false, [], length, IfOk};
ghost use Rattle.nx_ram.specs.Widths.{IsWidth};
ghost use Rattle.nx_space.specs.World.{has_view};
ghost use Rattle.nx_paged.specs.Paging.{IsLaidOut};

use super::*;
use nx_base::{Access, Bytes, OutOfMemory, Regs, Text};
use nx_frames::TooFew;
use nx_ram::{ProgImage, Ram};
use nx_space::Space;
use std::alloc::Global;
use std::test::Fail;

const TEXT: u32 = 0x00010000;

const DATA: u32 = 0x10000000;

const STACKS: u32 = 0x40000000;

fn ram_of(alloc: Global, size: u32) -> Result<Ram, OutOfMemory>
    ensures { IfOk result (λ ram. length ram ≡ size) }
{
    Ram::new(alloc, size)
}

// A program of one text page, whose data have so many bytes.
fn program(alloc: Global, init: &[u8]) -> Result<ProgImage, OutOfMemory>
    requires { length init.now ≤ 4096 }
    ensures { IfOk result IsLaidOut }
{
    Ok(ProgImage {
        name: Text::from_str(alloc, "p")?,
        text_at: TEXT,
        text: Bytes::from_slice(alloc, &[0x73, 0, 0, 0])?,
        data_at: DATA,
        init: Bytes::from_slice(alloc, init)?,
        main: TEXT,
        end_group: TEXT + 4,
        end_thread: TEXT + 8,
    })
}

// A RAM of a page for the pool and 15 frames, and stacks of 8,192 bytes.
fn board(alloc: Global, init: &[u8]) -> Result<PagedSpace, OutOfMemory>
    requires { length init.now ≤ 4096 }
    ensures groups { IfOk result (λ space. (⟦<PagedSpace as Space>⟧.world space).groups ≡ []) }
    ensures threads { IfOk result (λ space. (⟦<PagedSpace as Space>⟧.world space).memory_map.threads ≡ 4) }
    ensures programs { IfOk result (λ space. length (⟦<PagedSpace as Space>⟧.world space).memory_map.programs ≡ 1) }
{
    let ram = ram_of(alloc, 0x10000)?;
    let mut programs = Vec::new(alloc);
    programs.push(program(alloc, init)?)?;
    PagedSpace::new(alloc, ram, programs, 0x1000, 8192, 4)
}

// A RAM of so many frames without a pool.
fn small_board(alloc: Global, frames: u32) -> Result<PagedSpace, OutOfMemory>
    requires { frames ≤ 16 }
    ensures groups { IfOk result (λ space. (⟦<PagedSpace as Space>⟧.world space).groups ≡ []) }
    ensures threads { IfOk result (λ space. (⟦<PagedSpace as Space>⟧.world space).memory_map.threads ≡ 4) }
    ensures programs { IfOk result (λ space. length (⟦<PagedSpace as Space>⟧.world space).memory_map.programs ≡ 1) }
{
    let ram = ram_of(alloc, 4096 * frames)?;
    let mut programs = Vec::new(alloc);
    programs.push(program(alloc, &[])?)?;
    PagedSpace::new(alloc, ram, programs, 0, 8192, 4)
}

// A RAM of 1 MiB, whose first 262,144 bytes are the pool, and stacks of 524,288 bytes.
fn large_board(alloc: Global) -> Result<PagedSpace, OutOfMemory>
    ensures groups { IfOk result (λ space. (⟦<PagedSpace as Space>⟧.world space).groups ≡ []) }
    ensures threads { IfOk result (λ space. (⟦<PagedSpace as Space>⟧.world space).memory_map.threads ≡ 4) }
    ensures programs { IfOk result (λ space. length (⟦<PagedSpace as Space>⟧.world space).memory_map.programs ≡ 1) }
{
    let ram = ram_of(alloc, 1048576)?;
    let mut programs = Vec::new(alloc);
    programs.push(program(alloc, &[])?)?;
    PagedSpace::new(alloc, ram, programs, 262144, 524288, 4)
}

// A space with the view of group 7, which starts in slot 0.
#[tactic(auto, unfolding(nx_space::specs::World::has_view))]
fn running(space: PagedSpace) -> Result<PagedSpace, OutOfMemory>
    requires groups { (⟦<PagedSpace as Space>⟧.world space).groups ≡ [] }
    requires threads { (⟦<PagedSpace as Space>⟧.world space).memory_map.threads ≡ 4 }
    requires programs { length (⟦<PagedSpace as Space>⟧.world space).memory_map.programs ≡ 1 }
    ensures entered { IfOk result (λ space. (⟦<PagedSpace as Space>⟧.world space).entered ≡ 7) }
    ensures view { IfOk result (λ space. has_view (⟦<PagedSpace as Space>⟧.world space).groups 7 ≡ true) }
    ensures none { IfOk result (λ space. has_view (⟦<PagedSpace as Space>⟧.world space).groups 8 ≡ false) }
    ensures one { IfOk result (λ space. length (⟦<PagedSpace as Space>⟧.world space).groups ≡ 1) }
    ensures threads { IfOk result (λ space. (⟦<PagedSpace as Space>⟧.world space).memory_map.threads ≡ 4) }
    ensures programs { IfOk result (λ space. length (⟦<PagedSpace as Space>⟧.world space).memory_map.programs ≡ 1) }
{
    let mut space = space;
    match space.start(7, 0, 0, true) {
        Ok(_) => {}
        Err(_) => return Err(OutOfMemory),
    }
    space.enter(7);
    Ok(space)
}

// Gives group 7 the stack of a slot.
fn grow(space: &mut PagedSpace, slot: u32) -> Result<Regs, TooFew>
    requires view { has_view (⟦<PagedSpace as Space>⟧.world space.old).groups 7 ≡ true }
    requires threads { (⟦<PagedSpace as Space>⟧.world space.old).memory_map.threads ≡ 4 }
    requires slot { slot < 4 }
    ensures view { has_view (⟦<PagedSpace as Space>⟧.world space.new).groups 7 ≡ true }
    ensures threads { (⟦<PagedSpace as Space>⟧.world space.new).memory_map.threads ≡ 4 }
{
    match space.grow_stack_slot(7, slot) {
        Ok(regs) => Ok(regs),
        Err(few) => Err(few),
    }
}

// Stores a number in the view of group 7.
fn stored(space: &mut PagedSpace, at: u32, width: u8, value: u32) -> Result<(), u8>
    requires entered { (⟦<PagedSpace as Space>⟧.world space.old).entered ≡ 7 }
    requires view { has_view (⟦<PagedSpace as Space>⟧.world space.old).groups 7 ≡ true }
    requires width { IsWidth width }
    requires aligned { at % width ≡ 0 }
    ensures view { has_view (⟦<PagedSpace as Space>⟧.world space.new).groups 7 ≡ true }
    ensures entered { (⟦<PagedSpace as Space>⟧.world space.new).entered ≡ 7 }
    ensures memory_map { (⟦<PagedSpace as Space>⟧.world space.new).memory_map ≡ (⟦<PagedSpace as Space>⟧.world space.old).memory_map }
{
    space.store(at, width, value)
}

// A root, the tables of two regions, a page of text and two of the stack.
#[test]
#[tactic(auto, unfolding(nx_space::specs::World::has_view))]
fn a_start_takes_six_frames(rt: HostRuntime) -> Result<(), Fail> {
    let mut space = board(rt.alloc(), &[])?;
    assert_eq!(rt; space.free(), 15);
    match space.start(7, 0, 0, true) {
        Ok(regs) => {
            for (k, value) in [(1, TEXT + 4), (2, STACKS + 8192), (4, STACKS), (10, 0)] {
                assert_eq!(rt; regs.get(k), value);
            }
            assert_eq!(rt; regs.pc, TEXT);
        }
        Err(few) => assert_eq!(rt; few.need, 0),
    }
    assert_eq!(rt; space.free(), 9);
    Ok(())
}

#[test]
fn a_view_of_page_tables(rt: HostRuntime) -> Result<(), Fail> {
    let mut space = running(board(rt.alloc(), &[1, 2, 3, 4, 5])?)?;
    assert_eq!(rt; space.free(), 7);
    assert_eq!(rt; space.fetch(TEXT), Ok(0x73));
    assert_eq!(rt; space.fetch(DATA), Err(12));
    assert_eq!(rt; space.load(DATA, 4), Ok(0x04030201));
    assert_eq!(rt; space.load(DATA + 4, 4), Ok(5));
    assert_eq!(rt; space.load(DATA + 4096, 4), Err(13));
    assert_eq!(rt; space.load(STACKS + 8188, 4), Ok(0));
    assert_eq!(rt; space.good(TEXT, 4096, Access::Fetch), true);
    assert_eq!(rt; space.good(TEXT, 4097, Access::Load), false);
    assert_eq!(rt; space.good(DATA, 4, Access::Store), true);
    assert_eq!(rt; space.good(TEXT, 4, Access::Store), false);
    assert_eq!(rt; space.store(TEXT, 4, 1), Err(15));
    Ok(())
}

// The stacks of slots 0 and 1 are in one region, and that of slot 2 is in the next.
#[test]
fn further_stacks_take_two_frames_and_three(rt: HostRuntime) -> Result<(), Fail> {
    let mut space = running(board(rt.alloc(), &[])?)?;
    assert_eq!(rt; space.free(), 9);
    match grow(&mut space, 1) {
        Ok(regs) => {
            for (k, value) in [
                (1, TEXT + 8),
                (2, STACKS + 0x200000 + 8192),
                (4, STACKS + 0x200000),
                (10, 0),
            ] {
                assert_eq!(rt; regs.get(k), value);
            }
            assert_eq!(rt; regs.pc, 0);
        }
        Err(few) => assert_eq!(rt; few.need, 0),
    }
    assert_eq!(rt; space.free(), 7);
    assert!(rt; grow(&mut space, 1).is_ok());
    assert_eq!(rt; space.free(), 7);
    assert!(rt; grow(&mut space, 2).is_ok());
    assert_eq!(rt; space.free(), 4);
    Ok(())
}

#[test]
fn a_stack_is_zeros_again(rt: HostRuntime) -> Result<(), Fail> {
    let mut space = running(board(rt.alloc(), &[])?)?;
    assert_eq!(rt; stored(&mut space, STACKS + 4096, 4, 5), Ok(()));
    assert_eq!(rt; space.load(STACKS + 4096, 4), Ok(5));
    assert!(rt; grow(&mut space, 0).is_ok());
    space.enter(7);
    assert_eq!(rt; space.load(STACKS + 4096, 4), Ok(0));
    assert_eq!(rt; space.fetch(TEXT), Ok(0x73));
    Ok(())
}

// Seven frames, of which the start takes six.
#[test]
fn a_stack_without_frames_is_refused(rt: HostRuntime) -> Result<(), Fail> {
    let mut space = running(small_board(rt.alloc(), 7)?)?;
    match grow(&mut space, 1) {
        Ok(_) => assert!(rt; false),
        Err(few) => assert_eq!(rt; few, TooFew { need: 2, free: 1 }),
    }
    assert_eq!(rt; space.free(), 1);
    Ok(())
}

#[test]
fn an_end_gives_the_frames_back(rt: HostRuntime) -> Result<(), Fail> {
    let mut space = running(board(rt.alloc(), &[])?)?;
    assert!(rt; grow(&mut space, 3).is_ok());
    assert_eq!(rt; space.free(), 6);
    space.finish(7);
    assert_eq!(rt; space.free(), 15);
    Ok(())
}

// A start that lacks a frame takes none.
#[test]
#[tactic(auto, unfolding(nx_space::specs::World::has_view))]
fn a_start_without_frames_is_refused(rt: HostRuntime) -> Result<(), Fail> {
    let mut space = small_board(rt.alloc(), 5)?;
    match space.start(7, 0, 3, true) {
        Ok(_) => assert!(rt; false),
        Err(few) => assert_eq!(rt; few, TooFew { need: 6, free: 5 }),
    }
    assert_eq!(rt; space.free(), 5);
    Ok(())
}

// A root, two tables, a page of text and 128 of a stack: there are 192 frames.
#[test]
fn a_second_start_lacks_frames(rt: HostRuntime) -> Result<(), Fail> {
    let mut space = running(large_board(rt.alloc())?)?;
    assert_eq!(rt; space.free(), 60);
    match space.start(8, 0, 1, true) {
        Ok(_) => assert!(rt; false),
        Err(few) => assert_eq!(rt;
            few,
            TooFew {
                need: 132,
                free: 60
            }
        ),
    }
    assert_eq!(rt; space.free(), 60);
    Ok(())
}
