ghost use Rattle.std.specs.Prelude.{◌≡◌, ◌<◌, [], length, IfOk};
ghost use Rattle.nx_space.specs.World.{IsEntered};
ghost use Rattle.nx_paged.specs.Paging.{IsLaidOut};

use crate::turns::{TURN_WORDS, turn_words};
use nx_base::{Bytes, OutOfMemory, Regs, Text, put_le32};
use nx_paged::PagedSpace;
use nx_ram::{ProgImage, Ram};
use nx_space::{FlatSpace, PmpSpace, RAM_START, Space};
use std::alloc::Global;

// Room for the loop, its word in memory and one stack.
const RAM_BYTES: u32 = 65536;

const STACK_BYTES: u32 = 4096;

// Where the data begin, and the stack: the loop's word stands between them.
const DATA_AT: u32 = RAM_START + 4096;

/// Where the loop's word stands.
pub const WORD_AT: u32 = RAM_START + 0x8000;

const STACKS_AT: u32 = RAM_START + 61440;

// Where the text and the loop's word stand in a view of page tables.
const PAGED_TEXT_AT: u32 = 0x00010000;

const PAGED_WORD_AT: u32 = 0x10000000;

const GROUP: u32 = 1;

/// A space with one group, which is entered, and the registers that it starts with.
#[derive(Drop)]
pub struct Board<S> {
    /// The space, in which group 1 is entered.
    pub space: S,
    /// The registers of the group's main thread.
    pub regs: Regs,
}

// A RAM with the loop at its first byte.
fn loaded_ram(alloc: Global) -> Result<Ram, OutOfMemory>
    ensures { IfOk result (λ ram. length ram ≡ RAM_BYTES) }
{
    let words = turn_words(WORD_AT);
    let mut ram = Ram::new(alloc, RAM_BYTES)?;
    for i in 0..TURN_WORDS {
        ram.store32(4 * i as u32, words[i]);
    }
    Ok(ram)
}

// A program at the RAM's first byte, with no data.
fn program(alloc: Global) -> Result<ProgImage, OutOfMemory>
    ensures text_at { IfOk result (λ program. program.text_at ≡ RAM_START) }
    ensures text { IfOk result (λ program. program.text ≡ []) }
    ensures data_at { IfOk result (λ program. program.data_at ≡ DATA_AT) }
    ensures init { IfOk result (λ program. program.init ≡ []) }
{
    Ok(ProgImage {
        name: Text::from_str(alloc, "loop")?,
        text_at: RAM_START,
        text: Bytes::new(alloc),
        data_at: DATA_AT,
        init: Bytes::new(alloc),
        main: RAM_START,
        end_group: RAM_START,
        end_thread: RAM_START,
    })
}

// Starts a group in a space without one.
#[tactic(auto, unfolding(nx_space::specs::World::has_view))]
fn started<S: Space + Drop>(mut space: S) -> Result<Board<S>, OutOfMemory>
    requires none { (S.world space).groups ≡ [] }
    requires threads { 0 < (S.world space).memory_map.threads }
    requires programs { 0 < length (S.world space).memory_map.programs }
    ensures { IfOk result (λ board. IsEntered (S.world board.space)) }
{
    match space.start(GROUP, 0, 0, true) {
        Ok(regs) => {
            space.enter(GROUP);
            Ok(Board { space, regs })
        }
        Err(_) => Err(OutOfMemory),
    }
}

/// A board over one window that stands before the loop's first instruction.
pub fn flat_board(alloc: Global) -> Result<Board<FlatSpace>, OutOfMemory>
    ensures { IfOk result (λ board. IsEntered (⟦<FlatSpace as Space>⟧.world board.space)) }
{
    let ram = loaded_ram(alloc)?;
    let mut programs = Vec::new(alloc);
    programs.push(program(alloc)?)?;
    started(FlatSpace::new(alloc, ram, programs, STACKS_AT, STACK_BYTES, 1)?)
}

/// The same behind protection entries, which are asked at each fetch, load and store.
pub fn protected_board(alloc: Global) -> Result<Board<PmpSpace>, OutOfMemory>
    ensures { IfOk result (λ board. IsEntered (⟦<PmpSpace as Space>⟧.world board.space)) }
{
    let ram = loaded_ram(alloc)?;
    let mut programs = Vec::new(alloc);
    programs.push(program(alloc)?)?;
    started(PmpSpace::new(
        alloc,
        ram,
        programs,
        RAM_START,
        DATA_AT,
        STACKS_AT,
        STACK_BYTES,
        1,
    )?)
}

// The same program where page tables give it a page of text and one of data.
fn paged_program(alloc: Global) -> Result<ProgImage, OutOfMemory>
    ensures { IfOk result IsLaidOut }
{
    let words = turn_words(PAGED_WORD_AT);
    let mut text = [0; 4 * TURN_WORDS];
    for i in 0..TURN_WORDS {
        put_le32(&mut text, 4 * i, words[i]);
    }
    Ok(ProgImage {
        name: Text::from_str(alloc, "loop")?,
        text_at: PAGED_TEXT_AT,
        text: Bytes::from_slice(alloc, &text)?,
        data_at: PAGED_WORD_AT,
        init: Bytes::from_slice(alloc, &[0, 0, 0, 0])?,
        main: PAGED_TEXT_AT,
        end_group: PAGED_TEXT_AT,
        end_thread: PAGED_TEXT_AT,
    })
}

// A RAM of zeros.
fn blank_ram(alloc: Global, size: u32) -> Result<Ram, OutOfMemory>
    ensures { IfOk result (λ ram. length ram ≡ size) }
{
    Ram::new(alloc, size)
}

/// The same by page tables, which are walked at each fetch, load and store.
pub fn paged_board(alloc: Global) -> Result<Board<PagedSpace>, OutOfMemory>
    ensures { IfOk result (λ board. IsEntered (⟦<PagedSpace as Space>⟧.world board.space)) }
{
    let ram = blank_ram(alloc, RAM_BYTES)?;
    let mut programs = Vec::new(alloc);
    programs.push(paged_program(alloc)?)?;
    started(PagedSpace::new(alloc, ram, programs, 0, STACK_BYTES, 1)?)
}
