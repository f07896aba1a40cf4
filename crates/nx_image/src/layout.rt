ghost use Rattle.std.specs.Prelude.{◌≡◌, ◌+◌, ◌*◌, ◌<◌, ◌≤◌, ◌^◌, ◌++◌, All, length, IfOk, OnOk};
ghost use Rattle.nx_config.specs.Limits.{AreInRange};
ghost use Rattle.nx_image.specs.Layout.{up, pages, regions, pool_bytes, stacks_bytes, texts, contents, IsSmall, joint_need, start_frames, most_frames, need_of, texts_at, data_at, in_turn, alike, addresses_of};

use nx_base::{Build, OutOfMemory, PAGE_BYTES};
use nx_config::Limits;
use nx_space::RAM_START;
use std::alloc::{AllocError, Global};

/// How an image is laid out: for which build, with which limits.
#[derive(Clone, Copy, Debug, PartialEq, Eq)]
pub struct Layout {
    /// The memory configuration.
    pub build: Build,
    /// The limits of the system.
    pub limits: Limits,
}

/// How many bytes a program's text and data have.
#[derive(Clone, Copy, Debug, PartialEq, Eq)]
pub struct Sizes {
    /// Those of the text.
    pub text: u64,
    /// Those of the data.
    pub init: u64,
}

/// Where a program's text and data stand, as the program sees them.
#[derive(Clone, Copy, Debug, PartialEq, Eq)]
pub struct Addresses {
    /// The address of the text.
    pub text_at: u32,
    /// The address of the data.
    pub data_at: u32,
}

/// The blocks of the pool have so many bytes each.
const BLOCK_BYTES: u64 = 64;

/// Where a program's text stands in the kernel build.
const PAGED_TEXT: u32 = 0x00010000;

/// Where a program's data stand in the kernel build.
const PAGED_DATA: u32 = 0x10000000;

/// The pages of one table of pages.
const TABLE_PAGES: u64 = 1024;

/// How many pages some bytes take.
#[tactic(auto, unfolding(crate::specs::Layout::pages))]
fn pages(bytes: u64) -> u64
    requires { bytes < 2 ^ 40 }
    ensures value { result ≡ pages bytes }
    ensures small { 4096 * result < bytes + 4096 }
{
    (bytes + (PAGE_BYTES as u64 - 1)) / PAGE_BYTES as u64
}

/// Bytes rounded up to whole pages.
#[tactic(auto, unfolding(crate::specs::Layout::up, crate::specs::Layout::pages))]
fn up(bytes: u64) -> u64
    requires { bytes < 2 ^ 40 }
    ensures value { result ≡ up bytes }
    ensures small { result < bytes + 4096 }
{
    pages(bytes) * PAGE_BYTES as u64
}

/// How many regions of 4 MiB have one of some pages, the first of which is the page of a region
/// with this number.
#[tactic(auto, unfolding(crate::specs::Layout::regions))]
fn regions(first: u64, pages: u64) -> u64
    requires first { first < 2 ^ 10 }
    requires pages { pages < 2 ^ 40 }
    ensures value { result ≡ regions first pages }
    ensures small { 1024 * result < first + pages + 1024 }
{
    (first + pages + (TABLE_PAGES - 1)) / TABLE_PAGES
}

fn pool_bytes(limits: &Limits) -> u64
    requires { AreInRange limits.now }
    ensures value { result ≡ pool_bytes limits.now }
    ensures small { result < 2 ^ 23 }
{
    up(BLOCK_BYTES * limits.blocks as u64)
}

fn stacks_bytes(limits: &Limits) -> u64
    requires { AreInRange limits.now }
    ensures value { result ≡ stacks_bytes limits.now }
    ensures small { result ≤ 2 ^ 26 }
{
    limits.threads as u64 * limits.stack as u64
}

/// The bytes of all texts.
fn texts(sizes: &[Sizes]) -> u64
    requires few { length sizes.now ≤ 32 }
    requires small { All IsSmall sizes.now }
    ensures value { result ≡ texts sizes.now }
    ensures small { result ≤ length sizes.now * 2 ^ 32 }
{
    match sizes {
        [] => 0,
        [first, rest @ ..] => first.text + texts(rest),
    }
}

/// The bytes of all data.
fn contents(sizes: &[Sizes]) -> u64
    requires few { length sizes.now ≤ 32 }
    requires small { All IsSmall sizes.now }
    ensures value { result ≡ contents sizes.now }
    ensures small { result ≤ length sizes.now * 2 ^ 32 }
{
    match sizes {
        [] => 0,
        [first, rest @ ..] => first.init + contents(rest),
    }
}

/// What pool, texts, data and stacks take together.
fn joint_need(limits: &Limits, sizes: &[Sizes]) -> u64
    requires limits { AreInRange limits.now }
    requires few { length sizes.now ≤ 32 }
    requires small { All IsSmall sizes.now }
    ensures { result ≡ joint_need limits.now sizes.now }
{
    pool_bytes(limits) + (up(texts(sizes)) + (up(contents(sizes)) + stacks_bytes(limits)))
}

/// The page frames of a start of a program: a root, one for each page, and one for the table of each
/// region.
fn start_frames(limits: &Limits, sizes: &Sizes) -> u64
    requires limits { AreInRange limits.now }
    requires small { IsSmall sizes.now }
    ensures value { result ≡ start_frames limits.now sizes.now }
    ensures small { result ≤ 2 ^ 23 }
{
    let text = pages(sizes.text);
    let data = pages(sizes.init);
    let stack = pages(limits.stack as u64);
    let first = PAGED_TEXT as u64 / PAGE_BYTES as u64;
    1 + (text + data + stack) + (regions(first, text) + regions(0, data) + regions(0, stack))
}

/// The page frames of the start that takes the most.
fn most_frames(limits: &Limits, sizes: &[Sizes]) -> u64
    requires limits { AreInRange limits.now }
    requires small { All IsSmall sizes.now }
    ensures value { result ≡ most_frames limits.now sizes.now }
    ensures small { result ≤ 2 ^ 23 }
{
    match sizes {
        [] => 0,
        [first, rest @ ..] => start_frames(limits, first).max(most_frames(limits, rest)),
    }
}

/// How many bytes of RAM an image takes: in the flat and the protected build pool, texts, data and
/// stacks, in the kernel build the pool and the page frames of the start that takes the most.
pub fn need(layout: &Layout, sizes: &[Sizes]) -> u64
    requires limits { AreInRange layout.now.limits }
    requires few { length sizes.now ≤ 32 }
    requires small { All IsSmall sizes.now }
    ensures { result ≡ need_of layout.now sizes.now }
{
    let limits = &layout.limits;
    match layout.build {
        Build::Flat => joint_need(limits, sizes),
        Build::Protected => joint_need(limits, sizes),
        Build::Kernel => pool_bytes(limits) + PAGE_BYTES as u64 * most_frames(limits, sizes),
    }
}

/// Texts one after another from an address on, and data from another.
fn put_in_turn(
    out: &mut Vec<Addresses>,
    text_at: u32,
    data_at: u32,
    sizes: &[Sizes],
) -> Result<(), AllocError>
    requires text_fits { text_at + texts sizes.now < 2 ^ 32 }
    requires data_fits { data_at + contents sizes.now < 2 ^ 32 }
    ensures { OnOk result (out.new.items ≡ out.old.items ++ in_turn text_at data_at sizes.now) }
{
    match sizes {
        [] => Ok(()),
        [first, rest @ ..] => {
            out.push(Addresses { text_at, data_at })?;
            put_in_turn(
                out,
                text_at + first.text as u32,
                data_at + first.init as u32,
                rest,
            )
        }
    }
}

/// The same addresses for every program.
fn put_alike(out: &mut Vec<Addresses>, sizes: &[Sizes]) -> Result<(), AllocError>
    ensures { OnOk result (out.new.items ≡ out.old.items ++ alike sizes.now) }
{
    match sizes {
        [] => Ok(()),
        [_, rest @ ..] => {
            out.push(Addresses {
                text_at: PAGED_TEXT,
                data_at: PAGED_DATA,
            })?;
            put_alike(out, rest)
        }
    }
}

/// Texts and data in the RAM, behind the pool.
fn put_joint(out: &mut Vec<Addresses>, limits: &Limits, sizes: &[Sizes]) -> Result<(), AllocError>
    requires limits { AreInRange limits.now }
    requires few { length sizes.now ≤ 32 }
    requires small { All IsSmall sizes.now }
    requires fits { joint_need limits.now sizes.now ≤ limits.now.ram }
    ensures { OnOk result (out.new.items ≡ out.old.items ++ in_turn (texts_at limits.now) (data_at limits.now sizes.now) sizes.now) }
{
    let text_at = RAM_START + pool_bytes(limits) as u32;
    let data_at = text_at + up(texts(sizes)) as u32;
    put_in_turn(out, text_at, data_at, sizes)
}

/// Where the texts and data of programs of these sizes stand, in their order.
///
/// The image has at most 32 programs, and room in the RAM.
pub fn place_all(
    alloc: Global,
    layout: &Layout,
    sizes: &[Sizes],
) -> Result<Vec<Addresses>, OutOfMemory>
    requires limits { AreInRange layout.now.limits }
    requires few { length sizes.now ≤ 32 }
    requires small { All IsSmall sizes.now }
    requires fits { need_of layout.now sizes.now ≤ layout.now.limits.ram }
    ensures { IfOk result (λ list. list.items ≡ addresses_of layout.now sizes.now) }
{
    let mut out = Vec::new(alloc);
    match layout.build {
        Build::Flat => put_joint(&mut out, &layout.limits, sizes)?,
        Build::Protected => put_joint(&mut out, &layout.limits, sizes)?,
        Build::Kernel => put_alike(&mut out, sizes)?,
    }
    Ok(out)
}
