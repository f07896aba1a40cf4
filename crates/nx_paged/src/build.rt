ghost use Rattle.std.specs.Prelude.{◌≡◌, ◌+◌, ◌-◌, ◌*◌, ◌/◌, ◌^◌, ◌≤◌, ◌<◌, [], ◌∷◌, length, slice_index};
ghost use Rattle.nx_frames.specs.Stock.{Holds, frames_of};
ghost use Rattle.nx_sv32.specs.Walk.{ram_start};
ghost use Rattle.nx_paged.specs.Building.{Entry, HasRoom, Adds, entries_from, regions_of};

use nx_base::PAGE_BYTES;
use nx_frames::{Frames, Taken};
use nx_ram::Ram;
use nx_space::RAM_START;
use nx_tables::{map_page, map_table, table_of};

/// The number of the `i`-th frame that was taken, counted from the RAM's start.
pub fn frame_number(frames: &Frames, taken: &Taken, i: u32) -> u32
    requires held { Holds frames.now taken.now }
    requires below { i < taken.now.count }
    ensures number { result ≡ (slice_index (frames_of frames.now taken.now) i - ram_start) / 4096 }
    ensures low { result < 524288 }
    ensures small { i + 1 < 2 ^ 32 }
{
    let _count = taken.count();
    frames.frame(taken, i).saturating_sub(RAM_START) / PAGE_BYTES
}

// Gives a region of a root a table, in the next frame, where it has none. This answers how many frames
// are used then.
fn add_table(
    ram: &mut Ram,
    frames: &Frames,
    taken: &Taken,
    used: u32,
    root: u32,
    region: u32,
) -> u32
    requires held { Holds frames.now taken.now }
    requires region { region < 1024 }
    requires room { ∥ HasRoom (frames_of frames.now taken.now) root (region ∷ []) 0 ram.old used ∥₁ }
    ensures adds { Adds (frames_of frames.now taken.now) root (region ∷ []) [] ram.old used ram.new result }
{
    match table_of(ram, root, region) {
        Some(_) => used,
        None => {
            let table = frame_number(frames, taken, used);
            map_table(ram, root, region, table);
            used + 1
        }
    }
}

// Maps a page, in the next frame. This answers how many frames are used then.
fn add_page(
    ram: &mut Ram,
    frames: &Frames,
    taken: &Taken,
    used: u32,
    root: u32,
    page: u32,
    writes: bool,
) -> u32
    requires held { Holds frames.now taken.now }
    requires page { page < 1048576 }
    requires room { ∥ HasRoom (frames_of frames.now taken.now) root (page / 1024 ∷ []) 1 ram.old used ∥₁ }
    ensures adds { Adds (frames_of frames.now taken.now) root (page / 1024 ∷ []) (record { page = page; writes = writes } ∷ []) ram.old used ram.new result }
{
    let used = add_table(ram, frames, taken, used, root, page / 1024);
    match table_of(ram, root, page / 1024) {
        Some(table) => {
            let frame = frame_number(frames, taken, used);
            map_page(ram, table, page % 1024, frame, writes);
            used + 1
        }
        None => unreachable!(),
    }
}

/// Maps `count` pages from one on, each in the next frame. This answers how many frames are used then.
pub fn add_pages(
    ram: &mut Ram,
    frames: &Frames,
    taken: &Taken,
    used: u32,
    root: u32,
    first: u32,
    count: u32,
    writes: bool,
) -> u32
    requires held { Holds frames.now taken.now }
    requires pages { first + count ≤ 1048576 }
    requires room { ∥ HasRoom (frames_of frames.now taken.now) root (regions_of (entries_from first count writes)) count ram.old used ∥₁ }
    ensures adds { Adds (frames_of frames.now taken.now) root (regions_of (entries_from first count writes)) (entries_from first count writes) ram.old used ram.new result }
{
    let mut used = used;
    for k in 0..count {
        used = add_page(
            ram,
            frames,
            taken,
            used,
            root,
            first + (count - k - 1),
            writes,
        );
    }
    used
}
