ghost use Rattle.std.specs.Prelude.{◌≡◌, ◌+◌, ◌*◌, ◌/◌, ◌%◌, ◌^◌, ◌≤◌, ◌<◌, if◌then◌else◌, length, map};
ghost use Rattle.std.specs.Option.{is_some};
ghost use Rattle.nx_base.specs.ByteLists.{AreBytes};
ghost use Rattle.nx_frames.specs.Stock.{Holds, frames_of};
ghost use Rattle.nx_sv32.specs.Walk.{entry_at};
ghost use Rattle.nx_tables.specs.Maps.{table_by};
ghost use Rattle.nx_space.specs.Starts.{different, pages_from, pages_of};
ghost use Rattle.nx_paged.specs.Paging.{IsLaidOut};
ghost use Rattle.nx_paged.specs.Starting.{Startable, MapsAll, program_entries};
ghost use Rattle.nx_paged.specs.Building.{regions_of};

use crate::build::add_pages;
use crate::write::write_bytes;
use nx_base::PAGE_BYTES;
use nx_frames::{Frames, Taken};
use nx_ram::{ProgImage, Ram};
use nx_space::RAM_START;
use nx_tables::table_of;

/// How many pages so many bytes take.
pub fn pages_of(count: u32) -> u32
    requires { count ≤ 0x40000000 }
    ensures pages { result ≡ pages_of count }
    ensures most { result ≤ 0x40000 }
{
    (count + (PAGE_BYTES - 1)) / PAGE_BYTES
}

/// How many frames pages side by side take: one for each, and one for the table of each region.
pub fn frames_of_pages(first: u32, count: u32) -> u32
    requires { first + count ≤ 1048576 }
    ensures frames { result ≡ count + different (map (λ page. page / 1024) (pages_from first count)) }
    ensures most { result ≤ 2097153 }
{
    if count == 0 {
        0
    } else {
        count + ((first + count - 1) / 1024 - first / 1024 + 1)
    }
}

/// Maps the windows of a program and of a stack from `low` on, under the root in a frame, and writes the
/// text and the data. The frames that were taken must be zeros, the root the first of them, and as many
/// as the windows need.
pub fn map_program(
    ram: &mut Ram,
    frames: &Frames,
    taken: &Taken,
    root: u32,
    program: &ProgImage,
    low: u32,
    stack: u32,
)
    requires held { Holds frames.now taken.now }
    requires laid_out { IsLaidOut program.now }
    requires low { 0x40000000 ≤ low }
    requires high { low + stack ≤ 0x48000000 }
    requires root { root < 524288 }
    requires start { ∥ Startable ram.old (frames_of frames.now taken.now) root program.now low stack ∥₁ }
    ensures mapped { MapsAll ram.old ram.new (frames_of frames.now taken.now) root program.now low stack }
    ensures small { AreBytes ram.new }
    ensures long { length ram.new ≡ length ram.old }
{
    let text = pages_of(program.text.len() as u32);
    let contents = pages_of(program.init.len() as u32);
    let used = add_pages(
        ram,
        frames,
        taken,
        1,
        root,
        low / PAGE_BYTES,
        pages_of(stack),
        true,
    );
    let used = add_pages(
        ram,
        frames,
        taken,
        used,
        root,
        program.data_at / PAGE_BYTES,
        contents,
        true,
    );
    let _all = add_pages(
        ram,
        frames,
        taken,
        used,
        root,
        program.text_at / PAGE_BYTES,
        text,
        false,
    );
    let satp = 0x80000000 + (RAM_START / PAGE_BYTES + root);
    write_bytes(
        ram,
        satp,
        program.text_at,
        PAGE_BYTES * text,
        program.text.as_slice(),
    );
    write_bytes(
        ram,
        satp,
        program.data_at,
        PAGE_BYTES * contents,
        program.init.as_slice(),
    );
}

/// How many frames a program and a stack from `low` on take: a root, one for each page, and one for the
/// table of each region that has a page.
pub fn program_need(program: &ProgImage, low: u32, stack: u32) -> u32
    requires laid_out { IsLaidOut program.now }
    requires low { 0x40000000 ≤ low }
    requires high { low + stack ≤ 0x48000000 }
    requires whole { low % 4096 ≡ 0 }
    ensures { result ≡ 1 + (length (program_entries program.now low stack) + different (regions_of (program_entries program.now low stack))) }
{
    let text = pages_of(program.text.len() as u32);
    let contents = pages_of(program.init.len() as u32);
    1 + frames_of_pages(program.text_at / PAGE_BYTES, text)
        + frames_of_pages(program.data_at / PAGE_BYTES, contents)
        + frames_of_pages(low / PAGE_BYTES, pages_of(stack))
}

/// How many frames a stack from `low` on takes more: one for each page, and one for the table of their
/// region where the root in a frame has none.
pub fn stack_need(ram: &Ram, root: u32, low: u32, stack: u32) -> u32
    requires inside { 4096 * root + 4096 ≤ length ram.now }
    requires stack { stack ≤ 0x100000 }
    ensures { result ≡ pages_of stack + (if is_some (table_by (entry_at ram.now (4096 * root + 4 * (low / 4096 / 1024)))) then 0 else 1) }
{
    let pages = pages_of(stack);
    match table_of(ram, root, low / PAGE_BYTES / 1024) {
        Some(_) => pages,
        None => pages + 1,
    }
}
