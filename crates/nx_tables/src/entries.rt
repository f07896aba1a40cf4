ghost use Rattle.std.specs.Prelude.{◌≡◌, ◌+◌, ◌*◌, ◌≤◌, ◌<◌, length, IfSome};
ghost use Rattle.nx_base.specs.ByteLists.{put_bytes, to_le};
ghost use Rattle.nx_sv32.specs.Walk.{entry_at};
ghost use Rattle.nx_tables.specs.Maps.{Page, leaf_of, pointer_to, table_by};

use nx_base::PAGE_BYTES;
use nx_ram::Ram;

// The page number of the RAM's first frame.
const FIRST_PAGE: u32 = 0x80000;

// The bits of an entry. RISC-V Privileged Architecture 1.12, section 4.3.1.
const VALID: u32 = 1;

const READ: u32 = 2;

const WRITE: u32 = 4;

const EXECUTE: u32 = 8;

const USER: u32 = 16;

const ACCESSED: u32 = 64;

const DIRTY: u32 = 128;

// The entry of a page that may be written, or else run.
fn leaf_of(frame: u32, writes: bool) -> u32
    requires { frame < 524288 }
    ensures { result ≡ leaf_of (record { frame = frame; writes = writes }) }
{
    let rights = if writes {
        VALID + READ + WRITE + USER + ACCESSED + DIRTY
    } else {
        VALID + READ + EXECUTE + USER + ACCESSED
    };
    rights + 1024 * (FIRST_PAGE + frame)
}

/// The frame of the table of a region of 4 MiB, by the root in a frame. Frames count from the RAM's
/// start.
#[tactic(auto, unfolding(nx_sv32::specs::Walk::entry_at))]
pub fn table_of(ram: &Ram, root: u32, region: u32) -> Option<u32>
    requires inside { 4096 * root + 4096 ≤ length ram.now }
    requires region { region < 1024 }
    ensures { result ≡ table_by (entry_at ram.now (4096 * root + 4 * region)) }
{
    let _size = ram.len();
    let entry = ram.load32(PAGE_BYTES * root + 4 * region);
    if entry == 0 {
        None
    } else {
        Some((entry / 1024).saturating_sub(FIRST_PAGE))
    }
}

/// Writes the entry of a region's table into a root. Frames count from the RAM's start.
pub fn map_table(ram: &mut Ram, root: u32, region: u32, frame: u32)
    requires inside { 4096 * root + 4096 ≤ length ram.old }
    requires region { region < 1024 }
    requires frame { frame < 524288 }
    ensures bytes { ram.new ≡ put_bytes ram.old (4096 * root + 4 * region) (to_le 4 (pointer_to frame)) }
    ensures long { length ram.new ≡ length ram.old }
{
    let _size = ram.len();
    ram.store32(
        PAGE_BYTES * root + 4 * region,
        VALID + 1024 * (FIRST_PAGE + frame),
    );
}

/// Writes the entry of a page into the table of its region, where pages count from 0. The page may be
/// written, or else run. Frames count from the RAM's start.
pub fn map_page(ram: &mut Ram, table: u32, page: u32, frame: u32, writes: bool)
    requires inside { 4096 * table + 4096 ≤ length ram.old }
    requires page { page < 1024 }
    requires frame { frame < 524288 }
    ensures bytes { ram.new ≡ put_bytes ram.old (4096 * table + 4 * page) (to_le 4 (leaf_of (record { frame = frame; writes = writes }))) }
    ensures long { length ram.new ≡ length ram.old }
{
    let _size = ram.len();
    ram.store32(PAGE_BYTES * table + 4 * page, leaf_of(frame, writes));
}
