ghost use Rattle.std.specs.Prelude.{◌≡◌, ◌+◌, ◌^◌, ◌<◌, ◌≤◌, length, slice_set, IsSome, OnSome, IfSome, ◌↔◌};
ghost use Rattle.nx_base.specs.ByteLists.{put_bytes, to_le};
ghost use Rattle.nx_pmp.specs.Protection.{allows};
ghost use Rattle.nx_sv32.specs.Walk.{walk, or_fault, ram_start};

use nx_base::Access;
use nx_pmp::{Pmp, PmpEntry, Question};
use nx_ram::Ram;
use nx_sv32::{PageFault, walk};

/// Sets the entry at a place from 0 to 15.
pub fn set_entry(pmp: &mut Pmp, place: usize, entry: PmpEntry) -> Option<()>
    ensures there { IsSome result ↔ (place < 16) }
    ensures entries { OnSome result (pmp.new.entries ≡ slice_set pmp.old.entries place entry) }
{
    if place < 16 {
        pmp.entries[place] = entry;
        Some(())
    } else {
        None
    }
}

/// Whether an access of 1 to 4 bytes that ends at 2^32 at the latest is allowed.
pub fn allowed(pmp: &Pmp, question: Question) -> Option<bool>
    ensures asked { IsSome result ↔ ((1 ≤ question.len) × (question.len ≤ 4) × (question.at + question.len ≤ 2 ^ 32)) }
    ensures answer { IfSome result (λ answer. answer ≡ allows pmp.now question.at question.len question.access question.mode) }
{
    let Question {
        at,
        len,
        access,
        mode,
    } = question;
    if 1 <= len && len <= 4 && at as u64 + len as u64 <= 0x100000000 {
        Some(pmp.allows(at, len, access, mode))
    } else {
        None
    }
}

/// Stores a word at a place whose four bytes are in the RAM.
pub fn store_word(ram: &mut Ram, place: u32, value: u32) -> Option<()>
    ensures there { IsSome result ↔ (place + 4 ≤ length ram.old) }
    ensures bytes { OnSome result (ram.new ≡ put_bytes ram.old place (to_le 4 value)) }
{
    if place as u64 + 4 <= ram.len() as u64 {
        ram.store32(place, value);
        Some(())
    } else {
        None
    }
}

/// What a walk answers in a RAM that ends at 2^32 at the latest.
pub fn translated(ram: &Ram, satp: u32, at: u32, access: Access) -> Option<Result<u32, PageFault>>
    ensures fits { IsSome result ↔ (ram_start + length ram.now ≤ 2 ^ 32) }
    ensures answer { IfSome result (λ answer. answer ≡ or_fault (walk ram.now satp at access)) }
{
    if ram.len() <= 0x80000000 {
        Some(walk(ram, satp, at, access))
    } else {
        None
    }
}
