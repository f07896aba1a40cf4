ghost use Rattle.std.specs.Prelude.{◌≡◌, ◌+◌, ◌*◌, ◌≤◌, ◌<◌, ◌^◌, length, IfSome};
ghost use Rattle.nx_sv32.specs.Walk.{ram_start, table_place, in_ram, page_leaf, superpage_leaf, last_entry, last_table, first_entry, first_table, entry_at, walk, or_fault};

use crate::entry::{is_leaf, is_pointer, is_refused, permits};
use nx_base::Access;
use nx_ram::Ram;
use thiserror::Error;

const RAM_START: u64 = 0x80000000;

const PAGE: u64 = 4096;

/// The tables give an address no translation for its access.
#[derive(Clone, Copy, Debug, PartialEq, Eq, Error)]
#[error("page fault")]
pub struct PageFault;

// The place in the RAM of a table with a page number, where all its bytes lie in the RAM.
#[tactic(auto, unfolding(crate::specs::Walk::table_place))]
fn table_place(size: u32, page: u32) -> Option<u32>
    requires { page < 4194304 }
    ensures place { result ≡ table_place size page }
    ensures room { IfSome result (λ t. t + 4096 ≤ size) }
{
    let at = PAGE * page as u64;
    if RAM_START <= at && at + PAGE <= RAM_START + size as u64 {
        Some((at - RAM_START) as u32)
    } else {
        None
    }
}

#[tactic(auto, unfolding(crate::specs::Walk::in_ram))]
fn in_ram(size: u32, at: u64) -> Option<u64>
    requires { at < 34359738368 }
    ensures address { result ≡ in_ram size at }
    ensures small { IfSome result (λ to. to + 1 ≤ ram_start + size) }
{
    if RAM_START <= at && at < RAM_START + size as u64 {
        Some(at)
    } else {
        None
    }
}

#[tactic(auto, unfolding(crate::specs::Walk::page_leaf))]
fn page_leaf(size: u32, entry: u32, at: u32, access: Access) -> Option<u64>
    ensures address { result ≡ page_leaf size entry at access }
    ensures small { IfSome result (λ to. to + 1 ≤ ram_start + size) }
{
    if permits(entry, access) {
        in_ram(size, PAGE * (entry / 1024) as u64 + (at % 4096) as u64)
    } else {
        None
    }
}

#[tactic(auto, unfolding(crate::specs::Walk::superpage_leaf))]
fn superpage_leaf(size: u32, entry: u32, at: u32, access: Access) -> Option<u64>
    ensures address { result ≡ superpage_leaf size entry at access }
    ensures small { IfSome result (λ to. to + 1 ≤ ram_start + size) }
{
    if permits(entry, access) && entry / 1024 % 1024 == 0 {
        in_ram(size, PAGE * (entry / 1024) as u64 + (at % 4194304) as u64)
    } else {
        None
    }
}

#[tactic(auto, unfolding(crate::specs::Walk::entry_at))]
fn entry_at(ram: &Ram, place: u32) -> u32
    requires { place + 4 ≤ length ram.now }
    ensures { result ≡ entry_at ram.now place }
{
    ram.load32(place)
}

#[tactic(auto, unfolding(crate::specs::Walk::last_entry))]
fn last_entry(size: u32, entry: u32, at: u32, access: Access) -> Option<u64>
    ensures address { result ≡ last_entry size entry at access }
    ensures small { IfSome result (λ to. to + 1 ≤ ram_start + size) }
{
    if is_refused(entry) {
        None
    } else if is_leaf(entry) {
        page_leaf(size, entry, at, access)
    } else {
        None
    }
}

fn last_table(ram: &Ram, page: u32, at: u32, access: Access) -> Option<u64>
    requires { page < 4194304 }
    ensures address { result ≡ last_table ram.now (table_place (length ram.now) page) at access }
    ensures small { IfSome result (λ to. to + 1 ≤ ram_start + length ram.now) }
{
    match table_place(ram.len(), page) {
        Some(t) => last_entry(
            ram.len(),
            entry_at(ram, t + 4 * (at / 4096 % 1024)),
            at,
            access,
        ),
        None => None,
    }
}

#[tactic(auto, unfolding(crate::specs::Walk::first_entry))]
fn first_entry(ram: &Ram, entry: u32, at: u32, access: Access) -> Option<u64>
    ensures address { result ≡ first_entry ram.now entry at access }
    ensures small { IfSome result (λ to. to + 1 ≤ ram_start + length ram.now) }
{
    if is_refused(entry) {
        None
    } else if is_leaf(entry) {
        superpage_leaf(ram.len(), entry, at, access)
    } else if is_pointer(entry) {
        last_table(ram, entry / 1024, at, access)
    } else {
        None
    }
}

fn first_table(ram: &Ram, page: u32, at: u32, access: Access) -> Option<u64>
    requires { page < 4194304 }
    ensures address { result ≡ first_table ram.now (table_place (length ram.now) page) at access }
    ensures small { IfSome result (λ to. to + 1 ≤ ram_start + length ram.now) }
{
    match table_place(ram.len(), page) {
        Some(t) => first_entry(ram, entry_at(ram, t + 4 * (at / 4194304)), at, access),
        None => None,
    }
}

#[tactic(auto, unfolding(crate::specs::Walk::walk))]
fn walked(ram: &Ram, satp: u32, at: u32, access: Access) -> Option<u64>
    requires { ram_start + length ram.now ≤ 4294967296 }
    ensures address { result ≡ walk ram.now satp at access }
    ensures small { IfSome result (λ to. to < 4294967296) }
{
    if 2147483648 <= satp {
        first_table(ram, satp % 4194304, at, access)
    } else {
        Some(at as u64)
    }
}

/// The physical address of a virtual address for an access in user mode, by the tables under
/// `satp`. RISC-V Privileged Architecture 1.12, section 4.3.2; SUM and MXR are 0, A and D are never
/// set by a walk, and in a pointer entry a bit U, A or D that is set is a page fault.
///
/// The RAM starts at address 0x80000000 and ends at 2^32 at the latest. A table must lie in it with
/// all its 4,096 bytes, and so must the physical address. With mode 0 in `satp` the address is its
/// own translation, also outside the RAM.
pub fn walk(ram: &Ram, satp: u32, at: u32, access: Access) -> Result<u32, PageFault>
    requires { ram_start + length ram.now ≤ 2 ^ 32 }
    ensures { result ≡ or_fault (walk ram.now satp at access) }
{
    match walked(ram, satp, at, access) {
        Some(to) => Ok(to as u32),
        None => Err(PageFault),
    }
}
