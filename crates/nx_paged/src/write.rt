ghost use Rattle.std.specs.Prelude.{◌≡◌, ◌+◌, ◌%◌, ◌^◌, ◌≤◌, ◌<◌, length, replicate};
ghost use Rattle.nx_base.specs.ByteLists.{AreBytes};
ghost use Rattle.nx_sv32.specs.Walk.{ram_start};
ghost use Rattle.nx_paged.specs.Writing.{HasPlace, WritesAll};

use nx_base::{Access, PAGE_BYTES};
use nx_ram::Ram;
use nx_space::RAM_START;
use nx_sv32::walk;

// Writes bytes of one page, `from` bytes after the start of a window of `size` bytes.
fn write_page(ram: &mut Ram, satp: u32, at: u32, size: u32, from: u32, bytes: &[u8])
    requires fits { ram_start + length ram.old ≤ 2 ^ 32 }
    requires place { ∥ HasPlace ram.old satp at size ∥₁ }
    requires page { from % 4096 ≡ 0 }
    requires one { length bytes.now ≤ 4096 }
    requires some { from < size }
    requires inside { from + length bytes.now ≤ size }
    ensures writes { WritesAll ram.old ram.new satp at size from bytes.now }
    ensures small { AreBytes ram.new }
    ensures long { length ram.new ≡ length ram.old }
{
    match walk(ram, satp, at + from, Access::Load) {
        Ok(to) => ram.put(to - RAM_START, bytes),
        Err(_) => unreachable!(),
    }
}

/// Writes bytes from the start of a window of `size` bytes on, where the tables map it.
pub fn write_bytes(ram: &mut Ram, satp: u32, at: u32, size: u32, bytes: &[u8])
    requires fits { ram_start + length ram.old ≤ 2 ^ 32 }
    requires place { ∥ HasPlace ram.old satp at size ∥₁ }
    requires inside { length bytes.now ≤ size }
    ensures writes { WritesAll ram.old ram.new satp at size 0 bytes.now }
    ensures small { AreBytes ram.new }
    ensures long { length ram.new ≡ length ram.old }
{
    let _size = ram.len();
    let count = bytes.len();
    for k in 0..(count + 4095) / 4096 {
        let from = 4096 * k;
        let end = count.min(from + 4096);
        write_page(ram, satp, at, size, from as u32, &bytes[from..end]);
    }
}

// Sets bytes of one page to zeros, `from` bytes after the start of a window of `size` bytes.
fn zero_page(ram: &mut Ram, satp: u32, at: u32, size: u32, from: u32, count: u32)
    requires fits { ram_start + length ram.old ≤ 2 ^ 32 }
    requires place { ∥ HasPlace ram.old satp at size ∥₁ }
    requires page { from % 4096 ≡ 0 }
    requires one { count ≤ 4096 }
    requires some { from < size }
    requires inside { from + count ≤ size }
    ensures writes { WritesAll ram.old ram.new satp at size from (replicate count 0) }
    ensures long { length ram.new ≡ length ram.old }
{
    match walk(ram, satp, at + from, Access::Load) {
        Ok(to) => ram.zero(to - RAM_START, count),
        Err(_) => unreachable!(),
    }
}

/// Sets a window of `size` bytes, which are whole pages, to zeros, where the tables map it.
pub fn zero_bytes(ram: &mut Ram, satp: u32, at: u32, size: u32)
    requires fits { ram_start + length ram.old ≤ 2 ^ 32 }
    requires place { ∥ HasPlace ram.old satp at size ∥₁ }
    requires whole { size % 4096 ≡ 0 }
    ensures writes { WritesAll ram.old ram.new satp at size 0 (replicate size 0) }
    ensures small { AreBytes ram.new }
    ensures long { length ram.new ≡ length ram.old }
{
    for k in 0..size / PAGE_BYTES {
        let from = PAGE_BYTES * k;
        let count = (size - from).min(PAGE_BYTES);
        zero_page(ram, satp, at, size, from, count);
    }
    let _bytes = ram.len();
}
