ghost use Rattle.std.specs.Prelude.{◌≡◌, ◌+◌, ◌^◌, ◌≤◌, length};
ghost use Rattle.nx_sv32.specs.Walk.{ram_start};
ghost use Rattle.nx_paged.specs.Walks.{all_walked};

use nx_base::Access;
use nx_ram::Ram;
use nx_sv32::walk;

/// Whether the walk from a root gives each of the `len` bytes at an address a physical address.
pub fn are_walked(ram: &Ram, satp: u32, at: u32, len: u32, access: Access) -> bool
    requires fits { ram_start + length ram.now ≤ 2 ^ 32 }
    requires top { at + len ≤ 2 ^ 32 }
    ensures { result ≡ all_walked ram.now satp access at len }
{
    for i in 0..len {
        if walk(ram, satp, at + i, access).is_err() {
            return false;
        }
    }
    true
}
