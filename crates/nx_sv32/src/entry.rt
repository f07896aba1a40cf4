ghost use Rattle.std.specs.Prelude.{◌≡◌, ◌≤◌};
ghost use Rattle.nx_sv32.specs.Entries.{has, is_refused, is_leaf, is_pointer, permits};

use nx_base::Access;

// The bits of a page table entry. RISC-V Privileged Architecture 1.12, section 4.3.1.
const VALID: u32 = 1;

const READ: u32 = 2;

const WRITE: u32 = 4;

const EXECUTE: u32 = 8;

const USER: u32 = 16;

const ACCESSED: u32 = 64;

const DIRTY: u32 = 128;

#[tactic(auto, unfolding(crate::specs::Entries::has))]
fn has(entry: u32, bit: u32) -> bool
    requires { 1 ≤ bit }
    ensures { result ≡ has entry bit }
{
    entry / bit % 2 == 1
}

/// Whether an entry is not valid, or may be written and not read.
#[tactic(auto, unfolding(crate::specs::Entries::is_refused))]
pub fn is_refused(entry: u32) -> bool
    ensures { result ≡ is_refused entry }
{
    !has(entry, VALID) || has(entry, WRITE) && !has(entry, READ)
}

/// Whether an entry is a leaf.
#[tactic(auto, unfolding(crate::specs::Entries::is_leaf))]
pub fn is_leaf(entry: u32) -> bool
    ensures { result ≡ is_leaf entry }
{
    has(entry, READ) || has(entry, EXECUTE)
}

/// Whether an entry that is no leaf points to a table: then bits U, A and D are clear.
#[tactic(auto, unfolding(crate::specs::Entries::is_pointer))]
pub fn is_pointer(entry: u32) -> bool
    ensures { result ≡ is_pointer entry }
{
    !has(entry, USER) && !has(entry, ACCESSED) && !has(entry, DIRTY)
}

/// Whether a leaf permits an access in user mode.
#[tactic(auto, unfolding(crate::specs::Entries::permits, crate::specs::Entries::has_right))]
pub fn permits(entry: u32, access: Access) -> bool
    ensures { result ≡ permits entry access }
{
    let right = match access {
        Access::Fetch => has(entry, EXECUTE),
        Access::Load => has(entry, READ),
        Access::Store => has(entry, WRITE) && has(entry, DIRTY),
    };
    has(entry, USER) && right && has(entry, ACCESSED)
}
