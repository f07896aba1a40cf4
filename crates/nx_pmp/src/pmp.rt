ghost use Rattle.std.specs.Prelude.{◌≡◌, ◌+◌, ◌^◌, ◌<◌, ◌≤◌};
ghost use Rattle.nx_pmp.specs.Protection.{is_set, right_of, permits, allows};

use crate::matching::{matched, matching_of};
use nx_base::{Access, Mode};

/// One entry: its configuration, `pmpcfg`, and its address field, `pmpaddr`, which holds the bits
/// 33 to 2 of an address. RISC-V Privileged Architecture 1.12, section 3.7.1.
#[derive(Clone, Copy, Debug, PartialEq, Eq, Drop)]
pub struct PmpEntry {
    /// The configuration: R, W, X, A and L, in the manual's bits.
    pub cfg: u8,
    /// Bits 33 to 2 of an address.
    pub addr: u32,
}

/// The sixteen entries. The one with the lowest number that matches any byte of an access decides.
#[derive(Clone, Copy, Debug, PartialEq, Eq, Drop)]
pub struct Pmp {
    /// By their numbers, from 0.
    pub entries: [PmpEntry; 16],
}

// The bit of a weight: 1 R, 2 W, 4 X, 128 L.
fn is_set(cfg: u8, weight: u8) -> bool
    requires { 1 ≤ weight }
    ensures { result ≡ is_set cfg weight }
{
    cfg / weight % 2 == 1
}

/// Whether a configuration permits an access in a mode.
pub fn permits(cfg: u8, access: Access, mode: Mode) -> bool
    ensures { result ≡ permits cfg access mode }
{
    let right = match access {
        Access::Load => 1,
        Access::Store => 2,
        Access::Fetch => 4,
    };
    mode == Mode::Machine && !is_set(cfg, 128) || is_set(cfg, right)
}

impl Pmp {
    /// Whether an access to the `len` bytes at an address is allowed: exactly by the rules of
    /// priority and matching of RISC-V Privileged Architecture 1.12, section 3.7.1.
    #[tactic(auto, unfolding(crate::specs::Protection::allows))]
    pub fn allows(&self, at: u32, len: u32, access: Access, mode: Mode) -> bool
        requires some { 1 ≤ len }
        requires few { len ≤ 4 }
        requires fits { at + len ≤ 2 ^ 32 }
        ensures { result ≡ allows self.now at len access mode }
    {
        let mut before = 0;
        for entry in &self.entries {
            if let Some(range) = matched(matching_of(entry.cfg), before, entry.addr)
                && range.matches_any(at, len)
            {
                return range.matches_all(at, len) && permits(entry.cfg, access, mode);
            }
            before = entry.addr;
        }
        mode == Mode::Machine
    }
}
