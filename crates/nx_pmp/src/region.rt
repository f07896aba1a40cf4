ghost use Rattle.std.specs.Prelude.{◌≡◌, ℕ, ◌+◌, ◌≤◌, true, false, IfSome};
ghost use Rattle.nx_pmp.specs.declared.pmp.Pmp.{Pmp};
ghost use Rattle.nx_pmp.specs.Protection.{any_byte, all_bytes};
ghost use Rattle.nx_pmp.specs.Unit.{Contains, IsDecided};

use crate::matching::{Range, matched, matching_of};
use crate::pmp::Pmp;

/// Addresses, and the configuration of the entry that decides each access that lies in them whole.
#[derive(Clone, Copy, Debug, PartialEq, Eq, Drop)]
pub struct Region {
    /// The addresses. No access lies in an empty range.
    pub range: Range,
    /// The configuration.
    pub cfg: u8,
}

/// A region in which no access lies.
#[tactic(auto, unfolding(crate::specs::Unit::IsDecided))]
pub fn no_region() -> Region
    ensures { (pmp : Pmp) → IsDecided pmp result }
{
    Region {
        range: Range { from: 0, to: 0 },
        cfg: 0,
    }
}

// What two ranges share, where the second one matches a byte of an access.
fn shared(within: Range, matched: Option<Range>, at: u32, len: u32) -> Option<Range>
    ensures { IfSome result (λ r. (k n : ℕ) → 1 ≤ n → Contains r k n → Contains within k n × (any_byte matched k n ≡ true) × (all_bytes matched k n ≡ true)) }
{
    match matched {
        Some(range) if range.matches_any(at, len) => Some(Range {
            from: within.from.max(range.from),
            to: within.to.min(range.to),
        }),
        _ => None,
    }
}

// What the second range leaves of the first one, on the side of an address.
fn beside(within: Range, matched: Option<Range>, at: u32) -> Range
    ensures { (k n : ℕ) → Contains result k n → Contains within k n × (any_byte matched k n ≡ false) }
{
    match matched {
        None => within,
        Some(range) if range.to <= at as u64 => Range {
            from: within.from.max(range.to),
            to: within.to,
        },
        Some(range) => Range {
            from: within.from,
            to: within.to.min(range.from),
        },
    }
}

/// The addresses round an access in which the entry that decides it decides alone.
#[cold]
#[inline(never)]
pub fn region_of(pmp: &Pmp, at: u32, len: u32) -> Region
    ensures { IsDecided pmp.now result }
{
    let mut within = Range {
        from: 0,
        to: u64::MAX,
    };
    let mut before = 0;
    for entry in &pmp.entries {
        let matched = matched(matching_of(entry.cfg), before, entry.addr);
        if let Some(range) = shared(within, matched, at, len) {
            return Region {
                range,
                cfg: entry.cfg,
            };
        }
        within = beside(within, matched, at);
        before = entry.addr;
    }
    no_region()
}
