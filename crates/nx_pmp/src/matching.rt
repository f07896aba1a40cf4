ghost use Rattle.std.specs.Prelude.{◌≡◌, ℕ, ◌+◌, ◌*◌, ◌/◌, ◌^◌, ◌<◌, ◌≤◌, IfSome, Some};
ghost use Rattle.nx_pmp.specs.Matching.{matching_of, matched, power_of_two_range, matches_any, matches_all};

/// How an entry matches addresses, by the field A of its configuration.
#[derive(Clone, Copy, Debug, PartialEq, Eq, Drop)]
pub enum Matching {
    /// Null region: no address.
    Off,
    /// Top of range.
    Tor,
    /// Naturally aligned four bytes.
    Na4,
    /// Naturally aligned power of two, of at least eight bytes.
    Napot,
}

/// A range of byte addresses, from `from` up to `to`, which is outside.
#[derive(Clone, Copy, Debug, PartialEq, Eq, Drop)]
pub struct Range {
    /// The first address, in bytes.
    pub from: u64,
    /// The address after the last one, in bytes.
    pub to: u64,
}

/// How the entry with this configuration matches addresses.
pub fn matching_of(cfg: u8) -> Matching
    ensures { result ≡ matching_of cfg }
{
    match cfg / 8 % 4 {
        0 => Matching::Off,
        1 => Matching::Tor,
        2 => Matching::Na4,
        _ => Matching::Napot,
    }
}

#[tactic(auto, unfolding(crate::specs::Matching::power_of_two_range))]
fn power_of_two_range(addr: u32) -> Range
    ensures { result ≡ power_of_two_range addr }
{
    let width = addr.trailing_ones() + 3;
    let number = 4 * addr as u64 >> width;
    Range {
        from: number << width,
        to: (number + 1) << width,
    }
}

/// The addresses that an entry with address field `addr` matches, where the entry before it has
/// `before`.
pub fn matched(matching: Matching, before: u32, addr: u32) -> Option<Range>
    ensures { result ≡ matched matching before addr }
{
    match matching {
        Matching::Off => None,
        Matching::Tor => {
            if before < addr {
                Some(Range {
                    from: 4 * before as u64,
                    to: 4 * addr as u64,
                })
            } else {
                None
            }
        }
        Matching::Na4 => Some(Range {
            from: 4 * addr as u64,
            to: 4 * addr as u64 + 4,
        }),
        Matching::Napot => Some(power_of_two_range(addr)),
    }
}

impl Range {
    /// Whether some of the `len` bytes at an address are in the range.
    pub fn matches_any(&self, at: u32, len: u32) -> bool
        ensures { result ≡ matches_any self.now at len }
    {
        (at as u64) < self.to && self.from < at as u64 + len as u64
    }

    /// Whether all of the `len` bytes at an address are in the range.
    pub fn matches_all(&self, at: u32, len: u32) -> bool
        ensures { result ≡ matches_all self.now at len }
    {
        self.from <= at as u64 && at as u64 + len as u64 <= self.to
    }
}
