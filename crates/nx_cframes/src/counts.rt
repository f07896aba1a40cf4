ghost use Rattle.std.specs.Prelude.{◌≡◌, ◌+◌, ◌≤◌, ◌^◌, ℕ, max, IfSome, IfNone};
ghost use Rattle.nx_cframes.specs.Counts.{capped, bytes_with as bytes_by};

/// From here on all counts are one.
const LIMIT: u64 = 4_294_967_296;

/// A count.
#[tactic(auto, unfolding(crate::specs::Counts::capped))]
pub(crate) fn count(n: u64) -> u64
    ensures { result ≡ capped n }
{
    n.min(LIMIT)
}

/// The greater of two counts.
#[tactic(auto, unfolding(crate::specs::Counts::capped))]
pub(crate) fn greater(a: u64, b: u64) -> u64
    ensures { (x y : ℕ) → a ≡ capped x → b ≡ capped y → result ≡ capped (max x y) }
{
    a.max(b).min(LIMIT)
}

/// So many more than a count.
#[tactic(auto, unfolding(crate::specs::Counts::capped))]
pub(crate) fn more(n: u64, b: u64) -> u64
    ensures { (y : ℕ) → b ≡ capped y → result ≡ capped (n + y) }
{
    n.saturating_add(b).min(LIMIT)
}

/// The greater of two counts, where so many wait for the second.
#[tactic(auto, unfolding(crate::specs::Counts::capped))]
pub(crate) fn later(a: u64, n: u64, b: u64) -> u64
    ensures { (x y : ℕ) → a ≡ capped x → b ≡ capped y → result ≡ capped (max x (n + y)) }
{
    a.max(n.saturating_add(b)).min(LIMIT)
}

/// The sum of two numbers and a count.
#[tactic(auto, unfolding(crate::specs::Counts::capped))]
pub(crate) fn sum(m: u64, n: u64, b: u64) -> u64
    ensures { (y : ℕ) → b ≡ capped y → result ≡ capped (m + n + y) }
{
    m.saturating_add(n).saturating_add(b).min(LIMIT)
}

/// The bytes of a call with so many variables and waiting values, and so many bytes of arrays.
pub(crate) fn bytes_with(cells: u64, arrays: u64) -> Option<u32>
    ensures bytes { (x y : ℕ) → cells ≡ capped x → arrays ≡ capped y → IfSome result (λ n. n ≡ bytes_by x y) }
    ensures beyond { (x y : ℕ) → cells ≡ capped x → arrays ≡ capped y → IfNone result (2 ^ 32 ≤ bytes_by x y) }
{
    if cells >= LIMIT {
        return None;
    }
    if arrays >= LIMIT {
        return None;
    }
    let bytes = 16 * ((16 + 4 * cells + arrays + 15) / 16);
    if bytes < LIMIT {
        Some(bytes as u32)
    } else {
        None
    }
}
