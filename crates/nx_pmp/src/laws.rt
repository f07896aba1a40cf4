ghost use Rattle.std.specs.Prelude.{◌≡◌, ◌↔◌, ℕ, ◌+◌, ◌-◌, ◌*◌, ◌%◌, ◌^◌, ◌<◌, ◌≤◌, true, false, ◌&&◌, IsTrue, Some, length};
ghost use Rattle.nx_base.specs.declared.access.Access.{Access};
ghost use Rattle.nx_base.specs.declared.access.Mode.{Mode};
ghost use Rattle.nx_pmp.specs.declared.matching.Matching.{Matching};
ghost use Rattle.nx_pmp.specs.declared.matching.Range.{Range};
ghost use Rattle.nx_pmp.specs.declared.pmp.Pmp.{Pmp};
ghost use Rattle.nx_pmp.specs.Matching.{matched, power_of_two_range, matches_any, matches_all, IsByteOf, Covers};
ghost use Rattle.nx_pmp.specs.Protection.{allows, permits, is_machine, any_byte, all_bytes, entry_at, range_at, NoneMatches};

/// A law: the entry with the lowest number that matches any byte of an access decides. It must
/// match all bytes, and its bits must allow the access. Where no entry matches a byte, machine mode
/// succeeds and user mode fails.
pub fn the_lowest_numbered_entry_decides()
    ensures decides { (pmp : Pmp) (at len i : ℕ) (access : Access) (mode : Mode) → i < length pmp.entries → NoneMatches pmp.entries i at len → any_byte (range_at 0 pmp.entries i) at len ≡ true → allows pmp at len access mode ≡ (all_bytes (range_at 0 pmp.entries i) at len && permits (entry_at pmp.entries i).cfg access mode) }
    ensures none { (pmp : Pmp) (at len : ℕ) (access : Access) (mode : Mode) → NoneMatches pmp.entries (length pmp.entries) at len → allows pmp at len access mode ≡ is_machine mode }
{}

/// A law: the naturally aligned range whose address field is a multiple of 2^(k+1) and k ones at its
/// low end has 2^(k+3) bytes, from four times that multiple on. A field of ones alone covers every
/// address of 34 bits.
pub fn low_ones_give_the_size_of_a_range()
    ensures aligned { (base k : ℕ) → base % 2 ^ (k + 1) ≡ 0 → base + 2 ^ (k + 1) ≤ 2 ^ 32 → power_of_two_range (base + (2 ^ k - 1)) ≡ record { from = 4 * base; to = 4 * base + 2 ^ (k + 3) } }
    ensures ones { power_of_two_range (2 ^ 32 - 1) ≡ record { from = 0; to = 2 ^ 35 } }
{}

/// A law: a range matches any byte of an access where it covers one of its bytes, and all bytes
/// where it covers each of them. No range of an entry is empty.
pub fn an_access_matches_by_its_bytes()
    ensures any { (r : Range) (at len : ℕ) → r.from < r.to → 1 ≤ len → IsTrue (matches_any r at len) ↔ ((k : ℕ) × IsByteOf at len k × Covers r k) }
    ensures all { (r : Range) (at len : ℕ) → 1 ≤ len → IsTrue (matches_all r at len) ↔ ((k : ℕ) → IsByteOf at len k → Covers r k) }
    ensures some { (m : Matching) (before addr : ℕ) (r : Range) → matched m before addr ≡ Some r → r.from < r.to }
{}
