ghost use Rattle.std.specs.Prelude.{◌≡◌, ℕ, ◌+◌, ◌≤◌, ◌<◌, ◌⊎◌, length, slice_index};

use nx_ram::Ram;

/// Sets the bytes of a frame to zeros, from a place of the RAM on. `size` is a frame's bytes, so that
/// no goal holds a list of 4,096 zeros.
pub fn zero_frame(ram: &mut Ram, place: u32, size: u32)
    requires inside { place + 4096 ≤ length ram.old }
    requires size { size ≡ 4096 }
    ensures zeroed { (k : ℕ) → k < 4096 → slice_index ram.new (place + k) ≡ 0 }
    ensures others { (k : ℕ) → (k < place) ⊎ (place + 4096 ≤ k) → slice_index ram.new k ≡ slice_index ram.old k }
    ensures long { length ram.new ≡ length ram.old }
{
    ram.zero(place, size);
}
