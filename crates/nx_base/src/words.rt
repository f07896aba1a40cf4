ghost use Rattle.std.specs.Prelude.{◌≡◌, ◌+◌, ◌≤◌, length};
ghost use Rattle.nx_base.specs.ByteLists.{get_bytes, put_bytes, from_le, to_le};

/// The word of the four bytes at a place, the lowest first.
#[tactic(auto, unfolding(crate::specs::ByteLists::get_bytes, crate::specs::ByteLists::from_le))]
pub fn get_le32(bytes: &[u8], at: usize) -> u32
    requires { at + 4 ≤ length bytes.now }
    ensures { result ≡ from_le (get_bytes bytes.now at 4) }
{
    bytes[at] as u32
        + 256 * (bytes[at + 1] as u32 + 256 * (bytes[at + 2] as u32 + 256 * bytes[at + 3] as u32))
}

/// Puts a word into the four bytes at a place, the lowest first, and changes no other byte.
pub fn put_le32(bytes: &mut [u8], at: usize, value: u32)
    requires { at + 4 ≤ length bytes.old }
    ensures { bytes.new ≡ put_bytes bytes.old at (to_le 4 value) }
{
    bytes[at] = (value % 256) as u8;
    bytes[at + 1] = (value / 256 % 256) as u8;
    bytes[at + 2] = (value / 256 / 256 % 256) as u8;
    bytes[at + 3] = (value / 256 / 256 / 256 % 256) as u8;
}
