ghost use Rattle.std.specs.Prelude.{◌≡◌, ◌+◌, ◌*◌, ◌≤◌, ◌^◌, ◌<◌, IfOk, length, replicate};
ghost use Rattle.nx_base.specs.ByteLists.{get_bytes, put_bytes, from_le, to_le, AreBytes};
ghost use Rattle.nx_ram.specs.Widths.{IsWidth};

use nx_base::{OutOfMemory, get_le32, put_le32};
use std::alloc::Global;
use std::marker::Model;

/// The bytes of a RAM. Contracts see their list; places count from its start.
#[derive(Drop)]
pub struct Ram {
    bytes: Vec<u8>,
}

impl Model for Ram {
    ghost use Rattle.std.specs.Prelude.{List, ℕ, ◌<◌, ◌^◌, length};
    ghost use Rattle.nx_base.specs.ByteLists.{AreBytes};

    ghost Value = { List ℕ };

    ghost view = { λ r. r.bytes.items };

    ghost invariant = { λ r. (length r.bytes.items < 2 ^ 32) × AreBytes r.bytes.items };
}

impl Ram {
    /// `size` bytes, all of them zero.
    pub fn new(alloc: Global, size: u32) -> Result<Ram, OutOfMemory>
        ensures { IfOk result (λ ram. ram ≡ replicate size 0) }
    {
        let bytes = vec![in alloc; 0u8; size as usize]?;
        Ok(Ram { bytes })
    }

    /// How many bytes there are.
    pub fn len(&self) -> u32
        ensures value { result ≡ length self.now }
        ensures small { result < 2 ^ 32 }
        ensures bytes { AreBytes self.now }
    {
        self.bytes.len() as u32
    }

    /// The byte at a place.
    #[tactic(auto, unfolding(nx_base::specs::ByteLists::get_bytes, nx_base::specs::ByteLists::from_le))]
    pub fn load8(&self, at: u32) -> u8
        requires { at + 1 ≤ length self.now }
        ensures { result ≡ from_le (get_bytes self.now at 1) }
    {
        self.bytes[at as usize]
    }

    /// The number of the two bytes at a place, the lowest first.
    #[tactic(auto, unfolding(nx_base::specs::ByteLists::get_bytes, nx_base::specs::ByteLists::from_le))]
    pub fn load16(&self, at: u32) -> u16
        requires { at + 2 ≤ length self.now }
        ensures { result ≡ from_le (get_bytes self.now at 2) }
    {
        let at = at as usize;
        self.bytes[at] as u16 + 256 * self.bytes[at + 1] as u16
    }

    /// The number of the four bytes at a place, the lowest first.
    pub fn load32(&self, at: u32) -> u32
        requires { at + 4 ≤ length self.now }
        ensures { result ≡ from_le (get_bytes self.now at 4) }
    {
        get_le32(&self.bytes, at as usize)
    }

    /// The number of `width` bytes at a place, the lowest first.
    pub fn load(&self, at: u32, width: u8) -> u32
        requires width { IsWidth width }
        requires inside { at + width ≤ length self.now }
        ensures value { result ≡ from_le (get_bytes self.now at width) }
        ensures small { result < 2 ^ (8 * width) }
    {
        match width {
            1 => self.load8(at) as u32,
            2 => self.load16(at) as u32,
            _ => self.load32(at),
        }
    }

    /// Writes the byte at a place, and no other.
    pub fn store8(&mut self, at: u32, value: u8)
        requires { at + 1 ≤ length self.old }
        ensures bytes { self.new ≡ put_bytes self.old at (to_le 1 value) }
        ensures long { length self.new ≡ length self.old }
    {
        self.bytes[at as usize] = value;
    }

    /// Writes the two bytes at a place, the lowest first, and no other.
    pub fn store16(&mut self, at: u32, value: u16)
        requires { at + 2 ≤ length self.old }
        ensures bytes { self.new ≡ put_bytes self.old at (to_le 2 value) }
        ensures long { length self.new ≡ length self.old }
    {
        let at = at as usize;
        self.bytes[at] = (value % 256) as u8;
        self.bytes[at + 1] = (value / 256 % 256) as u8;
    }

    /// Writes the four bytes at a place, the lowest first, and no other.
    #[tactic(auto, using(crate::proofs::Puts::length_number))]
    pub fn store32(&mut self, at: u32, value: u32)
        requires { at + 4 ≤ length self.old }
        ensures bytes { self.new ≡ put_bytes self.old at (to_le 4 value) }
        ensures long { length self.new ≡ length self.old }
    {
        put_le32(&mut self.bytes, at as usize, value);
    }

    /// Writes the low `width` bytes of a number at a place, the lowest first, and no other.
    pub fn store(&mut self, at: u32, width: u8, value: u32)
        requires width { IsWidth width }
        requires inside { at + width ≤ length self.old }
        ensures bytes { self.new ≡ put_bytes self.old at (to_le width value) }
        ensures long { length self.new ≡ length self.old }
    {
        match width {
            1 => self.store8(at, (value % 256) as u8),
            2 => self.store16(at, (value % 65536) as u16),
            _ => self.store32(at, value),
        }
    }

    /// Writes bytes from a place on, and no other.
    pub fn put(&mut self, at: u32, bytes: &[u8])
        requires { at + length bytes.now ≤ length self.old }
        ensures bytes { self.new ≡ put_bytes self.old at bytes.now }
        ensures long { length self.new ≡ length self.old }
        ensures small { AreBytes self.new }
    {
        let at = at as usize;
        for i in 0..bytes.len() {
            self.bytes[at + i] = bytes[i];
        }
    }

    /// Writes zeros from a place on, and no other byte.
    pub fn zero(&mut self, at: u32, count: u32)
        requires { at + count ≤ length self.old }
        ensures bytes { self.new ≡ put_bytes self.old at (replicate count 0) }
        ensures long { length self.new ≡ length self.old }
    {
        let at = at as usize;
        for i in 0..count as usize {
            self.bytes[at + i] = 0;
        }
    }
}
