// Bytes of a chain, along its blocks.
ghost use Rattle.std.specs.Prelude.{◌≡◌, ◌≤◌, ◌+◌, ◌-◌, ◌*◌, List, ℕ, ◌++◌, length, replicate, vec_len};
ghost use Rattle.nx_base.specs.ByteLists.{get_bytes, put_bytes};
ghost use Rattle.nx_pool.specs.Chains.{length_of, blocks_for, content_of, IsChain, IsApart, AreApart};
ghost use Rattle.nx_pool.specs.Effects.{Becomes};

use crate::chain::Chain;
use crate::pool_index::{BLOCK_BYTES, PoolIndex};

/// Reads the bytes of a chain from a place on.
pub fn read_at(index: &PoolIndex, bytes: &[u8], chain: &Chain, at: u32, into: &mut [u8])
    requires whole { length bytes.now ≡ 64 * length index.now.next.items }
    requires chain { IsChain index.now.next.items chain.now }
    requires inside { at + length into.old ≤ length_of chain.now }
    ensures { into.new ≡ get_bytes (content_of bytes.now index.now.next.items chain.now) at (length into.old) }
{
    // Read, so that each place in it is known to be a u32.
    let _length = chain.bytes;
    let mut place = at;
    let mut block = index.block_of(chain, at);
    for byte in into.iter_mut() {
        *byte = bytes[BLOCK_BYTES * block as usize + place as usize % BLOCK_BYTES];
        block = index.block_after(block, place);
        place += 1;
    }
}

/// Writes bytes of a chain from a place on.
pub fn write_at(index: &PoolIndex, bytes: &mut [u8], chain: &Chain, at: u32, from: &[u8])
    requires whole { length bytes.old ≡ 64 * length index.now.next.items }
    requires chain { IsChain index.now.next.items chain.now }
    requires inside { at + length from.now ≤ length_of chain.now }
    ensures { (free : List ℕ) → Becomes (AreApart index.now.next.items free) (AreApart index.now.next.items free)
        (content_of bytes.old index.now.next.items) (content_of bytes.new index.now.next.items)
        chain.now chain.now (put_bytes (content_of bytes.old index.now.next.items chain.now) at from.now) }
{
    // Read, so that each place in it is known to be a u32.
    let _length = chain.bytes;
    let mut place = at;
    let mut block = index.block_of(chain, at);
    for byte in from {
        bytes[BLOCK_BYTES * block as usize + place as usize % BLOCK_BYTES] = *byte;
        block = index.block_after(block, place);
        place += 1;
    }
}

/// Makes a chain so many bytes long, with zeros after those that it has.
pub fn lengthen(index: &mut PoolIndex, bytes: &mut [u8], chain: &mut Chain, size: u32)
    requires whole { length bytes.old ≡ 64 * length index.old.next.items }
    requires apart { IsApart index.old.next.items index.old.free.items chain.old }
    requires longer { length_of chain.old ≤ size }
    requires room { blocks_for size ≤ vec_len index.old.free + blocks_for (length_of chain.old) }
    ensures becomes { Becomes (AreApart index.old.next.items index.old.free.items) (AreApart index.new.next.items index.new.free.items)
        (content_of bytes.old index.old.next.items) (content_of bytes.new index.new.next.items)
        chain.old chain.new (content_of bytes.old index.old.next.items chain.old ++ replicate (size - length_of chain.old) 0) }
    ensures long { length_of chain.new ≡ size }
    ensures blocks { length index.new.next.items ≡ length index.old.next.items }
{
    let mut last = 0;
    if chain.bytes > 0 {
        last = index.block_of(chain, chain.bytes - 1);
    }
    while chain.bytes < size {
        let at = chain.bytes as usize % BLOCK_BYTES;
        last = index.extend(chain, last);
        bytes[BLOCK_BYTES * last as usize + at] = 0;
    }
}
