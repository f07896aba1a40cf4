ghost use Rattle.std.specs.Prelude.{◌≡◌, ◌≤◌, ◌<◌, ◌+◌, ◌-◌, ◌*◌, ◌/◌, ◌%◌, ◌^◌, ℕ, List, [], ◌∷◌, ◌++◌, length, slice_set, nat_lt, vec_len, vec_capacity, IfOk, IfErr, IsOk, ◌↔◌};
ghost use Rattle.nx_pool.specs.declared.chain.Chain.{Chain};
ghost use Rattle.nx_pool.specs.Chains.{length_of, blocks_for, one_if, occurs, block_at, blocks_from, content_of, AreFree, IsChain, IsApart, AreApart};
ghost use Rattle.nx_pool.specs.Effects.{IsHeld, Becomes, Goes};

use crate::block_store::NoBlocks;
use crate::chain::Chain;
use nx_base::OutOfMemory;
use std::alloc::Global;

/// How many bytes a block has.
pub const BLOCK_BYTES: usize = 64;

/// How many blocks so many bytes fill.
pub fn block_count(bytes: u32) -> u32
    ensures { result ≡ blocks_for bytes }
{
    ((bytes as usize + BLOCK_BYTES - 1) / BLOCK_BYTES) as u32
}

/// Which blocks of a store are free, and for each block the next one of its chain. It has no bytes.
#[derive(Drop)]
pub struct PoolIndex {
    next: Vec<u32>,
    free: Vec<u32>,
    ghost room: { vec_len next ≤ vec_capacity free },
    ghost small: { vec_len next ≤ 65536 },
    ghost fewer: { vec_len free ≤ vec_len next },
    ghost once: { AreFree next.items free.items },
}

impl PoolIndex {
    /// So many blocks, at most 65,536, all of them free.
    pub fn new(alloc: Global, blocks: u32) -> Result<PoolIndex, OutOfMemory>
        requires { blocks ≤ 65536 }
        ensures free { IfOk result (λ i. AreApart i.next.items i.free.items []) }
        ensures blocks { IfOk result (λ i. vec_len i.next ≡ blocks) }
    {
        let next = vec![in alloc; 0u32; blocks as usize]?;
        let mut free = Vec::with_capacity(alloc, blocks as usize)?;
        push_all(&mut free, blocks);
        Ok(PoolIndex { next, free })
    }

    /// How many blocks are free.
    pub fn free(&self) -> u32
        ensures { result ≡ vec_len self.now.free }
    {
        self.free.len() as u32
    }

    /// Whether so many blocks are free.
    pub fn suffice(&self, need: u32) -> Result<(), NoBlocks>
        ensures fits { IsOk result ↔ (need ≤ vec_len self.now.free) }
        ensures err { IfErr result (λ e. e ≡ record { need = need; free = vec_len self.now.free }) }
    {
        let free = self.free();
        if need > free {
            return Err(NoBlocks { need, free });
        }
        Ok(())
    }

    /// The block of the byte of a chain at a place.
    pub fn block_of(&self, chain: &Chain, at: u32) -> u32
        requires chain { IsChain self.now.next.items chain.now }
        requires inside { at ≤ length_of chain.now }
        ensures { result ≡ block_at self.now.next.items chain.now.first (at / 64) }
    {
        let mut block = chain.first;
        for _ in 0..at as usize / BLOCK_BYTES {
            block = self.next[block as usize];
        }
        block
    }

    /// The block of the byte after the one at a place, which stands in `block`.
    pub fn block_after(&self, block: u32, at: u32) -> u32
        requires { block < length self.now.next.items }
        ensures { (first : ℕ) → block ≡ block_at self.now.next.items first (at / 64) → result ≡ block_at self.now.next.items first ((at + 1) / 64) }
    {
        if at as usize % BLOCK_BYTES == BLOCK_BYTES - 1 {
            self.next[block as usize]
        } else {
            block
        }
    }

    /// Makes a chain one byte longer, and answers the block of that byte. `last` is the block of the
    /// byte before it, if there is one.
    pub fn extend(&mut self, chain: &mut Chain, last: u32) -> u32
        requires apart { IsApart self.old.next.items self.old.free.items chain.old }
        requires short { length_of chain.old + 1 < 2 ^ 32 }
        requires last { 0 < length_of chain.old → last ≡ block_at self.old.next.items chain.old.first ((length_of chain.old - 1) / 64) }
        requires room { blocks_for (length_of chain.old + 1) ≤ vec_len self.old.free + blocks_for (length_of chain.old) }

        // The chain becomes longer by a zero where the byte is then set to zero.
        ensures becomes { (bytes : List ℕ) → length bytes ≡ 64 * length self.old.next.items
            → Becomes (AreApart self.old.next.items self.old.free.items) (AreApart self.new.next.items self.new.free.items)
            (content_of bytes self.old.next.items) (content_of (slice_set bytes (64 * result + length_of chain.old % 64) 0) self.new.next.items)
            chain.old chain.new (content_of bytes self.old.next.items chain.old ++ 0 ∷ []) }
        ensures apart { IsApart self.new.next.items self.new.free.items chain.new }
        ensures inside { result < length self.new.next.items }
        ensures long { length_of chain.new ≡ length_of chain.old + 1 }
        ensures last { result ≡ block_at self.new.next.items chain.new.first (length_of chain.old / 64) }
        ensures free { vec_len self.new.free + blocks_for (length_of chain.new) ≡ vec_len self.old.free + blocks_for (length_of chain.old) }
        ensures blocks { length self.new.next.items ≡ length self.old.next.items }
    {
        if chain.bytes as usize % BLOCK_BYTES != 0 {
            chain.bytes += 1;
            return last;
        }
        let block = self.free.pop().unwrap();
        if chain.bytes == 0 {
            chain.first = block;
            chain.bytes = 1;
            return block;
        }
        self.next[last as usize] = block;
        chain.bytes += 1;
        block
    }

    /// Makes the blocks of a chain free.
    pub fn release(&mut self, chain: Chain)
        requires { IsHeld (AreApart self.old.next.items self.old.free.items) chain }
        ensures gone { (content : Chain → List ℕ) → Goes (AreApart self.old.next.items self.old.free.items) (AreApart self.new.next.items self.new.free.items) content content chain }
        ensures links { self.new.next.items ≡ self.old.next.items }
    {
        let count = block_count(chain.bytes);
        push_chain(self.next.as_slice(), &mut self.free, chain.first, count);
    }
}

// Puts blocks on a stack, from one on along the links.
fn push_chain(next: &[u32], free: &mut Vec<u32>, first: u32, count: u32)
    requires inside { (k : ℕ) → k < count → block_at next.now first k < length next.now }
    requires room { vec_len free.old + count ≤ vec_capacity free.old }
    ensures count { (q : ℕ) → occurs q free.new.items ≡ occurs q free.old.items + occurs q (blocks_from next.now first count) }
    ensures long { vec_len free.new ≡ vec_len free.old + count }
    ensures capacity { vec_capacity free.old ≤ vec_capacity free.new }
{
    let mut block = first;
    for _ in 0..count {
        free.push(block).unwrap();
        block = next[block as usize];
    }
}

// Puts the blocks below a number on an empty stack.
fn push_all(free: &mut Vec<u32>, count: u32)
    requires empty { vec_len free.old ≡ 0 }
    requires room { count ≤ vec_capacity free.old }
    ensures count { (q : ℕ) → occurs q free.new.items ≡ one_if (nat_lt q count) }
    ensures long { vec_len free.new ≡ count }
    ensures capacity { vec_capacity free.old ≤ vec_capacity free.new }
{
    for block in 0..count {
        free.push(block).unwrap();
    }
}
