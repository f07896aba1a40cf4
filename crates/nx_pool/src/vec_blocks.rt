ghost use Rattle.std.specs.Prelude.{◌≡◌, ◌≤◌, ◌*◌, [], IfOk, vec_len};

use crate::block_store::{BlockStore, NoBlocks};
use crate::chain::Chain;
use crate::payload::{lengthen, read_at, write_at};
use crate::pool_index::{PoolIndex, block_count};
use nx_base::OutOfMemory;
use std::alloc::Global;

/// A block store in memory of its own, all of which is taken when it is made.
#[derive(Drop)]
pub struct VecBlocks {
    index: PoolIndex,
    bytes: Vec<u8>,
    ghost whole: { vec_len bytes ≡ 64 * vec_len index.next },
}

impl VecBlocks {
    /// A store of so many blocks, at most 65,536, all of them free.
    pub fn new(alloc: Global, blocks: u32) -> Result<VecBlocks, OutOfMemory>
        requires { blocks ≤ 65536 }
        ensures empty { IfOk result (λ s. ⟦<VecBlocks as BlockStore>⟧.holds s []) }
        ensures blocks { IfOk result (λ s. ⟦<VecBlocks as BlockStore>⟧.blocks s ≡ blocks) }
    {
        let index = PoolIndex::new(alloc, blocks)?;
        let bytes = vec![in alloc; 0u8; 64 * blocks as usize]?;
        Ok(VecBlocks { index, bytes })
    }
}

impl BlockStore for VecBlocks {
    ghost use Rattle.std.specs.Prelude.{length, refl};
    ghost use Rattle.nx_pool.specs.Chains.{AreApart, content_of};
    ghost use Rattle.nx_pool.specs.Apart.{held_elsewhere, held_without, length-content_of, few_blocks};
    ghost use Rattle.std.proofs.Common.{◌∙◌};

    ghost holds = { λ s cs. AreApart s.index.next.items s.index.free.items cs };

    ghost content = { λ s c. content_of s.bytes.items s.index.next.items c };

    ghost blocks = { λ s. length s.index.next.items };

    ghost free_blocks = { λ s. length s.index.free.items };

    ghost alike = { λ s t. length s.index.next.items ≡ length t.index.next.items };

    fn free(&self) -> u32 {
        self.index.free()
    }

    fn take_chain(&mut self, bytes: u32) -> Result<Chain, NoBlocks> {
        self.index.suffice(block_count(bytes))?;
        let mut chain = Chain { first: 0, bytes: 0 };
        lengthen(&mut self.index, &mut self.bytes, &mut chain, bytes);
        Ok(chain)
    }

    fn grow(&mut self, chain: &mut Chain, bytes: u32) -> Result<(), NoBlocks> {
        let need = block_count(bytes) - block_count(chain.bytes);
        self.index.suffice(need)?;
        lengthen(&mut self.index, &mut self.bytes, chain, bytes);
        Ok(())
    }

    fn read(&self, chain: &Chain, at: u32, into: &mut [u8]) {
        read_at(&self.index, self.bytes.as_slice(), chain, at, into);
    }

    fn write(&mut self, chain: &Chain, at: u32, from: &[u8]) {
        write_at(&self.index, &mut self.bytes, chain, at, from);
    }

    fn give(&mut self, chain: Chain) {
        self.index.release(chain);
    }

    ghost counted = { λ s cs h. h.counted };

    ghost moved = { λ s xs ys us vs c e h. held_elsewhere s.index.next.items s.index.free.items xs ys us vs c e h };

    ghost empty = { λ s xs ys c e. held_without s.index.next.items s.index.free.items xs ys c e };

    ghost sized = { λ s c. length-content_of s.bytes.items s.index.next.items c };

    ghost few = { λ s. few_blocks s.index.next.items (vec_len s.index.next) s.index.next.ok.0 s.index.small };

    ghost alike_reflexive = { λ s. refl };

    ghost alike_transitive = { λ s t u a b. a ∙ b };

    ghost same_blocks = { λ s t a. a };
}
