ghost use Rattle.std.specs.Prelude.{◌≡◌, ◌≤◌, ◌+◌, ◌-◌, ◌⊎◌, ℕ, List, ◌∷◌, ◌++◌, length, Contains};
ghost use Rattle.nx_base.specs.ByteLists.{get_bytes, put_bytes};
ghost use Rattle.nx_pool.specs.declared.chain.Chain.{Chain};
ghost use Rattle.nx_pool.specs.Chains.{length_of, total_blocks};
ghost use Rattle.nx_pool.specs.Effects.{Becomes};

use crate::block_store::BlockStore;

/// A law: the free blocks are all blocks less the sum of those that the chains fill.
pub fn no_block_is_lost<B: BlockStore>()
    ensures { (s : B) (chains : List Chain) → B.holds s chains → B.free_blocks s ≡ B.blocks s - total_blocks chains }
{}

/// A law: bytes that were written to a chain are those that are read there; its other bytes, and
/// each other chain, are read as before.
pub fn a_write_changes_its_bytes_alone<B: BlockStore>()
    ensures written { (s t : B) (c : Chain) (at : ℕ) (bytes : List ℕ) → at + length bytes ≤ length_of c
        → Becomes (B.holds s) (B.holds t) (B.content s) (B.content t) c c (put_bytes (B.content s c) at bytes)
        → get_bytes (B.content t c) at (length bytes) ≡ bytes }
    ensures elsewhere { (s t : B) (c : Chain) (at : ℕ) (bytes : List ℕ) → at + length bytes ≤ length_of c
        → Becomes (B.holds s) (B.holds t) (B.content s) (B.content t) c c (put_bytes (B.content s c) at bytes)
        → (place count : ℕ) → (place + count ≤ at) ⊎ (at + length bytes ≤ place) → get_bytes (B.content t c) place count ≡ get_bytes (B.content s c) place count }
    ensures others { (s t : B) (c other : Chain) (at : ℕ) (bytes : List ℕ) (xs ys : List Chain)
        → Becomes (B.holds s) (B.holds t) (B.content s) (B.content t) c c (put_bytes (B.content s c) at bytes)
        → B.holds s (xs ++ c ∷ ys) → Contains (xs ++ ys) other → B.content t other ≡ B.content s other }
{}
