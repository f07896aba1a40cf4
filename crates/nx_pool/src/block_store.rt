ghost use Rattle.std.specs.Prelude.{◌≡◌, ◌≤◌, ◌+◌, ◌-◌, List, ℕ, ◌∷◌, ◌++◌, length, replicate, IfErr, IfOk, IsOk, ◌↔◌};
ghost use Rattle.nx_base.specs.ByteLists.{get_bytes, put_bytes};
ghost use Rattle.nx_pool.specs.declared.chain.Chain.{Chain};
ghost use Rattle.nx_pool.specs.Chains.{length_of, blocks_for, total_blocks};
ghost use Rattle.nx_pool.specs.Effects.{IsHeld, Becomes, Comes, Goes};

use crate::chain::Chain;
use thiserror::Error;

/// More blocks of 64 bytes are needed than are free.
#[derive(Clone, Copy, Debug, PartialEq, Eq, Error)]
#[error("{need} blocks are needed and {free} are free")]
pub struct NoBlocks {
    /// How many blocks are needed beyond those that the chain has.
    pub need: u32,
    /// How many blocks are free: fewer.
    pub free: u32,
}

/// A store of at most 65,536 blocks of 64 bytes. It hands out chains, and keeps their bytes in as
/// many blocks as these fill. Chains that are handed in came from this store, and their holder has
/// not given them back.
pub trait BlockStore {
    /// These chains, in some order, are all that it has handed out and not got back.
    ghost holds: { Self → List Chain → Type 0 };

    /// A chain's bytes.
    ghost content: { Self → Chain → List ℕ };

    /// How many blocks there are.
    ghost blocks: { Self → ℕ };

    /// How many blocks are free.
    ghost free_blocks: { Self → ℕ };

    /// The two stores are the same but for payload: chains, their bytes and which blocks are free.
    ghost alike: { Self → Self → Type 0 };

    /// How many blocks are free.
    fn free(&self) -> u32
        ensures { result ≡ free_blocks self.now };

    /// A new chain of so many bytes, all of them zero.
    fn take_chain(&mut self, bytes: u32) -> Result<Chain, NoBlocks>
        ensures ok { IfOk result (λ c. Comes (holds self.old) (holds self.new) (content self.old) (content self.new) c (replicate bytes 0)) }
        ensures long { IfOk result (λ c. length_of c ≡ bytes) }
        ensures fits { IsOk result ↔ (blocks_for bytes ≤ free_blocks self.old) }
        ensures err { IfErr result (λ e. (e ≡ record { need = blocks_for bytes; free = free_blocks self.old }) × (self.new ≡ self.old)) }
        ensures alike { alike self.old self.new };

    /// Makes a chain so many bytes long, with zeros after those that it has.
    fn grow(&mut self, chain: &mut Chain, bytes: u32) -> Result<(), NoBlocks>
        requires longer { length_of chain.old ≤ bytes }
        requires held { IsHeld (holds self.old) chain.old }
        ensures ok { IfOk result (λ _. Becomes (holds self.old) (holds self.new) (content self.old) (content self.new) chain.old chain.new
            (content self.old chain.old ++ replicate (bytes - length_of chain.old) 0)) }
        ensures long { IfOk result (λ _. length_of chain.new ≡ bytes) }
        ensures fits { IsOk result ↔ (blocks_for bytes ≤ free_blocks self.old + blocks_for (length_of chain.old)) }
        ensures err { IfErr result (λ e. (e ≡ record { need = blocks_for bytes - blocks_for (length_of chain.old); free = free_blocks self.old })
            × (self.new ≡ self.old) × (chain.new ≡ chain.old)) }
        ensures alike { alike self.old self.new };

    /// Reads the bytes of a chain from a place on, which counts from 0.
    fn read(&self, chain: &Chain, at: u32, into: &mut [u8])
        requires held { IsHeld (holds self.now) chain.now }
        requires inside { at + length into.old ≤ length_of chain.now }
        ensures { into.new ≡ get_bytes (content self.now chain.now) at (length into.old) };

    /// Writes bytes of a chain from a place on, which counts from 0.
    fn write(&mut self, chain: &Chain, at: u32, from: &[u8])
        requires held { IsHeld (holds self.old) chain.now }
        requires inside { at + length from.now ≤ length_of chain.now }
        ensures wrote { Becomes (holds self.old) (holds self.new) (content self.old) (content self.new) chain.now chain.now
            (put_bytes (content self.old chain.now) at from.now) }
        ensures alike { alike self.old self.new };

    /// Gives a chain back. Its blocks are free again.
    fn give(&mut self, chain: Chain)
        requires { IsHeld (holds self.old) chain }
        ensures gone { Goes (holds self.old) (holds self.new) (content self.old) (content self.new) chain }
        ensures alike { alike self.old self.new };

    // The free blocks are all blocks less those that the chains fill.
    ghost counted: { (s : Self) (cs : List Chain) → holds s cs → free_blocks s + total_blocks cs ≡ blocks s };

    // A chain stands anywhere among the others.
    ghost moved: { (s : Self) (xs ys us vs : List Chain) (c : Chain) → xs ++ ys ≡ us ++ vs → holds s (xs ++ c ∷ ys) → holds s (us ++ c ∷ vs) };

    // A chain without bytes may be left out, or brought in.
    ghost empty: { (s : Self) (xs ys : List Chain) (c : Chain) → length_of c ≡ 0 → (holds s (xs ++ ys) ↔ holds s (xs ++ c ∷ ys)) };

    ghost sized: { (s : Self) (c : Chain) → length (content s c) ≡ length_of c };

    ghost few: { (s : Self) → blocks s ≤ 65536 };

    ghost alike_reflexive: { (s : Self) → alike s s };

    ghost alike_transitive: { (s t u : Self) → alike s t → alike t u → alike s u };

    ghost same_blocks: { (s t : Self) → alike s t → blocks s ≡ blocks t };
}
