// Bytes of a file's chain.
ghost use Rattle.std.specs.Prelude.{◌≡◌, ◌<◌, ◌≤◌, ◌+◌, ◌-◌, ◌^◌, ◌∷◌, ◌++◌, List, length, take, drop, min, replicate, Ok, IfOk, IfErr};
ghost use Rattle.nx_pool.specs.Chains.{length_of};
ghost use Rattle.nx_pool.specs.Effects.{IsHeld, Becomes};
ghost use Rattle.nx_ksys.specs.FileCalls.{with_written, reach, written_at};
ghost use Rattle.nx_fs.specs.Rows.{as_written};

use nx_base::Errno;
use nx_pool::{BlockStore, Chain};

/// The most bytes of a file.
const LONGEST_FILE: u32 = 4194304;

/// How many bytes were written, and where in the file the last of them ends.
#[derive(Clone, Copy, Debug)]
pub struct Moved {
    pub count: u32,
    pub end: u32,
}

// Where a write may end at most in a file of so many bytes, with so many free blocks.
fn last_end(size: u32, free: u32) -> u32
    ensures { result ≡ reach free size }
{
    let all = ((size as u64 + 63) / 64 + free as u64) * 64;
    all.min(LONGEST_FILE as u64) as u32
}

// Makes a chain so many bytes long, if it is shorter. There are blocks for it.
fn extend<B: BlockStore>(chain: &mut Chain, end: u32, blocks: &mut B)
    requires held { IsHeld (B.holds blocks.old) chain.old }
    requires room { end ≤ reach (B.free_blocks blocks.old) (length_of chain.old) }
    ensures becomes { Becomes (B.holds blocks.old) (B.holds blocks.new) (B.content blocks.old) (B.content blocks.new) chain.old chain.new
        (B.content blocks.old chain.old ++ replicate (end - length_of chain.old) 0) }
    ensures long { end ≤ length_of chain.new }
    ensures alike { B.alike blocks.old blocks.new }
{
    if end <= chain.bytes() {
        return;
    }
    blocks.grow(chain, end).unwrap();
}

/// Writes bytes from a place on, as many as the longest file and the free blocks allow.
pub fn write_chain<B: BlockStore>(
    chain: &mut Chain,
    at: u32,
    bytes: &[u8],
    blocks: &mut B,
) -> Result<Moved, Errno>
    requires held { IsHeld (B.holds blocks.old) chain.old }
    requires few { length bytes.now < 2 ^ 32 }
    ensures told { written_at (B.free_blocks blocks.old) (B.content blocks.old chain.old) at bytes.now ≡ as_written (B.content blocks.new chain.new) result }
    ensures becomes { Becomes (B.holds blocks.old) (B.holds blocks.new) (B.content blocks.old) (B.content blocks.new) chain.old chain.new (B.content blocks.new chain.new) }
    ensures err { IfErr result (λ _. (chain.new ≡ chain.old) × (blocks.new ≡ blocks.old)) }
    ensures same { IfErr result (λ _. B.content blocks.new chain.new ≡ B.content blocks.old chain.old) }
    ensures alike { B.alike blocks.old blocks.new }
{
    if at >= LONGEST_FILE {
        return Err(Errno::Efbig);
    }
    let room = last_end(chain.bytes(), blocks.free()).saturating_sub(at);
    let count = (bytes.len() as u32).min(room);
    if count == 0 {
        return Err(Errno::Enospc);
    }
    extend(chain, at + count, blocks);
    blocks.write(chain, at, &bytes[..count as usize]);
    Ok(Moved {
        count,
        end: at + count,
    })
}

/// Reads bytes from a place on, as many as there are and have room.
pub fn read_chain<B: BlockStore>(chain: &Chain, at: u32, into: &mut [u8], blocks: &B) -> usize
    requires held { IsHeld (B.holds blocks.now) chain.now }
    ensures bytes { take result into.new ≡ take (length into.old) (drop at (B.content blocks.now chain.now)) }
    ensures count { result ≡ length (take (length into.old) (drop at (B.content blocks.now chain.now))) }
{
    let left = chain.bytes().saturating_sub(at) as usize;
    let count = left.min(into.len());
    if count == 0 {
        return 0;
    }
    blocks.read(chain, at, &mut into[..count]);
    count
}
