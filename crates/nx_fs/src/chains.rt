// The chains of files, by place.
ghost use Rattle.std.specs.Prelude.{◌≡◌, ◌<◌, ◌≤◌, ◌^◌, ℕ, List, [], ◌∷◌, ◌++◌, Bool, true, false, Option, Some, None, Ok, Err, length, take, slice_get, slice_set, option_map, if◌then◌else◌};
ghost use Rattle.std.specs.List.{list_any, position_from, count_by};
ghost use Rattle.std.specs.Option.{is_some, is_none};
ghost use Rattle.nx_pool.specs.declared.chain.Chain.{Chain};
ghost use Rattle.nx_pool.specs.Moves.{AreHeld, Moves};
ghost use Rattle.nx_ksys.specs.declared.node.Node.{Node};
ghost use Rattle.nx_ksys.specs.declared.node.Open.{Open};
ghost use Rattle.nx_ksys.specs.Threads.{flat};
ghost use Rattle.nx_ksys.specs.State.{KernelState, free_blocks};
ghost use Rattle.nx_ksys.specs.Answers.{Caller};
ghost use Rattle.nx_ksys.specs.Descriptors.{is_file_at, is_open_file, swept};
ghost use Rattle.nx_ksys.specs.FileCalls.{write_file, read_file, seek_file, write_place};
ghost use Rattle.nx_fs.specs.Chains.{chains_of, files_of, AreSized};
ghost use Rattle.nx_fs.specs.Rows.{with_files, opened_at, write_told, read_told, seek_told, taken};

use crate::bytes::{Moved, read_chain, write_chain};
use crate::seek::seek;
use nx_base::Errno;
use nx_ksys::Open;
use nx_pool::{BlockStore, Chain};

/// The least place without a chain.
pub fn first_free(chains: &[Option<Chain>]) -> Option<u32>
    requires { length chains.now ≤ 65536 }
    ensures { result ≡ position_from is_none 0 chains.now }
{
    for (place, chain) in chains.iter().enumerate() {
        if chain.is_none() {
            return Some(place as u32);
        }
    }
    None
}

fn count_one(chain: &Option<Chain>) -> usize
    ensures count { result ≡ (if is_some chain.now then 1 else 0) }
    ensures few { result ≤ 1 }
{
    match chain {
        None => 0,
        Some(_) => 1,
    }
}

/// How many chains there are.
pub fn count_chains(chains: &[Option<Chain>]) -> usize
    ensures { result ≡ count_by is_some chains.now }
{
    let mut count = 0;
    for chain in chains {
        count += count_one(chain);
    }
    count
}

fn chain_at(chains: &[Option<Chain>], place: u32) -> Option<&Chain>
    ensures { option_map (λ r. r.now) result ≡ flat (slice_get chains.now place) }
{
    match chains.get(place as usize) {
        Some(Some(chain)) => Some(chain),
        _ => None,
    }
}

// Where a write begins: at the end under O_APPEND.
fn write_start(chain: &Chain, description: Open) -> u32
    ensures { (content : Chain → List ℕ) → AreSized content → result ≡ write_place (content chain.now) description }
{
    if description.flags / 16 % 2 == 1 {
        chain.bytes()
    } else {
        description.offset
    }
}

/// Writes bytes of the file at a place.
pub fn write_at<B: BlockStore>(
    chains: &mut [Option<Chain>],
    place: u32,
    description: Open,
    bytes: &[u8],
    blocks: &mut B,
) -> Result<Moved, Errno>
    requires held { AreHeld (B.holds blocks.old) (chains_of chains.old) }
    requires few { length bytes.now < 2 ^ 32 }
    ensures row { (k : KernelState) (c : Caller) (at : ℕ) → free_blocks (with_files k (files_of (B.content blocks.old) chains.old)) ≡ B.free_blocks blocks.old
        → write_file (with_files k (files_of (B.content blocks.old) chains.old)) c (opened_at at description) place bytes.now (flat (slice_get (files_of (B.content blocks.old) chains.old) place))
        ≡ write_told (with_files k (files_of (B.content blocks.new) chains.new)) c at description result }
    ensures moves { Moves (B.holds blocks.old) (B.holds blocks.new) (B.content blocks.old) (B.content blocks.new) (chains_of chains.old) (chains_of chains.new) }
    ensures alike { B.alike blocks.old blocks.new }
    ensures len { length chains.new ≡ length chains.old }
{
    if place as usize >= chains.len() {
        return Err(Errno::Ebadf);
    }
    match &mut chains[place as usize] {
        None => Err(Errno::Ebadf),
        Some(chain) => {
            let at = write_start(chain, description);
            write_chain(chain, at, bytes, blocks)
        }
    }
}

/// Reads bytes of the file at a place.
pub fn read_at<B: BlockStore>(
    chains: &[Option<Chain>],
    place: u32,
    description: Open,
    into: &mut [u8],
    blocks: &B,
) -> Result<usize, Errno>
    requires held { AreHeld (B.holds blocks.now) (chains_of chains.now) }
    ensures { (k : KernelState) (c : Caller) (at : ℕ) → read_file (with_files k (files_of (B.content blocks.now) chains.now)) c (opened_at at description) (length into.old) (flat (slice_get (files_of (B.content blocks.now) chains.now) place))
        ≡ read_told (with_files k (files_of (B.content blocks.now) chains.now)) c at description (taken result into.new) result }
{
    match chain_at(chains, place) {
        None => Err(Errno::Ebadf),
        Some(chain) => Ok(read_chain(chain, description.offset, into, blocks)),
    }
}

/// Moves the offset of a description of the file at a place.
pub fn seek_at(
    chains: &[Option<Chain>],
    place: u32,
    description: Open,
    word: u32,
    whence: u32,
) -> Result<u32, Errno>
    ensures { (content : Chain → List ℕ) → AreSized content → (k : KernelState) (c : Caller) (at : ℕ)
        → seek_file k c (opened_at at description) word whence (flat (slice_get (files_of content chains.now) place)) ≡ seek_told k c at description result }
{
    match chain_at(chains, place) {
        None => Err(Errno::Ebadf),
        Some(chain) => seek(chain.bytes(), description, word, whence),
    }
}

// Gives back the chain at a place, if there is one.
fn give_at<B: BlockStore>(chains: &mut [Option<Chain>], place: u32, blocks: &mut B)
    requires held { AreHeld (B.holds blocks.old) (chains_of chains.old) }
    ensures files { files_of (B.content blocks.new) chains.new ≡ slice_set (files_of (B.content blocks.old) chains.old) place None }
    ensures moves { Moves (B.holds blocks.old) (B.holds blocks.new) (B.content blocks.old) (B.content blocks.new) (chains_of chains.old) (chains_of chains.new) }
    ensures alike { B.alike blocks.old blocks.new }
    ensures len { length chains.new ≡ length chains.old }
    ensures free { place < length chains.old → slice_get chains.new place ≡ Some None }
{
    if place as usize >= chains.len() {
        return;
    }
    match std::mem::replace(&mut chains[place as usize], None) {
        None => {}
        Some(chain) => blocks.give(chain),
    }
}

// A new empty chain comes to a free place.
fn take_at<B: BlockStore>(chains: &mut [Option<Chain>], place: u32, blocks: &mut B)
    requires held { AreHeld (B.holds blocks.old) (chains_of chains.old) }
    requires free { place < length chains.old → slice_get chains.old place ≡ Some None }
    ensures files { files_of (B.content blocks.new) chains.new ≡ slice_set (files_of (B.content blocks.old) chains.old) place (Some []) }
    ensures moves { Moves (B.holds blocks.old) (B.holds blocks.new) (B.content blocks.old) (B.content blocks.new) (chains_of chains.old) (chains_of chains.new) }
    ensures alike { B.alike blocks.old blocks.new }
    ensures len { length chains.new ≡ length chains.old }
{
    if place as usize >= chains.len() {
        return;
    }
    let chain = blocks.take_chain(0).unwrap();
    chains[place as usize] = Some(chain);
}

/// The file at a place becomes an empty one.
pub fn empty_at<B: BlockStore>(chains: &mut [Option<Chain>], place: u32, blocks: &mut B)
    requires held { AreHeld (B.holds blocks.old) (chains_of chains.old) }
    ensures files { files_of (B.content blocks.new) chains.new ≡ slice_set (files_of (B.content blocks.old) chains.old) place (Some []) }
    ensures moves { Moves (B.holds blocks.old) (B.holds blocks.new) (B.content blocks.old) (B.content blocks.new) (chains_of chains.old) (chains_of chains.new) }
    ensures alike { B.alike blocks.old blocks.new }
    ensures len { length chains.new ≡ length chains.old }
{
    give_at(chains, place, blocks);
    take_at(chains, place, blocks);
}

/// The file at a place goes, if no path names it and no description leads to it.
#[tactic(auto, unfolding(nx_ksys::specs::Descriptors::swept))]
pub fn sweep_at<B: BlockStore>(
    chains: &mut [Option<Chain>],
    place: u32,
    is_named: bool,
    is_open: bool,
    blocks: &mut B,
)
    requires held { AreHeld (B.holds blocks.old) (chains_of chains.old) }
    ensures swept { (entries : List (List ℕ × Node)) (opens : List (Option Open)) → list_any (λ e. is_file_at place e.1.kind) entries ≡ is_named → list_any (is_open_file place) opens ≡ is_open
        → record { entries = entries; files = files_of (B.content blocks.new) chains.new } ≡ swept (record { entries = entries; files = files_of (B.content blocks.old) chains.old }) opens place }
    ensures moves { Moves (B.holds blocks.old) (B.holds blocks.new) (B.content blocks.old) (B.content blocks.new) (chains_of chains.old) (chains_of chains.new) }
    ensures alike { B.alike blocks.old blocks.new }
    ensures len { length chains.new ≡ length chains.old }
{
    if is_named || is_open {
        return;
    }
    give_at(chains, place, blocks);
}
