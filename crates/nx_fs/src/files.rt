ghost use Rattle.std.specs.Prelude.{◌≡◌, ◌<◌, ◌≤◌, ◌^◌, ℕ, List, [], Option, Some, None, length, replicate, slice_get, slice_set, IfOk};
ghost use Rattle.std.specs.List.{list_any, position_from, count_by};
ghost use Rattle.std.specs.Option.{is_some, is_none};
ghost use Rattle.nx_pool.specs.declared.chain.Chain.{Chain};
ghost use Rattle.nx_pool.specs.Moves.{AreHeld, Moves};
ghost use Rattle.nx_ksys.specs.declared.node.Node.{Node};
ghost use Rattle.nx_ksys.specs.declared.node.Open.{Open};
ghost use Rattle.nx_ksys.specs.Threads.{flat};
ghost use Rattle.nx_ksys.specs.State.{KernelState, free_blocks};
ghost use Rattle.nx_ksys.specs.Answers.{Caller};
ghost use Rattle.nx_ksys.specs.Descriptors.{is_file_at, is_open_file, swept};
ghost use Rattle.nx_ksys.specs.FileCalls.{write_file, read_file, seek_file};
ghost use Rattle.nx_fs.specs.Chains.{chains_of, files_of, AreSized};
ghost use Rattle.nx_fs.specs.Rows.{with_files, opened_at, write_told, read_told, seek_told, taken};

use crate::bytes::Moved;
use crate::chains::{count_chains, empty_at, first_free, read_at, seek_at, sweep_at, write_at};
use nx_base::{Errno, OutOfMemory};
use nx_ksys::Open;
use nx_pool::{BlockStore, Chain};
use std::alloc::{AllocError, Global};
use std::marker::Model;

/// The bytes of files by place, each in a chain of a store. The places are taken when it is made.
/// Contracts see the chains by place; `files_of` has their bytes.
#[derive(Drop)]
pub struct Files {
    chains: Vec<Option<Chain>>,
}

impl Model for Files {
    ghost use Rattle.std.specs.Prelude.{◌≤◌, List, Option, vec_len};
    ghost use Rattle.nx_pool.specs.declared.chain.Chain.{Chain};

    ghost Value = { List (Option Chain) };

    ghost view = { λ f. f.chains.items };

    ghost invariant = { λ f. vec_len f.chains ≤ 65536 };
}

#[tactic(auto, using(crate::proofs::PlaceLemmas::none_has_chains))]
fn no_chains(alloc: Global, places: u32) -> Result<Vec<Option<Chain>>, AllocError>
    ensures places { IfOk result (λ v. v.items ≡ replicate places None) }
    ensures empty { IfOk result (λ v. chains_of v.items ≡ []) }
{
    let mut chains = Vec::new(alloc);
    for _ in 0..places {
        chains.push(None)?;
    }
    Ok(chains)
}

impl Files {
    /// No file, and so many places, at most 65,536.
    pub fn new(alloc: Global, places: u32) -> Result<Files, OutOfMemory>
        requires { places ≤ 65536 }
        ensures places { IfOk result (λ f. f ≡ replicate places None) }
        ensures empty { IfOk result (λ f. chains_of f ≡ []) }
    {
        let chains = no_chains(alloc, places)?;
        Ok(Files { chains })
    }

    /// The least place without a file.
    pub fn free(&self) -> Option<u32>
        ensures found { (content : Chain → List ℕ) → result ≡ position_from is_none 0 (files_of content self.now) }
    {
        first_free(self.chains.as_slice())
    }

    /// How many files live.
    pub fn count(&self) -> usize
        ensures { (content : Chain → List ℕ) → result ≡ count_by is_some (files_of content self.now) }
    {
        count_chains(self.chains.as_slice())
    }

    /// `write` to the file at a place: how many bytes were written, and where they end. EBADF where
    /// there is no file, EFBIG from 4,194,304 on, ENOSPC where not one byte fits.
    pub fn write<B: BlockStore>(
        &mut self,
        place: u32,
        description: Open,
        bytes: &[u8],
        blocks: &mut B,
    ) -> Result<Moved, Errno>
        requires held { AreHeld (B.holds blocks.old) (chains_of self.old) }
        requires few { length bytes.now < 2 ^ 32 }
        ensures row { (k : KernelState) (c : Caller) (at : ℕ) → free_blocks (with_files k (files_of (B.content blocks.old) self.old)) ≡ B.free_blocks blocks.old
            → write_file (with_files k (files_of (B.content blocks.old) self.old)) c (opened_at at description) place bytes.now (flat (slice_get (files_of (B.content blocks.old) self.old) place))
            ≡ write_told (with_files k (files_of (B.content blocks.new) self.new)) c at description result }
        ensures moves { Moves (B.holds blocks.old) (B.holds blocks.new) (B.content blocks.old) (B.content blocks.new) (chains_of self.old) (chains_of self.new) }
        ensures held { AreHeld (B.holds blocks.new) (chains_of self.new) }
        ensures alike { B.alike blocks.old blocks.new }
    {
        write_at(&mut self.chains, place, description, bytes, blocks)
    }

    /// `read` from the file at a place into a buffer: how many bytes were read. EBADF where there
    /// is no file.
    pub fn read<B: BlockStore>(
        &self,
        place: u32,
        description: Open,
        into: &mut [u8],
        blocks: &B,
    ) -> Result<usize, Errno>
        requires held { AreHeld (B.holds blocks.now) (chains_of self.now) }
        ensures { (k : KernelState) (c : Caller) (at : ℕ) → read_file (with_files k (files_of (B.content blocks.now) self.now)) c (opened_at at description) (length into.old) (flat (slice_get (files_of (B.content blocks.now) self.now) place))
            ≡ read_told (with_files k (files_of (B.content blocks.now) self.now)) c at description (taken result into.new) result }
    {
        read_at(self.chains.as_slice(), place, description, into, blocks)
    }

    /// `lseek` on the file at a place: the new offset. EBADF where there is no file; EINVAL for a
    /// third word over 2, and an offset below 0 or over 2,147,483,647.
    pub fn seek(&self, place: u32, description: Open, word: u32, whence: u32) -> Result<u32, Errno>
        ensures { (content : Chain → List ℕ) → AreSized content → (k : KernelState) (c : Caller) (at : ℕ)
            → seek_file k c (opened_at at description) word whence (flat (slice_get (files_of content self.now) place)) ≡ seek_told k c at description result }
    {
        seek_at(self.chains.as_slice(), place, description, word, whence)
    }

    /// The file at a place becomes an empty one. What it had is given back.
    pub fn set_empty<B: BlockStore>(&mut self, place: u32, blocks: &mut B)
        requires held { AreHeld (B.holds blocks.old) (chains_of self.old) }
        ensures files { files_of (B.content blocks.new) self.new ≡ slice_set (files_of (B.content blocks.old) self.old) place (Some []) }
        ensures moves { Moves (B.holds blocks.old) (B.holds blocks.new) (B.content blocks.old) (B.content blocks.new) (chains_of self.old) (chains_of self.new) }
        ensures held { AreHeld (B.holds blocks.new) (chains_of self.new) }
        ensures alike { B.alike blocks.old blocks.new }
    {
        empty_at(&mut self.chains, place, blocks);
    }

    /// The file at a place goes, and its blocks are free again, if no path names it and no
    /// description leads to it.
    pub fn sweep<B: BlockStore>(
        &mut self,
        place: u32,
        is_named: bool,
        is_open: bool,
        blocks: &mut B,
    )
        requires held { AreHeld (B.holds blocks.old) (chains_of self.old) }
        ensures swept { (entries : List (List ℕ × Node)) (opens : List (Option Open)) → list_any (λ e. is_file_at place e.1.kind) entries ≡ is_named → list_any (is_open_file place) opens ≡ is_open
            → record { entries = entries; files = files_of (B.content blocks.new) self.new } ≡ swept (record { entries = entries; files = files_of (B.content blocks.old) self.old }) opens place }
        ensures moves { Moves (B.holds blocks.old) (B.holds blocks.new) (B.content blocks.old) (B.content blocks.new) (chains_of self.old) (chains_of self.new) }
        ensures held { AreHeld (B.holds blocks.new) (chains_of self.new) }
        ensures alike { B.alike blocks.old blocks.new }
    {
        sweep_at(&mut self.chains, place, is_named, is_open, blocks);
    }
}
