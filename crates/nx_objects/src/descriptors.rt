// Calls on descriptors of any sort.
ghost use Rattle.std.specs.Prelude.{◌≡◌, ◌<◌, ◌≤◌, ◌+◌, ◌*◌, ℕ, List, Some, IfOk, IfSome, length, slice_get};
ghost use Rattle.nx_pool.specs.declared.chain.Chain.{Chain};
ghost use Rattle.nx_ksys.specs.Threads.{Schedule, flat};
ghost use Rattle.nx_ksys.specs.State.{KernelState};
ghost use Rattle.nx_ksys.specs.Answers.{Caller};
ghost use Rattle.nx_ksys.specs.Descriptors.{opened as opened_in};
ghost use Rattle.nx_ksys.specs.FileCalls.{close_row, dup_row, dup2_row};
ghost use Rattle.nx_path.specs.Rows.{answered, done};
ghost use Rattle.nx_objects.specs.Tables.{chains_of, with_objects, ArePlaced, SamePlaces};
ghost use Rattle.nx_objects.specs.Rows.{at_place, found_as};

use crate::objects::Objects;
use nx_base::Errno;
use nx_ksys::Open;
use nx_pool::BlockStore;
use nx_sched::Threads;

/// An open description with its place.
#[derive(Clone, Copy, Debug)]
pub struct Found {
    /// Its place.
    pub place: u32,
    /// What it leads to, its flags and its offset.
    pub description: Open,
}

impl Objects {
    /// What a descriptor of the group at a place leads to.
    #[tactic(auto, unfolding(nx_ksys::specs::Descriptors::opened))]
    pub fn opened(&self, group: u32, fd: u32) -> Option<Found>
        requires { 32 * group + 32 ≤ length self.now.descriptors }
        ensures found { (k : KernelState) (s : Schedule) (content : Chain → List ℕ) → found_as result ≡ opened_in (with_objects k s content self.now) group fd }
        ensures stands { IfSome result (λ f. flat (slice_get self.now.descriptions f.place) ≡ Some f.description) }
    {
        match self.descriptors.get(group, fd) {
            None => None,
            Some(place) => match self.descriptions.get(place as usize) {
                None => None,
                Some(description) => Some(Found { place, description }),
            },
        }
    }

    /// `close`. EBADF for a descriptor that isn't open.
    #[tactic(auto, unfolding(nx_ksys::specs::FileCalls::close_row), using(crate::proofs::Places::same_places))]
    pub fn close_any<B: BlockStore>(
        &mut self,
        group: u32,
        fd: u32,
        threads: &Threads,
        blocks: &mut B,
    ) -> Result<(), Errno>
        requires group { group < length threads.now.threads }
        requires placed { ArePlaced (length threads.now.threads) self.old }
        requires held { B.holds blocks.old (chains_of self.old) }
        ensures row { (k : KernelState) (c : Caller) → close_row (with_objects k threads.now (B.content blocks.old) self.old) (at_place c group) fd ≡ done (with_objects k threads.now (B.content blocks.new) self.new) (at_place c group) result }
        ensures held { B.holds blocks.new (chains_of self.new) }
        ensures alike { B.alike blocks.old blocks.new }
        ensures places { SamePlaces self.old self.new }
    {
        match self.descriptors.get(group, fd) {
            None => Err(Errno::Ebadf),
            Some(_) => {
                self.close(group, fd, threads, blocks);
                Ok(())
            }
        }
    }

    /// `dup`: the least free descriptor leads to the same description. EBADF for a descriptor that
    /// isn't open, EMFILE where none is free.
    #[tactic(auto, unfolding(nx_ksys::specs::FileCalls::dup_row), using(crate::proofs::Places::free_below, crate::proofs::Places::same_places))]
    pub fn dup(&mut self, group: u32, fd: u32) -> Result<u32, Errno>
        requires { 32 * group + 32 ≤ length self.old.descriptors }
        ensures row { (k : KernelState) (s : Schedule) (content : Chain → List ℕ) (c : Caller) → dup_row (with_objects k s content self.old) (at_place c group) fd ≡ answered (with_objects k s content self.new) (at_place c group) result }
        ensures few { IfOk result (λ new. new < 32) }
        ensures chains { chains_of self.new ≡ chains_of self.old }
        ensures places { SamePlaces self.old self.new }
    {
        match self.descriptors.get(group, fd) {
            None => Err(Errno::Ebadf),
            Some(place) => match self.descriptors.free(group) {
                None => Err(Errno::Emfile),
                Some(new) => {
                    self.descriptors.set(group, new as u32, Some(place));
                    Ok(new as u32)
                }
            },
        }
    }

    /// `dup2`: the second descriptor leads to the same description as the first; what it was is
    /// closed before, and where both are one nothing changes. EBADF for a first that isn't open, and
    /// for a second over 31.
    #[tactic(auto, unfolding(nx_ksys::specs::FileCalls::dup2_row), using(crate::proofs::Places::same_places))]
    pub fn dup2<B: BlockStore>(
        &mut self,
        group: u32,
        first: u32,
        second: u32,
        threads: &Threads,
        blocks: &mut B,
    ) -> Result<u32, Errno>
        requires group { group < length threads.now.threads }
        requires placed { ArePlaced (length threads.now.threads) self.old }
        requires held { B.holds blocks.old (chains_of self.old) }
        ensures row { (k : KernelState) (c : Caller) → dup2_row (with_objects k threads.now (B.content blocks.old) self.old) (at_place c group) first second ≡ answered (with_objects k threads.now (B.content blocks.new) self.new) (at_place c group) result }
        ensures few { IfOk result (λ new. new < 32) }
        ensures held { B.holds blocks.new (chains_of self.new) }
        ensures alike { B.alike blocks.old blocks.new }
        ensures places { SamePlaces self.old self.new }
    {
        match self.descriptors.get(group, first) {
            None => Err(Errno::Ebadf),
            Some(place) => {
                if second >= 32 {
                    return Err(Errno::Ebadf);
                }
                if first == second {
                    return Ok(second);
                }
                self.close(group, second, threads, blocks);
                self.descriptors.set(group, second, Some(place));
                Ok(second)
            }
        }
    }
}
