// Descriptors that close.
ghost use Rattle.std.specs.Prelude.{◌≡◌, ◌<◌, length};
ghost use Rattle.nx_ksys.specs.State.{KernelState};
ghost use Rattle.nx_ksys.specs.Descriptors.{released, closed};
ghost use Rattle.nx_objects.specs.Tables.{chains_of, with_objects, ArePlaced, SamePlaces};

use crate::objects::Objects;
use nx_pool::BlockStore;
use nx_sched::Threads;

impl Objects {
    // The description at a place ends, unless a descriptor has it, and with it what nothing else
    // leads to.
    #[tactic(auto, using(crate::proofs::Places::same_places))]
    fn release<B: BlockStore>(&mut self, place: u32, threads: &Threads, blocks: &mut B)
        requires placed { ArePlaced (length threads.now.threads) self.old }
        requires held { B.holds blocks.old (chains_of self.old) }
        ensures state { (k : KernelState) → with_objects k threads.now (B.content blocks.new) self.new ≡ released (with_objects k threads.now (B.content blocks.old) self.old) place }
        ensures held { B.holds blocks.new (chains_of self.new) }
        ensures alike { B.alike blocks.old blocks.new }
        ensures places { SamePlaces self.old self.new }
    {
        if self.descriptors.has(place) {
            return;
        }
        match self.descriptions.get(place as usize) {
            None => {}
            Some(description) => {
                self.descriptions.remove(place as usize);
                self.sweep_target(description.target, threads, blocks);
            }
        }
    }

    /// A descriptor of the group at a place closes, if it is open; a description that no other
    /// descriptor has ends with it, and with that what nothing else leads to.
    #[tactic(auto, using(crate::proofs::Releasing::shut_over, crate::proofs::Places::same_places))]
    pub fn close<B: BlockStore>(&mut self, group: u32, fd: u32, threads: &Threads, blocks: &mut B)
        requires group { group < length threads.now.threads }
        requires placed { ArePlaced (length threads.now.threads) self.old }
        requires held { B.holds blocks.old (chains_of self.old) }
        ensures state { (k : KernelState) → with_objects k threads.now (B.content blocks.new) self.new ≡ closed (with_objects k threads.now (B.content blocks.old) self.old) group fd }
        ensures held { B.holds blocks.new (chains_of self.new) }
        ensures alike { B.alike blocks.old blocks.new }
        ensures places { SamePlaces self.old self.new }
    {
        if fd >= 32 {
            return;
        }
        match self.descriptors.get(group, fd) {
            None => {}
            Some(place) => {
                self.descriptors.set(group, fd, None);
                self.release(place, threads, blocks);
            }
        }
    }
}
