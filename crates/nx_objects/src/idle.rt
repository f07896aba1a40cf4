// All descriptors of a group that ends, and what lived by waits alone.
ghost use Rattle.std.specs.Prelude.{◌≡◌, ◌<◌, ℕ, List, length};
ghost use Rattle.nx_pool.specs.declared.chain.Chain.{Chain};
ghost use Rattle.nx_ksys.specs.State.{KernelState};
ghost use Rattle.nx_ksys.specs.Descriptors.{without_idle};
ghost use Rattle.nx_ksys.specs.Ends.{without_descriptors};
ghost use Rattle.nx_objects.specs.Tables.{chains_of, with_objects, ArePlaced, SamePlaces};
ghost use Rattle.nx_objects.specs.Living.{with_living_queues, with_living_semaphores};

use crate::objects::Objects;
use nx_pool::BlockStore;
use nx_sched::Threads;

impl Objects {
    // The queues that nothing leads to, and on which nobody waits, end.
    fn sweep_queues<B: BlockStore>(&mut self, threads: &Threads, blocks: &mut B)
        requires placed { ArePlaced (length threads.now.threads) self.old }
        requires held { B.holds blocks.old (chains_of self.old) }
        ensures state { (k : KernelState) → with_objects k threads.now (B.content blocks.new) self.new ≡ with_living_queues (with_objects k threads.now (B.content blocks.old) self.old) }
        ensures held { B.holds blocks.new (chains_of self.new) }
        ensures alike { B.alike blocks.old blocks.new }
        ensures places { SamePlaces self.old self.new }
    {
        let count = self.queues.places();
        for place in 0..count {
            self.sweep_queue(place as u32, threads, blocks);
        }
    }

    // The semaphores that nothing leads to, and on which nobody waits, end.
    fn sweep_semaphores(&mut self, threads: &Threads)
        requires { ArePlaced (length threads.now.threads) self.old }
        ensures state { (k : KernelState) (content : Chain → List ℕ) → with_objects k threads.now content self.new ≡ with_living_semaphores (with_objects k threads.now content self.old) }
        ensures chains { chains_of self.new ≡ chains_of self.old }
        ensures places { SamePlaces self.old self.new }
    {
        let count = self.semaphores.places();
        for place in 0..count {
            self.sweep_semaphore(place as u32, threads);
        }
    }

    /// The queues and semaphores that nothing leads to, and on which nobody waits, end.
    #[tactic(auto, unfolding(nx_ksys::specs::Descriptors::without_idle))]
    pub fn sweep_idle<B: BlockStore>(&mut self, threads: &Threads, blocks: &mut B)
        requires placed { ArePlaced (length threads.now.threads) self.old }
        requires held { B.holds blocks.old (chains_of self.old) }
        ensures state { (k : KernelState) → with_objects k threads.now (B.content blocks.new) self.new ≡ without_idle (with_objects k threads.now (B.content blocks.old) self.old) }
        ensures held { B.holds blocks.new (chains_of self.new) }
        ensures alike { B.alike blocks.old blocks.new }
        ensures places { SamePlaces self.old self.new }
    {
        self.sweep_queues(threads, blocks);
        self.sweep_semaphores(threads);
    }

    /// The descriptors of the group at a place close, from 0 up.
    #[tactic(auto, unfolding(nx_ksys::specs::Ends::without_descriptors))]
    pub fn close_all<B: BlockStore>(&mut self, group: u32, threads: &Threads, blocks: &mut B)
        requires group { group < length threads.now.threads }
        requires placed { ArePlaced (length threads.now.threads) self.old }
        requires held { B.holds blocks.old (chains_of self.old) }
        ensures state { (k : KernelState) → with_objects k threads.now (B.content blocks.new) self.new ≡ without_descriptors group (with_objects k threads.now (B.content blocks.old) self.old) }
        ensures held { B.holds blocks.new (chains_of self.new) }
        ensures alike { B.alike blocks.old blocks.new }
        ensures places { SamePlaces self.old self.new }
    {
        for fd in 0..32 {
            self.close(group, fd, threads, blocks);
        }
    }
}
