// What ends once nothing leads to it.
ghost use Rattle.std.specs.Prelude.{◌≡◌, ℕ, List, length};
ghost use Rattle.nx_pool.specs.declared.chain.Chain.{Chain};
ghost use Rattle.nx_ksys.specs.declared.node.Target.TheVariants as target;
ghost use Rattle.nx_ksys.specs.Threads.{Schedule};
ghost use Rattle.nx_ksys.specs.State.{KernelState};
ghost use Rattle.nx_ksys.specs.Descriptors.{swept_target, queue_lives as queue_lives_in, semaphore_lives as semaphore_lives_in};
ghost use Rattle.nx_objects.specs.Tables.{chains_of, with_objects, ArePlaced, SamePlaces};

use crate::living::{is_queue_awaited, is_queue_open, is_semaphore_awaited, is_semaphore_open};
use crate::objects::Objects;
use nx_ksys::Target;
use nx_pool::BlockStore;
use nx_sched::Threads;

impl Objects {
    // The file at a place ends, unless a path names it or a description leads to it.
    fn sweep_file<B: BlockStore>(&mut self, place: u32, blocks: &mut B)
        requires { B.holds blocks.old (chains_of self.old) }
        ensures state { (k : KernelState) (s : Schedule) → with_objects k s (B.content blocks.new) self.new ≡ swept_target (with_objects k s (B.content blocks.old) self.old) (target.File place) }
        ensures held { B.holds blocks.new (chains_of self.new) }
        ensures alike { B.alike blocks.old blocks.new }
        ensures places { SamePlaces self.old self.new }
    {
        let is_named = self.tree.has_file(place);
        let is_open = self.descriptions.leads_to_file(place);
        self.files.sweep(place, is_named, is_open, blocks);
    }

    // Whether the queue at a place lives: a path names it, a description leads to it, or a thread
    // waits on it.
    fn queue_lives(&self, place: u32, threads: &Threads) -> bool
        requires { ArePlaced (length threads.now.threads) self.now }
        ensures { (k : KernelState) (content : Chain → List ℕ) → result ≡ queue_lives_in (with_objects k threads.now content self.now) place }
    {
        let count = 32 * threads.as_slice().len();
        let is_named = self.tree.has_queue(place);
        let is_open = is_queue_open(place, &self.descriptions, count);
        let is_awaited = is_queue_awaited(place, threads.as_slice());
        is_named || is_open || is_awaited
    }

    /// The queue at a place ends, unless it lives.
    pub fn sweep_queue<B: BlockStore>(&mut self, place: u32, threads: &Threads, blocks: &mut B)
        requires placed { ArePlaced (length threads.now.threads) self.old }
        requires held { B.holds blocks.old (chains_of self.old) }
        ensures state { (k : KernelState) → with_objects k threads.now (B.content blocks.new) self.new ≡ swept_target (with_objects k threads.now (B.content blocks.old) self.old) (target.Queue place) }
        ensures held { B.holds blocks.new (chains_of self.new) }
        ensures alike { B.alike blocks.old blocks.new }
        ensures places { SamePlaces self.old self.new }
    {
        let lives = self.queue_lives(place, threads);
        self.queues.sweep(place, lives, blocks);
    }

    // Whether the semaphore at a place lives: a description leads to it, or a thread waits on it.
    fn semaphore_lives(&self, place: u32, threads: &Threads) -> bool
        requires { ArePlaced (length threads.now.threads) self.now }
        ensures { (k : KernelState) (content : Chain → List ℕ) → result ≡ semaphore_lives_in (with_objects k threads.now content self.now) place }
    {
        let count = 32 * threads.as_slice().len();
        let is_open = is_semaphore_open(place, &self.descriptions, count);
        let is_awaited = is_semaphore_awaited(place, threads.as_slice());
        is_open || is_awaited
    }

    /// The semaphore at a place ends, unless it lives.
    pub fn sweep_semaphore(&mut self, place: u32, threads: &Threads)
        requires { ArePlaced (length threads.now.threads) self.old }
        ensures state { (k : KernelState) (content : Chain → List ℕ) → with_objects k threads.now content self.new ≡ swept_target (with_objects k threads.now content self.old) (target.Semaphore place) }
        ensures chains { chains_of self.new ≡ chains_of self.old }
        ensures places { SamePlaces self.old self.new }
    {
        let lives = self.semaphore_lives(place, threads);
        self.semaphores.sweep(place, lives);
    }

    /// What a description led to ends, unless it lives: a file while a path names it or a
    /// description leads to it, a queue also while a thread waits on it, a semaphore while a
    /// description leads to it or a thread waits on it.
    #[tactic(auto, using(crate::proofs::Places::same_places))]
    pub fn sweep_target<B: BlockStore>(&mut self, target: Target, threads: &Threads, blocks: &mut B)
        requires placed { ArePlaced (length threads.now.threads) self.old }
        requires held { B.holds blocks.old (chains_of self.old) }
        ensures state { (k : KernelState) → with_objects k threads.now (B.content blocks.new) self.new ≡ swept_target (with_objects k threads.now (B.content blocks.old) self.old) target }
        ensures held { B.holds blocks.new (chains_of self.new) }
        ensures alike { B.alike blocks.old blocks.new }
        ensures places { SamePlaces self.old self.new }
    {
        match target {
            Target::File(place) => self.sweep_file(place, blocks),
            Target::Queue(place) => self.sweep_queue(place, threads, blocks),
            Target::Semaphore(place) => self.sweep_semaphore(place, threads),
            Target::Console => {}
            Target::Null => {}
        }
    }
}
