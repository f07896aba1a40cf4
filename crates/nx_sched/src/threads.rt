ghost use Rattle.std.specs.Prelude.{◌≡◌, ◌<◌, ◌≤◌, ◌+◌, ◌^◌, Option, Some, None, length, map, replicate, IfOk, slice_get, slice_set};
ghost use Rattle.nx_ksys.specs.Threads.{Schedule, first_of, thread_of, slot_of, free_slot as free_slot_of, wake as woken, block as blocked, with_error};
ghost use Rattle.nx_ksys.specs.ThreadCalls.{prioritised, yielded};
ghost use Rattle.nx_ksys.specs.Ends.{without_group, without_thread};

use crate::change::{Change, Removal, change_one, remove};
use crate::search::{find, find_free, find_slot, first};
use nx_base::{Errno, OutOfMemory};
use nx_ksys::{Asked, Search, Thread, Wait};
use std::alloc::Global;
use std::marker::Model;

/// Threads by slot, and the moments so far. The slots are taken when it is made. Contracts see the
/// schedule. Moments never run out: each call makes at most one for each thread.
#[derive(Debug, Drop)]
pub struct Threads {
    slots: Vec<Option<Thread>>,
    moments: u64,
}

impl Model for Threads {
    ghost use Rattle.nx_ksys.specs.Threads.{Schedule};

    ghost Value = { Schedule };

    ghost view = { λ t. record { threads = t.slots.items; moments = t.moments } };
}

impl Threads {
    /// So many free slots.
    pub fn new(alloc: Global, threads: u32) -> Result<Threads, OutOfMemory>
        ensures { IfOk result (λ t. t ≡ record { threads = replicate threads None; moments = 0 }) }
    {
        let slots = vec![in alloc; None; threads as usize]?;
        Ok(Threads { slots, moments: 0 })
    }

    /// The threads by slot, from 0.
    pub fn as_slice(&self) -> &[Option<Thread>]
        ensures { result.now ≡ self.now.threads }
    {
        self.slots.as_slice()
    }

    /// The first thread of a sort.
    pub fn first(&self, search: Search) -> Option<Thread>
        ensures { result ≡ first_of search self.now.threads }
    {
        first(search, self.slots.as_slice())
    }

    /// The thread of a number.
    #[tactic(auto, unfolding(nx_ksys::specs::Threads::thread_of))]
    pub fn thread(&self, number: u32) -> Option<Thread>
        ensures { result ≡ thread_of self.now.threads number }
    {
        find(number, self.slots.as_slice())
    }

    /// The slot of the thread of a number.
    #[tactic(auto, unfolding(nx_ksys::specs::Threads::slot_of))]
    pub fn slot_of(&self, number: u32) -> Option<usize>
        ensures { result ≡ slot_of self.now.threads number }
    {
        find_slot(number, self.slots.as_slice())
    }

    /// The least slot that no thread has.
    pub fn free_slot(&self) -> Option<usize>
        ensures { result ≡ free_slot_of self.now.threads }
    {
        find_free(self.slots.as_slice())
    }

    /// A thread is ready from now on, after all that are.
    #[tactic(auto, unfolding(nx_ksys::specs::Threads::wake))]
    pub fn wake(&mut self, number: u32)
        requires { self.old.moments + 1 < 2 ^ 64 }
        ensures { self.new ≡ woken self.old number }
    {
        change_one(number, Change::Wake, self.moments, &mut self.slots);
        self.moments += 1;
    }

    /// A thread waits from now on, in this call, for this, perhaps up to a deadline in ticks.
    #[tactic(auto, unfolding(nx_ksys::specs::Threads::block))]
    pub fn block(&mut self, number: u32, asked: Asked, wait: Wait, deadline: Option<u64>)
        requires { self.old.moments + 1 < 2 ^ 64 }
        ensures { self.new ≡ blocked self.old number asked wait deadline }
    {
        let change = Change::Block(asked, wait, deadline);
        change_one(number, change, self.moments, &mut self.slots);
        self.moments += 1;
    }

    /// Sets a thread's last error.
    #[tactic(auto, unfolding(nx_ksys::specs::Threads::with_error))]
    pub fn fail(&mut self, number: u32, errno: Errno)
        ensures { self.new ≡ with_error self.old number errno }
    {
        change_one(number, Change::Fail(errno), self.moments, &mut self.slots);
    }

    /// Sets a thread's priority. A ready one stands after its new equals.
    pub fn prioritise(&mut self, number: u32, priority: u8)
        requires { self.old.moments + 1 < 2 ^ 64 }
        ensures { self.new ≡ prioritised self.old number priority }
    {
        let change = Change::Prioritise(priority);
        change_one(number, change, self.moments, &mut self.slots);
        self.moments += 1;
    }

    /// A ready thread stands after its equals.
    pub fn yield_now(&mut self, number: u32)
        requires { self.old.moments + 1 < 2 ^ 64 }
        ensures { self.new ≡ yielded self.old number }
    {
        change_one(number, Change::Yield, self.moments, &mut self.slots);
        self.moments += 1;
    }

    /// A thread begins in a slot.
    pub fn begin(&mut self, slot: usize, thread: Thread)
        requires slot { slot < length self.old.threads }
        requires moments { self.old.moments + 1 < 2 ^ 64 }
        ensures { self.new ≡ record { threads = slice_set self.old.threads slot (Some thread); moments = self.old.moments + 1 } }
    {
        self.slots[slot] = Some(thread);
        self.moments += 1;
    }

    /// The threads of a group vanish.
    pub fn end_group(&mut self, group: u32)
        ensures { self.new ≡ record self.old { threads = map (without_group group) self.old.threads } }
    {
        remove(Removal::Group(group), &mut self.slots);
    }

    /// A thread vanishes.
    pub fn end_thread(&mut self, number: u32)
        ensures { self.new ≡ record self.old { threads = map (without_thread number) self.old.threads } }
    {
        remove(Removal::Thread(number), &mut self.slots);
    }
}
