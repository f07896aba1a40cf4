// Calls on time and on threads that leave the groups alone, each by its row.
ghost use Rattle.std.specs.Prelude.{◌≡◌, ◌<◌, ◌+◌, ◌^◌, ℕ, List, length};
ghost use Rattle.nx_pool.specs.declared.chain.Chain.{Chain};
ghost use Rattle.nx_ksys.specs.State.{Group};
ghost use Rattle.nx_ksys.specs.Gathered.{replies_of};
ghost use Rattle.nx_ksys.specs.ThreadCalls.{yield_row, errno_row, setpriority_row};
ghost use Rattle.nx_ksys.specs.TimeCalls.{sleep_row, ticks_row};
ghost use Rattle.nx_kernel.specs.Doing.{Does, caller_of};
ghost use Rattle.nx_objects.specs.Tables.{chains_of};
ghost use Rattle.nx_ktables.specs.State.{state_of, rooms_of};

use crate::answers::tell_word;
use crate::tables::Tables;
use nx_kernel::Calling;
use nx_ksys::Replies;

impl Tables {
    /// `sched_yield`.
    pub fn yield_now(&mut self, caller: Calling, replies: &mut Replies)
        requires moments { self.old.threads.moments + 1 < 2 ^ 64 }
        requires room { length replies.old.replies < replies.old.room }
        ensures does { (content : Chain → List ℕ) (place : ℕ) (group : Group) → Does (state_of content self.new) (replies_of replies.old.replies) (replies_of replies.new.replies) (yield_row (state_of content self.old) (caller_of caller place group)) }
        ensures chains { chains_of self.new.objects ≡ chains_of self.old.objects }
        ensures rooms { rooms_of self.new ≡ rooms_of self.old }
        ensures room { replies.new.room ≡ replies.old.room }
    {
        nx_kernel::yield_now(caller, &mut self.threads, replies);
    }

    /// `nx_setpriority` by a thread of a group.
    pub fn set_priority(
        &mut self,
        caller: Calling,
        group: u32,
        thread: u32,
        priority: u32,
        replies: &mut Replies,
    )
        requires moments { self.old.threads.moments + 1 < 2 ^ 64 }
        requires room { length replies.old.replies < replies.old.room }
        ensures does { (content : Chain → List ℕ) (place : ℕ) (g : Group) → g.number ≡ group → Does (state_of content self.new) (replies_of replies.old.replies) (replies_of replies.new.replies) (setpriority_row (state_of content self.old) (caller_of caller place g) thread priority) }
        ensures chains { chains_of self.new.objects ≡ chains_of self.old.objects }
        ensures rooms { rooms_of self.new ≡ rooms_of self.old }
        ensures room { replies.new.room ≡ replies.old.room }
    {
        nx_kernel::set_priority(caller, group, thread, priority, &mut self.threads, replies);
    }

    /// `get_errno`.
    #[tactic(auto, unfolding(nx_ksys::specs::ThreadCalls::errno_row))]
    pub fn errno(&self, caller: Calling, replies: &mut Replies)
        requires room { length replies.old.replies < replies.old.room }
        ensures does { (content : Chain → List ℕ) (place : ℕ) (group : Group) → Does (state_of content self.now) (replies_of replies.old.replies) (replies_of replies.new.replies) (errno_row (state_of content self.now) (caller_of caller place group)) }
        ensures room { replies.new.room ≡ replies.old.room }
    {
        let number = caller.thread.errno.unsigned_abs();
        tell_word(caller.thread.number, number, b"", b"", replies);
    }

    /// `nx_ticks`.
    pub fn ticks(&self, caller: Calling, replies: &mut Replies)
        requires room { length replies.old.replies < replies.old.room }
        ensures does { (content : Chain → List ℕ) (place : ℕ) (group : Group) → Does (state_of content self.now) (replies_of replies.old.replies) (replies_of replies.new.replies) (ticks_row (state_of content self.now) (caller_of caller place group)) }
        ensures room { replies.new.room ≡ replies.old.room }
    {
        nx_kernel::ticks(caller, &self.clock, replies);
    }

    /// `nx_sleep`.
    pub fn sleep(&mut self, caller: Calling, ticks: u32, replies: &mut Replies)
        requires time { self.old.clock.time + ticks < 2 ^ 64 }
        requires moments { self.old.threads.moments + 1 < 2 ^ 64 }
        requires room { length replies.old.replies < replies.old.room }
        ensures does { (content : Chain → List ℕ) (place : ℕ) (group : Group) → Does (state_of content self.new) (replies_of replies.old.replies) (replies_of replies.new.replies) (sleep_row (state_of content self.old) (caller_of caller place group) ticks) }
        ensures chains { chains_of self.new.objects ≡ chains_of self.old.objects }
        ensures rooms { rooms_of self.new ≡ rooms_of self.old }
        ensures room { replies.new.room ≡ replies.old.room }
    {
        nx_kernel::sleep(caller, ticks, &self.clock, &mut self.threads, replies);
    }
}
