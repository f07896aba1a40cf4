// Calls on descriptors of any sort, each by its row.
ghost use Rattle.std.specs.Prelude.{◌≡◌, ◌<◌, ℕ, List, length};
ghost use Rattle.nx_pool.specs.declared.chain.Chain.{Chain};
ghost use Rattle.nx_ksys.specs.State.{Group};
ghost use Rattle.nx_ksys.specs.Gathered.{replies_of};
ghost use Rattle.nx_ksys.specs.FileCalls.{close_row, dup_row, dup2_row};
ghost use Rattle.nx_kernel.specs.Doing.{Does, caller_of};
ghost use Rattle.nx_objects.specs.Tables.{chains_of};
ghost use Rattle.nx_ktables.specs.State.{state_of, rooms_of, IsPlaced};

use crate::answers::{answer, done};
use crate::tables::Tables;
use nx_kernel::Calling;
use nx_ksys::Replies;
use nx_pool::BlockStore;

impl Tables {
    /// `close` by a thread of the group at a place. EBADF for a descriptor that isn't open.
    pub fn close<B: BlockStore>(
        &mut self,
        caller: Calling,
        place: u32,
        fd: u32,
        blocks: &mut B,
        replies: &mut Replies,
    )
        requires place { place < length self.old.threads.threads }
        requires placed { IsPlaced self.old }
        requires held { B.holds blocks.old (chains_of self.old.objects) }
        requires room { length replies.old.replies < replies.old.room }
        ensures does { (group : Group) → Does (state_of (B.content blocks.new) self.new) (replies_of replies.old.replies) (replies_of replies.new.replies) (close_row (state_of (B.content blocks.old) self.old) (caller_of caller place group) fd) }
        ensures held { B.holds blocks.new (chains_of self.new.objects) }
        ensures alike { B.alike blocks.old blocks.new }
        ensures rooms { rooms_of self.new ≡ rooms_of self.old }
        ensures room { replies.new.room ≡ replies.old.room }
    {
        let closed = self.objects.close_any(place, fd, &self.threads, blocks);
        done(caller, closed, &mut self.threads, replies);
    }

    /// `dup` by a thread of the group at a place. EBADF for a descriptor that isn't open, EMFILE
    /// where none is free.
    pub fn dup(&mut self, caller: Calling, place: u32, fd: u32, replies: &mut Replies)
        requires place { place < length self.old.threads.threads }
        requires placed { IsPlaced self.old }
        requires room { length replies.old.replies < replies.old.room }
        ensures does { (content : Chain → List ℕ) (group : Group) → Does (state_of content self.new) (replies_of replies.old.replies) (replies_of replies.new.replies) (dup_row (state_of content self.old) (caller_of caller place group) fd) }
        ensures chains { chains_of self.new.objects ≡ chains_of self.old.objects }
        ensures rooms { rooms_of self.new ≡ rooms_of self.old }
        ensures room { replies.new.room ≡ replies.old.room }
    {
        let new = self.objects.dup(place, fd);
        answer(caller, new, &mut self.threads, replies);
    }

    /// `dup2` by a thread of the group at a place. EBADF for a first descriptor that isn't open,
    /// and for a second over 31.
    pub fn dup2<B: BlockStore>(
        &mut self,
        caller: Calling,
        place: u32,
        first: u32,
        second: u32,
        blocks: &mut B,
        replies: &mut Replies,
    )
        requires place { place < length self.old.threads.threads }
        requires placed { IsPlaced self.old }
        requires held { B.holds blocks.old (chains_of self.old.objects) }
        requires room { length replies.old.replies < replies.old.room }
        ensures does { (group : Group) → Does (state_of (B.content blocks.new) self.new) (replies_of replies.old.replies) (replies_of replies.new.replies) (dup2_row (state_of (B.content blocks.old) self.old) (caller_of caller place group) first second) }
        ensures held { B.holds blocks.new (chains_of self.new.objects) }
        ensures alike { B.alike blocks.old blocks.new }
        ensures rooms { rooms_of self.new ≡ rooms_of self.old }
        ensures room { replies.new.room ≡ replies.old.room }
    {
        let new = self
            .objects
            .dup2(place, first, second, &self.threads, blocks);
        answer(caller, new, &mut self.threads, replies);
    }
}
