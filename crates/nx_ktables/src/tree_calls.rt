// Calls on paths, each by its row. Where the group that calls isn't there, nothing happens.
ghost use Rattle.std.specs.Prelude.{◌≡◌, ◌<◌, ◌≤◌, ℕ, List, Some, length, slice_get};
ghost use Rattle.nx_pool.specs.declared.chain.Chain.{Chain};
ghost use Rattle.nx_ksys.specs.Threads.{flat};
ghost use Rattle.nx_ksys.specs.State.{Group};
ghost use Rattle.nx_ksys.specs.Gathered.{replies_of};
ghost use Rattle.nx_ksys.specs.TreeCalls.{rmdir_row, rename_row};
ghost use Rattle.nx_env.specs.Joined.{Variables, with_variables};
ghost use Rattle.nx_kernel.specs.Doing.{Does, caller_of};
ghost use Rattle.nx_objects.specs.Tables.{chains_of};
ghost use Rattle.nx_ktables.specs.State.{state_of, rooms_of};

use crate::answers::done;
use crate::tables::Tables;
use nx_kernel::Calling;
use nx_ksys::Replies;

impl Tables {
    /// `rmdir` by a thread of the group at a place.
    pub fn remove_directory(
        &mut self,
        caller: Calling,
        place: u32,
        text: &[u8],
        replies: &mut Replies,
    )
        requires text { length text.now ≤ 260 }
        requires room { length replies.old.replies < replies.old.room }
        ensures does { (content : Chain → List ℕ) (g : Group) (variables : Variables) → flat (slice_get self.old.groups place) ≡ Some g
            → Does (state_of content self.new) (replies_of replies.old.replies) (replies_of replies.new.replies) (rmdir_row (state_of content self.old) (caller_of caller place (with_variables g variables)) text.now) }
        ensures chains { chains_of self.new.objects ≡ chains_of self.old.objects }
        ensures rooms { rooms_of self.new ≡ rooms_of self.old }
        ensures room { replies.new.room ≡ replies.old.room }
    {
        match self.groups.get(place) {
            None => {}
            Some(group) => {
                let outcome = self.objects.tree.remove_directory(group.directory(), text);
                done(caller, outcome, &mut self.threads, replies);
            }
        }
    }

    /// `rename` by a thread of the group at a place.
    pub fn rename(
        &mut self,
        caller: Calling,
        place: u32,
        first: &[u8],
        second: &[u8],
        replies: &mut Replies,
    )
        requires first { length first.now ≤ 260 }
        requires second { length second.now ≤ 260 }
        requires room { length replies.old.replies < replies.old.room }
        ensures does { (content : Chain → List ℕ) (g : Group) (variables : Variables) → flat (slice_get self.old.groups place) ≡ Some g
            → Does (state_of content self.new) (replies_of replies.old.replies) (replies_of replies.new.replies) (rename_row (state_of content self.old) (caller_of caller place (with_variables g variables)) first.now second.now) }
        ensures chains { chains_of self.new.objects ≡ chains_of self.old.objects }
        ensures rooms { rooms_of self.new ≡ rooms_of self.old }
        ensures room { replies.new.room ≡ replies.old.room }
    {
        match self.groups.get(place) {
            None => {}
            Some(group) => {
                let outcome = self.objects.tree.rename(group.directory(), first, second);
                done(caller, outcome, &mut self.threads, replies);
            }
        }
    }
}
