// Calls that change an environment, each by its row.
ghost use Rattle.std.specs.Prelude.{◌≡◌, ◌<◌, ◌≤◌, ℕ, List, Some, length, slice_get};
ghost use Rattle.nx_pool.specs.declared.chain.Chain.{Chain};
ghost use Rattle.nx_ksys.specs.State.{Group};
ghost use Rattle.nx_ksys.specs.Gathered.{replies_of};
ghost use Rattle.nx_ksys.specs.EnvironmentCalls.{setenv_row, unsetenv_row};
ghost use Rattle.nx_env.specs.Joined.{variables_at, with_variables};
ghost use Rattle.nx_kernel.specs.Doing.{Does, caller_of};
ghost use Rattle.nx_objects.specs.Tables.{chains_of};
ghost use Rattle.nx_ktables.specs.State.{state_of, rooms_of};

use crate::answers::done;
use crate::tables::Tables;
use nx_kernel::Calling;
use nx_ksys::Replies;

impl Tables {
    /// `setenv` by a thread of the group at a place. EINVAL for a name that hasn't 1 to 32 bytes or
    /// has a `=`, ENOMEM for a 17th name.
    pub fn set_variable(
        &mut self,
        caller: Calling,
        place: u32,
        name: &[u8],
        value: &[u8],
        replace: u32,
        replies: &mut Replies,
    )
        requires place { place < length self.old.environments }
        requires short { length value.now ≤ 260 }
        requires room { length replies.old.replies < replies.old.room }
        ensures does { (content : Chain → List ℕ) (g : Group) → slice_get self.old.groups place ≡ Some (Some g)
            → Does (state_of content self.new) (replies_of replies.old.replies) (replies_of replies.new.replies) (setenv_row (state_of content self.old) (caller_of caller place (with_variables g (variables_at self.old.environments place))) name.now value.now replace) }
        ensures chains { chains_of self.new.objects ≡ chains_of self.old.objects }
        ensures rooms { rooms_of self.new ≡ rooms_of self.old }
        ensures room { replies.new.room ≡ replies.old.room }
    {
        let outcome = self.environments.set(place, name, value, replace);
        done(caller, outcome, &mut self.threads, replies);
    }

    /// `unsetenv` by a thread of the group at a place. EINVAL for a name that hasn't 1 to 32 bytes
    /// or has a `=`.
    pub fn unset_variable(
        &mut self,
        caller: Calling,
        place: u32,
        name: &[u8],
        replies: &mut Replies,
    )
        requires place { place < length self.old.environments }
        requires room { length replies.old.replies < replies.old.room }
        ensures does { (content : Chain → List ℕ) (g : Group) → slice_get self.old.groups place ≡ Some (Some g)
            → Does (state_of content self.new) (replies_of replies.old.replies) (replies_of replies.new.replies) (unsetenv_row (state_of content self.old) (caller_of caller place (with_variables g (variables_at self.old.environments place))) name.now) }
        ensures chains { chains_of self.new.objects ≡ chains_of self.old.objects }
        ensures rooms { rooms_of self.new ≡ rooms_of self.old }
        ensures room { replies.new.room ≡ replies.old.room }
    {
        let outcome = self.environments.unset(place, name);
        done(caller, outcome, &mut self.threads, replies);
    }
}
