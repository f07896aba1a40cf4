ghost use Rattle.std.specs.Prelude.{◌≡◌, ◌<◌, ◌≤◌, true, length, MatchOption, None};
ghost use Rattle.nx_ksys.specs.State.{KernelState};
ghost use Rattle.nx_ksys.specs.ThreadTable.{threads};
ghost use Rattle.nx_ksys.specs.Gathered.{replies_of};
ghost use Rattle.nx_ksys.specs.Soundness.{IsSound};
ghost use Rattle.nx_guests.specs.Turns.{IsFormed};
ghost use Rattle.nx_ksys.specs.Picking.{picked};
ghost use Rattle.nx_abstract.specs.Kernels.{IsRow, IsChosen, IsOverBy, IsStepped, is_ready_at};

use nx_guests::Start;
use nx_ksys::{Cooked, Pick, Replies};

/// Where a thread stands.
#[derive(Clone, Copy, Debug)]
pub struct Row {
    /// The number of its group.
    pub group: u32,
    /// The place of its program.
    pub program: u32,
}

/// What a call does beside its replies.
#[derive(Clone, Copy, Debug)]
pub enum Effect {
    /// Nothing.
    Stays,
    /// The group of this number ended.
    EndsGroup(u32),
    /// A thread began.
    Begins(Start),
}

/// Why a run is over.
#[derive(Clone, Copy, Debug)]
pub enum Over {
    /// No group is left.
    Ended,
    /// No thread is ready, and none has a deadline.
    Idle,
}

/// A kernel that does what its definition says.
pub trait Kernel {
    /// Its state.
    ghost state: { Self → KernelState };

    /// What holds of it besides.
    ghost keeps: { Self → Type 0 };

    /// Which thread runs next. Where time passes for it, the replies are those of who wakes.
    fn pick(&mut self, replies: &mut Replies) -> Pick
        requires keeps { keeps self.old }
        requires calls { (state self.old).calls ≤ 1000000000 }
        requires room { length (state self.old).sched.threads ≤ replies.old.room }
        ensures keeps { keeps self.new }
        ensures chosen { IsChosen (state self.old) (state self.new) result (replies_of replies.new.replies) }
        ensures room { replies.new.room ≡ replies.old.room };

    /// Whether no thread is to be chosen, and why. Nothing changes, and no time passes.
    fn over(&self) -> Option<Over>
        requires { keeps self.now }
        ensures { IsOverBy result (picked (state self.now)).pick };

    /// The group and the program of a thread.
    fn thread(&self, number: u32) -> Option<Row>
        requires { keeps self.now }
        ensures { IsRow result (threads (state self.now) number) };

    /// A ready thread makes a call.
    fn step(&mut self, thread: u32, call: &Cooked, replies: &mut Replies) -> Effect
        requires keeps { keeps self.old }
        requires ready { is_ready_at (state self.old) thread ≡ true }
        requires formed { IsFormed call.now }
        requires calls { (state self.old).calls < 1000000000 }
        requires room { length (state self.old).sched.threads ≤ replies.old.room }
        ensures keeps { keeps self.new }
        ensures stepped { IsStepped (state self.old) thread call.now (state self.new) result (replies_of replies.new.replies) }
        ensures room { replies.new.room ≡ replies.old.room };

    ghost sound: { (s : Self) → keeps s → IsSound (state s) };
}
