ghost use Rattle.std.specs.Prelude.{◌≡◌, ◌≤◌, [], List, ℕ, length};
ghost use Rattle.nx_shrun.specs.Steps.{go as goes, fail as fails, abandon};
ghost use Rattle.nx_shstep.specs.Held.{IsReady, IsHandled, outcome_of};

use crate::calling::word;
use crate::command::Command;
use nx_base::KCall;
use nx_shrun::{Awaits, Ending, Step, Steps, put_failure};

/// Steps that close so many descriptors, whatever comes of it.
fn put_abandons(todo: &mut Steps, count: usize)
    requires { count ≤ todo.old.room }
    ensures { (fds : List ℕ) → length fds ≡ count → todo.new ≡ record todo.old { steps = abandon fds } }
{
    todo.clear();
    for _ in 0..count {
        todo.push(Step::Abandon);
    }
}

impl Command {
    /// Goes on with the next step, or is over.
    pub(crate) fn go(&mut self) -> Option<Ending>
        requires { IsReady self.old.running self.old.todo }
        ensures outcome { outcome_of result self.new ≡ goes self.old.running self.old.todo }
        ensures handled { IsHandled result self.new }
        ensures room { self.new.room ≡ self.old.room }
    {
        match self.todo.pop() {
            None => Some(self.ending),
            Some(step) => {
                self.make(step);
                self.awaits = Awaits::Step(step);
                None
            }
        }
    }

    /// A call failed: a message, and then what is open is closed.
    #[tactic(auto, using(crate::proofs::Weights::weights_abandon, crate::proofs::Weights::openings_abandon, nx_shrun::proofs::Bounded::failure_le))]
    pub(crate) fn fail(&mut self, which: KCall, errno: u32) -> Option<Ending>
        requires ready { IsReady self.old.running [] }
        ensures outcome { outcome_of result self.new ≡ fails self.old.running which errno }
        ensures handled { IsHandled result self.new }
        ensures room { self.new.room ≡ self.old.room }
    {
        put_failure(&mut self.text, word(self.words.as_slice(), 0), which, errno);
        self.call.set_write(2, self.text.as_slice());
        put_abandons(&mut self.todo, self.opened.len());
        self.ending = Ending::Status(1);
        self.awaits = Awaits::Message;
        None
    }
}
