ghost use Rattle.std.specs.Prelude.{◌≡◌, ◌≤◌, ◌==◌, [], ◌∷◌, length, if◌then◌else◌};
ghost use Rattle.nx_ksys.specs.Gathered.{reply_of};
ghost use Rattle.nx_shrun.specs.declared.step.Step.TheVariants as step;
ghost use Rattle.nx_base.specs.declared.calls.KCall.TheVariants as kernel;
ghost use Rattle.nx_shrun.specs.Calls.{Fits};
ghost use Rattle.nx_shrun.specs.Texts.{command_not_found, failure_message};
ghost use Rattle.nx_shrun.specs.Steps.{restoring, not_started as not_started_by, call_at, after_step as after_step_of, after_reply as after_reply_of};
ghost use Rattle.nx_shstep.specs.Held.{IsShort, IsReady, IsUnderWay, IsHandled, outcome_of};

use crate::calling::word;
use crate::command::Command;
use crate::reply::{errno, has_failed, value};
use nx_base::KCall;
use nx_ksys::{MovedBytes, Reply};
use nx_shrun::{Awaits, Ending, Step, Steps, put_failure, put_not_found};

/// ENOENT.
const NO_ENTRY: u32 = 2;

fn put_restoring(todo: &mut Steps, redirected: bool)
    requires { 2 ≤ todo.old.room }
    ensures { todo.new ≡ record todo.old { steps = restoring redirected } }
{
    todo.clear();
    if redirected {
        todo.push(Step::Close);
        todo.push(Step::Restore);
    }
}

/// Why a program couldn't be started.
#[tactic(auto, using(nx_shrun::proofs::Bounded::missing_le, nx_shrun::proofs::Bounded::failure_le))]
fn put_unstarted(text: &mut MovedBytes, name: &[u8], errno: u32)
    requires { length name.now ≤ 255 }
    ensures text { text.new ≡ (if errno == 2 then command_not_found name.now else failure_message name.now kernel.NxSpawn errno) }
    ensures len { length text.new ≤ 4096 }
{
    if errno == NO_ENTRY {
        put_not_found(text, name);
    } else {
        put_failure(text, name, KCall::NxSpawn, errno);
    }
}

impl Command {
    fn not_started(&mut self, redirected: bool, errno: u32) -> Option<Ending>
        requires { IsReady self.old.running [] }
        ensures outcome { outcome_of result self.new ≡ not_started_by self.old.running errno (restoring redirected) }
        ensures handled { IsHandled result self.new }
        ensures room { self.new.room ≡ self.old.room }
    {
        put_unstarted(&mut self.text, word(self.words.as_slice(), 0), errno);
        self.call.set_write(2, self.text.as_slice());
        put_restoring(&mut self.todo, redirected);
        self.ending = Ending::Status(1);
        self.awaits = Awaits::Message;
        None
    }

    fn spawned(&mut self, redirected: bool, reply: &Reply) -> Option<Ending>
        requires { IsReady self.old.running self.old.todo }
        ensures outcome { outcome_of result self.new ≡ after_step_of self.old.call self.old.running (step.Spawn redirected) self.old.todo (reply_of reply.now) }
        ensures handled { IsHandled result self.new }
        ensures room { self.new.room ≡ self.old.room }
    {
        if has_failed(reply) {
            return self.not_started(redirected, errno(reply));
        }
        self.pid = value(reply);
        self.go()
    }

    #[tactic(auto, using(crate::proofs::Fitting::read_fits, crate::proofs::Fitting::listing_fits, crate::proofs::Fitting::directory_fits, crate::proofs::Fitting::code_fits))]
    fn after_step(&mut self, step: Step, reply: &Reply) -> Option<Ending>
        requires ready { IsReady self.old.running (step ∷ self.old.todo) }
        requires of { self.old.call ≡ call_at self.old.running step }
        requires fits { Fits self.old.call (reply_of reply.now) }
        ensures outcome { outcome_of result self.new ≡ after_step_of self.old.call self.old.running step self.old.todo (reply_of reply.now) }
        ensures handled { IsHandled result self.new }
        ensures room { self.new.room ≡ self.old.room }
    {
        match step {
            Step::Redirect(_) | Step::Create => self.opened_output(reply),
            Step::Open(_) => self.opened_source(reply),
            Step::Read => self.read(reply),
            Step::Close => self.closed(reply),
            Step::Echo | Step::Entry | Step::Heading | Step::Announce => self.wrote(reply),
            Step::Look => self.looked(reply),
            Step::Each(listing, index) => self.listed_one(listing, index, reply),
            Step::Directory => self.told_directory(reply),
            Step::Change(_) | Step::Sleep(_) | Step::Direct | Step::Restore => self.went(reply),
            Step::Probe(want, isnt) => self.probed(want, isnt, reply),
            Step::Keep => self.kept(reply),
            Step::Let => self.let_go(reply),
            Step::Spawn(redirected) => self.spawned(redirected, reply),
            Step::Wait => self.waited(reply),
            Step::Abandon => self.abandoned(),
        }
    }

    /// Goes on after a reply, or is over.
    pub fn after_reply(&mut self, reply: &Reply) -> Option<Ending>
        requires under_way { IsUnderWay self.old }
        requires fits { Fits self.old.call (reply_of reply.now) }
        ensures outcome { outcome_of result self.new ≡ after_reply_of self.old.call self.old.running self.old.awaits self.old.todo (reply_of reply.now) }
        ensures handled { IsHandled result self.new }
        ensures room { self.new.room ≡ self.old.room }
    {
        match self.awaits {
            Awaits::Step(step) => self.after_step(step, reply),
            Awaits::Output => self.wrote(reply),
            Awaits::Message => self.go(),
        }
    }
}
