ghost use Rattle.std.specs.Prelude.{◌≡◌, ◌+◌, ◌≤◌, ◌<◌, ◌==◌, false, [], ◌∷◌, length, if◌then◌else◌};
ghost use Rattle.nx_ksys.specs.Gathered.{reply_of};
ghost use Rattle.nx_shrun.specs.declared.step.Step.TheVariants as step;
ghost use Rattle.nx_shrun.specs.declared.step.Listing.TheVariants as listing;
ghost use Rattle.nx_shrun.specs.Calls.{Fits, is_failed, write as write_call, handed as handed_by, output};
ghost use Rattle.nx_shrun.specs.Texts.{line};
ghost use Rattle.nx_shrun.specs.Steps.{go as goes, put as puts, unless_failed, unless_short, opens, below, without_second, entry, next_index, is_found, differs, status_of, after_step as after_step_of};
ghost use Rattle.nx_shstep.specs.Held.{IsReady, IsHandled, openings, outcome_of};

use crate::command::Command;
use crate::reply::{code, errno, handed, has_failed, value};
use crate::texts::{put_entry, put_line};
use nx_base::KCall;
use nx_ksys::Reply;
use nx_shrun::{Awaits, Ending, Listing, Step, Wanted};

/// ENOSPC, as the shell's name for a part that wasn't written.
const NO_SPACE: u32 = 28;

/// What `nx_kind` returns for a file, and for a directory.
const FILE: u32 = 1;

const DIRECTORY: u32 = 2;

fn is_wanted(want: Wanted, reply: &Reply) -> bool
    ensures { result ≡ is_found want (reply_of reply.now) }
{
    if has_failed(reply) {
        return false;
    }
    match want {
        Wanted::Anything => true,
        Wanted::File => value(reply) == FILE,
        Wanted::Directory => value(reply) == DIRECTORY,
    }
}

fn status(isnt: bool, found: bool) -> u32
    ensures { result ≡ status_of (differs isnt found) }
{
    if isnt {
        if found { 1 } else { 0 }
    } else {
        if found { 0 } else { 1 }
    }
}

impl Command {
    /// After a call that may fail.
    pub(crate) fn went(&mut self, reply: &Reply) -> Option<Ending>
        requires { IsReady self.old.running self.old.todo }
        ensures outcome { outcome_of result self.new ≡ unless_failed self.old.running self.old.call (reply_of reply.now) (goes self.old.running self.old.todo) }
        ensures handled { IsHandled result self.new }
        ensures room { self.new.room ≡ self.old.room }
    {
        if has_failed(reply) {
            let which = self.call.which();
            return self.fail(which, errno(reply));
        }
        self.go()
    }

    /// After a call that is to write all that it was given.
    pub(crate) fn wrote(&mut self, reply: &Reply) -> Option<Ending>
        requires { IsReady self.old.running self.old.todo }
        ensures outcome { outcome_of result self.new ≡ unless_short self.old.running self.old.call (reply_of reply.now) (goes self.old.running self.old.todo) }
        ensures handled { IsHandled result self.new }
        ensures room { self.new.room ≡ self.old.room }
    {
        if has_failed(reply) {
            let which = self.call.which();
            return self.fail(which, errno(reply));
        }
        if (value(reply) as usize) < self.call.written() {
            return self.fail(KCall::Write, NO_SPACE);
        }
        self.go()
    }

    pub(crate) fn opened_output(&mut self, reply: &Reply) -> Option<Ending>
        requires ready { IsReady self.old.running self.old.todo }
        requires opened { length self.old.running.opened + openings self.old.todo < 2048 }
        ensures outcome { outcome_of result self.new ≡ unless_failed self.old.running self.old.call (reply_of reply.now) (goes (record (opens self.old.running (reply_of reply.now).value) { out = (reply_of reply.now).value }) self.old.todo) }
        ensures handled { IsHandled result self.new }
        ensures room { self.new.room ≡ self.old.room }
    {
        if has_failed(reply) {
            let which = self.call.which();
            return self.fail(which, errno(reply));
        }
        self.opened.push(value(reply));
        self.out = value(reply);
        self.go()
    }

    pub(crate) fn opened_source(&mut self, reply: &Reply) -> Option<Ending>
        requires ready { IsReady self.old.running self.old.todo }
        requires opened { length self.old.running.opened + openings self.old.todo < 2048 }
        ensures outcome { outcome_of result self.new ≡ unless_failed self.old.running self.old.call (reply_of reply.now) (goes (record (opens self.old.running (reply_of reply.now).value) { source = (reply_of reply.now).value }) self.old.todo) }
        ensures handled { IsHandled result self.new }
        ensures room { self.new.room ≡ self.old.room }
    {
        if has_failed(reply) {
            let which = self.call.which();
            return self.fail(which, errno(reply));
        }
        self.opened.push(value(reply));
        self.source = value(reply);
        self.go()
    }

    pub(crate) fn kept(&mut self, reply: &Reply) -> Option<Ending>
        requires ready { IsReady self.old.running self.old.todo }
        requires opened { length self.old.running.opened + openings self.old.todo < 2048 }
        ensures outcome { outcome_of result self.new ≡ unless_failed self.old.running self.old.call (reply_of reply.now) (goes (opens self.old.running (reply_of reply.now).value) self.old.todo) }
        ensures handled { IsHandled result self.new }
        ensures room { self.new.room ≡ self.old.room }
    {
        if has_failed(reply) {
            let which = self.call.which();
            return self.fail(which, errno(reply));
        }
        self.opened.push(value(reply));
        self.go()
    }

    #[tactic(auto, using(crate::proofs::Opened::below_le))]
    pub(crate) fn abandoned(&mut self) -> Option<Ending>
        requires { IsReady self.old.running self.old.todo }
        ensures outcome { outcome_of result self.new ≡ goes (record self.old.running { opened = below self.old.running.opened }) self.old.todo }
        ensures handled { IsHandled result self.new }
        ensures room { self.new.room ≡ self.old.room }
    {
        self.opened.pop();
        self.go()
    }

    pub(crate) fn closed(&mut self, reply: &Reply) -> Option<Ending>
        requires { IsReady self.old.running self.old.todo }
        ensures outcome { outcome_of result self.new ≡ unless_failed self.old.running self.old.call (reply_of reply.now) (goes (record self.old.running { opened = below self.old.running.opened }) self.old.todo) }
        ensures handled { IsHandled result self.new }
        ensures room { self.new.room ≡ self.old.room }
    {
        if has_failed(reply) {
            let which = self.call.which();
            return self.fail(which, errno(reply));
        }
        self.abandoned()
    }

    #[tactic(auto, using(crate::proofs::Weights::without_second_le))]
    pub(crate) fn let_go(&mut self, reply: &Reply) -> Option<Ending>
        requires { IsReady self.old.running self.old.todo }
        ensures outcome { outcome_of result self.new ≡ unless_failed self.old.running self.old.call (reply_of reply.now) (goes (record self.old.running { opened = without_second self.old.running.opened }) self.old.todo) }
        ensures handled { IsHandled result self.new }
        ensures room { self.new.room ≡ self.old.room }
    {
        if has_failed(reply) {
            let which = self.call.which();
            return self.fail(which, errno(reply));
        }
        self.opened.remove_before_last();
        self.go()
    }

    #[tactic(auto, using(crate::proofs::Weights::length_weights))]
    pub(crate) fn read(&mut self, reply: &Reply) -> Option<Ending>
        requires ready { IsReady self.old.running (step.Read ∷ self.old.todo) }
        requires short { length (handed_by (reply_of reply.now)) ≤ 4096 }
        ensures outcome { outcome_of result self.new ≡ after_step_of self.old.call self.old.running step.Read self.old.todo (reply_of reply.now) }
        ensures handled { IsHandled result self.new }
        ensures room { self.new.room ≡ self.old.room }
    {
        if has_failed(reply) {
            let which = self.call.which();
            return self.fail(which, errno(reply));
        }
        if value(reply) == 0 {
            return self.go();
        }
        self.call.set_write(self.out, handed(reply));
        self.todo.push(Step::Read);
        self.awaits = Awaits::Output;
        None
    }

    pub(crate) fn put_one(&mut self, listing: Listing, bytes: &[u8])
        requires { length bytes.now ≤ 512 }
        ensures { self.new ≡ record self.old { call = write_call self.old.running.out (entry listing bytes.now) } }
    {
        match listing {
            Listing::Names => put_entry(&mut self.text, bytes),
            Listing::Variables | Listing::Groups => put_line(&mut self.text, bytes),
        }
        self.call.set_write(self.out, self.text.as_slice());
    }

    #[tactic(auto, using(crate::proofs::Weights::length_weights))]
    pub(crate) fn listed_one(
        &mut self,
        listing: Listing,
        index: u32,
        reply: &Reply,
    ) -> Option<Ending>
        requires ready { IsReady self.old.running (step.Each listing index ∷ self.old.todo) }
        requires short { length (handed_by (reply_of reply.now)) ≤ 512 }
        ensures outcome { outcome_of result self.new ≡ after_step_of self.old.call self.old.running (step.Each listing index) self.old.todo (reply_of reply.now) }
        ensures handled { IsHandled result self.new }
        ensures room { self.new.room ≡ self.old.room }
    {
        if has_failed(reply) {
            let which = self.call.which();
            return self.fail(which, errno(reply));
        }
        if value(reply) == 0 {
            return self.go();
        }
        self.put_one(listing, handed(reply));
        self.todo.push(Step::Each(listing, index.wrapping_add(1)));
        self.awaits = Awaits::Output;
        None
    }

    pub(crate) fn told_directory(&mut self, reply: &Reply) -> Option<Ending>
        requires ready { IsReady self.old.running self.old.todo }
        requires short { length (handed_by (reply_of reply.now)) ≤ 512 }
        ensures outcome { outcome_of result self.new ≡ after_step_of self.old.call self.old.running step.Directory self.old.todo (reply_of reply.now) }
        ensures handled { IsHandled result self.new }
        ensures room { self.new.room ≡ self.old.room }
    {
        if has_failed(reply) {
            let which = self.call.which();
            return self.fail(which, errno(reply));
        }
        put_line(&mut self.text, handed(reply));
        self.call.set_write(self.out, self.text.as_slice());
        self.awaits = Awaits::Output;
        None
    }

    #[tactic(auto, using(crate::proofs::Weights::length_weights))]
    pub(crate) fn looked(&mut self, reply: &Reply) -> Option<Ending>
        requires { IsReady self.old.running (step.Look ∷ self.old.todo) }
        ensures outcome { outcome_of result self.new ≡ after_step_of self.old.call self.old.running step.Look self.old.todo (reply_of reply.now) }
        ensures handled { IsHandled result self.new }
        ensures room { self.new.room ≡ self.old.room }
    {
        if has_failed(reply) {
            let which = self.call.which();
            return self.fail(which, errno(reply));
        }
        if value(reply) == DIRECTORY {
            self.todo.push(Step::Each(Listing::Names, 0));
            self.todo.push(Step::Heading);
        } else {
            self.todo.push(Step::Entry);
        }
        self.go()
    }

    pub(crate) fn probed(&mut self, want: Wanted, isnt: bool, reply: &Reply) -> Option<Ending>
        requires { IsReady self.old.running self.old.todo }
        ensures outcome { outcome_of result self.new ≡ after_step_of self.old.call self.old.running (step.Probe want isnt) self.old.todo (reply_of reply.now) }
        ensures handled { IsHandled result self.new }
        ensures room { self.new.room ≡ self.old.room }
    {
        self.ending = Ending::Status(status(isnt, is_wanted(want, reply)));
        self.go()
    }

    pub(crate) fn waited(&mut self, reply: &Reply) -> Option<Ending>
        requires ready { IsReady self.old.running self.old.todo }
        requires short { length (output (reply_of reply.now)) ≤ 4 }
        ensures outcome { outcome_of result self.new ≡ after_step_of self.old.call self.old.running step.Wait self.old.todo (reply_of reply.now) }
        ensures handled { IsHandled result self.new }
        ensures room { self.new.room ≡ self.old.room }
    {
        if has_failed(reply) {
            let which = self.call.which();
            return self.fail(which, errno(reply));
        }
        self.ending = Ending::Status(code(reply));
        self.go()
    }
}
