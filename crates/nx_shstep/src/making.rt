ghost use Rattle.std.specs.Prelude.{◌≡◌};
ghost use Rattle.nx_shrun.specs.declared.step.Step.TheVariants as step;
ghost use Rattle.nx_shrun.specs.Steps.{call_at, flags_of as flags_of_mode};
ghost use Rattle.nx_shstep.specs.Held.{IsShort};

use crate::calling::{listed, probed, word};
use crate::command::Command;
use crate::texts::{put_arguments, put_echo, put_entry, put_heading};
use nx_base::KCall;
use nx_shrun::{Step, put_announcement, put_path};
use nx_shtree::Mode;

// Flags of `open`: read; write, create and truncate; write, create and append.
const READ: u32 = 1;

const TRUNCATE: u32 = 38;

const APPEND: u32 = 22;

fn flags_of(mode: Mode) -> u32
    ensures { result ≡ flags_of_mode mode }
{
    match mode {
        Mode::Truncate => TRUNCATE,
        Mode::Append => APPEND,
    }
}

impl Command {
    /// Makes the call of a step.
    pub(crate) fn make(&mut self, step: Step)
        requires { IsShort self.old.running }
        ensures { self.new ≡ record self.old { call = call_at self.old.running step } }
    {
        let words = self.words.as_slice();
        match step {
            Step::Redirect(mode) => self.call.set_open(self.file.as_slice(), flags_of(mode)),
            Step::Open(place) => self.call.set_open(word(words, place), READ),
            Step::Create => self.call.set_open(word(words, 2), TRUNCATE),
            Step::Read => self.call.set(KCall::Read, self.source, 0, 4096),
            Step::Close | Step::Abandon => self.call.set_close(self.opened.last()),
            Step::Echo => self.make_echo(),
            Step::Look => self.call.set_kind(listed(words)),
            Step::Entry => self.make_entry(),
            Step::Heading => self.make_heading(),
            Step::Each(listing, index) => self.call.set_listing(listing, words, index),
            Step::Directory => self.call.set(KCall::NxGetcwd, 0, 256, 0),
            Step::Change(change) => self.call.set_change(change, words),
            Step::Probe(_, isnt) => self.call.set_kind(probed(isnt, words)),
            Step::Sleep(ticks) => self.call.set(KCall::NxSleep, ticks, 0, 0),
            Step::Keep => self.call.set(KCall::Dup, 1, 0, 0),
            Step::Direct => self.call.set(KCall::Dup2, self.opened.before_last(), 1, 0),
            Step::Let => self.call.set_close(self.opened.before_last()),
            Step::Spawn(redirected) => self.make_spawn(redirected),
            Step::Restore => self.call.set(KCall::Dup2, self.opened.last(), 1, 0),
            Step::Wait => self.call.set(KCall::Waitpid, self.pid, 0, 0),
            Step::Announce => self.make_announcement(),
        }
    }

    #[tactic(auto, using(nx_shrun::proofs::Bounded::echo_le))]
    fn make_echo(&mut self)
        requires { IsShort self.old.running }
        ensures { self.new ≡ record self.old { call = call_at self.old.running step.Echo } }
    {
        put_echo(&mut self.text, self.words.as_slice());
        self.call.set_write(self.out, self.text.as_slice());
    }

    fn make_entry(&mut self)
        requires { IsShort self.old.running }
        ensures { self.new ≡ record self.old { call = call_at self.old.running step.Entry } }
    {
        put_entry(&mut self.text, listed(self.words.as_slice()));
        self.call.set_write(self.out, self.text.as_slice());
    }

    fn make_heading(&mut self)
        requires { IsShort self.old.running }
        ensures { self.new ≡ record self.old { call = call_at self.old.running step.Heading } }
    {
        put_heading(&mut self.text, listed(self.words.as_slice()));
        self.call.set_write(self.out, self.text.as_slice());
    }

    #[tactic(auto, using(nx_shrun::proofs::Bounded::path_le, crate::proofs::Lengths::lines_le))]
    fn make_spawn(&mut self, redirected: bool)
        requires { IsShort self.old.running }
        ensures { self.new ≡ record self.old { call = call_at self.old.running (step.Spawn redirected) } }
    {
        put_path(&mut self.text, word(self.words.as_slice(), 0));
        put_arguments(&mut self.more, self.words.as_slice());
        self.call.set_two(
            KCall::NxSpawn,
            100,
            self.text.as_slice(),
            self.more.as_slice(),
        );
    }

    #[tactic(auto, using(nx_shrun::proofs::Bounded::announcement_le))]
    fn make_announcement(&mut self)
        requires { IsShort self.old.running }
        ensures { self.new ≡ record self.old { call = call_at self.old.running step.Announce } }
    {
        put_announcement(&mut self.text, word(self.words.as_slice(), 0), self.pid);
        self.call.set_write(1, self.text.as_slice());
    }
}
