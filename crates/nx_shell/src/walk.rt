ghost use Rattle.std.specs.Prelude.{◌≡◌, ◌≤◌, ◌+◌, ◌++◌, List, ℕ, length, map, IfOk};
ghost use Rattle.nx_ksys.specs.Gathered.{reply_of};
ghost use Rattle.nx_shrun.specs.Calls.{Fits};
ghost use Rattle.nx_shrun.specs.Expansion.{spread, Piece};
ghost use Rattle.nx_shrun.specs.ShellCalls.{expanded, with_words, value_of};
ghost use Rattle.nx_shell.specs.Kept.{cut, all_words, rest_in, AreKept};
ghost use Rattle.nx_shell.specs.Walks.{Comes, IsFit, IsSteady, StaysFit, Follows, handed_words, handed_file, mode_in};

use crate::filling::Filling;
use nx_base::OutOfMemory;
use nx_ksys::{MovedBytes, Reply};
use nx_shrun::Ending;
use nx_shstep::{Command, handed, has_failed};
use nx_shtree::{Mode, Redirection, Simple};
use std::alloc::Global;

/// Where a simple command is.
#[derive(Clone, Copy, Debug, PartialEq, Eq)]
pub(crate) enum Stage {
    /// It asks for the shell's number.
    Starts,
    /// It asks for the value of a name.
    Asks,
    /// It makes the calls of its steps.
    Does,
}

/// A simple command under way.
#[derive(Debug, Drop)]
pub(crate) struct Walk {
    pub(crate) stage: Stage,
    pub(crate) filling: Filling,
    pub(crate) command: Command,
}

/// Takes words one by one.
#[tactic(auto, using(crate::proofs::Handing::last_le))]
fn push_words(command: &mut Command, words: &[MovedBytes])
    requires kept { AreKept words.now }
    requires room { length command.old.running.words + length words.now ≤ command.old.room }
    ensures words { command.new.running.words ≡ command.old.running.words ++ words.now }
    ensures file { command.new.running.file ≡ command.old.running.file }
    ensures room { command.new.room ≡ command.old.room }
{
    for word in words {
        command.push_word(word.as_slice());
    }
}

/// Hands over the words of a command, the last as that of its redirection where it has one.
#[tactic(auto, using(crate::proofs::Handing::front_is, crate::proofs::Handing::last_is, crate::proofs::Handing::front_kept, crate::proofs::Handing::last_le, crate::proofs::Handing::front_few))]
fn hand_over(command: &mut Command, words: &[MovedBytes], output: &Option<Redirection>)
    requires kept { AreKept words.now }
    requires room { length words.now ≤ command.old.room }
    ensures words { command.new.running.words ≡ handed_words output.now words.now }
    ensures file { command.new.running.file ≡ handed_file output.now words.now }
    ensures room { command.new.room ≡ command.old.room }
{
    command.clear_words();
    match output {
        None => push_words(command, words),
        Some(_) => match words {
            [front @ .., last] => {
                push_words(command, front);
                command.set_file(last.as_slice());
            }
            [] => {}
        },
    }
}

fn mode_of(output: &Option<Redirection>) -> Option<Mode>
    ensures { result ≡ mode_in output.now }
{
    match output {
        None => None,
        Some(output) => Some(output.mode),
    }
}

/// The value of a name, nothing where it has none.
fn value_in(reply: &Reply) -> &[u8]
    ensures { result.now ≡ value_of (reply_of reply.now) }
{
    if has_failed(reply) {
        b""
    } else {
        handed(reply)
    }
}

impl Walk {
    /// A command that asks for the shell's number, with room for so many words.
    pub(crate) fn new(alloc: Global, room: usize) -> Result<Walk, OutOfMemory>
        ensures steady { IfOk result IsSteady }
        ensures room { IfOk result (λ x. x.filling.words.room ≡ room) }
    {
        Ok(Walk {
            stage: Stage::Starts,
            filling: Filling::new(alloc, room)?,
            command: Command::new(alloc, room)?,
        })
    }

    /// Begins the command, of which all words are there.
    #[tactic(auto, using(crate::proofs::Walked::stays))]
    fn begin(&mut self, simple: &Simple, background: bool, status: u32) -> Option<Ending>
        requires { IsSteady self.old }
        ensures comes { (ws : List (List ℕ)) → self.old.filling.words.words ≡ map cut ws → Comes simple.now result self.new (with_words simple.now.output background status ws) }
        ensures steady { IsSteady self.new }
        ensures fit { StaysFit result self.new }
        ensures room { self.new.filling.words.room ≡ self.old.filling.words.room }
    {
        hand_over(
            &mut self.command,
            self.filling.words.as_slice(),
            &simple.output,
        );
        self.stage = Stage::Does;
        let mode = mode_of(&simple.output);
        self.command.begin(mode, background, status)
    }

    /// Goes on with the words, and begins the command where all are there.
    fn expand(&mut self, simple: &Simple, background: bool, status: u32) -> Option<Ending>
        requires steady { IsSteady self.old }
        requires room { length (all_words simple.now) ≤ self.old.filling.words.room }
        ensures comes { (ws : List (List ℕ)) (w : List ℕ) (ps : List Piece) → self.old.filling.words.words ≡ map cut ws → self.old.filling.text ≡ cut w → rest_in simple.now self.old.filling ≡ ps → Comes simple.now result self.new (expanded simple.now background status (spread status ws w ps)) }
        ensures steady { IsSteady self.new }
        ensures fit { StaysFit result self.new }
        ensures room { self.new.filling.words.room ≡ self.old.filling.words.room }
    {
        if self.filling.expand(&mut self.command, simple, status) {
            self.stage = Stage::Asks;
            return None;
        }
        self.begin(simple, background, status)
    }

    /// Goes on after a reply, or is over.
    #[tactic(auto, using(crate::proofs::Walked::does_follow, crate::proofs::Walked::stays, crate::proofs::Walked::fit_does))]
    pub(crate) fn hear(
        &mut self,
        simple: &Simple,
        background: bool,
        status: u32,
        reply: &Reply,
    ) -> Option<Ending>
        requires steady { IsSteady self.old }
        requires fit { IsFit self.old.stage self.old }
        requires fits { Fits self.old.command.call (reply_of reply.now) }
        requires room { length (all_words simple.now) ≤ self.old.filling.words.room }
        ensures follows { Follows simple.now background status self.old result self.new (reply_of reply.now) }
        ensures steady { IsSteady self.new }
        ensures fit { StaysFit result self.new }
        ensures room { self.new.filling.words.room ≡ self.old.filling.words.room }
    {
        match self.stage {
            Stage::Starts => {
                self.filling.clear();
                self.expand(simple, background, status)
            }
            Stage::Asks => {
                self.filling.add(value_in(reply));
                self.expand(simple, background, status)
            }
            Stage::Does => self.command.after_reply(reply),
        }
    }
}
