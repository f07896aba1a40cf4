ghost use Rattle.std.specs.Prelude.{◌≡◌, ◌<◌, ◌≤◌, ◌++◌, [], ◌∷◌, length, IfOk};
ghost use Rattle.nx_shrun.specs.Calls.{getpid, getenv, exit};
ghost use Rattle.nx_shrun.specs.Table.{running};
ghost use Rattle.nx_shrun.specs.declared.step.Ending.TheVariants.{Status};
ghost use Rattle.nx_shrun.specs.declared.step.Awaits.TheVariants.{Message};

use crate::descriptors::Descriptors;
use crate::made::MadeCall;
use nx_base::{KCall, OutOfMemory};
use nx_ksys::MovedBytes;
use nx_shrun::{Awaits, Ending, Steps, Words};
use std::alloc::Global;
use std::marker::Model;

/// The most steps that a command has before it.
const MOST_STEPS: usize = 4096;

/// The most descriptors that a command has open.
const MOST_OPENED: usize = 2048;

/// A command under way. The room for its words, its steps and its calls is taken when it is made,
/// so no other call takes memory. Contracts see the definition's parts.
#[derive(Debug, Drop)]
pub struct Command {
    pub(crate) words: Words,
    pub(crate) file: MovedBytes,
    pub(crate) source: u32,
    pub(crate) out: u32,
    pub(crate) opened: Descriptors,
    pub(crate) pid: u32,
    pub(crate) ending: Ending,
    pub(crate) call: MadeCall,
    pub(crate) awaits: Awaits,
    pub(crate) todo: Steps,
    pub(crate) text: MovedBytes,
    pub(crate) more: MovedBytes,
}

impl Model for Command {
    ghost use Rattle.std.specs.Prelude.{◌≡◌};
    ghost use Rattle.nx_shstep.specs.Held.{Held};
    ghost use Rattle.nx_shstep.specs.Rooms.{AreRooms};

    ghost Value = { Held };

    ghost view = { λ c. record { running = record { words = c.words.words; file = c.file; source = c.source; out = c.out; opened = c.opened.descriptors; pid = c.pid; ending = c.ending }; room = c.words.room; call = c.call; awaits = c.awaits; todo = c.todo.steps } };

    ghost invariant = { λ c. AreRooms c.todo.room c.opened.room };
}

impl Command {
    /// A command that has done nothing, with room for so many words.
    pub fn new(alloc: Global, room: usize) -> Result<Command, OutOfMemory>
        ensures { IfOk result (λ c. c ≡ record { running = running [] [] (Status 0); room = room; call = getpid; awaits = Message; todo = [] }) }
    {
        Ok(Command {
            words: Words::new(alloc, room)?,
            file: MovedBytes::new(alloc)?,
            source: 0,
            out: 1,
            opened: Descriptors::new(alloc, MOST_OPENED)?,
            pid: 0,
            ending: Ending::Status(0),
            call: MadeCall::new(alloc)?,
            awaits: Awaits::Message,
            todo: Steps::new(alloc, MOST_STEPS)?,
            text: MovedBytes::new(alloc)?,
            more: MovedBytes::new(alloc)?,
        })
    }

    /// The call that it makes.
    pub fn call(&self) -> &MadeCall
        ensures { result.now ≡ self.now.call }
    {
        &self.call
    }

    /// Has no words.
    pub fn clear_words(&mut self)
        ensures { self.new ≡ record self.old { running = record self.old.running { words = []; file = [] } } }
    {
        self.words.clear();
        self.file.clear();
    }

    /// Takes one word more.
    pub fn push_word(&mut self, word: &[u8])
        requires room { length self.old.running.words < self.old.room }
        requires short { length word.now ≤ 4096 }
        ensures { self.new ≡ record self.old { running = record self.old.running { words = self.old.running.words ++ word.now ∷ [] } } }
    {
        self.words.push(word);
    }

    /// Takes the word of its redirection.
    pub fn set_file(&mut self, word: &[u8])
        requires { length word.now ≤ 4096 }
        ensures { self.new ≡ record self.old { running = record self.old.running { file = word.now } } }
    {
        self.file.set(word);
    }

    /// Asks for the shell's number.
    pub fn ask_number(&mut self)
        ensures { self.new ≡ record self.old { call = getpid } }
    {
        self.call.set(KCall::Getpid, 0, 0, 0);
    }

    /// Asks for the value of a name.
    pub fn ask_value(&mut self, name: &[u8])
        requires { length name.now ≤ 255 }
        ensures { self.new ≡ record self.old { call = getenv name.now } }
    {
        self.call.set_one(KCall::NxGetenv, 0, 0, 256, 0, name);
    }

    /// Ends the shell.
    pub fn leave(&mut self, value: u32)
        ensures { self.new ≡ record self.old { call = exit value } }
    {
        self.call.set(KCall::Exit, value, 0, 0);
    }
}
