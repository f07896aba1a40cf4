ghost use Rattle.std.specs.Prelude.{◌≡◌, ◌≤◌, ◌<◌, ◌+◌, ◌++◌, [], ◌∷◌, length, nat_lt, IfSome};
ghost use Rattle.std.specs.List.{list_any};
ghost use Rattle.nx_shrun.specs.Texts.{lines, line_too_long, bad_arguments, word_at};
ghost use Rattle.nx_shrun.specs.Table.{is_long as is_long_word, is_too_long as are_too_long, refused, body, built_in as does_built_in, program as program_steps, does_command as does, begun_with, opening, closing, awaited, running};
ghost use Rattle.nx_shrun.specs.Puts.{ending_of, steps_of};
ghost use Rattle.nx_shrun.specs.declared.step.Ending.TheVariants.{Status};
ghost use Rattle.nx_shrun.specs.declared.step.Awaits.TheVariants.{Message};
ghost use Rattle.nx_shstep.specs.Held.{IsShort, IsHandled, outcome_of};

use crate::calling::word;
use crate::command::Command;
use nx_ksys::MovedBytes;
use nx_shrun::{
    Awaits, Builtin, Ending, Step, Steps, arguments, put_bad_arguments, put_body, put_too_long,
};
use nx_shtree::Mode;

/// The most bytes of a word, of a program's arguments, and of the words of a line.
const LONGEST_WORD: usize = 255;

const LONGEST_LINE: usize = 1024;

fn is_long(bytes: &[u8]) -> bool
    ensures { result ≡ is_long_word bytes.now }
{
    bytes.len() > LONGEST_WORD
}

fn has_long(words: &[MovedBytes]) -> bool
    ensures { result ≡ list_any is_long_word words.now }
{
    for word in words {
        if is_long(word.as_slice()) {
            return true;
        }
    }
    false
}

/// Whether words, each with one byte after it, are longer than so many bytes.
fn is_over(words: &[MovedBytes], room: usize) -> bool
    ensures { result ≡ nat_lt room (length (lines words.now)) }
{
    let mut left = room;
    for word in words {
        if word.len() >= left {
            return true;
        }
        left -= word.len() + 1;
    }
    false
}

#[tactic(auto, unfolding(nx_shrun::specs::Table::is_too_long), using(crate::proofs::Lengths::over_is))]
fn is_too_long(words: &[MovedBytes], file: &[u8]) -> bool
    ensures { result ≡ are_too_long words.now file.now }
{
    has_long(words) || is_long(file) || is_over(words, LONGEST_LINE + 1)
}

fn put_opening(todo: &mut Steps, output: Option<Mode>)
    requires { length todo.old.steps < todo.old.room }
    ensures { todo.new ≡ record todo.old { steps = opening output ++ todo.old.steps } }
{
    match output {
        None => {}
        Some(mode) => todo.push(Step::Redirect(mode)),
    }
}

/// The close of a redirection, or no step.
fn put_closing(todo: &mut Steps, output: Option<Mode>)
    requires { 0 < todo.old.room }
    ensures { todo.new ≡ record todo.old { steps = closing (Status 0) output } }
{
    todo.clear();
    match output {
        None => {}
        Some(_) => todo.push(Step::Close),
    }
}

/// The steps of a command of the table, and how it ends. None where its arguments are bad.
#[tactic(auto, using(crate::proofs::Plans::exit_has_none, crate::proofs::Plans::lengths_body))]
fn put_steps(
    todo: &mut Steps,
    output: Option<Mode>,
    which: Builtin,
    status: u32,
    words: &[MovedBytes],
) -> Option<Ending>
    requires room { todo.old.room ≡ 4096 }
    requires few { length words.now ≤ 1025 }
    ensures ending { result ≡ ending_of (body which status words.now) }
    ensures steps { IfSome result (λ e. todo.new.steps ≡ opening output ++ steps_of (body which status words.now) ++ closing e output) }
    ensures room { todo.new.room ≡ todo.old.room }
{
    put_closing(todo, output);
    match put_body(todo, which, status, words) {
        None => None,
        Some(Ending::Status(n)) => {
            put_opening(todo, output);
            Some(Ending::Status(n))
        }
        Some(Ending::Exit(n)) => {
            todo.clear();
            put_opening(todo, output);
            Some(Ending::Exit(n))
        }
    }
}

fn put_awaited(todo: &mut Steps, background: bool)
    requires { 0 < todo.old.room }
    ensures { todo.new ≡ record todo.old { steps = awaited background } }
{
    todo.clear();
    if background {
        todo.push(Step::Announce);
    } else {
        todo.push(Step::Wait);
    }
}

/// The steps of a program.
fn put_program(todo: &mut Steps, output: Option<Mode>, background: bool)
    requires { 8 ≤ todo.old.room }
    ensures { todo.new ≡ record todo.old { steps = program_steps output background } }
{
    put_awaited(todo, background);
    match output {
        None => todo.push(Step::Spawn(false)),
        Some(mode) => {
            todo.push(Step::Close);
            todo.push(Step::Restore);
            todo.push(Step::Spawn(true));
            todo.push(Step::Let);
            todo.push(Step::Direct);
            todo.push(Step::Keep);
            todo.push(Step::Redirect(mode));
        }
    }
}

impl Command {
    /// Writes to the console, and has opened nothing.
    fn restart(&mut self, ending: Ending)
        ensures { self.new ≡ record self.old { running = running self.old.running.words self.old.running.file ending } }
    {
        self.source = 0;
        self.out = 1;
        self.opened.clear();
        self.pid = 0;
        self.ending = ending;
    }

    /// Drops its words, and is over with status 1 after a message.
    fn refuse(&mut self)
        ensures { self.new ≡ record self.old { running = running [] [] (Status 1); awaits = Message; todo = [] } }
    {
        self.words.clear();
        self.file.clear();
        self.restart(Ending::Status(1));
        self.awaits = Awaits::Message;
        self.todo.clear();
    }

    #[tactic(auto, using(nx_shrun::proofs::Bounded::long_le, crate::proofs::Plans::none_ready))]
    fn refuse_line(&mut self) -> Option<Ending>
        ensures outcome { outcome_of result self.new ≡ refused line_too_long }
        ensures handled { IsHandled result self.new }
        ensures room { self.new.room ≡ self.old.room }
    {
        put_too_long(&mut self.text);
        self.call.set_write(2, self.text.as_slice());
        self.refuse();
        None
    }

    #[tactic(auto, using(nx_shrun::proofs::Bounded::bad_le, crate::proofs::Plans::none_ready))]
    fn refuse_arguments(&mut self) -> Option<Ending>
        requires { IsShort self.old.running }
        ensures outcome { outcome_of result self.new ≡ refused (bad_arguments (word_at self.old.running.words 0)) }
        ensures handled { IsHandled result self.new }
        ensures room { self.new.room ≡ self.old.room }
    {
        put_bad_arguments(&mut self.text, word(self.words.as_slice(), 0));
        self.call.set_write(2, self.text.as_slice());
        self.refuse();
        None
    }

    /// Begins a command of the table.
    #[tactic(auto, using(crate::proofs::Plans::few_words, crate::proofs::Plans::built_none, crate::proofs::Plans::built_some))]
    fn begin_built_in(
        &mut self,
        output: Option<Mode>,
        which: Builtin,
        status: u32,
    ) -> Option<Ending>
        requires { IsShort self.old.running }
        ensures outcome { outcome_of result self.new ≡ does_built_in output self.old.running.words self.old.running.file (body which status self.old.running.words) }
        ensures handled { IsHandled result self.new }
        ensures room { self.new.room ≡ self.old.room }
    {
        match put_steps(&mut self.todo, output, which, status, self.words.as_slice()) {
            None => self.refuse_arguments(),
            Some(ending) => {
                self.restart(ending);
                self.go()
            }
        }
    }

    /// Begins a program.
    #[tactic(auto, using(crate::proofs::Plans::program_ready))]
    fn begin_program(&mut self, output: Option<Mode>, background: bool) -> Option<Ending>
        requires { IsShort self.old.running }
        ensures outcome { outcome_of result self.new ≡ does None output background 0 self.old.running.words self.old.running.file }
        ensures handled { IsHandled result self.new }
        ensures room { self.new.room ≡ self.old.room }
    {
        if is_over(arguments(self.words.as_slice()), LONGEST_WORD) {
            return self.refuse_line();
        }
        put_program(&mut self.todo, output, background);
        self.restart(Ending::Status(0));
        self.go()
    }

    /// Begins a command whose words and whose redirection's file are known, at a status.
    #[tactic(auto, unfolding(nx_shrun::specs::Table::begun_with), using(crate::proofs::Lengths::short_is))]
    pub fn begin(&mut self, output: Option<Mode>, background: bool, status: u32) -> Option<Ending>
        ensures outcome { outcome_of result self.new ≡ begun_with output background status self.old.running.words self.old.running.file }
        ensures handled { IsHandled result self.new }
        ensures room { self.new.room ≡ self.old.room }
    {
        if is_too_long(self.words.as_slice(), self.file.as_slice()) {
            return self.refuse_line();
        }
        match Builtin::named(word(self.words.as_slice(), 0)) {
            Some(which) => self.begin_built_in(output, which, status),
            None => self.begin_program(output, background),
        }
    }
}
