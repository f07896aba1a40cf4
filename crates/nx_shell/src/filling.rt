ghost use Rattle.std.specs.Prelude.{◌≡◌, ◌≤◌, ◌<◌, ◌+◌, ◌^◌, ◌++◌, ◌∷◌, [], List, length, IfOk};
ghost use Rattle.nx_shrun.specs.Expansion.{Piece, Of};
ghost use Rattle.nx_shell.specs.Kept.{IsKept, kept, kept_spread, rest_in, all_words, comes_to, goes_to, takes_to, Shrinks, after_asking, asks as asks_one};

use crate::found::{part_in, word_in};
use crate::keeping::append_kept;
use nx_base::OutOfMemory;
use nx_ksys::MovedBytes;
use nx_shrun::{Words, append_decimal};
use nx_shstep::Command;
use nx_shtok::Part;
use nx_shtree::Simple;
use std::alloc::Global;

/// The longest name for which a value is asked.
const LONGEST_NAME: usize = 255;

/// How far the words of a command are.
#[derive(Clone, Copy, Debug, PartialEq, Eq)]
pub(crate) enum Progress {
    /// There is more to do.
    More,
    /// The value of a name is wanted.
    Wants,
    /// All are there.
    Whole,
}

/// The words of a command so far, what is kept of the one under way, and the place of its next
/// part. The room for so many words is taken when it is made.
#[derive(Debug, Drop)]
pub(crate) struct Filling {
    pub(crate) words: Words,
    pub(crate) text: MovedBytes,
    pub(crate) digits: MovedBytes,
    pub(crate) part: usize,
}

impl Filling {
    /// No words.
    #[tactic(auto, using(crate::proofs::Cutting::none_kept))]
    pub(crate) fn new(alloc: Global, room: usize) -> Result<Filling, OutOfMemory>
        ensures room { IfOk result (λ f. f.words.room ≡ room) }
        ensures kept { IfOk result IsKept }
    {
        Ok(Filling {
            words: Words::new(alloc, room)?,
            text: MovedBytes::new(alloc)?,
            digits: MovedBytes::new(alloc)?,
            part: 0,
        })
    }

    /// Begins anew.
    #[tactic(auto, using(crate::proofs::Cutting::none_kept))]
    pub(crate) fn clear(&mut self)
        ensures words { self.new.words ≡ record self.old.words { words = [] } }
        ensures text { self.new.text ≡ [] }
        ensures part { self.new.part ≡ 0 }
        ensures kept { IsKept self.new }
    {
        self.words.clear();
        self.text.clear();
        self.part = 0;
    }

    /// Adds bytes to the word under way.
    #[tactic(auto, using(crate::proofs::Cutting::kept_le))]
    pub(crate) fn add(&mut self, bytes: &[u8])
        requires { IsKept self.old }
        ensures text { self.new.text ≡ kept self.old.text bytes.now }
        ensures words { self.new.words ≡ self.old.words }
        ensures part { self.new.part ≡ self.old.part }
        ensures kept { IsKept self.new }
    {
        append_kept(&mut self.text, bytes);
    }

    /// Ends the word under way.
    #[tactic(auto, using(crate::proofs::Cutting::kept_more, crate::proofs::Cutting::longer))]
    fn end_word(&mut self)
        requires kept { IsKept self.old }
        requires room { length self.old.words.words < self.old.words.room }
        ensures words { self.new.words ≡ record self.old.words { words = self.old.words.words ++ self.old.text ∷ [] } }
        ensures text { self.new.text ≡ [] }
        ensures part { self.new.part ≡ 0 }
        ensures kept { IsKept self.new }
    {
        self.words.push(self.text.as_slice());
        self.text.clear();
        self.part = 0;
    }

    /// Takes a part of a word. Where it is a name, its value is asked for.
    #[tactic(auto, using(crate::proofs::Cutting::kept_le))]
    fn take(&mut self, command: &mut Command, part: &Part, status: u32) -> bool
        requires kept { IsKept self.old }
        requires room { self.old.part + 1 < 2 ^ 64 }
        ensures comes { (ps : List Piece) → takes_to result command.new.call status self.new ps ≡ kept_spread status self.old.words.words self.old.text (Of part.now ∷ ps) }
        ensures words { self.new.words ≡ self.old.words }
        ensures part { self.new.part ≡ self.old.part + 1 }
        ensures kept { IsKept self.new }
        ensures asks { command.new ≡ after_asking result command.old command.new.call }
    {
        self.part += 1;
        match part {
            Part::Byte(byte) => {
                self.add(&[*byte]);
                false
            }
            Part::Status => {
                self.digits.clear();
                append_decimal(&mut self.digits, status);
                append_kept(&mut self.text, self.digits.as_slice());
                false
            }
            Part::Name(name) => {
                if name.len() > LONGEST_NAME {
                    return false;
                }
                command.ask_value(name.as_slice());
                true
            }
        }
    }

    /// Goes on by one piece.
    #[tactic(auto, using(crate::proofs::Advancing::whole_is, crate::proofs::Advancing::ends_is, crate::proofs::Advancing::ends_less, crate::proofs::Advancing::part_wants, crate::proofs::Advancing::part_more, crate::proofs::Advancing::part_less, crate::proofs::WordPlaces::inside))]
    fn advance(&mut self, command: &mut Command, simple: &Simple, status: u32) -> Progress
        requires kept { IsKept self.old }
        requires room { length (all_words simple.now) ≤ self.old.words.room }
        ensures comes { goes_to result command.new.call status self.new (rest_in simple.now self.new) ≡ kept_spread status self.old.words.words self.old.text (rest_in simple.now self.old) }
        ensures kept { IsKept self.new }
        ensures room { self.new.words.room ≡ self.old.words.room }
        ensures less { Shrinks result (rest_in simple.now self.new) (rest_in simple.now self.old) }
        ensures asks { command.new ≡ after_asking (asks_one result) command.old command.new.call }
    {
        match word_in(simple, self.words.as_slice().len()) {
            None => Progress::Whole,
            Some(word) => match part_in(word, self.part) {
                None => {
                    self.end_word();
                    Progress::More
                }
                Some(part) => {
                    if self.take(command, part, status) {
                        Progress::Wants
                    } else {
                        Progress::More
                    }
                }
            },
        }
    }

    /// Goes on until a name's value is wanted, which is asked for then, or all words are there.
    pub(crate) fn expand(&mut self, command: &mut Command, simple: &Simple, status: u32) -> bool
        requires kept { IsKept self.old }
        requires room { length (all_words simple.now) ≤ self.old.words.room }
        ensures comes { comes_to result command.new.call self.new (rest_in simple.now self.new) ≡ kept_spread status self.old.words.words self.old.text (rest_in simple.now self.old) }
        ensures kept { IsKept self.new }
        ensures room { self.new.words.room ≡ self.old.words.room }
        ensures asks { command.new ≡ after_asking result command.old command.new.call }
    {
        loop {
            match self.advance(command, simple, status) {
                Progress::More => {}
                Progress::Wants => return true,
                Progress::Whole => return false,
            }
        }
    }
}
