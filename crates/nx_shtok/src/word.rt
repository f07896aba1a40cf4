ghost use Rattle.std.specs.Prelude.{◌≡◌, ◌≤◌, ◌+◌, ◌++◌, ◌∷◌, ◌||◌, [], true, length, IfOk, OnOk};
ghost use Rattle.nx_shtok.specs.Words.{Opens, front_at as a_front_at, Quotes, Spells};
ghost use Rattle.nx_shtok.specs.Views.{IsLess, newline_of as newlines_in, quoted_seen, QuotedLeft, word_seen, WordLeft};
ghost use Rattle.nx_shtok.specs.Places.{StepLeads};

use crate::fault::ShKind;
use crate::part::Part;
use crate::piece::{Front, Piece, Quote, front_at, quoted_at};
use crate::token::Word;
use sqlite_items::Items;
use std::alloc::{AllocError, Global};

/// What a quote comes to.
#[derive(Drop)]
pub(crate) enum Quoted<'a> {
    /// Its parts, and what stands after it.
    Closed(Items<Part>, &'a [u8]),
    Broken(ShKind),
}

/// What a word comes to.
#[derive(Drop)]
pub(crate) enum Spelling<'a> {
    /// The word, what stands after it, and how many newlines it has.
    Whole(Word, &'a [u8], usize),
    /// Why it is none, and the bytes from the piece on that is wrong.
    Broken(ShKind, &'a [u8]),
}

/// What the next piece of a word does.
#[derive(Drop)]
pub(crate) enum Step<'a> {
    /// The word goes on before these bytes.
    Goes(&'a [u8]),
    /// It is over before these bytes.
    Over(&'a [u8]),
    Broken(ShKind),
}

/// A word as far as it is read.
#[derive(Drop)]
pub(crate) struct Begun {
    pub(crate) parts: Items<Part>,
    /// Whether some of it is quoted.
    pub(crate) quoted: bool,
    /// How many newlines it has.
    pub(crate) lines: usize,
}

/// The rest of a quote after its first byte.
fn quote_rest(alloc: Global, quote: Quote, bytes: &[u8]) -> Result<Quoted<'_>, AllocError>
    ensures gives { IfOk result (λ x. Quotes quote bytes.now (quoted_seen x)) }
    ensures left { IfOk result (λ x. QuotedLeft x bytes.now) }
{
    let mut found = Items::new(alloc);
    let mut rest = bytes;
    loop {
        let piece = quoted_at(alloc, quote, rest)?;
        match piece {
            Piece::Over(after) => return Ok(Quoted::Closed(found, after)),
            Piece::Wrong(kind) => return Ok(Quoted::Broken(kind)),
            Piece::Gives(part, _, after) => {
                found.push(part)?;
                rest = after;
            }
        }
    }
}

/// How many newlines a part holds.
fn newline_of(part: &Part) -> usize
    ensures lines { result ≡ newlines_in part.now }
    ensures few { result ≤ 1 }
{
    match part {
        Part::Byte(byte) => usize::from(*byte == b'\n'),
        Part::Status | Part::Name(_) => 0,
    }
}

impl Begun {
    /// A part more.
    fn push(&mut self, part: Part, quoted: bool) -> Result<(), AllocError>
        requires { self.old.lines ≤ 1048576 }
        ensures { OnOk result (self.new ≡ record { parts = self.old.parts ++ part ∷ []; quoted = self.old.quoted || quoted; lines = self.old.lines + newlines_in part }) }
    {
        self.lines += newline_of(&part);
        self.quoted = self.quoted || quoted;
        self.parts.push(part)?;
        Ok(())
    }

    /// The parts of a quote more.
    fn append(&mut self, found: Items<Part>) -> Result<(), AllocError>
        ensures { OnOk result (self.new ≡ record self.old { parts = self.old.parts ++ found; quoted = true }) }
    {
        self.quoted = true;
        self.parts.append(found)
    }

    /// Takes a quote after its first byte.
    fn take_quote<'a>(
        &mut self,
        alloc: Global,
        quote: Quote,
        rest: &[u8],
        inner: &'a [u8],
    ) -> Result<Step<'a>, AllocError>
        requires opens { a_front_at rest.now ≡ Opens quote inner.now }
        requires less { IsLess 0 inner.now rest.now }
        ensures { IfOk result (λ s. StepLeads s self.old rest.now self.new) }
    {
        let quoted = quote_rest(alloc, quote, inner)?;
        match quoted {
            Quoted::Broken(kind) => Ok(Step::Broken(kind)),
            Quoted::Closed(found, after) => {
                self.append(found)?;
                Ok(Step::Goes(after))
            }
        }
    }

    /// Takes the next piece.
    fn take<'a>(&mut self, alloc: Global, rest: &'a [u8]) -> Result<Step<'a>, AllocError>
        requires { self.old.lines ≤ 1048576 }
        ensures { IfOk result (λ s. StepLeads s self.old rest.now self.new) }
    {
        let front = front_at(alloc, rest)?;
        match front {
            Front::Opens(quote, inner) => self.take_quote(alloc, quote, rest, inner),
            Front::Plain(piece) => match piece {
                Piece::Over(after) => Ok(Step::Over(after)),
                Piece::Wrong(kind) => Ok(Step::Broken(kind)),
                Piece::Gives(part, quoted, after) => {
                    self.push(part, quoted)?;
                    Ok(Step::Goes(after))
                }
            },
        }
    }
}

/// The word at the front.
pub(crate) fn word(alloc: Global, bytes: &[u8]) -> Result<Spelling<'_>, AllocError>
    requires { length bytes.now ≤ 1048576 }
    ensures gives { IfOk result (λ x. Spells bytes.now (word_seen x)) }
    ensures left { IfOk result (λ x. WordLeft x bytes.now) }
{
    let mut begun = Begun {
        parts: Items::new(alloc),
        quoted: false,
        lines: 0,
    };
    let mut rest = bytes;
    loop {
        let step = begun.take(alloc, rest)?;
        match step {
            Step::Goes(after) => rest = after,
            Step::Broken(kind) => return Ok(Spelling::Broken(kind, rest)),
            Step::Over(after) => {
                let Begun {
                    parts,
                    quoted,
                    lines,
                } = begun;
                return Ok(Spelling::Whole(Word { parts, quoted }, after, lines));
            }
        }
    }
}
