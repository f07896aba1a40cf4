ghost use Rattle.std.specs.Prelude.{◌≡◌, ◌+◌, ◌<◌, ◌≤◌, ◌++◌, ◌∷◌, [], length, OnOk, IfOk, IfErr};
ghost use Rattle.nx_shtok.specs.declared.fault.ShFault.TheVariants.{Memory};
ghost use Rattle.nx_shtok.specs.Tokens.{token, start_at as a_start_at, Begins};
ghost use Rattle.nx_shtok.specs.Bytes.{newlines};
ghost use Rattle.nx_shtok.specs.Views.{mark_lines as lines_of};
ghost use Rattle.nx_shtok.specs.Places.{IsOnLine, LeadsTo, IsRefused};

use crate::fault::ShFault;
use crate::script_bytes::line_at;
use crate::start::{Start, start_at};
use crate::token::{Token, TokenKind};
use crate::word::{Spelling, word};
use sqlite_items::Items;
use std::alloc::{AllocError, Global};

/// What is read of a text up to a place.
#[derive(Drop)]
pub(crate) struct Reader {
    /// The tokens before the place.
    pub(crate) found: Items<Token>,
    /// Its line, counted from 1.
    pub(crate) line: u32,
}

/// How many newlines a token holds that is no word.
fn mark_lines(kind: &TokenKind) -> u32
    ensures lines { result ≡ lines_of kind.now }
    ensures few { result ≤ 1 }
{
    match kind {
        TokenKind::Newline => 1,
        _ => 0,
    }
}

impl Reader {
    /// At the start of a text.
    pub(crate) fn new(alloc: Global) -> Reader
        ensures { (result.found ≡ []) × (result.line ≡ 1) }
    {
        Reader {
            found: Items::new(alloc),
            line: 1,
        }
    }

    /// Takes a token that has so many newlines.
    fn push(&mut self, kind: TokenKind, lines: u32) -> Result<(), AllocError>
        requires { self.old.line + lines ≤ 1048577 }
        ensures { OnOk result (self.new ≡ record { found = self.old.found ++ token kind self.old.line ∷ []; line = self.old.line + lines }) }
    {
        self.found.push(Token {
            kind,
            line: self.line,
        })?;
        self.line += lines;
        Ok(())
    }

    /// Takes the word at the front of the rest of a text, and gives what stands after it.
    fn take_word<'a>(
        &mut self,
        alloc: Global,
        text: &[u8],
        rest: &'a [u8],
    ) -> Result<&'a [u8], ShFault>
        requires few { length text.now ≤ 1048576 }
        requires lines { newlines text.now ≤ 1048576 }
        requires place { IsOnLine text.now self.old.line rest.now }
        requires word { a_start_at rest.now ≡ Begins }
        ensures ok { IfOk result (λ after. LeadsTo text.now self.old rest.now self.new after.now) }
        ensures err { IfErr result (λ e. IsRefused e text.now rest.now) }
    {
        let spelling = word(alloc, rest)?;
        match spelling {
            Spelling::Broken(kind, at) => Err(ShFault::Text {
                line: line_at(text, at),
                kind,
            }),
            Spelling::Whole(word, after, lines) => {
                self.push(TokenKind::Word(word), lines as u32)?;
                Ok(after)
            }
        }
    }

    /// Takes what stands at the front of the rest of a text, and gives what stands after it.
    pub(crate) fn take<'a>(
        &mut self,
        alloc: Global,
        text: &[u8],
        rest: &'a [u8],
    ) -> Result<&'a [u8], ShFault>
        requires few { length text.now ≤ 1048576 }
        requires lines { newlines text.now ≤ 1048576 }
        requires more { 0 < length rest.now }
        requires place { IsOnLine text.now self.old.line rest.now }
        ensures ok { IfOk result (λ after. LeadsTo text.now self.old rest.now self.new after.now) }
        ensures err { IfErr result (λ e. IsRefused e text.now rest.now) }
    {
        match start_at(rest) {
            Start::Wrong(kind) => Err(ShFault::Text {
                line: self.line,
                kind,
            }),
            Start::Skips(after) => Ok(after),
            Start::Marks(kind, after) => {
                let lines = mark_lines(&kind);
                self.push(kind, lines)?;
                Ok(after)
            }
            Start::Begins => self.take_word(alloc, text, rest),
        }
    }
}
