ghost use Rattle.std.specs.Prelude.{◌≡◌, ◌+◌, ◌<◌, ◌≤◌, ◌++◌, ◌∷◌, [], ◌||◌, nat_lt, true, false, length, OnOk, IfOk, IfErr};
ghost use Rattle.nx_ctok.specs.declared.fault.CFault.TheVariants.{Memory};
ghost use Rattle.nx_ctok.specs.Comments.{newlines};
ghost use Rattle.nx_ctok.specs.Tokens.{minus_tokens, value_tokens, replaced as replaced_by, meaning as meaning_of, with_definition};
ghost use Rattle.nx_ctok.specs.Views.{values_in, IsLeft};
ghost use Rattle.nx_ctok.specs.Reading.{LeadsTo, IsRefused};

use crate::fault::CFault;
use crate::piece::{Piece, piece_at};
use crate::table::Table;
use crate::token::{Spelling, Token, TokenKind, Word};
use crate::value::{Definition, Value};
use std::alloc::{AllocError, Global};

/// What is read of a text up to a place.
#[derive(Drop)]
pub(crate) struct Reader<'a> {
    /// The tokens before the place.
    pub(crate) found: Vec<Token<'a>>,
    /// The names defined before it.
    pub(crate) table: Table<'a>,
    /// Its line.
    pub(crate) line: u32,
    /// Whether nothing but blanks and comments stands before it on its line.
    pub(crate) fresh: bool,
}

/// The minus sign of a value.
fn push_minus(found: &mut Vec<Token<'_>>, line: u32, minus: bool) -> Result<(), AllocError>
    ensures { OnOk result (found.new.items ≡ found.old.items ++ minus_tokens line minus) }
{
    if minus {
        found.push(Token {
            kind: TokenKind::Mark,
            text: Spelling::new(b"-"),
            line,
        })?;
    }
    Ok(())
}

/// The tokens of a value.
fn push_value<'a>(found: &mut Vec<Token<'a>>, line: u32, value: Value<'a>) -> Result<(), AllocError>
    ensures { OnOk result (found.new.items ≡ found.old.items ++ value_tokens line value.entry) }
{
    push_minus(found, line, value.minus)?;
    found.push(Token {
        kind: value.kind,
        text: value.text,
        line,
    })?;
    Ok(())
}

/// A word, or the tokens of what it stands for.
fn push_word<'a>(
    found: &mut Vec<Token<'a>>,
    line: u32,
    kind: TokenKind,
    text: Spelling<'a>,
    value: Option<Value<'a>>,
) -> Result<(), AllocError>
    ensures { OnOk result (found.new.items ≡ found.old.items ++ replaced_by line kind text.entry value.entry) }
{
    match value {
        Some(value) => push_value(found, line, value),
        None => {
            found.push(Token { kind, text, line })?;
            Ok(())
        }
    }
}

/// What a word stands for, if it stands for another.
fn meaning<'a>(table: &Table<'a>, kind: TokenKind, text: &[u8]) -> Option<Value<'a>>
    ensures { result ≡ meaning_of (values_in table.now) kind text.now }
{
    match kind {
        TokenKind::Name => table.value(text),
        _ => None,
    }
}

impl<'a> Reader<'a> {
    /// At the start of a text.
    pub(crate) fn new(alloc: Global) -> Reader<'a>
        ensures { (result.found.items ≡ []) × (result.table ≡ []) × (result.line ≡ 1) × (result.fresh ≡ true) }
    {
        Reader {
            found: Vec::new(alloc),
            table: Table::new(alloc),
            line: 1,
            fresh: true,
        }
    }

    /// Takes a blank, a newline, a comment or an ignored line.
    fn skip(&mut self, lines: usize)
        requires { self.old.line + lines ≤ 1048577 }
        ensures { self.new ≡ record self.old { line = self.old.line + lines; fresh = self.old.fresh || nat_lt 0 lines } }
    {
        self.line += lines as u32;
        self.fresh = self.fresh || 0 < lines;
    }

    /// Takes a token.
    fn spell(&mut self, kind: TokenKind, text: Spelling<'a>) -> Result<(), AllocError>
        ensures { OnOk result ((self.new.found.items ≡ self.old.found.items ++ replaced_by self.old.line kind text.entry (meaning_of (values_in self.old.table) kind text.entry)) × (self.new.table ≡ self.old.table) × (self.new.line ≡ self.old.line) × (self.new.fresh ≡ false)) }
    {
        let value = meaning(&self.table, kind, text.bytes());
        push_word(&mut self.found, self.line, kind, text, value)?;
        self.fresh = false;
        Ok(())
    }

    /// Takes a definition.
    fn define(&mut self, alloc: Global, definition: Definition<'a>) -> Result<(), AllocError>
        ensures { OnOk result ((self.new.found.items ≡ self.old.found.items) × (values_in self.new.table ≡ with_definition (values_in self.old.table) definition.entry) × (self.new.line ≡ self.old.line) × (self.new.fresh ≡ false)) }
    {
        let name = Vec::from_slice(alloc, definition.name.bytes())?;
        self.table.put(name, definition.value)?;
        self.fresh = false;
        Ok(())
    }

    /// Takes what stands at the start of the rest of a text, and gives what stands after it.
    pub(crate) fn take(&mut self, alloc: Global, rest: &'a [u8]) -> Result<&'a [u8], CFault>
        requires more { 0 < length rest.now }
        requires line { self.old.line + newlines rest.now ≤ 1048577 }
        ensures ok { IfOk result (λ after. LeadsTo self.old rest.now self.new after.now) }
        ensures err { IfErr result (λ e. IsRefused e self.old rest.now) }
    {
        match piece_at(self.fresh, rest) {
            Piece::Wrong(kind) => Err(CFault::Text {
                line: self.line,
                kind,
            }),
            Piece::Space(after, lines) => {
                self.skip(lines);
                Ok(after.bytes())
            }
            Piece::Spelled(word) => {
                let Word { kind, text, rest } = word;
                self.spell(kind, text)?;
                Ok(rest.bytes())
            }
            Piece::Define(definition, after) => {
                self.define(alloc, definition)?;
                Ok(after.bytes())
            }
        }
    }
}
