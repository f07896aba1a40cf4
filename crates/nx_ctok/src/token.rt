ghost use Rattle.std.specs.Prelude.{◌≡◌};

use std::marker::Model;

/// What a token is (C11 section 6.4).
#[derive(Clone, Copy, Debug, PartialEq, Eq)]
pub enum TokenKind {
    /// An identifier that is no keyword.
    Name,
    Keyword,
    /// A decimal or hexadecimal integer constant.
    Number,
    /// A character constant, with its quotes.
    Char,
    /// A string literal, with its quotes.
    Text,
    /// A punctuator.
    Mark,
    /// The end of the text.
    End,
}

/// Bytes of a text, in the text's own memory. Contracts see their list.
#[derive(Debug, Drop)]
pub struct Spelling<'a> {
    bytes: &'a [u8],
}

impl<'a> Model for Spelling<'a> {
    ghost use Rattle.std.specs.Prelude.{List, ℕ};

    ghost Value = { List ℕ };

    ghost view = { λ s. s.bytes.now };
}

impl<'a> Spelling<'a> {
    /// These bytes.
    pub fn new(bytes: &'a [u8]) -> Spelling<'a>
        ensures { result ≡ bytes.now }
    {
        Spelling { bytes }
    }

    /// The bytes.
    pub fn bytes(&self) -> &'a [u8]
        ensures { result.now ≡ self.now }
    {
        self.bytes
    }
}

/// A token of a C program.
#[derive(Debug, Drop)]
pub struct Token<'a> {
    /// What kind of token it is.
    pub kind: TokenKind,
    /// Its bytes in the text, or in the `#define` line that gave it.
    pub text: Spelling<'a>,
    /// The line on which it stands, or on which the name that it replaces stands, counted from 1.
    pub line: u32,
}

/// A token at the start of a text.
#[derive(Debug, Drop)]
pub struct Word<'a> {
    /// What kind of token it is.
    pub kind: TokenKind,
    /// Its bytes.
    pub text: Spelling<'a>,
    /// What stands after it.
    pub rest: Spelling<'a>,
}
