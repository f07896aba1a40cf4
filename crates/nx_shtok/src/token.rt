use crate::part::Part;
use sqlite_items::Items;

/// A word.
#[derive(Debug, Drop)]
pub struct Word {
    /// Its parts, in their order.
    pub parts: Items<Part>,
    /// Whether a quote or a backslash stands in it.
    pub quoted: bool,
}

/// What a token is.
#[derive(Debug, Drop)]
pub enum TokenKind {
    Word(Word),
    Newline,
    /// `;`
    Semi,
    /// `&`
    And,
    /// `>`
    Into,
    /// `>>`
    Append,
    /// After the last byte and its newline.
    End,
}

/// A token of a script.
#[derive(Debug, Drop)]
pub struct Token {
    /// What it is.
    pub kind: TokenKind,
    /// The line on which it begins, counted from 1.
    pub line: u32,
}
