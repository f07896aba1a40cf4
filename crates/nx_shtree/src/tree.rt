use nx_shared::Shared;
use nx_shtok::Word;
use sqlite_items::Items;

/// What a redirection does with its file before the command writes to it.
#[derive(Clone, Copy, Debug, PartialEq, Eq)]
pub enum Mode {
    /// `>`: it is emptied.
    Truncate,
    /// `>>`: what is written goes to its end.
    Append,
}

/// Where a command's output goes, with the line of the `>` or `>>`.
#[derive(Debug, Drop)]
pub struct Redirection {
    /// The line of its first token, counted from 1.
    pub line: u32,
    /// What it does with the file.
    pub mode: Mode,
    /// The word that names the file.
    pub file: Word,
}

/// A simple command, with the line of its first word.
#[derive(Debug, Drop)]
pub struct Simple {
    /// The line of its first token, counted from 1.
    pub line: u32,
    /// Its words, at least one.
    pub words: Items<Word>,
    /// Where its output goes, if not to the console.
    pub output: Option<Redirection>,
}

/// What stands in a list of commands, with the line of its first token.
#[derive(Debug, Drop)]
#[cycle(script)]
pub struct Item {
    /// The line of its first token, counted from 1.
    pub line: u32,
    /// Which form it has, with its parts.
    pub kind: ItemKind,
}

/// The forms of items. A condition is a simple command, and its status decides.
#[derive(Debug, Drop)]
#[cycle(script)]
pub enum ItemKind {
    Command(Simple),
    /// A command before a `&`.
    Background(Simple),
    /// The condition, and what follows at status 0.
    If(Simple, Shared<Items<Item>>),
    /// The condition, what follows at status 0, and what follows at another.
    IfElse(Simple, Shared<Items<Item>>, Shared<Items<Item>>),
    /// The condition, and what is repeated while its status is 0.
    While(Simple, Shared<Items<Item>>),
    /// The condition, and what is repeated until its status is 0.
    Until(Simple, Shared<Items<Item>>),
}
