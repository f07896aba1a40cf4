use crate::statement::{Decl, Stmt};
use nx_base::Bytes;
use nx_shared::Shared;
use sqlite_items::Items;

/// A type word of a file's declarations.
#[derive(Clone, Copy, Debug, PartialEq, Eq)]
pub enum TypeWord {
    Int,
    Char,
    Void,
}

/// The type of a local, of a parameter, or in a cast, without its `*`.
#[derive(Clone, Copy, Debug, PartialEq, Eq)]
pub enum Base {
    Int,
    Char,
    ConstChar,
}

/// A constant, with the line of its first token.
#[derive(Debug, Drop)]
pub struct Constant {
    /// The line of its first token, counted from 1.
    pub line: u32,
    /// Which form it has, with its parts.
    pub kind: ConstantKind,
}

/// The forms of constants.
#[derive(Debug, Drop)]
pub enum ConstantKind {
    Number(u32),
    /// A number after a minus sign.
    Minus(u32),
    Char(u8),
}

/// A parameter, with the line of its first word.
#[derive(Debug, Drop)]
pub struct Param {
    /// The line of its first token, counted from 1.
    pub line: u32,
    /// Its type, without `*`.
    pub base: Base,
    /// Whether a `*` stands before its name.
    pub pointer: bool,
    /// Its name.
    pub name: Bytes,
}

/// What stands between a function's parentheses.
#[derive(Debug, Drop)]
pub enum Params {
    /// Nothing.
    Empty,
    /// `void`
    Void,
    Listed(Items<Param>),
}

/// The first contents of an array.
#[derive(Debug, Drop)]
pub enum Initialiser {
    /// A text, without its zero byte.
    Text(Bytes),
    Listed(Items<Constant>),
}

/// A function's body.
#[derive(Debug, Drop)]
pub struct Function {
    /// The declarations at its head.
    pub decls: Items<Decl>,
    /// The statements after them.
    pub body: Shared<Items<Stmt>>,
}

/// What stands after a name at file level.
#[derive(Debug, Drop)]
pub enum Rest {
    /// A scalar without a value.
    Plain,
    Valued(Constant),
    Array(Constant, Option<Initialiser>),
    Prototype(Params),
    Function(Params, Function),
}

/// A declaration or definition at file level, with the line of its first word.
#[derive(Debug, Drop)]
pub struct External {
    /// The line of its first token, counted from 1.
    pub line: u32,
    /// Whether it begins with `static`.
    pub internal: bool,
    /// The type word: of a function, what it returns.
    pub result: TypeWord,
    /// Its name.
    pub name: Bytes,
    /// What stands after its name.
    pub rest: Rest,
}

/// A file (C11 section 6.9).
#[derive(Debug, Drop)]
pub struct Unit {
    /// The declarations and definitions, in order.
    pub externals: Items<External>,
}
