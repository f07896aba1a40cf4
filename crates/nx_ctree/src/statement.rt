use crate::expression::Expr;
use crate::program::{Base, Constant};
use nx_base::Bytes;
use nx_shared::Shared;
use sqlite_items::Items;

/// A statement (C11 section 6.8), with the line of its first token.
#[derive(Debug, Drop)]
#[cycle(statements)]
pub struct Stmt {
    /// The line of its first token, counted from 1.
    pub line: u32,
    /// Which form it has, with its parts.
    pub kind: StmtKind,
}

/// The forms of statements.
#[derive(Debug, Drop)]
#[cycle(statements)]
pub enum StmtKind {
    Empty,
    Expr(Shared<Expr>),
    Block(Shared<Items<Stmt>>),
    If(Shared<Expr>, Shared<Stmt>),
    IfElse(Shared<Expr>, Shared<Stmt>, Shared<Stmt>),
    While(Shared<Expr>, Shared<Stmt>),
    Do(Shared<Stmt>, Shared<Expr>),
    /// The three expressions, each of which may be absent, and the body.
    For(Option<Shared<Expr>>, Option<Shared<Expr>>, Option<Shared<Expr>>, Shared<Stmt>),
    Break,
    Continue,
    Return(Option<Shared<Expr>>),
}

/// Declarations of one type at a function's head, with the line of their first token.
#[derive(Debug, Drop)]
pub struct Decl {
    /// The line of its first token, counted from 1.
    pub line: u32,
    /// Its type, without `*`.
    pub base: Base,
    /// What it declares, in order.
    pub items: Items<Item>,
}

/// One name of a declaration, with the line of its `*` or its name.
#[derive(Debug, Drop)]
pub struct Item {
    /// The line of its first token, counted from 1.
    pub line: u32,
    /// Whether a `*` stands before its name.
    pub pointer: bool,
    /// Its name.
    pub name: Bytes,
    /// Which form it has, with its parts.
    pub kind: ItemKind,
}

/// What stands after a local's name: nothing, an array's length, or its value.
#[derive(Debug, Drop)]
pub enum ItemKind {
    Plain,
    Array(Constant),
    Valued(Shared<Expr>),
}
