use crate::program::Base;
use nx_base::Bytes;
use nx_shared::Shared;
use sqlite_items::Items;

/// An operator before its operand (C11 section 6.5.3), except steps, casts and `&`.
#[derive(Clone, Copy, Debug, PartialEq, Eq)]
pub enum UnaryOperator {
    /// `-`
    Minus,
    /// `!`
    Not,
    /// `~`
    Complement,
    /// `*`
    Deref,
}

/// `++` or `--`.
#[derive(Clone, Copy, Debug, PartialEq, Eq)]
pub enum StepOperator {
    Increment,
    Decrement,
}

/// An operator between two operands (C11 sections 6.5.5 to 6.5.14).
#[derive(Clone, Copy, Debug, PartialEq, Eq)]
pub enum BinaryOperator {
    Or,
    And,
    BitOr,
    BitXor,
    BitAnd,
    Equal,
    NotEqual,
    Less,
    AtMost,
    Greater,
    AtLeast,
    ShiftLeft,
    ShiftRight,
    Add,
    Subtract,
    Multiply,
    Divide,
    Remainder,
}

/// An assignment's operator (C11 section 6.5.16).
#[derive(Clone, Copy, Debug, PartialEq, Eq)]
pub enum AssignOperator {
    Set,
    Add,
    Subtract,
    Multiply,
    Divide,
    Remainder,
}

/// An expression, with the line of its first token.
#[derive(Debug, Drop)]
#[cycle(tree)]
pub struct Expr {
    /// The line of its first token, counted from 1.
    pub line: u32,
    /// Which form it has, with its parts.
    pub kind: ExprKind,
}

/// The forms of expressions. The rules of all levels share them: a level without its operator has
/// no node of its own.
#[derive(Debug, Drop)]
#[cycle(tree)]
pub enum ExprKind {
    Assign(AssignOperator, Shared<Place>, Shared<Expr>),
    Conditional(Shared<Expr>, Shared<Expr>, Shared<Expr>),
    Binary(BinaryOperator, Shared<Expr>, Shared<Expr>),
    Unary(UnaryOperator, Shared<Expr>),
    /// `&a[i]`: the array or pointer, and the index.
    AddressOf(Shared<Expr>, Shared<Expr>),
    /// `++` or `--` before its place.
    Before(StepOperator, Shared<Place>),
    /// `++` or `--` after its place.
    After(StepOperator, Shared<Place>),
    /// A cast to a type, or to a pointer to it.
    Cast(Base, bool, Shared<Expr>),
    SizeOfName(Bytes),
    SizeOfType(Base),
    Name(Bytes),
    Number(u32),
    Char(u8),
    /// The text without its zero byte.
    Text(Bytes),
    /// An expression in parentheses.
    Paren(Shared<Expr>),
    Call(Bytes, Items<Expr>),
    /// `a[i]`: the array or pointer, and the index.
    Index(Shared<Expr>, Shared<Expr>),
}

/// What can be written to, with the line of its first token.
#[derive(Debug, Drop)]
#[cycle(tree)]
pub struct Place {
    /// The line of its first token, counted from 1.
    pub line: u32,
    /// Which form it has, with its parts.
    pub kind: PlaceKind,
}

/// The forms of places.
#[derive(Debug, Drop)]
#[cycle(tree)]
pub enum PlaceKind {
    Name(Bytes),
    /// `a[i]`
    Index(Shared<Expr>, Shared<Expr>),
    /// `*e`
    Deref(Shared<Expr>),
}
