use nx_base::Bytes;
use nx_ctree::{Expr, ExprKind};
use sqlite_items::Items;

/// An expression, and the nodes on its longest path.
#[derive(Debug, Drop)]
pub struct Tall {
    /// The expression.
    pub expr: Expr,
    /// How many nodes its longest path has, counted from 1.
    pub height: u32,
}

/// What can be written to, before it is known whether it is.
#[derive(Debug, Drop)]
pub enum Target {
    Name(Bytes),
    /// The array or pointer, and the index.
    Index(Expr, Expr),
    /// The pointer.
    Deref(Expr),
}

/// What was read: something that can be written to, or a value.
#[derive(Debug, Drop)]
pub enum Form {
    Target(Target),
    Value(ExprKind),
}

/// An expression that more may be read onto, with its line and the nodes on its longest path.
#[derive(Debug, Drop)]
pub struct Operand {
    pub line: u32,
    pub form: Form,
    pub height: u32,
}

/// Something that can be written to, with its line and the nodes on its longest path.
#[derive(Debug, Drop)]
pub struct Lvalue {
    pub line: u32,
    pub target: Target,
    pub height: u32,
}

/// An index into an array or pointer, with its line and the nodes on its longest path.
#[derive(Debug, Drop)]
pub struct Element {
    pub line: u32,
    pub base: Expr,
    pub index: Expr,
    pub height: u32,
}

/// The arguments of a call, and the most nodes on a path of one.
#[derive(Debug, Drop)]
pub struct Arguments {
    pub list: Items<Expr>,
    pub height: u32,
}
