//! The trees of C programs: one type for each rule of the grammar, one variant for each alternative.
//! Which tokens have which tree stands in `specs/Expressions.antt`, `Statements.antt` and `Programs.antt`.
#![tactic(auto)]

mod expression;
mod laws;
mod program;
mod sign;
mod statement;

pub use expression::{
    AssignOperator, BinaryOperator, Expr, ExprKind, Place, PlaceKind, StepOperator, UnaryOperator,
};
pub use laws::a_token_has_its_sign;
pub use program::{
    Base, Constant, ConstantKind, External, Function, Initialiser, Param, Params, Rest, TypeWord,
    Unit,
};
pub use sign::{Sign, Signed, with_sign};
pub use statement::{Decl, Item, ItemKind, Stmt, StmtKind};

#[cfg(test)]
mod tests;
