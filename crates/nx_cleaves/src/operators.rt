ghost use Rattle.nx_crules.specs.Answers.{at, IsGiven};
ghost use Rattle.nx_cleaves.specs.Operators.{before_rule, between_rule};

use nx_crules::{Typed, address, binary, cast, index, paren, unary};
use nx_ctok::CFault;
use nx_ctree::{Base, BinaryOperator, UnaryOperator};
use std::alloc::Global;

/// What stands at one operand.
#[derive(Clone, Copy, Debug)]
pub enum Before {
    Unary(UnaryOperator),
    /// A cast to a type, or to a pointer to it.
    Cast(Base, bool),
    Paren,
}

/// What stands between two operands.
#[derive(Clone, Copy, Debug)]
pub enum Between {
    Binary(BinaryOperator),
    /// `&a[i]`
    AddressOf,
    /// `a[i]`
    Index,
}

/// What stands at an operand gives and does.
pub fn apply(alloc: Global, line: u32, op: Before, x: Typed) -> Result<Typed, CFault>
    ensures { IsGiven result (at line (before_rule op x)) }
{
    match op {
        Before::Unary(op) => unary(alloc, line, op, x),
        Before::Cast(base, star) => cast(alloc, line, base, star, x),
        Before::Paren => paren(line, x),
    }
}

/// What stands between two operands gives and does.
pub fn combine(alloc: Global, line: u32, op: Between, x: Typed, y: Typed) -> Result<Typed, CFault>
    ensures { IsGiven result (at line (between_rule op x y)) }
{
    match op {
        Between::Binary(op) => binary(alloc, line, op, x, y),
        Between::AddressOf => address(alloc, line, x, y),
        Between::Index => index(alloc, line, x, y),
    }
}
