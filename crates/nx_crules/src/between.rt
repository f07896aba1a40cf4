ghost use Rattle.std.specs.Prelude.{◌≡◌, IfOk};
ghost use Rattle.nx_crules.specs.Answers.{at, IsGiven};
ghost use Rattle.nx_crules.specs.Rules.{
  numbers as numbers_of,
  direction as direction_of,
  moved as moved_of,
  moved_by as moved_by_of,
  pointer_first as pointer_first_of,
  number_first as number_first_of,
  binary_rule,
  choice as choice_of,
  conditional_rule,
};

use crate::taken::{are_one_type, mismatch};
use crate::types::{CType, Typed, int};
use nx_checked::{CheckedExpr, Element, IntOperator};
use nx_ctok::CFault;
use nx_ctree::BinaryOperator;
use nx_shared::Shared;
use std::alloc::{AllocError, Global};

// Two operands as parts of a tree.
fn shared_pair(
    alloc: Global,
    a: CheckedExpr,
    b: CheckedExpr,
) -> Result<(Shared<CheckedExpr>, Shared<CheckedExpr>), AllocError>
    ensures { IfOk result (λ r. r ≡ (a, b)) }
{
    let a = Shared::new(alloc, a)?;
    let b = Shared::new(alloc, b)?;
    Ok((a, b))
}

fn numbers(op: BinaryOperator, a: Shared<CheckedExpr>, b: Shared<CheckedExpr>) -> CheckedExpr
    ensures { result ≡ numbers_of op a b }
{
    match op {
        BinaryOperator::Or => CheckedExpr::Or(a, b),
        BinaryOperator::And => CheckedExpr::And(a, b),
        BinaryOperator::BitOr => CheckedExpr::Binary(IntOperator::BitOr, a, b),
        BinaryOperator::BitXor => CheckedExpr::Binary(IntOperator::BitXor, a, b),
        BinaryOperator::BitAnd => CheckedExpr::Binary(IntOperator::BitAnd, a, b),
        BinaryOperator::Equal => CheckedExpr::Binary(IntOperator::Equal, a, b),
        BinaryOperator::NotEqual => CheckedExpr::Binary(IntOperator::NotEqual, a, b),
        BinaryOperator::Less => CheckedExpr::Binary(IntOperator::Less, a, b),
        BinaryOperator::AtMost => CheckedExpr::Binary(IntOperator::AtMost, a, b),
        BinaryOperator::Greater => CheckedExpr::Binary(IntOperator::Greater, a, b),
        BinaryOperator::AtLeast => CheckedExpr::Binary(IntOperator::AtLeast, a, b),
        BinaryOperator::ShiftLeft => CheckedExpr::Binary(IntOperator::ShiftLeft, a, b),
        BinaryOperator::ShiftRight => CheckedExpr::Binary(IntOperator::ShiftRight, a, b),
        BinaryOperator::Add => CheckedExpr::Binary(IntOperator::Add, a, b),
        BinaryOperator::Subtract => CheckedExpr::Binary(IntOperator::Subtract, a, b),
        BinaryOperator::Multiply => CheckedExpr::Binary(IntOperator::Multiply, a, b),
        BinaryOperator::Divide => CheckedExpr::Binary(IntOperator::Divide, a, b),
        BinaryOperator::Remainder => CheckedExpr::Binary(IntOperator::Remainder, a, b),
    }
}

/// Which way an operator moves a pointer, if it does: up for `+`.
fn direction(op: BinaryOperator) -> Option<bool>
    ensures { result ≡ direction_of op }
{
    match op {
        BinaryOperator::Add => Some(true),
        BinaryOperator::Subtract => Some(false),
        _ => None,
    }
}

fn moved(
    alloc: Global,
    line: u32,
    up: Option<bool>,
    element: Element,
    constant: bool,
    a: CheckedExpr,
    b: CheckedExpr,
) -> Result<Typed, CFault>
    ensures { IsGiven result (at line (moved_of up element constant a b)) }
{
    let (a, b) = shared_pair(alloc, a, b)?;
    let gives = CType::Pointer(element, constant);
    match up {
        Some(true) => Ok(Typed {
            gives,
            tree: CheckedExpr::Advance(element, a, b),
        }),
        Some(false) => Ok(Typed {
            gives,
            tree: CheckedExpr::Retreat(element, a, b),
        }),
        None => Err(mismatch(line)),
    }
}

fn moved_by(
    alloc: Global,
    line: u32,
    up: Option<bool>,
    element: Element,
    constant: bool,
    a: CheckedExpr,
    b: CheckedExpr,
) -> Result<Typed, CFault>
    ensures { IsGiven result (at line (moved_by_of up element constant a b)) }
{
    match up {
        Some(true) => {
            let (a, b) = shared_pair(alloc, a, b)?;
            Ok(Typed {
                gives: CType::Pointer(element, constant),
                tree: CheckedExpr::AdvanceBy(element, a, b),
            })
        }
        Some(false) => Err(mismatch(line)),
        None => Err(mismatch(line)),
    }
}

/// A pointer, and an operand after it.
fn pointer_first(
    alloc: Global,
    line: u32,
    op: BinaryOperator,
    element: Element,
    constant: bool,
    a: CheckedExpr,
    y: Typed,
) -> Result<Typed, CFault>
    ensures { IsGiven result (at line (pointer_first_of op element constant y.gives a y.tree)) }
{
    match y.gives {
        CType::Int => moved(alloc, line, direction(op), element, constant, a, y.tree),
        _ => Err(mismatch(line)),
    }
}

/// A number, and an operand after it.
fn number_first(
    alloc: Global,
    line: u32,
    op: BinaryOperator,
    a: CheckedExpr,
    y: Typed,
) -> Result<Typed, CFault>
    ensures { IsGiven result (at line (number_first_of op y.gives a y.tree)) }
{
    match y.gives {
        CType::Int => {
            let (a, b) = shared_pair(alloc, a, y.tree)?;
            Ok(int(numbers(op, a, b)))
        }
        CType::Pointer(element, constant) => {
            moved_by(alloc, line, direction(op), element, constant, a, y.tree)
        }
        _ => Err(mismatch(line)),
    }
}

/// An operator between two operands.
pub fn binary(
    alloc: Global,
    line: u32,
    op: BinaryOperator,
    x: Typed,
    y: Typed,
) -> Result<Typed, CFault>
    ensures { IsGiven result (at line (binary_rule op x y)) }
{
    match x.gives {
        CType::Int => number_first(alloc, line, op, x.tree, y),
        CType::Pointer(element, constant) => {
            pointer_first(alloc, line, op, element, constant, x.tree, y)
        }
        _ => Err(mismatch(line)),
    }
}

/// The type of `?:` over these types, if it takes them.
fn choice(test: CType, first: CType, second: CType) -> Option<CType>
    ensures { result ≡ choice_of test first second }
{
    match test {
        CType::Int => {
            if are_one_type(first, second) {
                Some(first)
            } else {
                None
            }
        }
        _ => None,
    }
}

fn chosen(
    alloc: Global,
    gives: CType,
    c: CheckedExpr,
    a: CheckedExpr,
    b: CheckedExpr,
) -> Result<Typed, CFault>
    ensures { IsGiven result (Ok (record { gives = gives; tree = CheckedExpr.Conditional c a b })) }
{
    let c = Shared::new(alloc, c)?;
    let (a, b) = shared_pair(alloc, a, b)?;
    let tree = CheckedExpr::Conditional(c, a, b);
    Ok(Typed { gives, tree })
}

/// `?:` over a test and two values.
pub fn conditional(alloc: Global, line: u32, c: Typed, x: Typed, y: Typed) -> Result<Typed, CFault>
    ensures { IsGiven result (at line (conditional_rule c x y)) }
{
    let Typed {
        gives: test,
        tree: c,
    } = c;
    let Typed {
        gives: first,
        tree: a,
    } = x;
    let Typed {
        gives: second,
        tree: b,
    } = y;
    match choice(test, first, second) {
        Some(gives) => chosen(alloc, gives, c, a, b),
        None => Err(mismatch(line)),
    }
}
