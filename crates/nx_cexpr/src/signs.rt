ghost use Rattle.std.specs.Prelude.{◌≡◌, ◌<◌, ◌≤◌};
ghost use Rattle.nx_ctree.specs.Expressions.{step_of as step_named, assign_of as assign_named, binary_of as binary_named};
ghost use Rattle.nx_cexpr.specs.Signs.{begins as begins_expression, begins_primary as primary_begins, is_prefix as stands_before, full_fault as fault_where_full, operator_at as operator_of_level};

use nx_ctree::{AssignOperator, BinaryOperator, Sign, StepOperator};
use nx_grammar::Kind;

/// Whether an expression begins with this sign.
pub fn begins(sign: Sign) -> bool
    ensures { result ≡ begins_expression sign }
{
    matches!(
        sign,
        Sign::Name
            | Sign::Number
            | Sign::Char
            | Sign::Text
            | Sign::OpenParen
            | Sign::Minus
            | Sign::Not
            | Sign::Complement
            | Sign::Star
            | Sign::BitAnd
            | Sign::Increment
            | Sign::Decrement
            | Sign::SizeOf
    )
}

/// Whether a primary expression that is no name begins with this sign.
pub fn begins_primary(sign: Sign) -> bool
    ensures { result ≡ primary_begins sign }
{
    matches!(
        sign,
        Sign::Number | Sign::Char | Sign::Text | Sign::OpenParen
    )
}

/// Whether a unary expression may begin with this sign before its operand.
pub fn is_prefix(sign: Sign) -> bool
    ensures { result ≡ stands_before sign }
{
    matches!(
        sign,
        Sign::Minus
            | Sign::Not
            | Sign::Complement
            | Sign::Star
            | Sign::BitAnd
            | Sign::Increment
            | Sign::Decrement
            | Sign::SizeOf
            | Sign::OpenParen
    )
}

/// What is wrong with a token where no node fits.
pub fn full_fault(begins: bool) -> Kind
    ensures { result ≡ fault_where_full begins }
{
    if begins { Kind::Limit } else { Kind::Syntax }
}

/// The sign as `++` or `--`.
pub fn step_of(sign: Sign) -> Option<StepOperator>
    ensures { result ≡ step_named sign }
{
    match sign {
        Sign::Increment => Some(StepOperator::Increment),
        Sign::Decrement => Some(StepOperator::Decrement),
        _ => None,
    }
}

/// The sign as an assignment.
pub fn assign_of(sign: Sign) -> Option<AssignOperator>
    ensures { result ≡ assign_named sign }
{
    match sign {
        Sign::Set => Some(AssignOperator::Set),
        Sign::AddSet => Some(AssignOperator::Add),
        Sign::SubtractSet => Some(AssignOperator::Subtract),
        Sign::MultiplySet => Some(AssignOperator::Multiply),
        Sign::DivideSet => Some(AssignOperator::Divide),
        Sign::RemainderSet => Some(AssignOperator::Remainder),
        _ => None,
    }
}

/// An operator between operands, and its level.
fn binary_of(sign: Sign) -> Option<(BinaryOperator, u32)>
    ensures { result ≡ binary_named sign }
{
    match sign {
        Sign::Star => Some((BinaryOperator::Multiply, 2)),
        Sign::Slash => Some((BinaryOperator::Divide, 2)),
        Sign::Percent => Some((BinaryOperator::Remainder, 2)),
        Sign::Plus => Some((BinaryOperator::Add, 3)),
        Sign::Minus => Some((BinaryOperator::Subtract, 3)),
        Sign::ShiftLeft => Some((BinaryOperator::ShiftLeft, 4)),
        Sign::ShiftRight => Some((BinaryOperator::ShiftRight, 4)),
        Sign::Less => Some((BinaryOperator::Less, 5)),
        Sign::AtMost => Some((BinaryOperator::AtMost, 5)),
        Sign::Greater => Some((BinaryOperator::Greater, 5)),
        Sign::AtLeast => Some((BinaryOperator::AtLeast, 5)),
        Sign::Equal => Some((BinaryOperator::Equal, 6)),
        Sign::NotEqual => Some((BinaryOperator::NotEqual, 6)),
        Sign::BitAnd => Some((BinaryOperator::BitAnd, 7)),
        Sign::BitXor => Some((BinaryOperator::BitXor, 8)),
        Sign::BitOr => Some((BinaryOperator::BitOr, 9)),
        Sign::AndMark => Some((BinaryOperator::And, 10)),
        Sign::OrMark => Some((BinaryOperator::Or, 11)),
        _ => None,
    }
}

/// The operator that this sign is, where it is one of this level.
pub fn operator_at(level: u32, sign: Sign) -> Option<BinaryOperator>
    ensures { result ≡ operator_of_level level (binary_named sign) }
{
    match binary_of(sign) {
        Some((operator, its_level)) if its_level == level => Some(operator),
        _ => None,
    }
}
