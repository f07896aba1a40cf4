// Operations, and code of a few, that parts of expressions have.

ghost use Rattle.std.specs.Prelude.{◌≡◌, ◌<◌, ◌^◌, ◌∷◌, ◌++◌, OnOk};
ghost use Rattle.nx_checked.specs.Trees.{expr_of};
ghost use Rattle.nx_lower.specs.Shown.{width_of};
ghost use Rattle.nx_lower.specs.Code.{binary_of, truth_code, prefix_code, convert_code, right_of, kept_code, cut_code, raise_code, stepping_operator, step_number, negate_code, step_element_code};

use crate::code::Code;
use nx_checked::{CheckedExpr, Conversion, Element, IntOperator, IntPrefix, Scalar, StepValue};
use nx_slot::{Binary, Comparison, Operand, SlotOp, Unary, Width};
use std::alloc::AllocError;

/// How wide the elements of an array or text are.
pub fn width(w: Element) -> Width
    ensures { result ≡ width_of w }
{
    match w {
        Element::Int => Width::Word,
        Element::Char => Width::Byte,
    }
}

pub fn binary(op: IntOperator) -> Binary
    ensures { result ≡ binary_of op }
{
    match op {
        IntOperator::BitOr => Binary::Or,
        IntOperator::BitXor => Binary::Xor,
        IntOperator::BitAnd => Binary::And,
        IntOperator::Equal => Binary::Compare(Comparison::Equal),
        IntOperator::NotEqual => Binary::Compare(Comparison::Unequal),
        IntOperator::Less => Binary::Compare(Comparison::Less),
        IntOperator::AtMost => Binary::Compare(Comparison::AtMost),
        IntOperator::Greater => Binary::Compare(Comparison::Greater),
        IntOperator::AtLeast => Binary::Compare(Comparison::AtLeast),
        IntOperator::ShiftLeft => Binary::ShiftLeft,
        IntOperator::ShiftRight => Binary::ShiftRight,
        IntOperator::Add => Binary::Add,
        IntOperator::Subtract => Binary::Subtract,
        IntOperator::Multiply => Binary::Multiply,
        IntOperator::Divide => Binary::Divide,
        IntOperator::Remainder => Binary::Remainder,
    }
}

pub fn stepping(up: bool) -> IntOperator
    ensures { result ≡ stepping_operator up }
{
    if up {
        IntOperator::Add
    } else {
        IntOperator::Subtract
    }
}

pub fn by_one(up: bool, s: Scalar) -> u32
    ensures { result ≡ step_number up s }
{
    match s {
        Scalar::Int => 1,
        Scalar::Char => 1,
        Scalar::Pointer(_) => { if up { 1 } else { 0xffffffff } }
    }
}

pub fn truth(i: usize) -> SlotOp
    ensures { result ≡ truth_code i }
{
    SlotOp::Apply {
        op: Binary::Compare(Comparison::Unequal),
        to: i,
        left: i,
        right: Operand::Number(0),
    }
}

pub fn prefix(op: IntPrefix, i: usize) -> SlotOp
    ensures { result ≡ prefix_code op i }
{
    match op {
        IntPrefix::Minus => SlotOp::Change {
            op: Unary::Negate,
            to: i,
            from: i,
        },
        IntPrefix::Not => SlotOp::Apply {
            op: Binary::Compare(Comparison::Equal),
            to: i,
            left: i,
            right: Operand::Number(0),
        },
        IntPrefix::Complement => SlotOp::Apply {
            op: Binary::Xor,
            to: i,
            left: i,
            right: Operand::Number(0xffffffff),
        },
    }
}

pub fn put_conversion(code: &mut Code, to: Conversion, i: usize) -> Result<(), AllocError>
    ensures { OnOk result (code.new ≡ convert_code to i ++ code.old) }
{
    match to {
        Conversion::ToInt => Ok(()),
        Conversion::ToChar => code.put(SlotOp::Change {
            op: Unary::LowByte,
            to: i,
            from: i,
        }),
        Conversion::ToPointer => code.put(SlotOp::Forge { to: i, from: i }),
    }
}

/// The operand that an expression on the right is.
pub fn right(e: &CheckedExpr, i: usize) -> Operand
    ensures { result ≡ right_of (expr_of e.now) i }
{
    match e {
        CheckedExpr::Constant(n) => Operand::Number(*n),
        _ => Operand::Cell(i),
    }
}

pub fn put_kept(code: &mut Code, s: Scalar, i: usize) -> Result<(), AllocError>
    ensures { OnOk result (code.new ≡ kept_code s i ++ code.old) }
{
    match s {
        Scalar::Int => Ok(()),
        Scalar::Char => code.put(SlotOp::Change {
            op: Unary::LowByte,
            to: i,
            from: i,
        }),
        Scalar::Pointer(_) => Ok(()),
    }
}

pub fn cut(w: Element, to: usize, i: usize) -> SlotOp
    ensures { result ≡ cut_code w to i }
{
    match w {
        Element::Int => SlotOp::Move {
            to,
            from: Operand::Cell(i),
        },
        Element::Char => SlotOp::Change {
            op: Unary::LowByte,
            to,
            from: i,
        },
    }
}

pub fn put_raise(
    code: &mut Code,
    op: IntOperator,
    s: Scalar,
    to: usize,
    i: usize,
    r: Operand,
) -> Result<(), AllocError>
    ensures { OnOk result (code.new ≡ raise_code op s to i r ++ code.old) }
{
    match s {
        Scalar::Int => code.put(SlotOp::Apply {
            op: binary(op),
            to,
            left: i,
            right: r,
        }),
        Scalar::Char => {
            code.put(SlotOp::Change {
                op: Unary::LowByte,
                to,
                from: to,
            })?;
            code.put(SlotOp::Apply {
                op: binary(op),
                to,
                left: i,
                right: r,
            })
        }
        Scalar::Pointer(w) => code.put(SlotOp::Index {
            to,
            base: i,
            index: r,
            width: width(w),
        }),
    }
}

pub fn put_negate(code: &mut Code, op: IntOperator, s: Scalar, i: usize) -> Result<(), AllocError>
    ensures { OnOk result (code.new ≡ negate_code op s i ++ code.old) }
{
    match s {
        Scalar::Int => Ok(()),
        Scalar::Char => Ok(()),
        Scalar::Pointer(_) => match op {
            IntOperator::Subtract => code.put(SlotOp::Change {
                op: Unary::Negate,
                to: i,
                from: i,
            }),
            _ => Ok(()),
        },
    }
}

/// `++` and `--` of an element, whose pointer's cell is followed by that of its number.
pub fn put_step(
    code: &mut Code,
    n: usize,
    d: usize,
    v: StepValue,
    up: bool,
    w: Element,
) -> Result<(), AllocError>
    requires cells { n < 2 ^ 32 }
    requires depth { d < 2 ^ 32 }
    ensures { OnOk result (code.new ≡ step_element_code n d v up w ++ code.old) }
{
    let place = n + d;
    let old = n + (d + 1);
    match v {
        StepValue::New => {
            code.put(cut(w, place, old))?;
            code.put(SlotOp::Store {
                place,
                value: old,
                width: width(w),
            })?;
            code.put(SlotOp::Apply {
                op: binary(stepping(up)),
                to: old,
                left: old,
                right: Operand::Number(1),
            })
        }
        StepValue::Old => {
            let new = n + (d + 1 + 1);
            code.put(SlotOp::Move {
                to: place,
                from: Operand::Cell(old),
            })?;
            code.put(SlotOp::Store {
                place,
                value: new,
                width: width(w),
            })?;
            code.put(SlotOp::Apply {
                op: binary(stepping(up)),
                to: new,
                left: old,
                right: Operand::Number(1),
            })
        }
    }
}
