ghost use Rattle.std.specs.Prelude.{◌≡◌};
ghost use Rattle.nx_cobjects.specs.Values.{kept, number_in, operated, same_element, size_of, word_in};
ghost use Rattle.nx_base.specs.Arithmetic.{alu_of};

use nx_alu::alu;
use nx_base::AluOp;
use nx_checked::{Conversion, Element, IntOperator, IntPrefix, Scalar};

/// An object's name: an array of the file or a text of the program, by its place, or an array of an open call, by how
/// many arrays the thread had before it.
#[derive(Clone, Copy)]
pub enum Name {
    Array(u32),
    Text(u32),
    Own(u32),
}

/// A value.
#[derive(Clone, Copy)]
pub enum Value {
    /// A number, as 32 bits.
    Int(u32),
    /// A pointer: an object, and the place of an element, which wraps as a number does.
    Point(Name, u32),
    /// A pointer that points to nothing: its number.
    Forged(u32),
    /// A function, by its place.
    Entry(u32),
}

/// What a thread does wrong.
#[derive(Clone, Copy)]
pub enum WrongKind {
    /// An access outside its object, or a value that isn't what its place asks for.
    Bounds,
    /// An access through a pointer that points to nothing.
    Forged,
    /// A call with a buffer that doesn't lie in one object, or with a text that has no zero byte there within 256.
    Buffer,
    /// A second group of a program that has variables of the file.
    Shared,
    /// A start of a program that is no C program.
    Raw,
}

/// What is done to one value.
#[derive(Clone, Copy)]
pub enum Prefix {
    Number(IntPrefix),
    Cast(Conversion),
    /// 1 where it isn't 0, else 0.
    Truth,
    /// What is read at a pointer.
    Load(Element),
}

/// What is done to two values.
#[derive(Clone, Copy)]
pub enum Infix {
    Number(IntOperator),
    /// A pointer, moved up by a number of elements.
    Advance(Element),
    /// The same, with the number first.
    AdvanceBy(Element),
    /// A pointer, moved down by a number of elements.
    Retreat(Element),
    /// What is read a number of elements above a pointer.
    Load(Element),
}

/// The number that a value is, where one is wanted. Any other value is wrong.
pub fn number(v: Value) -> Result<u32, WrongKind>
    ensures { result ≡ number_in v }
{
    match v {
        Value::Int(n) => Ok(n),
        Value::Point(_, _) | Value::Forged(_) | Value::Entry(_) => Err(WrongKind::Bounds),
    }
}

/// The word that a call gets of a value: a number, or a function's place. It is 0 for a pointer.
pub fn word(v: Value) -> u32
    ensures { result ≡ word_in v }
{
    match v {
        Value::Int(n) | Value::Entry(n) => n,
        _ => 0,
    }
}

/// How many bytes an element has.
pub fn size(element: Element) -> usize
    ensures { result ≡ size_of element }
{
    match element {
        Element::Int => 4,
        Element::Char => 1,
    }
}

/// Whether two objects have the same elements.
pub fn same_element(a: Element, b: Element) -> bool
    ensures { result ≡ same_element a b }
{
    match a {
        Element::Int => match b {
            Element::Int => true,
            Element::Char => false,
        },
        Element::Char => match b {
            Element::Int => false,
            Element::Char => true,
        },
    }
}

/// What a variable keeps of a value that is stored.
pub fn kept(scalar: Scalar, v: Value) -> Result<Value, WrongKind>
    ensures { result ≡ kept scalar v }
{
    match scalar {
        Scalar::Int | Scalar::Pointer(_) => Ok(v),
        Scalar::Char => {
            let n = number(v)?;
            Ok(Value::Int(n % 256))
        }
    }
}

/// What an operator between two numbers gives.
pub fn operate(op: IntOperator, a: u32, b: u32) -> u32
    ensures { result ≡ operated op a b }
{
    match op {
        IntOperator::BitOr => alu(AluOp::Or, a, b),
        IntOperator::BitXor => alu(AluOp::Xor, a, b),
        IntOperator::BitAnd => alu(AluOp::And, a, b),
        IntOperator::Equal => u32::from(a == b),
        IntOperator::NotEqual => u32::from(a != b),
        IntOperator::Less => u32::from(a.cast_signed() < b.cast_signed()),
        IntOperator::AtMost => u32::from(a.cast_signed() <= b.cast_signed()),
        IntOperator::Greater => u32::from(b.cast_signed() < a.cast_signed()),
        IntOperator::AtLeast => u32::from(b.cast_signed() <= a.cast_signed()),
        IntOperator::ShiftLeft => alu(AluOp::Sll, a, b),
        IntOperator::ShiftRight => alu(AluOp::Sra, a, b),
        IntOperator::Add => alu(AluOp::Add, a, b),
        IntOperator::Subtract => alu(AluOp::Sub, a, b),
        IntOperator::Multiply => alu(AluOp::Mul, a, b),
        IntOperator::Divide => alu(AluOp::Div, a, b),
        IntOperator::Remainder => alu(AluOp::Rem, a, b),
    }
}

/// The number that moves a pointer down where `n` moves it up.
pub fn negated(n: u32) -> u32
    ensures { result ≡ alu_of AluOp.Sub 0 n }
{
    alu(AluOp::Sub, 0, n)
}
