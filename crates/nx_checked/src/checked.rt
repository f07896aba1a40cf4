use nx_base::{Bytes, Kind};
use nx_shared::Shared;
use sqlite_items::Items;

/// What an array or a text holds, and what a pointer points to.
#[derive(Clone, Copy, Debug, PartialEq, Eq)]
pub enum Element {
    /// A number of 4 bytes.
    Int,
    /// A byte.
    Char,
}

/// What a variable that is no array holds.
#[derive(Clone, Copy, Debug, PartialEq, Eq)]
pub enum Scalar {
    Int,
    /// A store keeps the low 8 bits.
    Char,
    /// A pointer to such elements, which moves by their size. It starts as the pointer of number 0.
    Pointer(Element),
}

/// A variable that is no array.
#[derive(Clone, Copy, Debug, PartialEq, Eq)]
pub enum Cell {
    /// A parameter or a local of the function: its parameters first, then its locals in their
    /// order, counted from 0.
    Local(u32),
    /// A variable of the file, by its place among those that are no arrays, counted from 0.
    Global(u32),
}

/// An array.
#[derive(Clone, Copy, Debug, PartialEq, Eq)]
pub enum ArrayName {
    /// An array of the function, by its place among its arrays, counted from 0.
    Local(u32),
    /// An array of the file, by its place among its arrays, counted from 0.
    Global(u32),
}

/// How many elements of which kind an array has.
#[derive(Clone, Copy, Debug, PartialEq, Eq)]
pub struct Shape {
    /// What it holds.
    pub element: Element,
    /// How many, at least 1.
    pub count: u32,
}

/// What a cast makes of a number (C11 section 6.5.4).
#[derive(Clone, Copy, Debug, PartialEq, Eq)]
pub enum Conversion {
    /// The number itself.
    ToInt,
    /// Its low 8 bits.
    ToChar,
    /// The pointer of this number, which points to nothing.
    ToPointer,
}

/// An operator before a number (C11 section 6.5.3.3).
#[derive(Clone, Copy, Debug, PartialEq, Eq)]
pub enum IntPrefix {
    Minus,
    Not,
    Complement,
}

/// An operator between two numbers (C11 sections 6.5.5 to 6.5.12).
#[derive(Clone, Copy, Debug, PartialEq, Eq)]
pub enum IntOperator {
    BitOr,
    BitXor,
    BitAnd,
    Equal,
    NotEqual,
    Less,
    AtMost,
    Greater,
    AtLeast,
    ShiftLeft,
    ShiftRight,
    Add,
    Subtract,
    Multiply,
    Divide,
    Remainder,
}

/// Whether `++` or `--` gives the value after it or the one before it.
#[derive(Clone, Copy, Debug, PartialEq, Eq)]
pub enum StepValue {
    /// The value that was stored, as of `++x`.
    New,
    /// The value that was read, as of `x++`.
    Old,
}

/// A checked expression: a node for each step of its evaluation, with numbers in place of names.
/// Parentheses have none.
#[derive(Debug, Drop)]
#[cycle(checked)]
pub enum CheckedExpr {
    /// A number, a character or a size in bytes, as 32 bits.
    Constant(u32),
    /// The first byte of a text, by its place among the texts of the program, counted from 0.
    Literal(u32),
    /// A function as an argument, by its place among the functions, counted from 0.
    Function(u32),
    /// The value of a variable.
    Read(Cell),
    /// The first element of an array.
    Array(ArrayName),
    /// The value of an element.
    Load(Element, Shared<CheckedPlace>),
    /// `&a[i]`: the pointer, and the index.
    AddressOf(Element, Shared<CheckedExpr>, Shared<CheckedExpr>),
    Unary(IntPrefix, Shared<CheckedExpr>),
    Binary(IntOperator, Shared<CheckedExpr>, Shared<CheckedExpr>),
    And(Shared<CheckedExpr>, Shared<CheckedExpr>),
    Or(Shared<CheckedExpr>, Shared<CheckedExpr>),
    Conditional(Shared<CheckedExpr>, Shared<CheckedExpr>, Shared<CheckedExpr>),
    Convert(Conversion, Shared<CheckedExpr>),
    /// `p + n`: the pointer, and by how many elements it moves up.
    Advance(Element, Shared<CheckedExpr>, Shared<CheckedExpr>),
    /// `n + p`: by how many elements it moves up, and the pointer.
    AdvanceBy(Element, Shared<CheckedExpr>, Shared<CheckedExpr>),
    /// `p - n`: the pointer, and by how many elements it moves down.
    Retreat(Element, Shared<CheckedExpr>, Shared<CheckedExpr>),
    /// `x = e`
    Assign(Scalar, Cell, Shared<CheckedExpr>),
    /// `a[i] = e` or `*p = e`
    AssignElement(Element, Shared<CheckedPlace>, Shared<CheckedExpr>),
    /// `x += e` and the like. A pointer takes `+` and `-` alone, and moves by elements.
    Compound(IntOperator, Scalar, Cell, Shared<CheckedExpr>),
    /// `a[i] += e` and the like.
    CompoundElement(IntOperator, Element, Shared<CheckedPlace>, Shared<CheckedExpr>),
    /// `++x`, `--x`, `x++` and `x--`: up for `++`. A pointer moves by one element.
    Step(StepValue, bool, Scalar, Cell),
    /// The same of an element.
    StepElement(StepValue, bool, Element, Shared<CheckedPlace>),
    /// A call of the kernel, by its place in the program's list of such calls, counted from 0.
    Kernel(u32, Items<CheckedExpr>),
    /// A call of a function of the program, by its place, counted from 0.
    Call(u32, Items<CheckedExpr>),
}

/// An element that is read or written.
#[derive(Debug, Drop)]
#[cycle(checked)]
pub enum CheckedPlace {
    /// `a[i]`: the pointer, and the index.
    Index(Shared<CheckedExpr>, Shared<CheckedExpr>),
    /// `*p`
    Deref(Shared<CheckedExpr>),
}

/// A checked statement (C11 section 6.8).
#[derive(Debug, Drop)]
#[cycle(checked_statements)]
pub enum CheckedStmt {
    Empty,
    Expr(Shared<CheckedExpr>),
    Block(Shared<Items<CheckedStmt>>),
    If(Shared<CheckedExpr>, Shared<CheckedStmt>),
    IfElse(Shared<CheckedExpr>, Shared<CheckedStmt>, Shared<CheckedStmt>),
    While(Shared<CheckedExpr>, Shared<CheckedStmt>),
    Do(Shared<CheckedStmt>, Shared<CheckedExpr>),
    /// The three expressions, each of which may be absent, and the body.
    For(
        Option<Shared<CheckedExpr>>,
        Option<Shared<CheckedExpr>>,
        Option<Shared<CheckedExpr>>,
        Shared<CheckedStmt>,
    ),
    Break,
    Continue,
    Return(Option<Shared<CheckedExpr>>),
}

/// A checked function.
#[derive(Debug, Drop)]
pub struct CheckedFunction {
    /// Its parameters. An argument for a `char` keeps its low 8 bits.
    pub params: Items<Scalar>,
    /// Its locals that are no arrays, in their order.
    pub locals: Items<Scalar>,
    /// Its arrays, in their order.
    pub arrays: Items<Shape>,
    /// The values that its declarations give, in order, as assignments: each is a node, and no
    /// statement.
    pub initials: Items<CheckedExpr>,
    /// Its statements.
    pub body: Shared<Items<CheckedStmt>>,
    /// How many bytes of stack a call of it takes, a multiple of 16.
    pub frame: u32,
}

/// A variable of the file that is no array.
#[derive(Clone, Copy, Debug)]
pub struct GlobalScalar {
    /// What it holds: no pointer.
    pub scalar: Scalar,
    /// Its first value, as 32 bits.
    pub value: u32,
}

/// An array of the file.
#[derive(Debug, Drop)]
pub struct GlobalArray {
    /// How many elements of which kind it has.
    pub shape: Shape,
    /// Its first bytes, all of them, with the low byte of a number first.
    pub bytes: Bytes,
}

/// A call of the kernel that a program names.
#[derive(Debug, Drop)]
pub struct UsedCall {
    /// Its name.
    pub name: Bytes,
    /// Its number in the call table.
    pub number: u16,
    /// The kinds of its parameters, in their order, at most 6.
    pub kinds: Items<Kind>,
    /// Whether it gives a value.
    pub returns: bool,
}

/// A program that is well typed, with numbers in place of names.
#[derive(Debug, Drop)]
pub struct Checked {
    /// The functions, in the order of their definitions.
    pub functions: Items<CheckedFunction>,
    /// The place of the main function among them, counted from 0.
    pub main: u32,
    /// The variables of the file that are no arrays, in their order.
    pub scalars: Items<GlobalScalar>,
    /// The arrays of the file, in their order.
    pub arrays: Items<GlobalArray>,
    /// The texts, each with its zero byte, in their order.
    pub literals: Items<Bytes>,
    /// The calls of the kernel that it names, each once, in the order of their first use.
    pub calls: Items<UsedCall>,
}
