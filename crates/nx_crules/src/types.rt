ghost use Rattle.std.specs.Prelude.{◌≡◌};
ghost use Rattle.nx_crules.specs.Types.{type_of};

use nx_checked::{Cell, CheckedExpr, CheckedPlace, Element, Scalar};
use sqlite_items::Items;

/// The type of an expression.
#[derive(Clone, Copy, Debug, PartialEq, Eq)]
pub enum CType {
    /// A number. A `char` is one in expressions.
    Int,
    /// A pointer to such elements, and whether they may only be read.
    Pointer(Element, bool),
    /// Nothing, as of a call of a function that returns nothing.
    Void,
    /// The name of a function `int f(int)`, as the first argument of the call that starts a thread.
    Entry,
}

/// What a variable that is no array is declared as.
#[derive(Clone, Copy, Debug)]
pub struct Held {
    /// What it holds.
    pub scalar: Scalar,
    /// Whether it is a pointer to what may only be read.
    pub constant: bool,
}

/// A function as its callers see it.
#[derive(Debug, Drop)]
pub struct Function {
    /// Its place among the functions, counted from 0.
    pub place: u32,
    /// Whether it returns a number. Else it returns nothing.
    pub returns: bool,
    /// Its parameters, in their order.
    pub params: Items<Held>,
}

/// A checked expression with its type.
#[derive(Debug, Drop)]
pub struct Typed {
    /// Its type.
    pub gives: CType,
    /// What it does.
    pub tree: CheckedExpr,
}

/// A place that an operator would write to.
#[derive(Debug, Drop)]
pub enum Target {
    Cell(Cell, Held),
    /// An element, and whether it may only be read.
    Element(Element, bool, CheckedPlace),
    /// An array, which can't be written to as a whole.
    Array,
}

impl Held {
    /// Its type in expressions.
    pub fn type_of(self) -> CType
        ensures { result ≡ type_of self }
    {
        match self.scalar {
            Scalar::Int | Scalar::Char => CType::Int,
            Scalar::Pointer(element) => CType::Pointer(element, self.constant),
        }
    }
}

pub(crate) fn int(tree: CheckedExpr) -> Typed
    ensures { result ≡ record { gives = CType.Int; tree = tree } }
{
    Typed {
        gives: CType::Int,
        tree,
    }
}
