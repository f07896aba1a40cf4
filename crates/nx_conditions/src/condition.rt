use crate::Comparison;
use sqlite_items::{Boxed, Items};

/// The tree of a condition.
#[derive(Debug, Drop)]
pub enum Condition {
    /// The empty condition, which is true.
    Always,
    /// `||`.
    Or(Boxed<Condition>, Boxed<Condition>),
    /// `&&`.
    And(Boxed<Condition>, Boxed<Condition>),
    /// A comparison of two values.
    Compare(Comparison, Boxed<Condition>, Boxed<Condition>),
    /// `!`.
    Not(Boxed<Condition>),
    /// Whether a name has a value.
    Defined(Items<u8>),
    /// The value of a name.
    Name(Items<u8>),
    /// A number.
    Number(u64),
}
