use nx_checked::{CheckedExpr, Scalar, Shape};
use sqlite_items::Items;

/// The parameters and locals of a function so far, in their order.
#[derive(Debug, Drop)]
pub struct Locals {
    /// What its parameters hold.
    pub params: Items<Scalar>,
    /// What its locals that are no arrays hold.
    pub scalars: Items<Scalar>,
    /// Its arrays.
    pub arrays: Items<Shape>,
    /// The values that its declarations give, as assignments.
    pub initials: Items<CheckedExpr>,
}
