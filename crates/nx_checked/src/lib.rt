//! C programs that are well typed, with numbers in place of names. How many bytes of stack a call
//! takes stands in `specs/Frames.antt`.
#![tactic(auto)]

mod checked;

pub use checked::{
    ArrayName, Cell, Checked, CheckedExpr, CheckedFunction, CheckedPlace, CheckedStmt, Conversion,
    Element, GlobalArray, GlobalScalar, IntOperator, IntPrefix, Scalar, Shape, StepValue, UsedCall,
};
