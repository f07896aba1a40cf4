ghost use Rattle.std.specs.Prelude.{◌≡◌};
ghost use Rattle.nx_crules.specs.Answers.{at, IsGiven};
ghost use Rattle.nx_crules.specs.Rules.{
  compound_of as compound_by,
  moves as moves_pointer,
  compounds as compounds_with,
  cell_takes as cell_takes_type,
  cell_set as cell_set_of,
  cell_assign as cell_assign_of,
  element_set as element_set_of,
  element_assign as element_assign_of,
  assign_rule,
  is_up as is_up_of,
  step_rule,
};

use crate::taken::{mismatch, takes};
use crate::types::{CType, Held, Target, Typed, int};
use nx_checked::{Cell, CheckedExpr, CheckedPlace, Element, IntOperator, Scalar, StepValue};
use nx_ctok::CFault;
use nx_ctree::{AssignOperator, StepOperator};
use nx_shared::Shared;
use std::alloc::Global;

fn compound_of(op: AssignOperator) -> Option<IntOperator>
    ensures { result ≡ compound_by op }
{
    match op {
        AssignOperator::Set => None,
        AssignOperator::Add => Some(IntOperator::Add),
        AssignOperator::Subtract => Some(IntOperator::Subtract),
        AssignOperator::Multiply => Some(IntOperator::Multiply),
        AssignOperator::Divide => Some(IntOperator::Divide),
        AssignOperator::Remainder => Some(IntOperator::Remainder),
    }
}

fn moves(op: IntOperator) -> bool
    ensures { result ≡ moves_pointer op }
{
    match op {
        IntOperator::Add | IntOperator::Subtract => true,
        _ => false,
    }
}

fn compounds(op: IntOperator, scalar: Scalar, given: CType) -> bool
    ensures { result ≡ compounds_with op scalar given }
{
    match given {
        CType::Int => match scalar {
            Scalar::Int | Scalar::Char => true,
            Scalar::Pointer(_) => moves(op),
        },
        _ => false,
    }
}

fn cell_takes(op: Option<IntOperator>, held: Held, given: CType) -> bool
    ensures { result ≡ cell_takes_type op held given }
{
    match op {
        None => takes(held.type_of(), given),
        Some(op) => compounds(op, held.scalar, given),
    }
}

fn cell_set(
    op: Option<IntOperator>,
    scalar: Scalar,
    cell: Cell,
    tree: Shared<CheckedExpr>,
) -> CheckedExpr
    ensures { result ≡ cell_set_of op scalar cell tree }
{
    match op {
        None => CheckedExpr::Assign(scalar, cell, tree),
        Some(op) => CheckedExpr::Compound(op, scalar, cell, tree),
    }
}

fn cell_assign(
    alloc: Global,
    line: u32,
    op: Option<IntOperator>,
    cell: Cell,
    held: Held,
    e: Typed,
) -> Result<Typed, CFault>
    ensures { IsGiven result (at line (cell_assign_of op cell held e)) }
{
    if cell_takes(op, held, e.gives) {
        let tree = Shared::new(alloc, e.tree)?;
        Ok(Typed {
            gives: held.type_of(),
            tree: cell_set(op, held.scalar, cell, tree),
        })
    } else {
        Err(mismatch(line))
    }
}

fn element_set(
    op: Option<IntOperator>,
    element: Element,
    place: Shared<CheckedPlace>,
    tree: Shared<CheckedExpr>,
) -> CheckedExpr
    ensures { result ≡ element_set_of op element place tree }
{
    match op {
        None => CheckedExpr::AssignElement(element, place, tree),
        Some(op) => CheckedExpr::CompoundElement(op, element, place, tree),
    }
}

fn element_assign(
    alloc: Global,
    line: u32,
    op: Option<IntOperator>,
    element: Element,
    place: CheckedPlace,
    e: Typed,
) -> Result<Typed, CFault>
    ensures { IsGiven result (at line (element_assign_of op element place e.gives e.tree)) }
{
    match e.gives {
        CType::Int => {
            let place = Shared::new(alloc, place)?;
            let tree = Shared::new(alloc, e.tree)?;
            Ok(int(element_set(op, element, place, tree)))
        }
        _ => Err(mismatch(line)),
    }
}

/// `=` and the operators that end in it.
pub fn assign(
    alloc: Global,
    line: u32,
    op: AssignOperator,
    target: Target,
    e: Typed,
) -> Result<Typed, CFault>
    ensures { IsGiven result (at line (assign_rule op target e)) }
{
    match target {
        Target::Cell(cell, held) => cell_assign(alloc, line, compound_of(op), cell, held, e),
        Target::Element(element, false, place) => {
            element_assign(alloc, line, compound_of(op), element, place, e)
        }
        Target::Element(_, true, _) => Err(mismatch(line)),
        Target::Array => Err(mismatch(line)),
    }
}

fn is_up(op: StepOperator) -> bool
    ensures { result ≡ is_up_of op }
{
    match op {
        StepOperator::Increment => true,
        StepOperator::Decrement => false,
    }
}

/// `++` and `--`.
pub fn step(
    alloc: Global,
    line: u32,
    value: StepValue,
    op: StepOperator,
    target: Target,
) -> Result<Typed, CFault>
    ensures { IsGiven result (at line (step_rule value op target)) }
{
    match target {
        Target::Cell(cell, held) => Ok(Typed {
            gives: held.type_of(),
            tree: CheckedExpr::Step(value, is_up(op), held.scalar, cell),
        }),
        Target::Element(element, false, place) => {
            let place = Shared::new(alloc, place)?;
            Ok(Typed {
                gives: CType::Int,
                tree: CheckedExpr::StepElement(value, is_up(op), element, place),
            })
        }
        Target::Element(_, true, _) | Target::Array => Err(mismatch(line)),
    }
}
