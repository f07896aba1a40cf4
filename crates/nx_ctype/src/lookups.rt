ghost use Rattle.std.specs.Prelude.{◌≡◌, ◌%◌, ◌^◌};
ghost use Rattle.nx_checked.specs.Frames.{size_of as size_of_element, bytes_of};
ghost use Rattle.nx_ctype.specs.Lookups.{
  variable_of,
  missing as missing_name,
  found,
  value_of as value_of_variable,
  target_of as target_of_variable,
  bytes_in as bytes_in_variable,
  entry_rule,
  number as number_of,
};
ghost use Rattle.nx_crules.specs.Answers.{at};

use crate::names::{Names, Variable};
use nx_checked::{CheckedExpr, Element, Scalar, Shape};
use nx_crules::{CType, Target, Typed, entry_function};
use nx_ctok::{CFault, CKind};

impl Names {
    /// The variable that a name stands for.
    fn variable(&self, name: &[u8]) -> Option<Variable>
        ensures { result ≡ variable_of self.now name.now }
    {
        match self.locals.get(name) {
            Some(variable) => Some(variable),
            None => self.globals.get(name),
        }
    }

    /// What is wrong with a name of no variable.
    fn missing(&self, name: &[u8]) -> CKind
        ensures { result ≡ missing_name self.now name.now }
    {
        match self.functions.get(name) {
            Some(_) => CKind::TypeMismatch,
            None => CKind::UnknownName,
        }
    }
}

/// A number of 32 bits.
pub fn number(value: u32) -> Typed
    ensures { result ≡ number_of value }
{
    Typed {
        gives: CType::Int,
        tree: CheckedExpr::Constant(value),
    }
}

fn value_of(variable: Variable) -> Typed
    ensures { result ≡ value_of_variable variable }
{
    match variable {
        Variable::Scalar(cell, held) => Typed {
            gives: held.type_of(),
            tree: CheckedExpr::Read(cell),
        },
        Variable::Array(array, shape) => Typed {
            gives: CType::Pointer(shape.element, false),
            tree: CheckedExpr::Array(array),
        },
    }
}

fn target_of(variable: Variable) -> Target
    ensures { result ≡ target_of_variable variable }
{
    match variable {
        Variable::Scalar(cell, held) => Target::Cell(cell, held),
        Variable::Array(_, _) => Target::Array,
    }
}

fn element_bytes(element: Element) -> u32
    ensures { result ≡ size_of_element element }
{
    match element {
        Element::Int => 4,
        Element::Char => 1,
    }
}

fn array_bytes(shape: Shape) -> u32
    ensures { result ≡ bytes_of shape % 2 ^ 32 }
{
    shape.count.wrapping_mul(element_bytes(shape.element))
}

fn bytes_in(variable: Variable) -> u32
    ensures { result ≡ bytes_in_variable variable }
{
    match variable {
        Variable::Scalar(_, held) => match held.scalar {
            Scalar::Int | Scalar::Pointer(_) => 4,
            Scalar::Char => 1,
        },
        Variable::Array(_, shape) => array_bytes(shape),
    }
}

/// A name as a value.
pub fn name_value(names: &Names, line: u32, name: &[u8]) -> Result<Typed, CFault>
    ensures { result ≡ at line (found value_of_variable (missing_name names.now name.now) (variable_of names.now name.now)) }
{
    match names.variable(name) {
        Some(variable) => Ok(value_of(variable)),
        None => Err(CFault::Text {
            line,
            kind: names.missing(name),
        }),
    }
}

/// A name as the operand of `sizeof`.
pub fn name_size(names: &Names, line: u32, name: &[u8]) -> Result<Typed, CFault>
    ensures { result ≡ at line (found (λ v. number_of (bytes_in_variable v)) (missing_name names.now name.now) (variable_of names.now name.now)) }
{
    match names.variable(name) {
        Some(variable) => Ok(number(bytes_in(variable))),
        None => Err(CFault::Text {
            line,
            kind: names.missing(name),
        }),
    }
}

/// A name as a place.
pub fn name_place(names: &Names, line: u32, name: &[u8]) -> Result<Target, CFault>
    ensures { result ≡ at line (found target_of_variable (missing_name names.now name.now) (variable_of names.now name.now)) }
{
    match names.variable(name) {
        Some(variable) => Ok(target_of(variable)),
        None => Err(CFault::Text {
            line,
            kind: names.missing(name),
        }),
    }
}

/// A name as the first argument of the call that starts a thread.
pub fn name_entry(names: &Names, line: u32, name: &[u8]) -> Result<Typed, CFault>
    ensures { result ≡ at line (entry_rule names.now name.now) }
{
    if names.locals.get(name).is_some() {
        return Err(CFault::Text {
            line,
            kind: CKind::TypeMismatch,
        });
    }
    match names.functions.get(name) {
        Some(function) => entry_function(line, function),
        None => {
            let kind = if names.globals.get(name).is_some() {
                CKind::TypeMismatch
            } else {
                CKind::UnknownName
            };
            Err(CFault::Text { line, kind })
        }
    }
}
