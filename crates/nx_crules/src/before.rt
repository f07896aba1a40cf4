ghost use Rattle.std.specs.Prelude.{◌≡◌};
ghost use Rattle.nx_crules.specs.Answers.{at, IsGiven};
ghost use Rattle.nx_crules.specs.Rules.{
  paren_rule,
  prefix_typed,
  deref_typed,
  unary_rule,
  pointer_to,
  number_to,
  conversion as conversion_to,
  converted as converted_to,
  cast_rule,
};

use crate::taken::mismatch;
use crate::types::{CType, Typed, int};
use nx_checked::{CheckedExpr, CheckedPlace, Conversion, Element, IntPrefix};
use nx_ctok::CFault;
use nx_ctree::{Base, UnaryOperator};
use nx_shared::Shared;
use std::alloc::Global;

/// An operand in parentheses, which has a value.
pub fn paren(line: u32, x: Typed) -> Result<Typed, CFault>
    ensures { IsGiven result (at line (paren_rule x)) }
{
    match x.gives {
        CType::Void => Err(mismatch(line)),
        _ => Ok(x),
    }
}

fn prefixed(alloc: Global, line: u32, op: IntPrefix, x: Typed) -> Result<Typed, CFault>
    ensures { IsGiven result (at line (prefix_typed op x.gives x.tree)) }
{
    match x.gives {
        CType::Int => {
            let tree = Shared::new(alloc, x.tree)?;
            Ok(int(CheckedExpr::Unary(op, tree)))
        }
        _ => Err(mismatch(line)),
    }
}

fn dereferenced(alloc: Global, line: u32, x: Typed) -> Result<Typed, CFault>
    ensures { IsGiven result (at line (deref_typed x.gives x.tree)) }
{
    match x.gives {
        CType::Pointer(element, _) => {
            let tree = Shared::new(alloc, x.tree)?;
            let place = Shared::new(alloc, CheckedPlace::Deref(tree))?;
            Ok(int(CheckedExpr::Load(element, place)))
        }
        _ => Err(mismatch(line)),
    }
}

/// An operator before an operand.
pub fn unary(alloc: Global, line: u32, op: UnaryOperator, x: Typed) -> Result<Typed, CFault>
    ensures { IsGiven result (at line (unary_rule op x)) }
{
    match op {
        UnaryOperator::Minus => prefixed(alloc, line, IntPrefix::Minus, x),
        UnaryOperator::Not => prefixed(alloc, line, IntPrefix::Not, x),
        UnaryOperator::Complement => prefixed(alloc, line, IntPrefix::Complement, x),
        UnaryOperator::Deref => dereferenced(alloc, line, x),
    }
}

fn pointer_to(base: Base) -> CType
    ensures { result ≡ pointer_to base }
{
    match base {
        Base::Int => CType::Pointer(Element::Int, false),
        Base::Char => CType::Pointer(Element::Char, false),
        Base::ConstChar => CType::Pointer(Element::Char, true),
    }
}

fn number_to(base: Base) -> Option<(CType, Conversion)>
    ensures { result ≡ number_to base }
{
    match base {
        Base::Int => Some((CType::Int, Conversion::ToInt)),
        Base::Char => Some((CType::Int, Conversion::ToChar)),
        Base::ConstChar => None,
    }
}

fn conversion(base: Base, star: bool) -> Option<(CType, Conversion)>
    ensures { result ≡ conversion_to base star }
{
    if star {
        Some((pointer_to(base), Conversion::ToPointer))
    } else {
        number_to(base)
    }
}

fn converted(
    alloc: Global,
    line: u32,
    to: Option<(CType, Conversion)>,
    tree: CheckedExpr,
) -> Result<Typed, CFault>
    ensures { IsGiven result (at line (converted_to to tree)) }
{
    match to {
        Some((gives, conversion)) => {
            let tree = Shared::new(alloc, tree)?;
            let tree = CheckedExpr::Convert(conversion, tree);
            Ok(Typed { gives, tree })
        }
        None => Err(mismatch(line)),
    }
}

/// A cast to a base, with or without a star.
pub fn cast(alloc: Global, line: u32, base: Base, star: bool, x: Typed) -> Result<Typed, CFault>
    ensures { IsGiven result (at line (cast_rule base star x)) }
{
    match x.gives {
        CType::Int => converted(alloc, line, conversion(base, star), x.tree),
        _ => Err(mismatch(line)),
    }
}
