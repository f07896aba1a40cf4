ghost use Rattle.std.specs.Prelude.{◌≡◌};
ghost use Rattle.nx_ctok.specs.declared.fault.CFault.TheVariants.{Text};
ghost use Rattle.nx_ctok.specs.declared.fault.CKind.TheVariants.{TypeMismatch};
ghost use Rattle.nx_crules.specs.Types.{is_same as is_same_element, takes as takes_type};
ghost use Rattle.nx_crules.specs.Rules.{are_one_type as are_one_type_of};

use crate::types::CType;
use nx_checked::Element;
use nx_ctok::{CFault, CKind};

/// The fault of an operator that doesn't take its operands.
pub(crate) fn mismatch(line: u32) -> CFault
    ensures { result ≡ Text line TypeMismatch }
{
    CFault::Text {
        line,
        kind: CKind::TypeMismatch,
    }
}

pub(crate) fn is_same(a: Element, b: Element) -> bool
    ensures { result ≡ is_same_element a b }
{
    match a {
        Element::Int => matches!(b, Element::Int),
        Element::Char => matches!(b, Element::Char),
    }
}

/// Whether a value of the second type may be given where the first is wanted.
pub fn takes(wanted: CType, given: CType) -> bool
    ensures { result ≡ takes_type wanted given }
{
    match wanted {
        CType::Int => matches!(given, CType::Int),
        CType::Pointer(a, reads) => match given {
            CType::Pointer(b, constant) => is_same(a, b) && (reads || !constant),
            _ => false,
        },
        _ => false,
    }
}

pub(crate) fn are_one_type(a: CType, b: CType) -> bool
    ensures { result ≡ are_one_type_of a b }
{
    match a {
        CType::Int => matches!(b, CType::Int),
        CType::Pointer(v, c) => match b {
            CType::Pointer(w, d) => is_same(v, w) && c == d,
            _ => false,
        },
        _ => false,
    }
}
