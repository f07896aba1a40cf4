ghost use Rattle.std.specs.Prelude.{◌≡◌, Ok, Some};
ghost use Rattle.nx_cbody.specs.Contexts.{is_local};
ghost use Rattle.nx_cbody.specs.Declarations.{
  held_of as held_by,
  element_of as element_by,
  constant_of as constant_by,
  is_length as is_length_of_array,
  is_long as is_long_name,
  first_of,
  unless,
};

use nx_base::Bytes;
use nx_checked::{Element, Scalar};
use nx_crules::Held;
use nx_ctok::{CFault, CKind};
use nx_ctree::{Base, ConstantKind};
use nx_ctype::Names;

/// What is wrong with a declaration, if anything is: a name twice, else a type, else a limit.
fn kind_of(taken: bool, mismatch: bool, beyond: bool) -> Option<CKind>
    ensures { result ≡ first_of taken mismatch beyond }
{
    if taken {
        return Some(CKind::NameTwice);
    }
    if mismatch {
        return Some(CKind::TypeMismatch);
    }
    if beyond {
        return Some(CKind::Limit);
    }
    None
}

/// The fault of a declaration, if it has one: a name twice, else a type, else a limit.
pub fn refuse(line: u32, taken: bool, mismatch: bool, beyond: bool) -> Result<(), CFault>
    ensures { result ≡ unless (first_of taken mismatch beyond) line (Ok tt) }
{
    match kind_of(taken, mismatch, beyond) {
        Some(kind) => Err(CFault::Text { line, kind }),
        None => Ok(()),
    }
}

/// Whether a parameter or local of a function so far has a name.
pub(crate) fn is_taken(names: &Names, name: &Bytes) -> bool
    ensures { result ≡ is_local names.now name.now }
{
    names.locals.get(name.as_slice()).is_some()
}

/// Whether a name has more than 64 bytes.
pub fn is_long(name: &Bytes) -> bool
    ensures { result ≡ is_long_name name.now }
{
    name.len() > 64
}

/// Whether a number is the length of an array: 1 or more as an int.
pub fn is_length(length: u32) -> bool
    ensures { result ≡ is_length_of_array length }
{
    length > 0 && length < 2_147_483_648
}

/// A constant as 32 bits.
pub fn constant_of(kind: &ConstantKind) -> u32
    ensures { result ≡ constant_by kind.now }
{
    match kind {
        ConstantKind::Number(n) => *n,
        ConstantKind::Minus(n) => n.wrapping_neg(),
        ConstantKind::Char(c) => u32::from(*c),
    }
}

fn held(scalar: Scalar, constant: bool) -> Option<Held>
    ensures { result ≡ Some (record { scalar = scalar; constant = constant }) }
{
    Some(Held { scalar, constant })
}

/// What a scalar of a base type holds, with a star or not.
pub fn held_of(base: Base, star: bool) -> Option<Held>
    ensures { result ≡ held_by base star }
{
    match base {
        Base::Int => {
            if star {
                held(Scalar::Pointer(Element::Int), false)
            } else {
                held(Scalar::Int, false)
            }
        }
        Base::Char => {
            if star {
                held(Scalar::Pointer(Element::Char), false)
            } else {
                held(Scalar::Char, false)
            }
        }
        Base::ConstChar => {
            if star {
                held(Scalar::Pointer(Element::Char), true)
            } else {
                None
            }
        }
    }
}

/// What an array of a base type holds, with a star or not.
pub(crate) fn element_of(base: Base, star: bool) -> Option<Element>
    ensures { result ≡ element_by base star }
{
    match base {
        Base::Int => { if star { None } else { Some(Element::Int) } }
        Base::Char => { if star { None } else { Some(Element::Char) } }
        Base::ConstChar => None,
    }
}
