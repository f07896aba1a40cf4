ghost use Rattle.std.specs.Prelude.{◌≡◌};
ghost use Rattle.nx_crules.specs.Answers.{at, IsGiven};
ghost use Rattle.nx_crules.specs.Rules.{pointed as pointed_of, index_rule, address_rule, index_place, deref_place};

use crate::taken::mismatch;
use crate::types::{CType, Target, Typed, int};
use nx_checked::{CheckedExpr, CheckedPlace, Element};
use nx_ctok::CFault;
use nx_shared::Shared;
use std::alloc::Global;

/// What a pointer before an index points to, and whether it may only be read.
fn pointed(first: CType, second: CType) -> Option<(Element, bool)>
    ensures { result ≡ pointed_of first second }
{
    match first {
        CType::Pointer(element, constant) => match second {
            CType::Int => Some((element, constant)),
            _ => None,
        },
        _ => None,
    }
}

fn loaded_at(
    alloc: Global,
    element: Element,
    a: CheckedExpr,
    i: CheckedExpr,
) -> Result<Typed, CFault>
    ensures { IsGiven result (Ok (record { gives = CType.Int; tree = CheckedExpr.Load element (CheckedPlace.Index a i) })) }
{
    let a = Shared::new(alloc, a)?;
    let i = Shared::new(alloc, i)?;
    let place = Shared::new(alloc, CheckedPlace::Index(a, i))?;
    Ok(int(CheckedExpr::Load(element, place)))
}

/// `a[i]` as a value.
pub fn index(alloc: Global, line: u32, x: Typed, i: Typed) -> Result<Typed, CFault>
    ensures { IsGiven result (at line (index_rule x i)) }
{
    let Typed {
        gives: first,
        tree: a,
    } = x;
    let Typed {
        gives: second,
        tree: i,
    } = i;
    match pointed(first, second) {
        Some((element, _)) => loaded_at(alloc, element, a, i),
        None => Err(mismatch(line)),
    }
}

fn address_at(
    alloc: Global,
    element: Element,
    constant: bool,
    a: CheckedExpr,
    i: CheckedExpr,
) -> Result<Typed, CFault>
    ensures { IsGiven result (Ok (record { gives = CType.Pointer element constant; tree = CheckedExpr.AddressOf element a i })) }
{
    let a = Shared::new(alloc, a)?;
    let i = Shared::new(alloc, i)?;
    let gives = CType::Pointer(element, constant);
    let tree = CheckedExpr::AddressOf(element, a, i);
    Ok(Typed { gives, tree })
}

/// `&a[i]`
pub fn address(alloc: Global, line: u32, x: Typed, i: Typed) -> Result<Typed, CFault>
    ensures { IsGiven result (at line (address_rule x i)) }
{
    let Typed {
        gives: first,
        tree: a,
    } = x;
    let Typed {
        gives: second,
        tree: i,
    } = i;
    match pointed(first, second) {
        Some((element, constant)) => address_at(alloc, element, constant, a, i),
        None => Err(mismatch(line)),
    }
}

fn target_at(
    alloc: Global,
    element: Element,
    constant: bool,
    a: CheckedExpr,
    i: CheckedExpr,
) -> Result<Target, CFault>
    ensures { IsGiven result (Ok (Target.Element element constant (CheckedPlace.Index a i))) }
{
    let a = Shared::new(alloc, a)?;
    let i = Shared::new(alloc, i)?;
    Ok(Target::Element(element, constant, CheckedPlace::Index(a, i)))
}

/// The place `a[i]`.
pub fn place_at(alloc: Global, line: u32, x: Typed, i: Typed) -> Result<Target, CFault>
    ensures { IsGiven result (at line (index_place x i)) }
{
    let Typed {
        gives: first,
        tree: a,
    } = x;
    let Typed {
        gives: second,
        tree: i,
    } = i;
    match pointed(first, second) {
        Some((element, constant)) => target_at(alloc, element, constant, a, i),
        None => Err(mismatch(line)),
    }
}

/// The place `*p`.
pub fn place_of(alloc: Global, line: u32, x: Typed) -> Result<Target, CFault>
    ensures { IsGiven result (at line (deref_place x)) }
{
    match x.gives {
        CType::Pointer(element, constant) => {
            let a = Shared::new(alloc, x.tree)?;
            Ok(Target::Element(element, constant, CheckedPlace::Deref(a)))
        }
        _ => Err(mismatch(line)),
    }
}
