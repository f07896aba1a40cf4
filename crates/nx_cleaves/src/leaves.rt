ghost use Rattle.std.specs.Prelude.{◌≡◌, ◌++◌, ◌∷◌, [], OnOk, option_map};
ghost use Rattle.nx_ctyping.specs.Checks.{IsGivenUsing};
ghost use Rattle.nx_cleaves.specs.NameAlone.{alone};
ghost use Rattle.nx_ctyping.specs.Verdicts.{base_bytes as bytes_of_base, text_check};

use nx_base::Bytes;
use nx_checked::{CheckedExpr, Element};
use nx_crules::{CType, Typed};
use nx_ctok::CFault;
use nx_ctree::{Base, Expr, ExprKind};
use nx_ctype::Used;
use std::alloc::{AllocError, Global};

/// The bytes of a type in `sizeof` (C11 section 6.5.3.4).
pub fn base_bytes(base: Base) -> u32
    ensures { result ≡ bytes_of_base base }
{
    match base {
        Base::Int => 4,
        Base::Char | Base::ConstChar => 1,
    }
}

/// A text, which is a place of its own and has a zero byte at its end (C11 section 6.4.5).
pub fn text(alloc: Global, used: &mut Used, text: &[u8]) -> Result<Typed, CFault>
    ensures { IsGivenUsing result used.new (text_check text.now used.old) }
{
    let Ok(place) = u32::try_from(used.texts.len()) else {
        return Err(CFault::Memory);
    };
    let mut bytes = Bytes::from_slice(alloc, text)?;
    bytes.push(0)?;
    used.texts.push(bytes)?;
    Ok(Typed {
        gives: CType::Pointer(Element::Char, true),
        tree: CheckedExpr::Literal(place),
    })
}

/// Puts an argument behind those before it.
pub fn push(done: &mut Vec<Typed>, argument: Typed) -> Result<(), AllocError>
    ensures { OnOk result (done.new.items ≡ done.old.items ++ argument ∷ []) }
{
    done.push(argument)?;
    Ok(())
}

/// The name that an expression is, if it is a name alone.
pub fn name_alone(e: &Expr) -> Option<&Bytes>
    ensures { option_map (λ n. (e.now.line, n.now)) result ≡ alone e.now }
{
    match &e.kind {
        ExprKind::Name(name) => Some(name),
        ExprKind::Number(_) => None,
        ExprKind::Char(_) => None,
        ExprKind::Text(_) => None,
        ExprKind::Paren(_) => None,
        ExprKind::Index(_, _) => None,
        ExprKind::Call(_, _) => None,
        ExprKind::After(_, _) => None,
        ExprKind::Before(_, _) => None,
        ExprKind::Unary(_, _) => None,
        ExprKind::AddressOf(_, _) => None,
        ExprKind::SizeOfName(_) => None,
        ExprKind::SizeOfType(_) => None,
        ExprKind::Cast(_, _, _) => None,
        ExprKind::Binary(_, _, _) => None,
        ExprKind::Conditional(_, _, _) => None,
        ExprKind::Assign(_, _, _) => None,
    }
}
