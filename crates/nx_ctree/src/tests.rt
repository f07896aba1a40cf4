use super::*;
use nx_ctok::{CFault, tokens};
use nx_shared::Shared;
use std::alloc::Global;
use std::test::Fail;

/// Whether the one token of a text has this sign.
fn is_signed(alloc: Global, text: &str, sign: Sign) -> bool {
    if text.len() > 1048576 {
        return false;
    }
    match tokens(alloc, text.as_bytes()) {
        Ok(found) => match found.as_slice() {
            [first, _] => with_sign(first).sign == sign,
            _ => false,
        },
        Err(_) => false,
    }
}

#[test]
fn signs(rt: HostRuntime) {
    for (text, sign) in [
        ("a", Sign::Name),
        ("switch", Sign::Name),
        ("0x1F", Sign::Number),
        ("'a'", Sign::Char),
        ("\"a\"", Sign::Text),
        ("char", Sign::CharWord),
        ("sizeof", Sign::SizeOf),
        ("static", Sign::Static),
        ("<", Sign::Less),
        ("<=", Sign::AtMost),
        ("<<", Sign::ShiftLeft),
        ("%=", Sign::RemainderSet),
        ("--", Sign::Decrement),
        ("||", Sign::OrMark),
        ("&", Sign::BitAnd),
        ("~", Sign::Complement),
        ("}", Sign::CloseBrace),
    ] {
        assert!(rt; is_signed(rt.alloc(), text, sign), "{text}");
    }
}

#[test]
fn the_end_is_signed(rt: HostRuntime) -> Result<(), CFault> {
    let found = tokens(rt.alloc(), b"\n")?;
    let [end] = found.as_slice() else {
        return Ok(());
    };
    let signed = with_sign(end);
    assert_eq!(rt; signed.sign, Sign::End);
    assert_eq!(rt; signed.line, 2);
    assert!(rt; signed.text.bytes().is_empty());
    Ok(())
}

#[test]
fn a_shared_part_has_several_owners(rt: HostRuntime) -> Result<(), Fail> {
    let part = Expr {
        line: 7,
        kind: ExprKind::Number(3),
    };
    let shared = Shared::new(rt.alloc(), part)?;
    let other = shared.another()?;
    assert_eq!(rt; other.get().line, 7);
    assert!(rt; matches!(shared.get().kind, ExprKind::Number(3)));
    Ok(())
}
