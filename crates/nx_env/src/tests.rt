ghost use Rattle.std.specs.Prelude.{◌≡◌, ◌<◌, ◌≤◌, length};

use super::*;
use nx_base::Errno;
use std::test::Fail;

// A step in the first of two groups, and whether it answers as it should.
fn sets(
    environments: &mut Environments,
    name: &[u8],
    value: &[u8],
    replace: u32,
    wanted: Result<(), Errno>,
) -> bool
    requires { 2 ≤ length environments.old }
    ensures { length environments.new ≡ length environments.old }
{
    if value.len() > 260 {
        return false;
    }
    environments.set(0, name, value, replace) == wanted
}

fn has(environments: &Environments, place: u32, name: &[u8], value: &[u8]) -> bool
    requires { place < length environments.now }
{
    match environments.get(place, name) {
        None => false,
        Some(found) => found == value,
    }
}

fn lists(environments: &Environments, index: u32, wanted: &[u8]) -> bool
    requires { 2 ≤ length environments.now }
{
    match environments.list(0, index) {
        Ok(Some(text)) => text.as_slice() == wanted,
        Ok(None) => wanted.is_empty(),
        Err(_) => false,
    }
}

#[test]
fn variables_are_set_and_listed_by_name(rt: HostRuntime) -> Result<(), Fail> {
    let mut environments = Environments::new(rt.alloc(), 2)?;
    assert!(rt; sets(&mut environments, b"B", b"2", 0, Ok(())));
    assert!(rt; sets(&mut environments, b"A", b"1", 0, Ok(())));
    assert!(rt; sets(&mut environments, b"B", b"3", 0, Ok(())));
    assert!(rt; has(&environments, 0, b"B", b"2"));
    assert!(rt; sets(&mut environments, b"B", b"3", 1, Ok(())));
    assert!(rt; has(&environments, 0, b"B", b"3"));
    assert!(rt; !has(&environments, 1, b"B", b"3"));
    assert!(rt; sets(&mut environments, b"", b"3", 1, Err(Errno::Einval)));
    assert!(rt; sets(&mut environments, b"C=", b"3", 1, Err(Errno::Einval)));
    assert!(rt; lists(&environments, 0, b"A=1") && lists(&environments, 1, b"B=3"));
    assert!(rt; lists(&environments, 2, b"") && !lists(&environments, 2147483648, b""));
    environments.share(0, 1);
    assert!(rt; matches!(environments.unset(0, b"A"), Ok(())));
    assert!(rt; matches!(environments.unset(0, b"A"), Ok(())));
    assert!(rt; matches!(environments.unset(0, b""), Err(Errno::Einval)));
    assert!(rt; has(&environments, 1, b"A", b"1") && !has(&environments, 0, b"A", b"1"));
    Ok(())
}
