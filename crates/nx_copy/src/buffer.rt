ghost use Rattle.std.specs.Prelude.{◌≡◌, ℕ, ◌+◌, ◌≤◌, true, false, length, Some, None, if◌then◌else◌};
ghost use Rattle.nx_base.specs.declared.access.Access.TheVariants as access;
ghost use Rattle.nx_base.specs.Good.{is_good, shown_bytes, good_text};
ghost use Rattle.nx_base.specs.Copying.{with_stored};
ghost use Rattle.nx_space.specs.World.{IsEntered, view_in};
ghost use Rattle.nx_space.specs.Lawful.{OnlyEntered};

use nx_base::Access;
use nx_ksys::MovedBytes;
use nx_space::Space;

/// How many bytes of a text are looked at for its zero byte.
pub(crate) const TEXT_SCAN: u32 = 256;

/// Takes the bytes of a good buffer.
pub(crate) fn take_buffer<S: Space>(space: &mut S, at: u32, len: u32, into: &mut MovedBytes)
    requires entered { IsEntered (S.world space.old) }
    requires good { is_good (view_in (S.world space.old)) at len access.Load ≡ true }
    requires few { len ≤ 4096 }
    ensures same { S.world space.new ≡ S.world space.old }
    ensures bytes { into.new ≡ shown_bytes (view_in (S.world space.old)) at len }
{
    into.clear();
    for i in 0..len {
        into.push(space.peek(at + i));
    }
}

/// Takes the bytes of a text, if its zero byte is among the first 256 and all up to it are good.
pub(crate) fn take_text<S: Space>(space: &mut S, at: u32, into: &mut MovedBytes) -> bool
    requires entered { IsEntered (S.world space.old) }
    ensures same { S.world space.new ≡ S.world space.old }
    ensures good { result ≡ true → good_text (view_in (S.world space.old)) at 256 ≡ Some into.new }
    ensures bad { result ≡ false → good_text (view_in (S.world space.old)) at 256 ≡ None }
{
    into.clear();
    for i in 0..TEXT_SCAN {
        let Some(place) = at.checked_add(i) else {
            return false;
        };
        if !space.good(place, 1, Access::Load) {
            return false;
        }
        let byte = space.peek(place);
        if byte == 0 {
            return true;
        }
        into.push(byte);
    }
    false
}

/// Puts bytes where they are good for storing.
pub(crate) fn put_buffer<S: Space>(space: &mut S, at: u32, bytes: &[u8])
    requires entered { IsEntered (S.world space.old) }
    requires good { is_good (view_in (S.world space.old)) at (length bytes.now) access.Store ≡ true }
    ensures view { view_in (S.world space.new) ≡ with_stored (view_in (S.world space.old)) at bytes.now }
    ensures only { OnlyEntered (S.world space.old) (S.world space.new) }
{
    for i in 0..bytes.len() {
        space.poke(at + i as u32, bytes[i]);
    }
}
