ghost use Rattle.std.specs.Prelude.{◌≡◌, ◌+◌, ◌<◌, ◌≤◌, length, true, false, [], ◌∷◌};
ghost use Rattle.nx_base.specs.declared.access.Access.TheVariants as access;
ghost use Rattle.nx_base.specs.Good.{is_good};
ghost use Rattle.nx_base.specs.Calls.{Rows};
ghost use Rattle.nx_base.specs.Copying as copying;
ghost use Rattle.nx_base.specs.Copying.{words_from, with_outputs, with_stored};
ghost use Rattle.nx_base.specs.Registers.{reg, with_reg};
ghost use Rattle.nx_base.specs.Replies.{FitsCall};
ghost use Rattle.nx_space.specs.World.{IsEntered, has_view, view_in, view_of};
ghost use Rattle.nx_space.specs.Lawful.{OnlyEntered};
ghost use Rattle.nx_ksys.specs.Gathered.{reply_of};
ghost use Rattle.nx_copy.specs.Copies.{StandsAt, AreGoodOutputs};
ghost use Rattle.nx_copy.specs.Taking.{the_output};

use crate::buffer::put_buffer;
use nx_base::{Kind, Regs};
use nx_gate::Gate;
use nx_ksys::Reply;
use nx_space::Space;

fn is_output(kind: Kind) -> bool
    ensures { result ≡ copying.is_output kind }
{
    matches!(kind, Kind::Out | Kind::Out4 | Kind::Out8)
}

fn output<'a>(put: usize, first: &'a [u8], second: &'a [u8]) -> &'a [u8]
    ensures { result.now ≡ the_output put first.now second.now }
{
    match put {
        0 => first,
        1 => second,
        _ => b"",
    }
}

/// Puts the next output where one parameter leads to, if it is for an output, and answers how many
/// are put by then.
fn put_one<S: Space>(
    space: &mut S,
    kind: Kind,
    at: u32,
    put: usize,
    first: &[u8],
    second: &[u8],
) -> usize
    requires entered { IsEntered (S.world space.old) }
    requires good { copying.is_output kind ≡ true → is_good (view_in (S.world space.old)) at (length (the_output put first.now second.now)) access.Store ≡ true }
    requires few { put < 6 }
    ensures view { copying.is_output kind ≡ true → view_in (S.world space.new) ≡ with_stored (view_in (S.world space.old)) at (the_output put first.now second.now) }
    ensures put { copying.is_output kind ≡ true → result ≡ put + 1 }
    ensures same { copying.is_output kind ≡ false → S.world space.new ≡ S.world space.old }
    ensures kept { copying.is_output kind ≡ false → result ≡ put }
    ensures only { OnlyEntered (S.world space.old) (S.world space.new) }
{
    if is_output(kind) {
        put_buffer(space, at, output(put, first, second));
        put + 1
    } else {
        put
    }
}

/// Puts outputs where the parameters lead to.
fn put_outputs<S: Space>(space: &mut S, kinds: &[Kind], regs: &Regs, first: &[u8], second: &[u8])
    requires entered { IsEntered (S.world space.old) }
    requires few { length kinds.now ≤ 6 }
    requires fits { FitsCall kinds.now (words_from regs.now 11 kinds.now) (first.now ∷ second.now ∷ []) }
    requires good { AreGoodOutputs (view_in (S.world space.old)) kinds.now (words_from regs.now 11 kinds.now) }
    ensures view { view_in (S.world space.new) ≡ with_outputs (view_in (S.world space.old)) kinds.now (words_from regs.now 11 kinds.now) (first.now ∷ second.now ∷ []) }
    ensures only { OnlyEntered (S.world space.old) (S.world space.new) }
{
    let mut put = 0;
    for i in 0..kinds.len() {
        put = put_one(space, kinds[i], regs.get(11 + i as u8), put, first, second);
    }
}

/// Enters the view of the group of a thread that waits in a call with these registers, puts the
/// outputs of its reply there, in the order of the parameters, and sets a0 to the reply's value.
pub fn deliver<S: Space>(space: &mut S, group: u32, gate: &Gate, regs: &mut Regs, reply: &Reply)
    requires group { has_view (S.world space.old).groups group ≡ true }
    requires fits { FitsCall gate.now.kinds.items (words_from regs.old 11 gate.now.kinds.items) (reply.now.first ∷ reply.now.second ∷ []) }
    requires good { AreGoodOutputs (view_of (S.world space.old) group) gate.now.kinds.items (words_from regs.old 11 gate.now.kinds.items) }
    ensures view { (rows : Rows) → StandsAt gate.now rows (reg regs.old 10) → view_of (S.world space.new) group ≡ copying.deliver rows (view_of (S.world space.old) group) regs.old (reply.now.first ∷ reply.now.second ∷ []) }
    ensures only { OnlyEntered (record (S.world space.old) { entered = group }) (S.world space.new) }
    ensures regs { regs.new ≡ with_reg regs.old 10 (reply_of reply.now).value }
{
    space.enter(group);
    put_outputs(
        space,
        gate.kinds.as_slice(),
        regs,
        reply.first.as_slice(),
        reply.second.as_slice(),
    );
    regs.set(10, reply.value.cast_unsigned());
}
