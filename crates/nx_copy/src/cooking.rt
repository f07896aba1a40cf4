ghost use Rattle.std.specs.Prelude.{◌≡◌, ◌+◌, ◌<◌, ◌≤◌, drop, length, true, false, Some, None, Err, [], ◌∷◌, IfErr, OnOk};
ghost use Rattle.nx_base.specs.declared.calls.Kind.TheVariants as kinds;
ghost use Rattle.nx_base.specs.Calls.{Rows};
ghost use Rattle.nx_base.specs.Copying as copying;
ghost use Rattle.nx_base.specs.Copying.{input_of, inputs_of, words_from};
ghost use Rattle.nx_base.specs.Registers.{reg};
ghost use Rattle.nx_base.specs.Replies.{next_word};
ghost use Rattle.nx_space.specs.World.{IsEntered, view_in};
ghost use Rattle.nx_gate.specs.Gates.{IsGate};
ghost use Rattle.nx_ksys.specs.Telling.{both};
ghost use Rattle.nx_copy.specs.Copies.{IsTaken, StandsAt, six_words};
ghost use Rattle.nx_copy.specs.Taking.{is_input as reads, inputs, one_input, the_next, the_other, AreAll};

use crate::Efault;
use crate::buffer::{take_buffer, take_text};
use nx_base::{Access, Kind, Regs};
use nx_gate::Gate;
use nx_ksys::{Cooked, MOST_MOVED, MovedBytes};
use nx_space::Space;

/// The register of a call's first parameter, a1.
const FIRST_WORD: u8 = 11;

fn is_input(kind: Kind) -> bool
    ensures { result ≡ reads kind }
{
    matches!(kind, Kind::In | Kind::Text)
}

fn word_or_zero(regs: &Regs, place: u8, parameters: usize) -> u32
    requires place { place < 6 }
    ensures there { place < parameters → result ≡ reg regs.now (11 + place) }
    ensures past { parameters ≤ place → result ≡ 0 }
{
    if (place as usize) < parameters {
        regs.get(FIRST_WORD + place)
    } else {
        0
    }
}

/// The words of a call's parameters, and 0 past them.
fn words(regs: &Regs, kinds: &[Kind]) -> [u32; 6]
    requires { length kinds.now ≤ 6 }
    ensures { result ≡ six_words (words_from regs.now 11 kinds.now) }
{
    let parameters = kinds.len();
    [
        word_or_zero(regs, 0, parameters),
        word_or_zero(regs, 1, parameters),
        word_or_zero(regs, 2, parameters),
        word_or_zero(regs, 3, parameters),
        word_or_zero(regs, 4, parameters),
        word_or_zero(regs, 5, parameters),
    ]
}

/// The word after that of a parameter, 0 after the last.
fn word_after(regs: &Regs, kinds: &[Kind], place: usize) -> u32
    requires few { length kinds.now ≤ 6 }
    requires place { place < length kinds.now }
    ensures { result ≡ next_word (words_from regs.now (11 + (place + 1)) (drop (place + 1) kinds.now)) }
{
    if place + 1 < kinds.len() {
        regs.get(FIRST_WORD + 1 + place as u8)
    } else {
        0
    }
}

/// Takes what one parameter leads to, and answers whether it is good. `next` is the next word.
#[tactic(auto, unfolding(nx_base::specs::Copying::input_of))]
fn take_input<S: Space>(
    space: &mut S,
    kind: Kind,
    at: u32,
    next: u32,
    into: &mut MovedBytes,
) -> bool
    requires entered { IsEntered (S.world space.old) }
    ensures same { S.world space.new ≡ S.world space.old }
    ensures good { result ≡ true → input_of (view_in (S.world space.old)) kind at next ≡ Some (one_input kind into.new) }
    ensures bad { result ≡ false → input_of (view_in (S.world space.old)) kind at next ≡ None }
    ensures kept { reads kind ≡ false → into.new ≡ into.old }
{
    match kind {
        Kind::Word | Kind::Len => true,
        Kind::In => take_in(space, at, next, into),
        Kind::Text => take_text(space, at, into),
        Kind::Out => space.good(at, next, Access::Store),
        Kind::Out4 => space.good(at, 4, Access::Store),
        Kind::Out8 => space.good(at, 8, Access::Store),
    }
}

/// Takes the first bytes of a buffer, if all of it is good.
#[tactic(auto, unfolding(nx_base::specs::Copying::input_of))]
fn take_in<S: Space>(space: &mut S, at: u32, len: u32, into: &mut MovedBytes) -> bool
    requires entered { IsEntered (S.world space.old) }
    ensures same { S.world space.new ≡ S.world space.old }
    ensures good { result ≡ true → input_of (view_in (S.world space.old)) kinds.In at len ≡ Some (into.new ∷ []) }
    ensures bad { result ≡ false → input_of (view_in (S.world space.old)) kinds.In at len ≡ None }
{
    if !space.good(at, len, Access::Load) {
        return false;
    }
    take_buffer(space, at, len.min(MOST_MOVED as u32), into);
    true
}

/// The same for a call of which `taken` inputs were taken before.
fn take_into<S: Space>(
    space: &mut S,
    kind: Kind,
    at: u32,
    next: u32,
    taken: usize,
    into: &mut Cooked,
) -> bool
    requires entered { IsEntered (S.world space.old) }
    ensures same { S.world space.new ≡ S.world space.old }
    ensures call { into.new.call ≡ into.old.call }
    ensures words { into.new.words ≡ into.old.words }
    ensures good { result ≡ true → input_of (view_in (S.world space.old)) kind at next ≡ Some (one_input kind (the_next taken into.new.first into.new.second)) }
    ensures bad { result ≡ false → input_of (view_in (S.world space.old)) kind at next ≡ None }
    ensures other { the_other taken into.new.first into.new.second ≡ the_other taken into.old.first into.old.second }
    ensures kept { reads kind ≡ false → the_next taken into.new.first into.new.second ≡ the_next taken into.old.first into.old.second }
{
    if taken == 0 {
        take_input(space, kind, at, next, &mut into.first)
    } else {
        take_input(space, kind, at, next, &mut into.second)
    }
}

fn with_one(taken: usize, kind: Kind) -> usize
    requires { taken + inputs (kind ∷ []) ≤ 2 }
    ensures { result ≡ taken + inputs (kind ∷ []) }
{
    if is_input(kind) { taken + 1 } else { taken }
}

/// Takes what the parameters lead to, up to the first bad pointer.
fn take_inputs<S: Space>(
    space: &mut S,
    kinds: &[Kind],
    regs: &Regs,
    into: &mut Cooked,
) -> Result<(), Efault>
    requires entered { IsEntered (S.world space.old) }
    requires few { length kinds.now ≤ 6 }
    requires inputs { inputs kinds.now ≤ 2 }
    requires none { into.old.first ∷ into.old.second ∷ [] ≡ both [] }
    ensures same { S.world space.new ≡ S.world space.old }
    ensures call { into.new.call ≡ into.old.call }
    ensures words { into.new.words ≡ into.old.words }
    ensures good { OnOk result (AreAll (inputs_of (view_in (S.world space.old)) 0 kinds.now (words_from regs.now 11 kinds.now)) (into.new.first ∷ into.new.second ∷ [])) }
    ensures bad { IfErr result (λ e. inputs_of (view_in (S.world space.old)) 0 kinds.now (words_from regs.now 11 kinds.now) ≡ Err e.param) }
{
    let mut taken = 0;
    for i in 0..kinds.len() {
        let kind = kinds[i];
        let at = regs.get(FIRST_WORD + i as u8);
        let next = word_after(regs, kinds, i);
        if !take_into(space, kind, at, next, taken, into) {
            return Err(Efault { param: i as u8 });
        }
        taken = with_one(taken, kind);
    }
    Ok(())
}

/// Takes a call from the registers of a thread that makes it and from the entered view: which call
/// it is by its gate, its words in a1 to a6, and the bytes of its inputs. At most 4,096 bytes of a
/// buffer are taken, and all of it is tested. No call is told where a pointer is bad, and what
/// `into` then holds is of no use.
pub fn cook<S: Space>(
    space: &mut S,
    gate: &Gate,
    regs: &Regs,
    into: &mut Cooked,
) -> Result<(), Efault>
    requires entered { IsEntered (S.world space.old) }
    requires gate { IsGate gate.now }
    ensures same { S.world space.new ≡ S.world space.old }
    ensures taken { (rows : Rows) → StandsAt gate.now rows (reg regs.now 10) → OnOk result (IsTaken rows (view_in (S.world space.old)) regs.now gate.now into.new) }
    ensures bad { (rows : Rows) → StandsAt gate.now rows (reg regs.now 10) → IfErr result (λ e. copying.cook rows (view_in (S.world space.old)) regs.now ≡ Err e.param) }
{
    let kinds = gate.kinds.as_slice();
    into.call = gate.kernel;
    into.words = words(regs, kinds);
    into.first.clear();
    into.second.clear();
    take_inputs(space, kinds, regs, into)
}
