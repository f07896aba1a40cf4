ghost use Rattle.std.specs.Prelude.{◌≡◌, ◌+◌, max};
ghost use Rattle.nx_checked.specs.Frames.{values_of, option_values as values_of_option, all_initials};
ghost use Rattle.nx_cframes.specs.Counts.{capped, values_at, argument_values};

use crate::counts::{count, greater, later, more};
use nx_checked::{CheckedExpr, CheckedPlace};
use nx_shared::Shared;

/// The second expression while the value of the first waits.
#[cycle(values)]
fn pair(a: &CheckedExpr, b: &CheckedExpr) -> u64
    ensures { result ≡ capped (max (values_of a.now) (1 + values_of b.now)) }
{
    let first = values(a);
    let second = values(b);
    later(first, 1, second)
}

/// One of two expressions at a time.
#[cycle(values)]
fn either(a: &CheckedExpr, b: &CheckedExpr) -> u64
    ensures { result ≡ capped (max (values_of a.now) (values_of b.now)) }
{
    let first = values(a);
    let second = values(b);
    greater(first, second)
}

#[cycle(values)]
fn choice(c: &CheckedExpr, a: &CheckedExpr, b: &CheckedExpr) -> u64
    ensures { result ≡ capped (max (values_of c.now) (max (values_of a.now) (values_of b.now))) }
{
    let test = values(c);
    let parts = either(a, b);
    greater(test, parts)
}

/// An expression while another value waits.
#[cycle(values)]
fn after_one(a: &CheckedExpr) -> u64
    ensures { result ≡ capped (1 + values_of a.now) }
{
    let value = values(a);
    more(1, value)
}

/// An element, and an expression while the element's parts wait, and perhaps what it has.
#[cycle(values)]
fn stored(p: &CheckedPlace, n: u64, a: &CheckedExpr) -> u64
    ensures { result ≡ capped (max (values_at p.now) (n + values_of a.now)) }
{
    let place = place(p);
    let value = values(a);
    later(place, n, value)
}

/// An element that goes up or down by 1.
#[cycle(values)]
fn stepped(p: &CheckedPlace) -> u64
    ensures { result ≡ capped (max (values_at p.now) 3) }
{
    let place = place(p);
    greater(place, count(3))
}

/// Arguments, where the earlier ones wait for the later ones.
#[cycle(values)]
fn arguments(xs: &[CheckedExpr]) -> u64
    ensures { result ≡ capped (argument_values xs.now) }
{
    let mut left = xs.len();
    let mut values_left = count(0);
    while left > 0 {
        left -= 1;
        let first = values(&xs[left]);
        values_left = later(first, 1, values_left);
    }
    values_left
}

/// A call, whose value is one.
#[cycle(values)]
fn called(xs: &[CheckedExpr]) -> u64
    ensures { result ≡ capped (max 1 (argument_values xs.now)) }
{
    let values = arguments(xs);
    greater(count(1), values)
}

#[cycle(values)]
fn place(p: &CheckedPlace) -> u64
    ensures { result ≡ capped (values_at p.now) }
{
    match p {
        CheckedPlace::Index(a, i) => pair(a.get(), i.get()),
        CheckedPlace::Deref(a) => values(a.get()),
    }
}

/// How many values an expression keeps at most at one time, its own among them.
#[cycle(values)]
pub(crate) fn values(e: &CheckedExpr) -> u64
    ensures { result ≡ capped (values_of e.now) }
{
    match e {
        CheckedExpr::Constant(_) => count(1),
        CheckedExpr::Literal(_) => count(1),
        CheckedExpr::Function(_) => count(1),
        CheckedExpr::Read(_) => count(1),
        CheckedExpr::Array(_) => count(1),
        CheckedExpr::Load(_, p) => place(p.get()),
        CheckedExpr::AddressOf(_, a, i) => pair(a.get(), i.get()),
        CheckedExpr::Unary(_, a) => values(a.get()),
        CheckedExpr::Binary(_, a, b) => pair(a.get(), b.get()),
        CheckedExpr::And(a, b) => either(a.get(), b.get()),
        CheckedExpr::Or(a, b) => either(a.get(), b.get()),
        CheckedExpr::Conditional(c, a, b) => choice(c.get(), a.get(), b.get()),
        CheckedExpr::Convert(_, a) => values(a.get()),
        CheckedExpr::Advance(_, a, i) => pair(a.get(), i.get()),
        CheckedExpr::AdvanceBy(_, i, a) => pair(i.get(), a.get()),
        CheckedExpr::Retreat(_, a, i) => pair(a.get(), i.get()),
        CheckedExpr::Assign(_, _, a) => values(a.get()),
        CheckedExpr::AssignElement(_, p, a) => stored(p.get(), 1, a.get()),
        CheckedExpr::Compound(_, _, _, a) => after_one(a.get()),
        CheckedExpr::CompoundElement(_, _, p, a) => stored(p.get(), 2, a.get()),
        CheckedExpr::Step(_, _, _, _) => count(2),
        CheckedExpr::StepElement(_, _, _, p) => stepped(p.get()),
        CheckedExpr::Kernel(_, xs) => called(xs.as_slice()),
        CheckedExpr::Call(_, xs) => called(xs.as_slice()),
    }
}

/// The values of an expression that may be absent.
pub(crate) fn option_values(e: &Option<Shared<CheckedExpr>>) -> u64
    ensures { result ≡ capped (values_of_option e.now) }
{
    match e {
        None => count(0),
        Some(e) => values(e.get()),
    }
}

/// The greatest number of values of one of these.
pub(crate) fn initial_values(es: &[CheckedExpr]) -> u64
    ensures { result ≡ capped (all_initials es.now) }
{
    let mut left = es.len();
    let mut most = count(0);
    while left > 0 {
        left -= 1;
        let first = values(&es[left]);
        most = greater(first, most);
    }
    most
}
