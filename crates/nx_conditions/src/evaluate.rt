ghost use Rattle.std.specs.Prelude.{◌≡◌};
ghost use Rattle.nx_conditions.specs.Value.{one_if, is_true, compares, name_value, value_of, holds};

use crate::{Comparison, Condition, Meaning, Meanings};

fn one_if(test: bool) -> i128
    ensures { result ≡ one_if test }
{
    if test { 1 } else { 0 }
}

fn is_true(value: i128) -> bool
    ensures { result ≡ is_true value }
{
    value != 0
}

fn compares(by: Comparison, left: i128, right: i128) -> bool
    ensures { result ≡ compares by left right }
{
    match by {
        Comparison::Equal => left == right,
        Comparison::NotEqual => left != right,
        Comparison::Less => left < right,
        Comparison::AtMost => left <= right,
        Comparison::Greater => left > right,
        Comparison::AtLeast => left >= right,
    }
}

fn name_value(meaning: Option<Meaning>) -> i128
    ensures { result ≡ name_value meaning }
{
    match meaning {
        Some(Meaning::Yes) => 1,
        Some(Meaning::Number(n)) => n,
        _ => 0,
    }
}

/// The value of a condition: each operator gives 1 or 0.
#[cycle(value)]
pub fn value<M: Meanings>(condition: &Condition, meanings: &M) -> i128
    ensures { result ≡ value_of (M.meaning meanings.now) condition.now }
{
    match condition {
        Condition::Always => 1,
        Condition::Or(left, right) => {
            let left = value(left.get(), meanings);
            let right = value(right.get(), meanings);
            one_if(is_true(left) || is_true(right))
        }
        Condition::And(left, right) => {
            let left = value(left.get(), meanings);
            let right = value(right.get(), meanings);
            one_if(is_true(left) && is_true(right))
        }
        Condition::Compare(by, left, right) => {
            let left = value(left.get(), meanings);
            let right = value(right.get(), meanings);
            one_if(compares(*by, left, right))
        }
        Condition::Not(part) => one_if(!is_true(value(part.get(), meanings))),
        Condition::Defined(name) => one_if(meanings.meaning(name.as_slice()).is_some()),
        Condition::Name(name) => name_value(meanings.meaning(name.as_slice())),
        Condition::Number(n) => i128::from(*n),
    }
}

/// Whether a condition holds: its value isn't 0.
pub fn holds<M: Meanings>(condition: &Condition, meanings: &M) -> bool
    ensures { result ≡ holds (M.meaning meanings.now) condition.now }
{
    is_true(value(condition, meanings))
}
