ghost use Rattle.std.specs.Prelude.{◌≡◌};
ghost use Rattle.nx_shrun.specs.Tests.{unary as unary_of, compared as compared_of, both_numbers, binary as binary_of, plain_test, negated as negation_of, after_not as what_stands_after_not, or_after_not, test_of};

use crate::number::number;
use crate::step::{Test, Wanted};
use nx_ksys::MovedBytes;

fn unary(op: &[u8], s: &[u8]) -> Test
    ensures { result ≡ unary_of op.now s.now }
{
    if op == b"-n".as_slice() {
        return Test::Known(!s.is_empty());
    }
    if op == b"-z".as_slice() {
        return Test::Known(s.is_empty());
    }
    if op == b"-e".as_slice() {
        return Test::Path(Wanted::Anything, false);
    }
    if op == b"-f".as_slice() {
        return Test::Path(Wanted::File, false);
    }
    if op == b"-d".as_slice() {
        return Test::Path(Wanted::Directory, false);
    }
    Test::Malformed
}

fn compared(op: &[u8], a: i32, b: i32) -> Test
    ensures { result ≡ compared_of op.now a b }
{
    if op == b"-eq".as_slice() {
        return Test::Known(a == b);
    }
    if op == b"-ne".as_slice() {
        return Test::Known(a != b);
    }
    if op == b"-lt".as_slice() {
        return Test::Known(a < b);
    }
    if op == b"-le".as_slice() {
        return Test::Known(a <= b);
    }
    if op == b"-gt".as_slice() {
        return Test::Known(a > b);
    }
    if op == b"-ge".as_slice() {
        return Test::Known(a >= b);
    }
    Test::Malformed
}

fn numbers(op: &[u8], a: Option<i32>, b: Option<i32>) -> Test
    ensures { result ≡ both_numbers op.now a b }
{
    match a {
        Some(a) => match b {
            Some(b) => compared(op, a, b),
            None => Test::Malformed,
        },
        None => Test::Malformed,
    }
}

fn binary(s: &[u8], op: &[u8], t: &[u8]) -> Test
    ensures { result ≡ binary_of s.now op.now t.now }
{
    if op == b"=".as_slice() {
        return Test::Known(s == t);
    }
    if op == b"!=".as_slice() {
        return Test::Known(s != t);
    }
    numbers(op, number(s), number(t))
}

#[tactic(auto, unfolding(crate::specs::Tests::plain_test))]
fn plain(words: &[MovedBytes]) -> Test
    ensures { result ≡ plain_test words.now }
{
    match words {
        [op, s] => unary(op.as_slice(), s.as_slice()),
        [s, op, t] => binary(s.as_slice(), op.as_slice(), t.as_slice()),
        _ => Test::Malformed,
    }
}

fn negated(test: Test) -> Test
    ensures { result ≡ negation_of test }
{
    match test {
        Test::Malformed => Test::Malformed,
        Test::Known(holds) => Test::Known(!holds),
        Test::Path(wanted, isnt) => Test::Path(wanted, !isnt),
    }
}

fn after_not(words: &[MovedBytes]) -> Test
    ensures { result ≡ what_stands_after_not words.now }
{
    match words {
        [] => Test::Malformed,
        [first, rest @ ..] => {
            if first.as_slice() == b"!".as_slice() {
                negated(plain(rest))
            } else {
                Test::Malformed
            }
        }
    }
}

/// What an expression asks.
#[tactic(auto, unfolding(crate::specs::Tests::test_of))]
pub(crate) fn expression(words: &[MovedBytes]) -> Test
    ensures { result ≡ test_of words.now }
{
    match plain(words) {
        Test::Malformed => after_not(words),
        Test::Known(holds) => Test::Known(holds),
        Test::Path(wanted, isnt) => Test::Path(wanted, isnt),
    }
}
