ghost use Rattle.std.specs.Prelude.{◌≡◌, ◌≤◌, ◌<◌, ◌^◌, ◌+◌, ◌*◌, ◌++◌, [], ◌∷◌, length, Some, None, MatchOption, codes};
ghost use Rattle.std.specs.Str.{bytes_eq};
ghost use Rattle.nx_shrun.specs.declared.step.Ending.TheVariants.{Status};
ghost use Rattle.nx_shrun.specs.declared.builtin.Builtin.TheVariants.{Cat, Cp, Sleep, Exit};
ghost use Rattle.nx_shrun.specs.Texts.{arguments as arguments_of, word_at};
ghost use Rattle.nx_shrun.specs.Numbers.{number as number_of_word};
ghost use Rattle.nx_shrun.specs.Tests.{test_of};
ghost use Rattle.nx_shrun.specs.Steps.{status_of};
ghost use Rattle.nx_shrun.specs.Table.{body as body_of, does, ends_with, exactly as exactly_so_many, at_most as at_most_so_many, cats, tested as body_of_test, in_brackets as words_in_brackets, tested_in, sleeps, leaves};
ghost use Rattle.nx_shrun.specs.Puts.{ending_of, steps_of};

use crate::builtin::Builtin;
use crate::expression::expression;
use crate::number::number;
use crate::step::{Change, Ending, Listing, Step, Test};
use crate::steps::Steps;
use nx_ksys::MovedBytes;

/// The words after a command's name.
pub fn arguments(words: &[MovedBytes]) -> &[MovedBytes]
    ensures { result.now ≡ arguments_of words.now }
{
    match words {
        [] => words,
        [_, rest @ ..] => rest,
    }
}

fn one(steps: &mut Steps, step: Step) -> Option<Ending>
    requires room { length steps.old.steps < steps.old.room }
    ensures ending { result ≡ ending_of (does (step ∷ [])) }
    ensures steps { steps.new ≡ record steps.old { steps = step ∷ steps.old.steps } }
{
    steps.push(step);
    Some(Ending::Status(0))
}

fn exactly(steps: &mut Steps, count: usize, words: &[MovedBytes], step: Step) -> Option<Ending>
    requires room { length steps.old.steps < steps.old.room }
    ensures ending { result ≡ ending_of (exactly_so_many count words.now (does (step ∷ []))) }
    ensures steps { steps.new ≡ record steps.old { steps = steps_of (exactly_so_many count words.now (does (step ∷ []))) ++ steps.old.steps } }
{
    if arguments(words).len() == count {
        one(steps, step)
    } else {
        None
    }
}

fn at_most(steps: &mut Steps, count: usize, words: &[MovedBytes], step: Step) -> Option<Ending>
    requires room { length steps.old.steps < steps.old.room }
    ensures ending { result ≡ ending_of (at_most_so_many count words.now (does (step ∷ []))) }
    ensures steps { steps.new ≡ record steps.old { steps = steps_of (at_most_so_many count words.now (does (step ∷ []))) ++ steps.old.steps } }
{
    if arguments(words).len() <= count {
        one(steps, step)
    } else {
        None
    }
}

fn tested(steps: &mut Steps, test: Test) -> Option<Ending>
    requires room { length steps.old.steps < steps.old.room }
    ensures ending { result ≡ ending_of (body_of_test test) }
    ensures steps { steps.new ≡ record steps.old { steps = steps_of (body_of_test test) ++ steps.old.steps } }
{
    match test {
        Test::Malformed => None,
        Test::Known(holds) => Some(Ending::Status(if holds { 0 } else { 1 })),
        Test::Path(wanted, isnt) => one(steps, Step::Probe(wanted, isnt)),
    }
}

fn sleeping(steps: &mut Steps, ticks: Option<i32>) -> Option<Ending>
    requires room { length steps.old.steps < steps.old.room }
    ensures ending { result ≡ ending_of (sleeps ticks) }
    ensures steps { steps.new ≡ record steps.old { steps = steps_of (sleeps ticks) ++ steps.old.steps } }
{
    match ticks {
        Some(n) => one(steps, Step::Sleep(n.cast_unsigned())),
        None => None,
    }
}

fn leaving(value: Option<i32>) -> Option<Ending>
    ensures ending { result ≡ ending_of (leaves value) }
    ensures steps { steps_of (leaves value) ≡ [] }
{
    match value {
        Some(n) => Some(Ending::Exit(n.cast_unsigned())),
        None => None,
    }
}

/// So many files, from a word on, each opened, read and closed.
#[tactic(auto, using(crate::proofs::Files::cats_more))]
fn put_files(steps: &mut Steps, place: usize, count: usize)
    requires room { length steps.old.steps + 3 * count ≤ steps.old.room }
    requires small { place + count < 2 ^ 63 }
    ensures steps { steps.new ≡ record steps.old { steps = cats place count ++ steps.old.steps } }
    ensures len { length steps.new.steps ≡ length steps.old.steps + 3 * count }
{
    if count == 0 {
        return;
    }
    put_files(steps, place + 1, count - 1);
    steps.push(Step::Close);
    steps.push(Step::Read);
    steps.push(Step::Open(place));
}

fn is_bracket(word: &MovedBytes) -> bool
    ensures { result ≡ bytes_eq word.now (codes "]") }
{
    word.as_slice() == b"]".as_slice()
}

/// The words before a last `]`.
#[tactic(auto, using(crate::proofs::Files::bracket_last, crate::proofs::Files::other_last, crate::proofs::Files::no_bracket))]
fn in_brackets(words: &[MovedBytes]) -> Option<&[MovedBytes]>
    ensures { MatchOption result (words_in_brackets words.now ≡ None) (λ inner. words_in_brackets words.now ≡ Some inner.now) }
{
    if words.is_empty() {
        return None;
    }
    let last = words.len() - 1;
    if is_bracket(&words[last]) {
        Some(&words[..last])
    } else {
        None
    }
}

/// An expression in brackets.
fn bracketed(steps: &mut Steps, words: &[MovedBytes]) -> Option<Ending>
    requires room { length steps.old.steps < steps.old.room }
    ensures ending { result ≡ ending_of (tested_in (words_in_brackets words.now)) }
    ensures steps { steps.new ≡ record steps.old { steps = steps_of (tested_in (words_in_brackets words.now)) ++ steps.old.steps } }
{
    match in_brackets(words) {
        Some(inner) => tested(steps, expression(inner)),
        None => None,
    }
}

fn ended(count: usize, words: &[MovedBytes], ending: Ending) -> Option<Ending>
    ensures ending { result ≡ ending_of (exactly_so_many count words.now (ends_with ending)) }
    ensures none { steps_of (exactly_so_many count words.now (ends_with ending)) ≡ [] }
{
    if arguments(words).len() == count {
        Some(ending)
    } else {
        None
    }
}

/// Word 1, or nothing.
fn word_1(words: &[MovedBytes]) -> &[u8]
    ensures { result.now ≡ word_at words.now 1 }
{
    match words {
        [_, word, ..] => word.as_slice(),
        _ => b"",
    }
}

fn files(steps: &mut Steps, words: &[MovedBytes]) -> Option<Ending>
    requires room { length steps.old.steps + 3 * length words.now ≤ steps.old.room }
    requires small { length words.now < 2 ^ 32 }
    ensures ending { result ≡ ending_of (body_of Cat 0 words.now) }
    ensures steps { steps.new ≡ record steps.old { steps = steps_of (body_of Cat 0 words.now) ++ steps.old.steps } }
{
    let count = arguments(words).len();
    if count == 0 {
        None
    } else {
        put_files(steps, 1, count);
        Some(Ending::Status(0))
    }
}

fn copying(steps: &mut Steps, words: &[MovedBytes]) -> Option<Ending>
    requires room { length steps.old.steps + 5 ≤ steps.old.room }
    ensures ending { result ≡ ending_of (body_of Cp 0 words.now) }
    ensures steps { steps.new ≡ record steps.old { steps = steps_of (body_of Cp 0 words.now) ++ steps.old.steps } }
{
    if arguments(words).len() == 2 {
        steps.push(Step::Close);
        steps.push(Step::Close);
        steps.push(Step::Read);
        steps.push(Step::Create);
        steps.push(Step::Open(1));
        Some(Ending::Status(0))
    } else {
        None
    }
}

fn slept(steps: &mut Steps, words: &[MovedBytes]) -> Option<Ending>
    requires room { length steps.old.steps < steps.old.room }
    ensures ending { result ≡ ending_of (body_of Sleep 0 words.now) }
    ensures steps { steps.new ≡ record steps.old { steps = steps_of (body_of Sleep 0 words.now) ++ steps.old.steps } }
{
    if arguments(words).len() == 1 {
        sleeping(steps, number(word_1(words)))
    } else {
        None
    }
}

fn left(status: u32, words: &[MovedBytes]) -> Option<Ending>
    ensures ending { result ≡ ending_of (body_of Exit status words.now) }
    ensures none { steps_of (body_of Exit status words.now) ≡ [] }
{
    if arguments(words).len() == 0 {
        return Some(Ending::Exit(status));
    }
    if arguments(words).len() == 1 {
        leaving(number(word_1(words)))
    } else {
        None
    }
}

/// Puts the steps of a command of the table before those that are there, and says how it ends. None
/// where its arguments are bad.
pub fn put_body(
    steps: &mut Steps,
    builtin: Builtin,
    status: u32,
    words: &[MovedBytes],
) -> Option<Ending>
    requires room { length steps.old.steps + 3 * length words.now + 5 ≤ steps.old.room }
    requires small { length words.now < 2 ^ 32 }
    ensures ending { result ≡ ending_of (body_of builtin status words.now) }
    ensures steps { steps.new ≡ record steps.old { steps = steps_of (body_of builtin status words.now) ++ steps.old.steps } }
{
    match builtin {
        Builtin::Echo => one(steps, Step::Echo),
        Builtin::Cat => files(steps, words),
        Builtin::Ls => at_most(steps, 1, words, Step::Look),
        Builtin::Cd => at_most(steps, 1, words, Step::Change(Change::Chdir)),
        Builtin::Mkdir => exactly(steps, 1, words, Step::Change(Change::Mkdir)),
        Builtin::Rmdir => exactly(steps, 1, words, Step::Change(Change::Rmdir)),
        Builtin::Rm => exactly(steps, 1, words, Step::Change(Change::Unlink)),
        Builtin::Mv => exactly(steps, 2, words, Step::Change(Change::Rename)),
        Builtin::Pwd => exactly(steps, 0, words, Step::Directory),
        Builtin::Cp => copying(steps, words),
        Builtin::Set => exactly(steps, 2, words, Step::Change(Change::Setenv)),
        Builtin::Export => exactly(steps, 2, words, Step::Change(Change::Setenv)),
        Builtin::Unset => exactly(steps, 1, words, Step::Change(Change::Unsetenv)),
        Builtin::Env => exactly(steps, 0, words, Step::Each(Listing::Variables, 0)),
        Builtin::Ps => exactly(steps, 0, words, Step::Each(Listing::Groups, 0)),
        Builtin::Test => tested(steps, expression(arguments(words))),
        Builtin::Bracket => bracketed(steps, arguments(words)),
        Builtin::True => ended(0, words, Ending::Status(0)),
        Builtin::False => ended(0, words, Ending::Status(1)),
        Builtin::Sleep => slept(steps, words),
        Builtin::Exit => left(status, words),
    }
}
