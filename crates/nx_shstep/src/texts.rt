ghost use Rattle.std.specs.Prelude.{◌≡◌, ◌≤◌, ◌+◌, ◌++◌, ◌∷◌, [], length};
ghost use Rattle.nx_shrun.specs.Texts.{arguments as arguments_of, line, spaced, lines, echo_text};

use nx_ksys::MovedBytes;
use nx_shrun::{append, arguments};

/// Adds words with a space between.
#[tactic(auto, unfolding(nx_shrun::specs::Texts::spaced))]
fn append_spaced(text: &mut MovedBytes, words: &[MovedBytes])
    requires room { length text.old + length (spaced words.now) ≤ 4096 }
    ensures { text.new ≡ text.old ++ spaced words.now }
{
    match words {
        [] => {}
        [word] => append(text, word.as_slice()),
        [word, rest @ ..] => {
            append(text, word.as_slice());
            text.push(b' ');
            append_spaced(text, rest);
        }
    }
}

/// Adds words, each ended by a newline.
#[tactic(auto, unfolding(nx_shrun::specs::Texts::lines))]
fn append_lines(text: &mut MovedBytes, words: &[MovedBytes])
    requires room { length text.old + length (lines words.now) ≤ 4096 }
    ensures { text.new ≡ text.old ++ lines words.now }
{
    match words {
        [] => {}
        [word, rest @ ..] => {
            append(text, word.as_slice());
            text.push(b'\n');
            append_lines(text, rest);
        }
    }
}

/// What `echo` writes.
#[tactic(auto, unfolding(nx_shrun::specs::Texts::echo_text), using(nx_shrun::proofs::Bounded::arguments_le))]
pub(crate) fn put_echo(text: &mut MovedBytes, words: &[MovedBytes])
    requires { length (spaced words.now) ≤ 1024 }
    ensures { text.new ≡ echo_text words.now }
{
    text.clear();
    append_spaced(text, arguments(words));
    text.push(b'\n');
}

/// The arguments of a program.
#[tactic(auto, using(crate::proofs::Lengths::lines_le))]
pub(crate) fn put_arguments(text: &mut MovedBytes, words: &[MovedBytes])
    requires { length (spaced words.now) ≤ 1024 }
    ensures { text.new ≡ lines (arguments_of words.now) }
{
    text.clear();
    append_lines(text, arguments(words));
}

/// ` NAME`
pub(crate) fn put_entry(text: &mut MovedBytes, name: &[u8])
    requires { length name.now ≤ 512 }
    ensures { text.new ≡ 32 ∷ line name.now }
{
    text.set(b" ");
    append(text, name);
    text.push(b'\n');
}

/// `PATH:`
pub(crate) fn put_heading(text: &mut MovedBytes, path: &[u8])
    requires { length path.now ≤ 512 }
    ensures { text.new ≡ line (path.now ++ 58 ∷ []) }
{
    text.set(path);
    text.push(b':');
    text.push(b'\n');
}

/// A text on a line of its own.
pub(crate) fn put_line(text: &mut MovedBytes, bytes: &[u8])
    requires { length bytes.now ≤ 512 }
    ensures { text.new ≡ line bytes.now }
{
    text.set(bytes);
    text.push(b'\n');
}
