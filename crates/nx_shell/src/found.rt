ghost use Rattle.std.specs.Prelude.{◌≡◌, ◌≤◌, ◌<◌, ◌+◌, ◌^◌, ◌∷◌, [], Some, length, drop, slice_get, MatchOption};
ghost use Rattle.nx_shell.specs.Kept.{all_words};

use nx_shtok::{Part, Word};
use nx_shtree::Simple;

/// A word of a command, by its place. That of its redirection is the last.
#[tactic(auto, using(crate::proofs::WordPlaces::word_first, crate::proofs::WordPlaces::word_last, crate::proofs::WordPlaces::words_past, crate::proofs::WordPlaces::words_alone))]
pub(crate) fn word_in(simple: &Simple, place: usize) -> Option<&Word>
    ensures { MatchOption result (length (all_words simple.now) ≤ place) (λ w. slice_get (all_words simple.now) place ≡ Some w.now) }
{
    let words = simple.words.as_slice();
    if place < words.len() {
        return Some(&words[place]);
    }
    match &simple.output {
        None => None,
        Some(output) => {
            if place == words.len() {
                Some(&output.file)
            } else {
                None
            }
        }
    }
}

/// A part of a word, by its place.
pub(crate) fn part_in(word: &Word, place: usize) -> Option<&Part>
    ensures { MatchOption result (drop place word.now.parts ≡ []) (λ p. (drop place word.now.parts ≡ p.now ∷ drop (place + 1) word.now.parts) × (place + 1 < 2 ^ 64)) }
{
    let parts = word.parts.as_slice();
    if place < parts.len() {
        Some(&parts[place])
    } else {
        None
    }
}
