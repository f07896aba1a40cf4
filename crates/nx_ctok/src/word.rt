ghost use Rattle.std.specs.Prelude.{◌≡◌, IfSome};
ghost use Rattle.nx_ctok.specs.Longest.{word_at};
ghost use Rattle.nx_ctok.specs.Views.{IsLeft};

use crate::scan::scan;
use crate::token::{Spelling, Word};

/// The longest token at the start of a text.
#[tactic(auto, using(crate::proofs::Lexemes::word_fits))]
pub(crate) fn word(bytes: &[u8]) -> Option<Word<'_>>
    ensures gives { result ≡ word_at bytes.now }
    ensures left { IfSome result (λ w. IsLeft w.rest 0 bytes.now) }
{
    match scan(bytes) {
        Some((kind, count)) => Some(Word {
            kind,
            text: Spelling::new(&bytes[..count]),
            rest: Spelling::new(&bytes[count..]),
        }),
        None => None,
    }
}
