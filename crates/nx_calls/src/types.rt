ghost use Rattle.std.specs.Prelude.{◌≡◌, ◌≤◌, ◌==◌, [], length, IfOk, OnOk, ◌++◌, ◌∷◌, List, ℕ, true, false, if◌then◌else◌};
ghost use Rattle.std.specs.List.{count_by, list_any, list_all};
ghost use Rattle.nx_base.specs.TextBytes.{is_line_blank as is_a_line_blank, is_word_byte as is_a_word_byte};
ghost use Rattle.nx_calls.specs.Types.{is_far as is_the_word_far, without_far, between_blanks, added, plain, bars, is_union, type_of, is_bad as has_empty_part};

use nx_base::{Bytes, cut, is_line_blank, is_word_byte, trim_start};
use std::alloc::{AllocError, Global};

/// A type of a row: what a program declares, and what is passed. Without a bar both are the same.
#[derive(Debug, Drop)]
pub struct CallType {
    /// Before the bar, without FAR and with single blanks.
    pub formal: Bytes,
    /// After the bar, in the same form.
    pub actual: Bytes,
}

fn is_far(word: &[u8]) -> bool
    ensures { result ≡ is_the_word_far word.now }
{
    word == b"FAR".as_slice()
}

/// Puts a word after a text, unless it is FAR.
fn put_word(text: &mut Bytes, word: &Bytes) -> Result<(), AllocError>
    ensures { OnOk result (text.new ≡ text.old ++ (if is_the_word_far word.now then [] else word.now)) }
{
    if is_far(word.as_slice()) {
        return Ok(());
    }
    text.append(word.as_slice())
}

/// Puts a byte after a text and the word that has begun.
fn put_byte(text: &mut Bytes, word: &mut Bytes, byte: u8) -> Result<(), AllocError>
    requires { list_all is_a_word_byte word.old ≡ true }
    ensures word { OnOk result (list_all is_a_word_byte word.new ≡ true) }
    ensures text { OnOk result ((rest : List ℕ) → text.new ++ without_far (word.new ++ rest) ≡ text.old ++ without_far (word.old ++ byte ∷ rest)) }
{
    if is_word_byte(byte) {
        return word.push(byte);
    }
    put_word(text, word)?;
    word.clear();
    text.push(byte)
}

fn drop_far(alloc: Global, part: &[u8]) -> Result<Bytes, AllocError>
    ensures { IfOk result (λ text. text ≡ without_far part.now) }
{
    let mut text = Bytes::new(alloc);
    let mut word = Bytes::new(alloc);
    for byte in part {
        put_byte(&mut text, &mut word, *byte)?;
    }
    put_word(&mut text, &word)?;
    Ok(text)
}

/// Puts a byte after a text. Tells whether it is a blank, which stands for no byte yet.
fn put_single(text: &mut Bytes, gap: bool, byte: u8) -> Result<bool, AllocError>
    ensures { IfOk result (λ after. (rest : List ℕ) → text.new ++ added after (between_blanks rest) ≡ text.old ++ added gap (between_blanks (byte ∷ rest))) }
{
    if is_line_blank(byte) {
        return Ok(true);
    }
    if gap {
        text.append(&[b' ', byte])?;
        return Ok(false);
    }
    text.push(byte)?;
    Ok(false)
}

fn single_blanks(alloc: Global, part: &[u8]) -> Result<Bytes, AllocError>
    ensures { IfOk result (λ text. text ≡ added false (between_blanks part.now)) }
{
    let mut text = Bytes::new(alloc);
    let mut gap = false;
    for byte in part {
        match put_single(&mut text, gap, *byte) {
            Ok(after) => gap = after,
            Err(_) => return Err(AllocError),
        }
    }
    Ok(text)
}

#[tactic(auto, unfolding(crate::specs::Types::plain), using(crate::proofs::Spacing::trimmed_words))]
fn plain(alloc: Global, part: &[u8]) -> Result<Bytes, AllocError>
    ensures { IfOk result (λ text. text ≡ plain part.now) }
{
    let kept = drop_far(alloc, part)?;
    single_blanks(alloc, trim_start(kept.as_slice()))
}

fn bars(field: &[u8]) -> usize
    ensures { result ≡ bars field.now }
{
    field.iter().filter(|byte| **byte == b'|').count()
}

/// Whether a field has two bars or more.
pub(crate) fn is_union(field: &[u8]) -> bool
    ensures { result ≡ is_union field.now }
{
    1 < bars(field)
}

impl CallType {
    /// The type of a field.
    #[tactic(auto, unfolding(crate::specs::Types::type_of))]
    pub fn of(alloc: Global, field: &[u8]) -> Result<CallType, AllocError>
        ensures { IfOk result (λ t. t ≡ type_of field.now) }
    {
        if bars(field) == 1 {
            let (before, after) = cut(field, b'|');
            let formal = plain(alloc, before)?;
            let actual = plain(alloc, after)?;
            return Ok(CallType { formal, actual });
        }
        let formal = plain(alloc, field)?;
        let actual = plain(alloc, field)?;
        Ok(CallType { formal, actual })
    }

    /// Whether a part is empty.
    pub(crate) fn has_empty_part(&self) -> bool
        ensures { result ≡ has_empty_part self.now }
    {
        self.formal.is_empty() || self.actual.is_empty()
    }
}
