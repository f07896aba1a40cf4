ghost use Rattle.std.specs.Prelude.{◌≡◌, ◌==◌, ◌∷◌, List, ℕ, ◌&&◌, not, false, IfOk};
ghost use Rattle.nx_config.specs.Quoted.{quoted, before};

use nx_base::Bytes;
use std::alloc::{AllocError, Global};

fn closes(escaped: bool, byte: u8) -> bool
    ensures { result ≡ (not escaped && (byte == 34)) }
{
    !escaped && byte == b'"'
}

/// AreLinesTaken a byte that doesn't close the text. This answers whether the next byte stands for itself.
#[tactic(auto, using(crate::proofs::Texts::before_push))]
fn take_byte(text: &mut Bytes, escaped: bool, byte: u8) -> Result<bool, AllocError>
    requires { (not escaped && (byte == 34)) ≡ false }
    ensures { IfOk result (λ e. (rest : List ℕ) → before text.new (quoted e rest) ≡ before text.old (quoted escaped (byte ∷ rest))) }
{
    if escaped {
        text.push(byte)?;
        return Ok(false);
    }
    if byte == b'\\' {
        return Ok(true);
    }
    text.push(byte)?;
    Ok(false)
}

/// The text that stands after an opening quote, if it is closed at the end.
pub fn quoted_text(alloc: Global, bytes: &[u8]) -> Result<Option<Bytes>, AllocError>
    ensures { IfOk result (λ r. r ≡ quoted false bytes.now) }
{
    let mut text = Bytes::new(alloc);
    let mut escaped = false;
    let mut rest = bytes;
    while let [byte, others @ ..] = rest {
        if closes(escaped, *byte) {
            return Ok(if others.is_empty() { Some(text) } else { None });
        }
        escaped = take_byte(&mut text, escaped, *byte)?;
        rest = others;
    }
    Ok(None)
}
