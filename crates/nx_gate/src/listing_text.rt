ghost use Rattle.std.specs.Prelude.{◌≡◌, ◌<◌, ◌++◌, IfOk, OnOk, map};
ghost use Rattle.nx_gate.specs.Gates.{kind_name as kind_name_of, word_text, spaced, line_of, listing_of, words_of};

use crate::gate::{Gate, Gates};
use crate::words::proxy;
use nx_base::{Bytes, Kind, OutOfMemory};
use std::alloc::{AllocError, Global};

fn kind_name(kind: Kind) -> &'static [u8]
    ensures { result.now ≡ kind_name_of kind }
{
    match kind {
        Kind::Word => b"word",
        Kind::In => b"in",
        Kind::Text => b"text",
        Kind::Out => b"out",
        Kind::Len => b"len",
        Kind::Out4 => b"out4",
        Kind::Out8 => b"out8",
    }
}

fn put_kinds(text: &mut Bytes, kinds: &[Kind]) -> Result<(), AllocError>
    ensures { OnOk result (text.new ≡ text.old ++ spaced (map kind_name_of kinds.now)) }
{
    for kind in kinds {
        text.push(b' ')?;
        text.append(kind_name(*kind))?;
    }
    Ok(())
}

fn put_words(alloc: Global, text: &mut Bytes, words: &[u32]) -> Result<(), AllocError>
    ensures { OnOk result (text.new ≡ text.old ++ spaced (map word_text words.now)) }
{
    for word in words {
        let digits = hex::encode(alloc, word.to_be_bytes())?;
        text.push(b' ')?;
        text.append(digits.as_bytes())?;
    }
    Ok(())
}

#[tactic(auto, unfolding(crate::specs::Gates::line_of))]
fn put_line(alloc: Global, text: &mut Bytes, gate: &Gate) -> Result<(), AllocError>
    requires { gate.now.number < 2048 }
    ensures { OnOk result (text.new ≡ text.old ++ line_of gate.now) }
{
    let number = format!(in alloc; "{} ", gate.number)?;
    text.append(number.as_bytes())?;
    text.append(gate.name.as_slice())?;
    put_kinds(text, gate.kinds.as_slice())?;
    put_words(alloc, text, proxy(gate).as_slice())?;
    text.push(b'\n')
}

/// The gates as text, a line each: the number, the name, the kinds of the parameters, and the words
/// of the proxy in hexadecimal digits, each after one space.
pub fn listing(alloc: Global, gates: &Gates) -> Result<Bytes, OutOfMemory>
    ensures { IfOk result (λ text. text ≡ listing_of gates.now) }
{
    let mut text = Bytes::new(alloc);
    for gate in gates.as_slice() {
        put_line(alloc, &mut text, gate)?;
    }
    Ok(text)
}
