ghost use Rattle.std.specs.Prelude.{◌≡◌, ◌++◌, take, IfOk};

use nx_shtok::{Part, Word};
use sqlite_items::Items;
use std::alloc::{AllocError, Global};

fn copied_part(alloc: Global, part: &Part) -> Result<Part, AllocError>
    ensures { IfOk result (λ p. p ≡ part.now) }
{
    match part {
        Part::Byte(byte) => Ok(Part::Byte(*byte)),
        Part::Status => Ok(Part::Status),
        Part::Name(name) => {
            let name = Items::from_slice(alloc, name.as_slice())?;
            Ok(Part::Name(name))
        }
    }
}

fn copied_parts(alloc: Global, parts: &[Part]) -> Result<Items<Part>, AllocError>
    ensures { IfOk result (λ ps. ps ≡ parts.now) }
{
    let mut copy = Items::new(alloc);
    let mut rest = parts;
    while let [part, others @ ..] = rest {
        let part = copied_part(alloc, part)?;
        copy.push(part)?;
        rest = others;
    }
    Ok(copy)
}

/// A copy of a word.
pub(crate) fn copied(alloc: Global, word: &Word) -> Result<Word, AllocError>
    ensures { IfOk result (λ w. w ≡ word.now) }
{
    let parts = copied_parts(alloc, word.parts.as_slice())?;
    Ok(Word {
        parts,
        quoted: word.quoted,
    })
}
