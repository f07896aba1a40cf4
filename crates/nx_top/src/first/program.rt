// nx_ctok and nx_cparse will take its place.

ghost use Rattle.std.specs.Prelude.{◌≡◌, ℕ, List, [], ◌∷◌, ◌++◌, IfOk, MatchOption};
ghost use Rattle.std.specs.Option.{option_map};
ghost use Rattle.nx_top.specs.first.Program.{Program, IsProgram};
ghost use Rattle.nx_top.specs.first.ProgramReading as read;
ghost use Rattle.nx_top.specs.first.ProgramReading.{AgreesWith};
ghost use Rattle.nx_top.specs.declared.first.program.ReadStop.TheVariants.{Memory};

use crate::first::tokens::{after_token, after_tokens, are_blanks, number_at};
use nx_base::Bytes;
use std::alloc::{AllocError, AllocFailed, Global};
use std::marker::Model;

/// A C program that writes strings to descriptor 1, and returns a status of 0 to 255.
#[derive(Debug, Drop)]
pub struct WriteProgram {
    writes: Vec<Bytes>,
    status: u8,
}

impl Model for WriteProgram {
    ghost use Rattle.nx_top.specs.first.Program.{Program};

    ghost Value = { Program };

    ghost view = { λ p. record { writes = p.writes.items; status = p.status } };
}

impl WriteProgram {
    /// The strings, in the order in which they are written.
    pub fn writes(&self) -> &[Bytes]
        ensures { result.now ≡ self.now.writes }
    {
        self.writes.as_slice()
    }

    /// What the main function returns.
    pub fn status(&self) -> u8
        ensures { result ≡ self.now.status }
    {
        self.status
    }
}

// Why no program was read.
#[derive(Clone, Copy, Debug)]
enum ReadStop {
    Refused,
    Memory,
}

impl From<AllocError> for ReadStop {
    ghost from_gives = { λ _ e. e ≡ Memory };

    fn from(_: AllocError) -> Self {
        ReadStop::Memory
    }
}

fn is_plain(byte: u8) -> bool
    ensures { result ≡ read.is_plain byte }
{
    (32..=126).contains(&byte) && byte != b'"' && byte != b'\\'
}

fn escape_at(bytes: &[u8]) -> Option<(u8, &[u8])>
    ensures { option_map (λ x. (x.0, x.1.now)) result ≡ read.escape_at bytes.now }
{
    match bytes {
        [b'n', rest @ ..] => Some((b'\n', rest)),
        _ => None,
    }
}

#[tactic(auto, unfolding(crate::specs::first::ProgramReading::char_at))]
fn char_at(bytes: &[u8]) -> Option<(u8, &[u8])>
    ensures { option_map (λ x. (x.0, x.1.now)) result ≡ read.char_at bytes.now }
{
    match bytes {
        [b'\\', rest @ ..] => escape_at(rest),
        [first, rest @ ..] if is_plain(*first) => Some((*first, rest)),
        _ => None,
    }
}

// The byte after the others.
fn with_byte(text: Vec<u8>, byte: u8) -> Result<Vec<u8>, AllocError>
    ensures { IfOk result (λ v. v.items ≡ text.items ++ byte ∷ []) }
{
    let mut text = text;
    text.push(byte)?;
    Ok(text)
}

#[tactic(auto, unfolding(crate::specs::first::ProgramReading::string_from))]
fn string_from(left: u32, text: Vec<u8>, bytes: &[u8]) -> Result<(Vec<u8>, &[u8]), ReadStop>
    ensures { AgreesWith (λ x. (x.0.items, x.1.now)) result (read.string_from left text.items bytes.now) }
{
    if left == 0 {
        return Err(ReadStop::Refused);
    }
    match bytes {
        [] => Err(ReadStop::Refused),
        [b'"', rest @ ..] => Ok((text, rest)),
        _ => {
            let (byte, rest) = char_at(bytes).ok_or(ReadStop::Refused)?;
            let text = with_byte(text, byte)?;
            string_from(left - 1, text, rest)
        }
    }
}

#[tactic(auto, unfolding(crate::specs::first::ProgramReading::string_at))]
fn string_at(alloc: Global, bytes: &[u8]) -> Result<(Vec<u8>, &[u8]), ReadStop>
    ensures { AgreesWith (λ x. (x.0.items, x.1.now)) result (read.string_at bytes.now) }
{
    let rest = after_token(bytes, false, b"\"").ok_or(ReadStop::Refused)?;
    let (text, rest) = string_from(256, Vec::new(alloc), rest)?;
    if text.is_empty() {
        return Err(ReadStop::Refused);
    }
    Ok((text, rest))
}

#[tactic(auto, unfolding(crate::specs::first::ProgramReading::write_end))]
fn write_end(bytes: &[u8], count: usize) -> Option<&[u8]>
    ensures { option_map (λ s. s.now) result ≡ read.write_end count bytes.now }
{
    let rest = after_tokens(bytes, false, &[","])?;
    let (number, rest) = number_at(rest, false)?;
    let rest = after_tokens(rest, true, &[")", ";"])?;
    if usize::from(number) != count {
        return None;
    }
    Some(rest)
}

#[tactic(auto, unfolding(crate::specs::first::ProgramReading::write_at))]
fn write_at(alloc: Global, bytes: &[u8]) -> Result<(Vec<u8>, &[u8]), ReadStop>
    ensures { AgreesWith (λ x. (x.0.items, x.1.now)) result (read.write_at bytes.now) }
{
    let rest = after_tokens(bytes, false, &["write", "(", "1", ","]).ok_or(ReadStop::Refused)?;
    let (text, rest) = string_at(alloc, rest)?;
    let rest = write_end(rest, text.len()).ok_or(ReadStop::Refused)?;
    Ok((text, rest))
}

#[tactic(auto, unfolding(crate::specs::first::ProgramReading::end_of))]
fn end_of(writes: Vec<Bytes>, bytes: &[u8]) -> Option<WriteProgram>
    ensures { result ≡ read.end_of writes.items bytes.now }
{
    let (status, rest) = number_at(bytes, true)?;
    let rest = after_tokens(rest, true, &[";", "}"])?;
    if !are_blanks(rest) {
        return None;
    }
    Some(WriteProgram { writes, status })
}

// The string after the others.
fn with_write(writes: Vec<Bytes>, text: Vec<u8>) -> Result<Vec<Bytes>, AllocError>
    ensures { IfOk result (λ v. v.items ≡ writes.items ++ text.items ∷ []) }
{
    let mut writes = writes;
    writes.push(Bytes::from_vec(text))?;
    Ok(writes)
}

#[tactic(auto, unfolding(crate::specs::first::ProgramReading::body_from))]
fn body_from(
    alloc: Global,
    left: u32,
    writes: Vec<Bytes>,
    bytes: &[u8],
) -> Result<WriteProgram, ReadStop>
    ensures { AgreesWith (λ p. p) result (read.body_from left writes.items bytes.now) }
{
    if left == 0 {
        return Err(ReadStop::Refused);
    }
    match after_token(bytes, false, b"return") {
        Some(rest) => end_of(writes, rest).ok_or(ReadStop::Refused),
        None => {
            let (text, rest) = write_at(alloc, bytes)?;
            let writes = with_write(writes, text)?;
            body_from(alloc, left - 1, writes, rest)
        }
    }
}

#[tactic(auto, unfolding(crate::specs::first::ProgramReading::reading))]
fn reading(alloc: Global, bytes: &[u8]) -> Result<WriteProgram, ReadStop>
    ensures { AgreesWith (λ p. p) result (read.reading bytes.now) }
{
    let rest = after_tokens(bytes, false, &["int", "main", "(", "void", ")", "{"]).ok_or(
        ReadStop::Refused,
    )?;
    body_from(alloc, 17, Vec::new(alloc), rest)
}

/// The program that the bytes spell, or none where they spell none: `int main(void) {`, up to 16
/// times `write(1, STRING, N);`, then `return V; }`, in C with spaces and newlines between the
/// tokens. A string has 1 to 255 printable bytes of ASCII or `\n`, N is their count in decimal, and
/// V is 0 to 255 in decimal.
pub fn read_program(alloc: Global, bytes: &[u8]) -> Result<Option<WriteProgram>, AllocError>
    ensures { IfOk result (λ o. MatchOption o ((p : Program) → ¬ IsProgram bytes.now p) (λ p. IsProgram bytes.now p)) }
{
    match reading(alloc, bytes) {
        Ok(program) => Ok(Some(program)),
        Err(ReadStop::Refused) => Ok(None),
        Err(ReadStop::Memory) => Err(AllocError),
    }
}

/// Bytes are at most one program.
pub fn one_program()
    ensures { (bytes : List ℕ) (p q : Program) → IsProgram bytes p → IsProgram bytes q → p ≡ q }
{}

#[cfg(test)]
mod tests;
