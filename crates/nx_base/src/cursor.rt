ghost use Rattle.std.specs.Prelude.{◌≡◌, ◌+◌, ◌≤◌, [], ◌∷◌, ◌++◌, ◌==◌, length, count_by, slice_get, MatchOption};
ghost use Rattle.std.specs.Option.{option_copied};

use std::marker::Model;

/// A place in a text of bytes, which knows its line.
#[derive(Drop)]
pub struct Cursor<'a> {
    bytes: &'a [u8],
    at: usize,
    line: u32,
}

impl<'a> Model for Cursor<'a> {
    ghost use Rattle.std.specs.Prelude.{◌≡◌, ◌+◌, ◌≤◌, ◌==◌, length, take, drop, count_by};
    ghost use Rattle.nx_base.specs.CursorAt.{CursorAt};

    ghost Value = { CursorAt };

    ghost view = { λ c. record { taken = take c.at c.bytes.now; rest = drop c.at c.bytes.now } };

    ghost invariant = { λ c. (c.at ≤ length c.bytes.now) × (length c.bytes.now ≤ 1048576) × (c.line ≡ 1 + count_by (λ b. b == 10) (take c.at c.bytes.now)) };
}

impl<'a> Cursor<'a> {
    /// At the start of the bytes, of which there are at most 1,048,576.
    pub fn new(bytes: &'a [u8]) -> Cursor<'a>
        requires { length bytes.now ≤ 1048576 }
        ensures { result ≡ record { taken = []; rest = bytes.now } }
    {
        Cursor {
            bytes,
            at: 0,
            line: 1,
        }
    }

    /// The byte here, or none at the end.
    pub fn peek(&self) -> Option<u8>
        ensures { result ≡ slice_get self.now.rest 0 }
    {
        self.bytes.get(self.at).copied()
    }

    /// Takes the byte here. There is none exactly at the end, where the cursor stays.
    pub fn next(&mut self) -> Option<u8>
        ensures { MatchOption result
            ((self.old.rest ≡ []) × (self.new ≡ self.old))
            (λ b. (self.old.rest ≡ b ∷ self.new.rest) × (self.new.taken ≡ self.old.taken ++ b ∷ [])) }
    {
        if self.at >= self.bytes.len() {
            return None;
        }
        let byte = self.bytes[self.at];
        self.at += 1;
        if byte == b'\n' {
            self.line += 1;
        }
        Some(byte)
    }

    /// The line here: 1 plus the newline bytes taken.
    pub fn line(&self) -> u32
        ensures { result ≡ 1 + count_by (λ b. b == 10) self.now.taken }
    {
        self.line
    }
}
