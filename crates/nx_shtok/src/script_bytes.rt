ghost use Rattle.std.specs.Prelude.{◌≡◌, length, ◌≤◌};
ghost use Rattle.nx_shtok.specs.Bytes.{is_script_byte as is_a_script_byte, ends_word as ends_a_word, newlines as newlines_of, line_at as line_of};

use nx_base::is_line_blank;

/// A tab, a newline, a carriage return, or a byte from 32 on except 127.
pub(crate) fn is_script_byte(byte: u8) -> bool
    ensures { result ≡ is_a_script_byte byte }
{
    byte == b'\t' || (byte == b'\n' || (byte == b'\r' || (byte >= 32 && byte != 127)))
}

/// What ends a word outside quotes.
pub(crate) fn ends_word(byte: u8) -> bool
    ensures { result ≡ ends_a_word byte }
{
    is_line_blank(byte) || (byte == b'\n' || (byte == b';' || (byte == b'&' || byte == b'>')))
}

/// How many newlines there are.
fn newlines(bytes: &[u8]) -> usize
    ensures count { result ≡ newlines_of bytes.now }
    ensures few { result ≤ length bytes.now }
{
    let mut count: usize = 0;
    let mut rest = bytes;
    while let [first, others @ ..] = rest {
        count += usize::from(*first == b'\n');
        rest = others;
    }
    count
}

/// The line on which the rest of a text begins.
pub(crate) fn line_at(text: &[u8], rest: &[u8]) -> u32
    requires { length text.now ≤ 1048576 }
    ensures { result ≡ line_of text.now rest.now }
{
    1 + newlines(text).saturating_sub(newlines(rest)) as u32
}
