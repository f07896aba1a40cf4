ghost use Rattle.std.specs.Prelude.{◌≡◌, ◌≤◌, length, reverse};
ghost use Rattle.std.specs.Char.{digit_value as digit_value_of};
ghost use Rattle.std.specs.List.{list_all};
ghost use Rattle.nx_base.specs.TextBytes.{is_blank as is_a_blank, is_line_blank as is_a_line_blank, is_word_byte as is_a_word_byte, is_word_start as is_a_word_start, is_identifier as is_an_identifier, without_leading, trimmed_of, number_of_digits};

/// Whether a byte is a space or a tab: the class `blank` of POSIX.
pub fn is_blank(byte: u8) -> bool
    ensures { result ≡ is_a_blank byte }
{
    byte == b' ' || byte == b'\t'
}

/// Whether a byte is a space, a tab or a carriage return.
pub fn is_line_blank(byte: u8) -> bool
    ensures { result ≡ is_a_line_blank byte }
{
    is_blank(byte) || byte == b'\r'
}

/// Whether a byte is a letter, a digit or an underscore of ASCII.
pub fn is_word_byte(byte: u8) -> bool
    ensures { result ≡ is_a_word_byte byte }
{
    byte.is_ascii_alphanumeric() || byte == b'_'
}

/// Whether a byte is a letter or an underscore of ASCII.
pub fn is_word_start(byte: u8) -> bool
    ensures { result ≡ is_a_word_start byte }
{
    byte.is_ascii_alphabetic() || byte == b'_'
}

/// Whether all bytes are letters, digits or underscores.
pub fn are_word_bytes(bytes: &[u8]) -> bool
    ensures { result ≡ list_all is_a_word_byte bytes.now }
{
    bytes.iter().all(|byte| is_word_byte(*byte))
}

/// Whether bytes are a name of C: letters, digits and underscores, which don't begin with a
/// digit. A keyword is such a name. C11, section 6.4.2.1, without its universal names.
pub fn is_identifier(bytes: &[u8]) -> bool
    ensures { result ≡ is_an_identifier bytes.now }
{
    let [first, rest @ ..] = bytes else {
        return false;
    };
    is_word_start(*first) && are_word_bytes(rest)
}

/// The bytes without the blanks and carriage returns that they begin with.
pub fn trim_start(bytes: &[u8]) -> &[u8]
    ensures rest { result.now ≡ without_leading is_a_line_blank bytes.now }
    ensures shorter { length result.now ≤ length bytes.now }
{
    let mut rest = bytes;
    while let [first, others @ ..] = rest {
        if !is_line_blank(*first) {
            return rest;
        }
        rest = others;
    }
    rest
}

// The bytes without the blanks and carriage returns that they end with.
fn trim_end(bytes: &[u8]) -> &[u8]
    ensures { result.now ≡ reverse (without_leading is_a_line_blank (reverse bytes.now)) }
{
    let mut rest = bytes;
    while let [others @ .., last] = rest {
        if !is_line_blank(*last) {
            return rest;
        }
        rest = others;
    }
    rest
}

/// The bytes without the blanks and carriage returns at both ends.
pub fn trimmed(bytes: &[u8]) -> &[u8]
    ensures { result.now ≡ trimmed_of is_a_line_blank bytes.now }
{
    trim_end(trim_start(bytes))
}

/// What a digit is worth, to a base of up to 36. Any other byte is worth 36.
pub fn digit_value(byte: u8) -> u8
    ensures value { result ≡ digit_value_of byte }
    ensures small { result ≤ 36 }
{
    match byte {
        b'0'..=b'9' => byte - b'0',
        b'A'..=b'Z' => byte - b'A' + 10,
        b'a'..=b'z' => byte - b'a' + 10,
        _ => 36,
    }
}

/// The number that digits write to a base, the highest first, where it is below 2^64. No digits
/// write 0.
pub fn number_of(base: u64, digits: &[u8]) -> Option<u64>
    requires { 1 ≤ base }
    ensures { result ≡ number_of_digits base digits.now }
{
    let mut value: u64 = 0;
    for digit in digits {
        match value.checked_mul(base) {
            None => return None,
            Some(shifted) => match shifted.checked_add(u64::from(digit_value(*digit))) {
                None => return None,
                Some(sum) => value = sum,
            },
        }
    }
    Some(value)
}
