// Lines of a text, each ended by a newline.
ghost use Rattle.std.specs.Prelude.{◌≡◌, ◌≤◌, if◌then◌else◌, length, option_map, slice_get};
ghost use Rattle.std.specs.List.{count_by};
ghost use Rattle.nx_ksys.specs.GroupCalls.{arguments_of};
ghost use Rattle.nx_group.specs.Lines.{is_newline};

fn count_newline(byte: u8) -> usize
    ensures count { result ≡ (if is_newline byte then 1 else 0) }
    ensures few { result ≤ 1 }
{
    if byte == b'\n' { 1 } else { 0 }
}

fn count_newlines(text: &[u8]) -> usize
    ensures count { result ≡ count_by is_newline text.now }
    ensures few { result ≤ length text.now }
{
    let mut count = 0;
    for byte in text {
        count += count_newline(*byte);
    }
    count
}

/// How many there are.
pub fn count_lines(text: &[u8]) -> usize
    ensures count { result ≡ length (arguments_of text.now) }
    ensures few { result ≤ length text.now }
{
    count_newlines(text)
}

/// The line of an index, without its newline.
pub fn line_at(text: &[u8], index: usize) -> Option<&[u8]>
    ensures { option_map (λ r. r.now) result ≡ slice_get (arguments_of text.now) index }
{
    let mut start = 0;
    let mut left = index;
    for at in 0..text.len() {
        if text[at] == b'\n' {
            if left == 0 {
                return Some(&text[start..at]);
            }
            left -= 1;
            start = at + 1;
        }
    }
    None
}
