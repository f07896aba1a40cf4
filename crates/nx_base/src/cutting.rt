ghost use Rattle.std.specs.Prelude.{◌≡◌, ◌==◌, ◌<◌, ◌≤◌, length};
ghost use Rattle.std.specs.List.{position_or_len};
ghost use Rattle.nx_base.specs.TextBytes.{before_mark, after_mark};

fn is_mark(byte: u8, mark: u8) -> bool
    ensures { result ≡ (byte == mark) }
{
    byte == mark
}

/// The place of the first mark, or the length where there is none.
fn place_of(bytes: &[u8], mark: u8) -> usize
    ensures place { result ≡ position_or_len (λ b. b == mark) bytes.now }
    ensures within { result ≤ length bytes.now }
{
    let mut place = 0;
    let mut rest = bytes;
    while let [first, others @ ..] = rest {
        if is_mark(*first, mark) {
            return place;
        }
        place += 1;
        rest = others;
    }
    place
}

/// What stands before the first mark, and what stands after it: all, and nothing, where there is
/// none.
pub fn cut(bytes: &[u8], mark: u8) -> (&[u8], &[u8])
    ensures before { result.0.now ≡ before_mark mark bytes.now }
    ensures after { result.1.now ≡ after_mark mark bytes.now }
    ensures shorter { 0 < length bytes.now → length result.1.now < length bytes.now }
{
    let place = place_of(bytes, mark);
    if place < bytes.len() {
        return (&bytes[..place], &bytes[place + 1..]);
    }
    (bytes, &[])
}
