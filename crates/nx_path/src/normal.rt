ghost use Rattle.std.specs.Prelude.{◌≡◌, ◌≤◌, ◌<◌, ◌+◌, [], ◌∷◌, ◌++◌, List, ℕ, ◌||◌, nat_le, length, fold, option_map, codes};
ghost use Rattle.std.specs.List.{list_all};
ghost use Rattle.std.specs.Str.{bytes_eq};
ghost use Rattle.nx_ksys.specs.Paths.{is_absolute as is_absolute_text, normal};
ghost use Rattle.nx_path.specs.Walks.{Walk, IsWalk, without_last, after_part, after_byte, text_of, lengths_of, checked, checked_walk};

use arrayvec::ArrayVec;

/// A path: its parts, each after a slash, at most 255 bytes. The root is empty.
pub type Path = ArrayVec<u8, 255>;

fn drops_out(part: &[u8]) -> bool
    ensures { result ≡ (bytes_eq part.now [] || bytes_eq part.now (codes ".")) }
{
    part.is_empty() || part == b".".as_slice()
}

fn goes_up(part: &[u8]) -> bool
    ensures { result ≡ bytes_eq part.now (codes "..") }
{
    part == b"..".as_slice()
}

fn drop_last(text: &mut ArrayVec<u8, 1024>, lengths: &mut ArrayVec<u32, 1024>)
    ensures walk { (w : Walk) → IsWalk text.old.items lengths.old.items w.part w → IsWalk text.new.items lengths.new.items w.part (record { kept = without_last w.kept; part = w.part }) }
    ensures text { length text.new.items ≤ length text.old.items }
    ensures lengths { length lengths.new.items ≤ length lengths.old.items }
{
    if let Some(last) = lengths.pop() {
        let end = text.len().saturating_sub(last as usize + 1);
        text.truncate(end);
    }
}

fn keep(text: &mut ArrayVec<u8, 1024>, lengths: &mut ArrayVec<u32, 1024>, part: &[u8])
    requires text { length text.old.items + length part.now < 1024 }
    requires lengths { length lengths.old.items < 1024 }
    ensures text { text.new.items ≡ text.old.items ++ 47 ∷ part.now }
    ensures lengths { lengths.new.items ≡ lengths.old.items ++ length part.now ∷ [] }
{
    text.push(b'/');
    for byte in part {
        text.push(*byte);
    }
    lengths.push(part.len() as u32);
}

// A part has ended.
fn end_part(text: &mut ArrayVec<u8, 1024>, lengths: &mut ArrayVec<u32, 1024>, part: &[u8])
    requires text { length text.old.items + length part.now < 1024 }
    requires lengths { length lengths.old.items < 1024 }
    ensures walk { (w : Walk) → IsWalk text.old.items lengths.old.items part.now w → IsWalk text.new.items lengths.new.items part.now (record { kept = after_part w.kept w.part; part = w.part }) }
    ensures text { length text.new.items ≤ length text.old.items + length part.now + 1 }
    ensures lengths { length lengths.new.items ≤ length lengths.old.items + 1 }
{
    if drops_out(part) {
        return;
    }
    if goes_up(part) {
        drop_last(text, lengths);
        return;
    }
    keep(text, lengths, part);
}

fn read_byte(
    text: &mut ArrayVec<u8, 1024>,
    lengths: &mut ArrayVec<u32, 1024>,
    part: &mut ArrayVec<u8, 1024>,
    byte: u8,
)
    requires text { length text.old.items + length part.old.items < 1024 }
    requires lengths { length lengths.old.items < 1024 }
    ensures walk { (w : Walk) → IsWalk text.old.items lengths.old.items part.old.items w → IsWalk text.new.items lengths.new.items part.new.items (after_byte w byte) }
    ensures text { length text.new.items + length part.new.items ≤ length text.old.items + length part.old.items + 1 }
    ensures lengths { length lengths.new.items ≤ length lengths.old.items + 1 }
{
    if byte == b'/' {
        end_part(text, lengths, part.as_slice());
        part.clear();
        return;
    }
    part.push(byte);
}

fn read_bytes(
    text: &mut ArrayVec<u8, 1024>,
    lengths: &mut ArrayVec<u32, 1024>,
    part: &mut ArrayVec<u8, 1024>,
    bytes: &[u8],
)
    requires text { length text.old.items + length part.old.items + length bytes.now ≤ 1023 }
    requires lengths { length lengths.old.items + length bytes.now ≤ 1023 }
    ensures walk { (w : Walk) → IsWalk text.old.items lengths.old.items part.old.items w → IsWalk text.new.items lengths.new.items part.new.items (fold after_byte w bytes.now) }
    ensures text { length text.new.items + length part.new.items ≤ length text.old.items + length part.old.items + length bytes.now }
    ensures lengths { length lengths.new.items ≤ length lengths.old.items + length bytes.now }
{
    for byte in bytes {
        read_byte(text, lengths, part, *byte);
    }
}

fn is_absolute(text: &[u8]) -> bool
    ensures { result ≡ is_absolute_text text.now }
{
    match text {
        [] => false,
        [first, ..] => *first == b'/',
    }
}

fn are_short(lengths: &[u32]) -> bool
    ensures { result ≡ list_all (λ n. nat_le n 32) lengths.now }
{
    lengths.iter().all(|length| *length <= 32)
}

/// Bytes as a path.
pub fn to_path(bytes: &[u8]) -> Path
    requires { length bytes.now ≤ 255 }
    ensures { result.items ≡ bytes.now }
{
    let mut path = ArrayVec::new();
    for byte in bytes {
        path.push(*byte);
    }
    path
}

// The path of a text that was read, if its parts and itself are short enough.
fn checked_path(text: &[u8], lengths: &[u32]) -> Option<Path>
    ensures { (kept : List (List ℕ)) → text.now ≡ text_of kept → lengths.now ≡ lengths_of kept → option_map (λ p. p.items) result ≡ checked kept }
{
    if !are_short(lengths) {
        return None;
    }
    if text.len() > 255 {
        return None;
    }
    Some(to_path(text))
}

fn walk(directory: &[u8], text: &[u8]) -> Option<Path>
    requires directory { length directory.now ≤ 255 }
    requires text { length text.now ≤ 260 }
    ensures { option_map (λ p. p.items) result ≡ checked_walk directory.now text.now }
{
    let mut bytes = ArrayVec::new();
    let mut lengths = ArrayVec::new();
    let mut part = ArrayVec::new();
    if !is_absolute(text) {
        read_bytes(&mut bytes, &mut lengths, &mut part, directory);
        read_byte(&mut bytes, &mut lengths, &mut part, b'/');
    }
    read_bytes(&mut bytes, &mut lengths, &mut part, text);
    end_part(&mut bytes, &mut lengths, part.as_slice());
    checked_path(bytes.as_slice(), lengths.as_slice())
}

/// The path that a text names from a directory: empty parts and `.` drop out, `..` drops the part
/// before it, or nothing at the root. None where a part of more than 32 bytes is left, or a path of
/// more than 255.
#[tactic(auto, using(crate::proofs::WalkLemmas::walk_is_normal))]
pub fn normal_path(directory: &[u8], text: &[u8]) -> Option<Path>
    requires directory { length directory.now ≤ 255 }
    requires text { length text.now ≤ 260 }
    ensures { option_map (λ p. p.items) result ≡ normal directory.now text.now }
{
    walk(directory, text)
}
