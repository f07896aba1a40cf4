ghost use Rattle.std.specs.Prelude.{◌≡◌, ◌≤◌, false, length};
ghost use Rattle.nx_ksys.specs.Gathered.{reply_of};
ghost use Rattle.nx_shrun.specs.Calls.{is_failed, handed as handed_by, code_of, output};

use nx_ksys::Reply;

/// Whether the call failed.
pub fn has_failed(reply: &Reply) -> bool
    ensures { result ≡ is_failed (reply_of reply.now) }
{
    reply.value < 0
}

/// What the call returned, as a word.
pub fn value(reply: &Reply) -> u32
    requires { is_failed (reply_of reply.now) ≡ false }
    ensures { result ≡ (reply_of reply.now).value }
{
    let value = reply.value;
    if value < 0 { 0 } else { value as u32 }
}

/// The number of the error.
pub fn errno(reply: &Reply) -> u32
    ensures { result ≡ (reply_of reply.now).errno }
{
    reply.errno.unsigned_abs()
}

/// The bytes that the call hands out: so many as it says.
pub fn handed(reply: &Reply) -> &[u8]
    requires { is_failed (reply_of reply.now) ≡ false }
    ensures { result.now ≡ handed_by (reply_of reply.now) }
{
    let bytes = reply.first.as_slice();
    let count = value(reply) as usize;
    if count < bytes.len() {
        &bytes[..count]
    } else {
        bytes
    }
}

/// The code of a child that ended.
#[tactic(auto, unfolding(nx_base::specs::ByteLists::from_le))]
pub fn code(reply: &Reply) -> u32
    requires { length (output (reply_of reply.now)) ≤ 4 }
    ensures { result ≡ code_of (reply_of reply.now) }
{
    match reply.first.as_slice() {
        [a] => *a as u32,
        [a, b] => *a as u32 + 256 * (*b as u32),
        [a, b, c] => *a as u32 + 256 * (*b as u32 + 256 * (*c as u32)),
        [a, b, c, d, ..] => {
            *a as u32 + 256 * (*b as u32 + 256 * (*c as u32 + 256 * (*d as u32)))
        }
        [] => 0,
    }
}
