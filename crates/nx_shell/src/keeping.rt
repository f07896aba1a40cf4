ghost use Rattle.std.specs.Prelude.{◌≡◌};
ghost use Rattle.nx_shell.specs.Kept.{kept};

use nx_ksys::MovedBytes;
use nx_shrun::append;

/// The most bytes that are kept of a word. One of so many is too long.
const MOST_KEPT: usize = 256;

/// Adds of these bytes what is kept of a word.
#[tactic(auto, unfolding(crate::specs::Kept::kept), using(crate::proofs::Cutting::keeps_none, crate::proofs::Cutting::keeps_all))]
pub(crate) fn append_kept(text: &mut MovedBytes, bytes: &[u8])
    ensures { text.new ≡ kept text.old bytes.now }
{
    let used = text.len();
    if used >= MOST_KEPT {
        return;
    }
    let room = MOST_KEPT - used;
    if bytes.len() <= room {
        append(text, bytes);
    } else {
        append(text, &bytes[..room]);
    }
}
