ghost use Rattle.std.specs.Prelude.{◌≤◌, ◌↔◌, length, IsSome, IfSome};
ghost use Rattle.nx_cfront.specs.Checks.{IsTextChecked};

use nx_calls::CallRow;
use nx_cfront::check_text;
use nx_checked::Checked;
use nx_ctok::CFault;
use std::alloc::Global;

/// How many bytes a text has at most.
const MOST_BYTES: usize = 1_048_576;

/// What a C text does by a call table or its first fault, where it isn't too long.
pub fn verdict(alloc: Global, rows: &[CallRow], text: &[u8]) -> Option<Result<Checked, CFault>>
    ensures fits { IsSome result ↔ (length text.now ≤ 1048576) }
    ensures read { IfSome result (λ answer. IsTextChecked rows.now text.now answer) }
{
    if text.len() > MOST_BYTES {
        None
    } else {
        Some(check_text(alloc, rows, text))
    }
}
