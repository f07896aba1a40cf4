ghost use Rattle.std.specs.Prelude.{◌≡◌, ◌≤◌, ◌⊎◌, length, Ok, Err};
ghost use Rattle.nx_checked.specs.declared.checked.Checked.{Checked as Program};
ghost use Rattle.nx_cfront.specs.Checks.{HasProgram, IsTextChecked};

use nx_calls::CallRow;
use nx_cfile::parse_text;
use nx_cfilecheck::check;
use nx_checked::Checked;
use nx_ctok::CFault;
use std::alloc::Global;

/// What the text of a C program of up to 1,048,576 bytes does by a call table, or its first fault:
/// first those of its tokens, then of its grammar (C11 section 6.9), then of its types and names.
pub fn check_text(alloc: Global, rows: &[CallRow], text: &[u8]) -> Result<Checked, CFault>
    requires { length text.now ≤ 1048576 }
    // An answer is the text's: the program of its tree, or its first fault.
    ensures read { IsTextChecked rows.now text.now result }
    // A text that is a well-typed file is accepted, unless memory runs out.
    ensures all { (p : Program) → HasProgram rows.now text.now p → (result ≡ Ok p) ⊎ (result ≡ Err CFault.Memory) }
{
    match parse_text(alloc, text) {
        Err(fault) => Err(fault),
        Ok(tree) => check(alloc, rows, &tree),
    }
}
