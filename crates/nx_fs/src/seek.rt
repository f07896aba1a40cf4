// Where a seek leads.
ghost use Rattle.std.specs.Prelude.{◌≡◌, ◌<◌, ℕ, List, length, Some, Ok, Err, option_map};
ghost use Rattle.nx_ksys.specs.FileCalls.{moved_by, seek_from, sought};
ghost use Rattle.nx_ksys.specs.Answers.{Caller};
ghost use Rattle.nx_ksys.specs.State.{KernelState};
ghost use Rattle.nx_ksys.specs.FileCalls.{seek_to};
ghost use Rattle.nx_fs.specs.Rows.{opened_at, seek_told};

use nx_base::Errno;
use nx_ksys::Open;

fn move_by(from: u32, word: u32) -> Option<u64>
    ensures { result ≡ moved_by from word }
{
    if word < 2147483648 {
        return Some(from as u64 + word as u64);
    }
    let back = 4294967296 - word as u64;
    if back <= from as u64 {
        Some(from as u64 - back)
    } else {
        None
    }
}

fn start_of(size: u32, description: Open, whence: u32) -> Option<u32>
    ensures { (content : List ℕ) → length content ≡ size → result ≡ seek_from content description whence }
{
    match whence {
        0 => Some(0),
        1 => Some(description.offset),
        2 => Some(size),
        _ => None,
    }
}

fn offset_of(sought: Option<u64>) -> Result<u32, Errno>
    ensures { (k : KernelState) (c : Caller) (at : ℕ) (description : _) → seek_to k c (opened_at at description) sought ≡ seek_told k c at description result }
{
    match sought {
        None => Err(Errno::Einval),
        Some(offset) => if offset > 2147483647 {
            Err(Errno::Einval)
        } else {
            Ok(offset as u32)
        },
    }
}

/// The offset that a signed word leads to: from the start for 0, from here for 1, from the end of a
/// file of so many bytes for 2. EINVAL for another third word, and where it is below 0 or over
/// 2,147,483,647.
pub fn seek(size: u32, description: Open, word: u32, whence: u32) -> Result<u32, Errno>
    ensures { (content : List ℕ) → length content ≡ size → (k : KernelState) (c : Caller) (at : ℕ) → seek_to k c (opened_at at description) (sought (seek_from content description whence) word) ≡ seek_told k c at description result }
{
    match start_of(size, description, whence) {
        None => Err(Errno::Einval),
        Some(from) => offset_of(move_by(from, word)),
    }
}
