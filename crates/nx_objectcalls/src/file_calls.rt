// `write`, `read` and `lseek` on files, by their rows.
ghost use Rattle.std.specs.Prelude.{◌≡◌, ◌<◌, ◌≤◌, ◌+◌, ◌*◌, ◌^◌, ℕ, List, Some, IfOk, length, slice_get};
ghost use Rattle.nx_pool.specs.declared.chain.Chain.{Chain};
ghost use Rattle.nx_ksys.specs.Threads.{Schedule, flat};
ghost use Rattle.nx_ksys.specs.State.{KernelState, free_blocks};
ghost use Rattle.nx_ksys.specs.Answers.{Caller};
ghost use Rattle.nx_ksys.specs.FileCalls.{write_file as write_row, read_file as read_row, seek_file as seek_row, lseek_row, longest_file};
ghost use Rattle.nx_path.specs.Rows.{answered};
ghost use Rattle.nx_fs.specs.Chains.{files_of, AreSized};
ghost use Rattle.nx_fs.specs.Rows.{opened_at};
ghost use Rattle.nx_objects.specs.Tables.{chains_of, with_objects};
ghost use Rattle.nx_objects.specs.Rows.{at_place};
ghost use Rattle.nx_objectcalls.specs.Rows.{bytes_told};

use crate::room::move_to;
use nx_base::Errno;
use nx_ksys::Target;
use nx_objects::{Found, Objects};
use nx_pool::BlockStore;

/// `write` to the file that a description was found to lead to: how many bytes were written.
pub fn write_file<B: BlockStore>(
    objects: &mut Objects,
    found: Found,
    file: u32,
    bytes: &[u8],
    blocks: &mut B,
) -> Result<u32, Errno>
    requires stands { flat (slice_get objects.old.descriptions found.place) ≡ Some found.description }
    requires few { length bytes.now < 2 ^ 32 }
    requires held { B.holds blocks.old (chains_of objects.old) }
    ensures row { (k : KernelState) (s : Schedule) (c : Caller) → let old = with_objects k s (B.content blocks.old) objects.old in free_blocks old ≡ B.free_blocks blocks.old
        → write_row old c (opened_at found.place found.description) file bytes.now (flat (slice_get old.tree.files file)) ≡ answered (with_objects k s (B.content blocks.new) objects.new) c result }
    ensures limit { objects.new.tree.limit ≡ objects.old.tree.limit }
    ensures held { B.holds blocks.new (chains_of objects.new) }
    ensures alike { B.alike blocks.old blocks.new }
{
    match objects.files.write(file, found.description, bytes, blocks) {
        Err(fault) => Err(fault),
        Ok(moved) => {
            move_to(objects, found, moved.end);
            Ok(moved.count)
        }
    }
}

/// `read` from the file that a description was found to lead to, into a buffer: how many bytes were
/// read.
pub fn read_file<B: BlockStore>(
    objects: &mut Objects,
    found: Found,
    file: u32,
    into: &mut [u8],
    blocks: &B,
) -> Result<u32, Errno>
    requires stands { flat (slice_get objects.old.descriptions found.place) ≡ Some found.description }
    requires few { length into.old ≤ 4096 }
    requires short { (bytes : List ℕ) → flat (slice_get (files_of (B.content blocks.now) objects.old.files) file) ≡ Some bytes → length bytes ≤ longest_file }
    requires held { B.holds blocks.now (chains_of objects.old) }
    ensures row { (k : KernelState) (s : Schedule) (c : Caller) → let old = with_objects k s (B.content blocks.now) objects.old in
        read_row old c (opened_at found.place found.description) (length into.old) (flat (slice_get old.tree.files file)) ≡ bytes_told (with_objects k s (B.content blocks.now) objects.new) c into.new result }
    ensures few { IfOk result (λ count. count ≤ length into.new) }
    ensures same { length into.new ≡ length into.old }
    ensures limit { objects.new.tree.limit ≡ objects.old.tree.limit }
    ensures chains { chains_of objects.new ≡ chains_of objects.old }
{
    match objects.files.read(file, found.description, into, blocks) {
        Err(fault) => Err(fault),
        Ok(count) => {
            move_to(objects, found, found.description.offset + count as u32);
            Ok(count as u32)
        }
    }
}

// `lseek` on a file.
fn seek_file(
    objects: &mut Objects,
    found: Found,
    file: u32,
    word: u32,
    whence: u32,
) -> Result<u32, Errno>
    requires stands { flat (slice_get objects.old.descriptions found.place) ≡ Some found.description }
    ensures row { (k : KernelState) (s : Schedule) (content : Chain → List ℕ) (c : Caller) → AreSized content → let old = with_objects k s content objects.old in
        seek_row old c (opened_at found.place found.description) word whence (flat (slice_get old.tree.files file)) ≡ answered (with_objects k s content objects.new) c result }
    ensures limit { objects.new.tree.limit ≡ objects.old.tree.limit }
    ensures chains { chains_of objects.new ≡ chains_of objects.old }
{
    match objects.files.seek(file, found.description, word, whence) {
        Err(fault) => Err(fault),
        Ok(offset) => {
            move_to(objects, found, offset);
            Ok(offset)
        }
    }
}

/// `lseek` by a group at a place: the new offset.
#[tactic(auto, unfolding(nx_ksys::specs::FileCalls::lseek_row))]
pub fn seek(
    objects: &mut Objects,
    group: u32,
    fd: u32,
    word: u32,
    whence: u32,
) -> Result<u32, Errno>
    requires { 32 * group + 32 ≤ length objects.old.descriptors }
    ensures row { (k : KernelState) (s : Schedule) (content : Chain → List ℕ) (c : Caller) → AreSized content
        → lseek_row (with_objects k s content objects.old) (at_place c group) fd word whence ≡ answered (with_objects k s content objects.new) (at_place c group) result }
    ensures limit { objects.new.tree.limit ≡ objects.old.tree.limit }
    ensures chains { chains_of objects.new ≡ chains_of objects.old }
{
    match objects.opened(group, fd) {
        None => Err(Errno::Ebadf),
        Some(found) => match found.description.target {
            Target::File(file) => seek_file(objects, found, file, word, whence),
            Target::Console => Err(Errno::Einval),
            Target::Null => Err(Errno::Einval),
            Target::Queue(_) => Err(Errno::Ebadf),
            Target::Semaphore(_) => Err(Errno::Ebadf),
        },
    }
}
