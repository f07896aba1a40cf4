// Calls on files and devices, each by its row.
ghost use Rattle.std.specs.Prelude.{◌≡◌, ◌<◌, ◌≤◌, ◌+◌, ◌-◌, ℕ, List, Some, false, length, min, nat_le, slice_get};
ghost use Rattle.nx_base.specs.Replies.{most_moved};
ghost use Rattle.nx_pool.specs.declared.chain.Chain.{Chain};
ghost use Rattle.nx_ksys.specs.Threads.{flat};
ghost use Rattle.nx_ksys.specs.State.{Group, free_blocks, objects};
ghost use Rattle.nx_ksys.specs.FileCalls.{write_row, write_some, write_target as write_target_row, read_row, read_target as read_target_row, open_row, lseek_row, longest_file};
ghost use Rattle.nx_ksys.specs.Gathered.{replies_of};
ghost use Rattle.nx_kernel.specs.Doing.{Does, caller_of};
ghost use Rattle.nx_env.specs.Joined.{Variables, with_variables};
ghost use Rattle.nx_fs.specs.Chains.{files_of, AreSized};
ghost use Rattle.nx_fs.specs.Rows.{opened_at};
ghost use Rattle.nx_objects.specs.Tables.{chains_of};
ghost use Rattle.nx_ktables.specs.State.{state_of, rooms_of, IsPlaced};

use crate::telling::tell_read;
use nx_base::Errno;
use nx_kernel::{Calling, read_console, write_console};
use nx_ksys::{MOST_MOVED, Replies, Target};
use nx_ktables::{Tables, answer, done};
use nx_objectcalls::{is_full, read_file, readable, seek, writable, write_file};
use nx_objects::Found;
use nx_pool::BlockStore;

// `write` of at least one byte to what a description was found to lead to.
fn write_target<B: BlockStore>(
    tables: &mut Tables,
    caller: Calling,
    found: Found,
    bytes: &[u8],
    blocks: &mut B,
    replies: &mut Replies,
)
    requires stands { flat (slice_get tables.old.objects.descriptions found.place) ≡ Some found.description }
    requires few { length bytes.now ≤ 4096 }
    requires held { B.holds blocks.old (chains_of tables.old.objects) }
    requires free { free_blocks (state_of (B.content blocks.old) tables.old) ≡ B.free_blocks blocks.old }
    requires room { length replies.old.replies < replies.old.room }
    ensures does { (place : ℕ) (group : Group) → Does (state_of (B.content blocks.new) tables.new) (replies_of replies.old.replies) (replies_of replies.new.replies) (write_target_row (state_of (B.content blocks.old) tables.old) (caller_of caller place group) (opened_at found.place found.description) bytes.now found.description.target) }
    ensures held { B.holds blocks.new (chains_of tables.new.objects) }
    ensures alike { B.alike blocks.old blocks.new }
    ensures rooms { rooms_of tables.new ≡ rooms_of tables.old }
    ensures room { replies.new.room ≡ replies.old.room }
{
    match found.description.target {
        Target::File(file) => {
            let count = write_file(&mut tables.objects, found, file, bytes, blocks);
            answer(caller, count, &mut tables.threads, replies);
        }
        Target::Console => write_console(
            caller,
            bytes,
            &mut tables.terminal,
            &mut tables.threads,
            replies,
        ),
        Target::Null => answer(caller, Ok(bytes.len() as u32), &mut tables.threads, replies),
        Target::Queue(_) => answer(caller, Ok(bytes.len() as u32), &mut tables.threads, replies),
        Target::Semaphore(_) => answer(
            caller,
            Ok(bytes.len() as u32),
            &mut tables.threads,
            replies,
        ),
    }
}

// `write` to what a description was found to lead to.
fn write_found<B: BlockStore>(
    tables: &mut Tables,
    caller: Calling,
    found: Found,
    bytes: &[u8],
    blocks: &mut B,
    replies: &mut Replies,
)
    requires stands { flat (slice_get tables.old.objects.descriptions found.place) ≡ Some found.description }
    requires few { length bytes.now ≤ 4096 }
    requires held { B.holds blocks.old (chains_of tables.old.objects) }
    requires free { free_blocks (state_of (B.content blocks.old) tables.old) ≡ B.free_blocks blocks.old }
    requires room { length replies.old.replies < replies.old.room }
    ensures does { (place : ℕ) (group : Group) → Does (state_of (B.content blocks.new) tables.new) (replies_of replies.old.replies) (replies_of replies.new.replies) (write_some (state_of (B.content blocks.old) tables.old) (caller_of caller place group) (opened_at found.place found.description) bytes.now) }
    ensures held { B.holds blocks.new (chains_of tables.new.objects) }
    ensures alike { B.alike blocks.old blocks.new }
    ensures rooms { rooms_of tables.new ≡ rooms_of tables.old }
    ensures room { replies.new.room ≡ replies.old.room }
{
    if bytes.is_empty() {
        done(caller, Ok(()), &mut tables.threads, replies);
        return;
    }
    write_target(tables, caller, found, bytes, blocks, replies);
}

/// `write` by a thread of the group at a place: as many bytes as the free blocks, the longest file
/// or the console's room allow.
pub fn write<B: BlockStore>(
    tables: &mut Tables,
    caller: Calling,
    place: u32,
    fd: u32,
    bytes: &[u8],
    blocks: &mut B,
    replies: &mut Replies,
)
    requires place { place < length tables.old.threads.threads }
    requires placed { IsPlaced tables.old }
    requires few { length bytes.now ≤ 4096 }
    requires held { B.holds blocks.old (chains_of tables.old.objects) }
    requires free { free_blocks (state_of (B.content blocks.old) tables.old) ≡ B.free_blocks blocks.old }
    requires room { length replies.old.replies < replies.old.room }
    ensures does { (group : Group) → Does (state_of (B.content blocks.new) tables.new) (replies_of replies.old.replies) (replies_of replies.new.replies) (write_row (state_of (B.content blocks.old) tables.old) (caller_of caller place group) fd bytes.now) }
    ensures held { B.holds blocks.new (chains_of tables.new.objects) }
    ensures alike { B.alike blocks.old blocks.new }
    ensures rooms { rooms_of tables.new ≡ rooms_of tables.old }
    ensures room { replies.new.room ≡ replies.old.room }
{
    match writable(&tables.objects, place, fd) {
        Err(fault) => done(caller, Err(fault), &mut tables.threads, replies),
        Ok(found) => write_found(tables, caller, found, bytes, blocks, replies),
    }
}

// `read` from what a description was found to lead to, into a buffer.
fn read_target<B: BlockStore>(
    tables: &mut Tables,
    caller: Calling,
    found: Found,
    into: &mut [u8],
    blocks: &B,
    replies: &mut Replies,
)
    requires stands { flat (slice_get tables.old.objects.descriptions found.place) ≡ Some found.description }
    requires few { length into.old ≤ 4096 }
    requires short { (file : ℕ) (bytes : List ℕ) → flat (slice_get (files_of (B.content blocks.now) tables.old.objects.files) file) ≡ Some bytes → length bytes ≤ longest_file }
    requires held { B.holds blocks.now (chains_of tables.old.objects) }
    requires room { length replies.old.replies < replies.old.room }
    ensures does { (place : ℕ) (group : Group) → Does (state_of (B.content blocks.now) tables.new) (replies_of replies.old.replies) (replies_of replies.new.replies) (read_target_row (state_of (B.content blocks.now) tables.old) (caller_of caller place group) (opened_at found.place found.description) (length into.old) found.description.target) }
    ensures same { length into.new ≡ length into.old }
    ensures chains { chains_of tables.new.objects ≡ chains_of tables.old.objects }
    ensures rooms { rooms_of tables.new ≡ rooms_of tables.old }
    ensures room { replies.new.room ≡ replies.old.room }
{
    match found.description.target {
        Target::File(file) => {
            let count = read_file(&mut tables.objects, found, file, into, blocks);
            tell_read(caller, count, into, &mut tables.threads, replies);
        }
        Target::Console => read_console(caller, into.len(), &mut tables.terminal, replies),
        Target::Null => done(caller, Ok(()), &mut tables.threads, replies),
        Target::Queue(_) => done(caller, Ok(()), &mut tables.threads, replies),
        Target::Semaphore(_) => done(caller, Ok(()), &mut tables.threads, replies),
    }
}

/// `read` by a thread of the group at a place, through a buffer.
pub fn read<B: BlockStore>(
    tables: &mut Tables,
    caller: Calling,
    place: u32,
    fd: u32,
    size: u32,
    buffer: &mut [u8],
    blocks: &B,
    replies: &mut Replies,
)
    requires place { place < length tables.old.threads.threads }
    requires placed { IsPlaced tables.old }
    requires buffer { length buffer.old ≡ 4096 }
    requires short { (file : ℕ) (bytes : List ℕ) → flat (slice_get (files_of (B.content blocks.now) tables.old.objects.files) file) ≡ Some bytes → length bytes ≤ longest_file }
    requires held { B.holds blocks.now (chains_of tables.old.objects) }
    requires room { length replies.old.replies < replies.old.room }
    ensures does { (group : Group) → Does (state_of (B.content blocks.now) tables.new) (replies_of replies.old.replies) (replies_of replies.new.replies) (read_row (state_of (B.content blocks.now) tables.old) (caller_of caller place group) fd size) }
    ensures buffer { length buffer.new ≡ 4096 }
    ensures chains { chains_of tables.new.objects ≡ chains_of tables.old.objects }
    ensures rooms { rooms_of tables.new ≡ rooms_of tables.old }
    ensures room { replies.new.room ≡ replies.old.room }
{
    match readable(&tables.objects, place, fd) {
        Err(fault) => done(caller, Err(fault), &mut tables.threads, replies),
        Ok(found) => {
            let room = (size as usize).min(MOST_MOVED);
            read_target(tables, caller, found, &mut buffer[..room], blocks, replies);
        }
    }
}

/// `open` by a thread of the group at a place.
pub fn open_file<B: BlockStore>(
    tables: &mut Tables,
    caller: Calling,
    place: u32,
    text: &[u8],
    flags: u32,
    blocks: &mut B,
    replies: &mut Replies,
)
    requires place { place < length tables.old.threads.threads }
    requires placed { IsPlaced tables.old }
    requires text { length text.now ≤ 260 }
    requires paths { (content : Chain → List ℕ) → nat_le tables.old.limit (objects (state_of content tables.old)) ≡ false → length tables.old.objects.tree.entries < tables.old.objects.tree.limit }
    requires held { B.holds blocks.old (chains_of tables.old.objects) }
    requires room { length replies.old.replies < replies.old.room }
    ensures does { (g : Group) (variables : Variables) → flat (slice_get tables.old.groups place) ≡ Some g
        → Does (state_of (B.content blocks.new) tables.new) (replies_of replies.old.replies) (replies_of replies.new.replies) (open_row (state_of (B.content blocks.old) tables.old) (caller_of caller place (with_variables g variables)) text.now flags) }
    ensures held { B.holds blocks.new (chains_of tables.new.objects) }
    ensures alike { B.alike blocks.old blocks.new }
    ensures rooms { rooms_of tables.new ≡ rooms_of tables.old }
    ensures room { replies.new.room ≡ replies.old.room }
{
    match tables.groups.get(place) {
        None => {}
        Some(group) => {
            let full = is_full(&tables.objects, tables.limit);
            let new = nx_objectcalls::open_file(
                &mut tables.objects,
                place,
                group.directory(),
                text,
                flags,
                full,
                blocks,
            );
            answer(caller, new, &mut tables.threads, replies);
        }
    }
}

/// `lseek` by a thread of the group at a place.
pub fn lseek(
    tables: &mut Tables,
    caller: Calling,
    place: u32,
    fd: u32,
    word: u32,
    whence: u32,
    replies: &mut Replies,
)
    requires place { place < length tables.old.threads.threads }
    requires placed { IsPlaced tables.old }
    requires room { length replies.old.replies < replies.old.room }
    ensures does { (content : Chain → List ℕ) (group : Group) → AreSized content → Does (state_of content tables.new) (replies_of replies.old.replies) (replies_of replies.new.replies) (lseek_row (state_of content tables.old) (caller_of caller place group) fd word whence) }
    ensures chains { chains_of tables.new.objects ≡ chains_of tables.old.objects }
    ensures rooms { rooms_of tables.new ≡ rooms_of tables.old }
    ensures room { replies.new.room ≡ replies.old.room }
{
    let offset = seek(&mut tables.objects, place, fd, word, whence);
    answer(caller, offset, &mut tables.threads, replies);
}
