// Calls on paths, each by its row. Where the group that calls isn't there, nothing happens.
ghost use Rattle.std.specs.Prelude.{◌≡◌, ◌<◌, ◌≤◌, ℕ, List, Some, false, nat_le, length, slice_get};
ghost use Rattle.nx_pool.specs.declared.chain.Chain.{Chain};
ghost use Rattle.nx_ksys.specs.Threads.{flat};
ghost use Rattle.nx_ksys.specs.State.{Group, objects};
ghost use Rattle.nx_ksys.specs.TreeCalls.{unlink_row, mkdir_row, chdir_row, getcwd_row, readdir_row, kind_row};
ghost use Rattle.nx_ksys.specs.Gathered.{replies_of};
ghost use Rattle.nx_kernel.specs.Doing.{Does, caller_of};
ghost use Rattle.nx_env.specs.Joined.{Variables, variables_at, with_variables};
ghost use Rattle.nx_objects.specs.Tables.{chains_of};
ghost use Rattle.nx_ktables.specs.State.{state_of, rooms_of, IsPlaced};

use crate::telling::tell_name;
use nx_kernel::Calling;
use nx_ksys::Replies;
use nx_ktables::{Tables, answer, done, tell_text};
use nx_objectcalls::is_full;
use nx_pool::BlockStore;

/// `unlink` by a thread of the group at a place.
pub fn unlink<B: BlockStore>(
    tables: &mut Tables,
    caller: Calling,
    place: u32,
    text: &[u8],
    blocks: &mut B,
    replies: &mut Replies,
)
    requires placed { IsPlaced tables.old }
    requires text { length text.now ≤ 260 }
    requires held { B.holds blocks.old (chains_of tables.old.objects) }
    requires room { length replies.old.replies < replies.old.room }
    ensures does { (g : Group) (variables : Variables) → flat (slice_get tables.old.groups place) ≡ Some g
        → Does (state_of (B.content blocks.new) tables.new) (replies_of replies.old.replies) (replies_of replies.new.replies) (unlink_row (state_of (B.content blocks.old) tables.old) (caller_of caller place (with_variables g variables)) text.now) }
    ensures held { B.holds blocks.new (chains_of tables.new.objects) }
    ensures alike { B.alike blocks.old blocks.new }
    ensures rooms { rooms_of tables.new ≡ rooms_of tables.old }
    ensures room { replies.new.room ≡ replies.old.room }
{
    match tables.groups.get(place) {
        None => {}
        Some(group) => {
            let outcome = nx_objectcalls::unlink(
                &mut tables.objects,
                group.directory(),
                text,
                &tables.threads,
                blocks,
            );
            done(caller, outcome, &mut tables.threads, replies);
        }
    }
}

/// `mkdir` by a thread of the group at a place.
pub fn make_directory(
    tables: &mut Tables,
    caller: Calling,
    place: u32,
    text: &[u8],
    replies: &mut Replies,
)
    requires text { length text.now ≤ 260 }
    requires paths { (content : Chain → List ℕ) → nat_le tables.old.limit (objects (state_of content tables.old)) ≡ false → length tables.old.objects.tree.entries < tables.old.objects.tree.limit }
    requires room { length replies.old.replies < replies.old.room }
    ensures does { (content : Chain → List ℕ) (g : Group) (variables : Variables) → flat (slice_get tables.old.groups place) ≡ Some g
        → Does (state_of content tables.new) (replies_of replies.old.replies) (replies_of replies.new.replies) (mkdir_row (state_of content tables.old) (caller_of caller place (with_variables g variables)) text.now) }
    ensures chains { chains_of tables.new.objects ≡ chains_of tables.old.objects }
    ensures rooms { rooms_of tables.new ≡ rooms_of tables.old }
    ensures room { replies.new.room ≡ replies.old.room }
{
    match tables.groups.get(place) {
        None => {}
        Some(group) => {
            let full = is_full(&tables.objects, tables.limit);
            let outcome = tables
                .objects
                .tree
                .make_directory(group.directory(), text, full);
            done(caller, outcome, &mut tables.threads, replies);
        }
    }
}

/// `chdir` by a thread of the group at a place.
pub fn enter(tables: &mut Tables, caller: Calling, place: u32, text: &[u8], replies: &mut Replies)
    requires place { place < length tables.old.groups }
    requires text { length text.now ≤ 260 }
    requires room { length replies.old.replies < replies.old.room }
    ensures does { (content : Chain → List ℕ) (g : Group) → flat (slice_get tables.old.groups place) ≡ Some g
        → Does (state_of content tables.new) (replies_of replies.old.replies) (replies_of replies.new.replies) (chdir_row (state_of content tables.old) (caller_of caller place (with_variables g (variables_at tables.old.environments place))) text.now) }
    ensures chains { chains_of tables.new.objects ≡ chains_of tables.old.objects }
    ensures rooms { rooms_of tables.new ≡ rooms_of tables.old }
    ensures room { replies.new.room ≡ replies.old.room }
{
    match tables.groups.get(place) {
        None => {}
        Some(group) => match tables.objects.tree.enter(group.directory(), text) {
            Err(fault) => done(caller, Err(fault), &mut tables.threads, replies),
            Ok(path) => {
                tables.groups.enter(place, path.as_slice());
                done(caller, Ok(()), &mut tables.threads, replies);
            }
        },
    }
}

/// `nx_getcwd` by a thread of the group at a place.
#[tactic(auto, unfolding(nx_ksys::specs::TreeCalls::getcwd_row))]
pub fn tell_directory(
    tables: &mut Tables,
    caller: Calling,
    place: u32,
    size: u32,
    replies: &mut Replies,
)
    requires room { length replies.old.replies < replies.old.room }
    ensures does { (content : Chain → List ℕ) (g : Group) (variables : Variables) → flat (slice_get tables.old.groups place) ≡ Some g
        → Does (state_of content tables.new) (replies_of replies.old.replies) (replies_of replies.new.replies) (getcwd_row (state_of content tables.old) (caller_of caller place (with_variables g variables)) size) }
    ensures chains { chains_of tables.new.objects ≡ chains_of tables.old.objects }
    ensures rooms { rooms_of tables.new ≡ rooms_of tables.old }
    ensures room { replies.new.room ≡ replies.old.room }
{
    match tables.groups.get(place) {
        None => {}
        Some(group) => {
            let text = nx_path::shown(group.directory());
            tell_text(caller, size, text, &mut tables.threads, replies);
        }
    }
}

/// `nx_readdir` by a thread of the group at a place.
pub fn list(
    tables: &mut Tables,
    caller: Calling,
    place: u32,
    text: &[u8],
    index: u32,
    size: u32,
    replies: &mut Replies,
)
    requires text { length text.now ≤ 260 }
    requires room { length replies.old.replies < replies.old.room }
    ensures does { (content : Chain → List ℕ) (g : Group) (variables : Variables) → flat (slice_get tables.old.groups place) ≡ Some g
        → Does (state_of content tables.new) (replies_of replies.old.replies) (replies_of replies.new.replies) (readdir_row (state_of content tables.old) (caller_of caller place (with_variables g variables)) text.now index size) }
    ensures chains { chains_of tables.new.objects ≡ chains_of tables.old.objects }
    ensures rooms { rooms_of tables.new ≡ rooms_of tables.old }
    ensures room { replies.new.room ≡ replies.old.room }
{
    match tables.groups.get(place) {
        None => {}
        Some(group) => {
            let name = tables.objects.tree.list(group.directory(), text, index);
            tell_name(caller, size, name, &mut tables.threads, replies);
        }
    }
}

/// `nx_kind` by a thread of the group at a place.
pub fn kind(tables: &mut Tables, caller: Calling, place: u32, text: &[u8], replies: &mut Replies)
    requires text { length text.now ≤ 260 }
    requires room { length replies.old.replies < replies.old.room }
    ensures does { (content : Chain → List ℕ) (g : Group) (variables : Variables) → flat (slice_get tables.old.groups place) ≡ Some g
        → Does (state_of content tables.new) (replies_of replies.old.replies) (replies_of replies.new.replies) (kind_row (state_of content tables.old) (caller_of caller place (with_variables g variables)) text.now) }
    ensures chains { chains_of tables.new.objects ≡ chains_of tables.old.objects }
    ensures rooms { rooms_of tables.new ≡ rooms_of tables.old }
    ensures room { replies.new.room ≡ replies.old.room }
{
    match tables.groups.get(place) {
        None => {}
        Some(group) => {
            let number = tables.objects.tree.kind(group.directory(), text);
            answer(caller, number, &mut tables.threads, replies);
        }
    }
}
