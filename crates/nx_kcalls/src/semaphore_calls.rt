// Calls on semaphores, each by its row.
ghost use Rattle.std.specs.Prelude.{◌≡◌, ◌<◌, ◌+◌, ◌^◌, ℕ, List, length};
ghost use Rattle.nx_pool.specs.declared.chain.Chain.{Chain};
ghost use Rattle.nx_ksys.specs.State.{Group, objects};
ghost use Rattle.nx_ksys.specs.SemaphoreCalls.{sem_open_row, sem_close_row, sem_wait_row, sem_trywait_row, sem_post_row};
ghost use Rattle.nx_ksys.specs.Gathered.{replies_of};
ghost use Rattle.nx_kernel.specs.Doing.{Does, caller_of};
ghost use Rattle.nx_objects.specs.Tables.{chains_of};
ghost use Rattle.nx_ktables.specs.State.{state_of, rooms_of, IsPlaced};

use crate::telling::{tell_posted, tell_waited};
use nx_base::Errno;
use nx_kernel::Calling;
use nx_ksys::{Replies, Search};
use nx_ktables::{Tables, answer, done};
use nx_objectcalls::{is_full, semaphore_at};
use nx_pool::BlockStore;

/// `nx_sem_open` by a thread of the group at a place.
pub fn open_semaphore(
    tables: &mut Tables,
    caller: Calling,
    place: u32,
    name: &[u8],
    flags: u32,
    value: u32,
    replies: &mut Replies,
)
    requires place { place < length tables.old.threads.threads }
    requires placed { IsPlaced tables.old }
    requires room { length replies.old.replies < replies.old.room }
    ensures does { (content : Chain → List ℕ) (group : Group) → Does (state_of content tables.new) (replies_of replies.old.replies) (replies_of replies.new.replies) (sem_open_row (state_of content tables.old) (caller_of caller place group) name.now flags value) }
    ensures chains { chains_of tables.new.objects ≡ chains_of tables.old.objects }
    ensures rooms { rooms_of tables.new ≡ rooms_of tables.old }
    ensures room { replies.new.room ≡ replies.old.room }
{
    let full = is_full(&tables.objects, tables.limit);
    let new = nx_objectcalls::open_semaphore(&mut tables.objects, place, name, flags, value, full);
    answer(caller, new, &mut tables.threads, replies);
}

/// `nx_sem_close` by a thread of the group at a place.
pub fn close_semaphore<B: BlockStore>(
    tables: &mut Tables,
    caller: Calling,
    place: u32,
    fd: u32,
    blocks: &mut B,
    replies: &mut Replies,
)
    requires place { place < length tables.old.threads.threads }
    requires placed { IsPlaced tables.old }
    requires held { B.holds blocks.old (chains_of tables.old.objects) }
    requires room { length replies.old.replies < replies.old.room }
    ensures does { (group : Group) → Does (state_of (B.content blocks.new) tables.new) (replies_of replies.old.replies) (replies_of replies.new.replies) (sem_close_row (state_of (B.content blocks.old) tables.old) (caller_of caller place group) fd) }
    ensures held { B.holds blocks.new (chains_of tables.new.objects) }
    ensures alike { B.alike blocks.old blocks.new }
    ensures rooms { rooms_of tables.new ≡ rooms_of tables.old }
    ensures room { replies.new.room ≡ replies.old.room }
{
    let outcome = nx_objectcalls::close_semaphore(
        &mut tables.objects,
        place,
        fd,
        &tables.threads,
        blocks,
    );
    done(caller, outcome, &mut tables.threads, replies);
}

/// `nx_sem_wait` by a thread of the group at a place.
#[tactic(auto, unfolding(nx_ksys::specs::SemaphoreCalls::sem_wait_row))]
pub fn wait(tables: &mut Tables, caller: Calling, place: u32, fd: u32, replies: &mut Replies)
    requires place { place < length tables.old.threads.threads }
    requires placed { IsPlaced tables.old }
    requires moments { tables.old.threads.moments + 1 < 2 ^ 64 }
    requires room { length replies.old.replies < replies.old.room }
    ensures does { (content : Chain → List ℕ) (group : Group) → Does (state_of content tables.new) (replies_of replies.old.replies) (replies_of replies.new.replies) (sem_wait_row (state_of content tables.old) (caller_of caller place group) fd) }
    ensures chains { chains_of tables.new.objects ≡ chains_of tables.old.objects }
    ensures rooms { rooms_of tables.new ≡ rooms_of tables.old }
    ensures room { replies.new.room ≡ replies.old.room }
{
    match semaphore_at(&tables.objects, place, fd) {
        None => done(caller, Err(Errno::Ebadf), &mut tables.threads, replies),
        Some(semaphore) => {
            let waited = tables.objects.semaphores.wait(semaphore);
            tell_waited(caller, semaphore, waited, &mut tables.threads, replies);
        }
    }
}

/// `nx_sem_trywait` by a thread of the group at a place.
#[tactic(auto, unfolding(nx_ksys::specs::SemaphoreCalls::sem_trywait_row))]
pub fn try_wait(tables: &mut Tables, caller: Calling, place: u32, fd: u32, replies: &mut Replies)
    requires place { place < length tables.old.threads.threads }
    requires placed { IsPlaced tables.old }
    requires room { length replies.old.replies < replies.old.room }
    ensures does { (content : Chain → List ℕ) (group : Group) → Does (state_of content tables.new) (replies_of replies.old.replies) (replies_of replies.new.replies) (sem_trywait_row (state_of content tables.old) (caller_of caller place group) fd) }
    ensures chains { chains_of tables.new.objects ≡ chains_of tables.old.objects }
    ensures rooms { rooms_of tables.new ≡ rooms_of tables.old }
    ensures room { replies.new.room ≡ replies.old.room }
{
    match semaphore_at(&tables.objects, place, fd) {
        None => done(caller, Err(Errno::Ebadf), &mut tables.threads, replies),
        Some(semaphore) => {
            let outcome = tables.objects.semaphores.try_wait(semaphore);
            done(caller, outcome, &mut tables.threads, replies);
        }
    }
}

/// `nx_sem_post` by a thread of the group at a place. A thread that waits goes on.
#[tactic(auto, unfolding(nx_ksys::specs::SemaphoreCalls::sem_post_row))]
pub fn post(tables: &mut Tables, caller: Calling, place: u32, fd: u32, replies: &mut Replies)
    requires place { place < length tables.old.threads.threads }
    requires placed { IsPlaced tables.old }
    requires moments { tables.old.threads.moments + 1 < 2 ^ 64 }
    requires room { length replies.old.replies + 1 < replies.old.room }
    ensures does { (content : Chain → List ℕ) (group : Group) → Does (state_of content tables.new) (replies_of replies.old.replies) (replies_of replies.new.replies) (sem_post_row (state_of content tables.old) (caller_of caller place group) fd) }
    ensures chains { chains_of tables.new.objects ≡ chains_of tables.old.objects }
    ensures rooms { rooms_of tables.new ≡ rooms_of tables.old }
    ensures room { replies.new.room ≡ replies.old.room }
{
    match semaphore_at(&tables.objects, place, fd) {
        None => done(caller, Err(Errno::Ebadf), &mut tables.threads, replies),
        Some(semaphore) => {
            let waiter = tables.threads.first(Search::Waiter(semaphore));
            let posted = tables.objects.semaphores.post(semaphore, waiter);
            tell_posted(caller, posted, &mut tables.threads, replies);
        }
    }
}
