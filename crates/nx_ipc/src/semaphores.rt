ghost use Rattle.std.specs.Prelude.{◌≡◌, ◌<◌, ◌≤◌, ◌+◌, ◌-◌, ℕ, List, [], Bool, true, false, Some, None, Ok, IfOk, IfSome, IsSome, length, option_map, map, replicate, nat_le, slice_get, slice_set, if◌then◌else◌};
ghost use Rattle.std.specs.List.{list_any, position_from, count_by};
ghost use Rattle.std.specs.Option.{is_some, is_none};
ghost use Rattle.nx_ksys.specs.declared.thread.Search.TheVariants as search;
ghost use Rattle.nx_ksys.specs.Threads.{flat, first_of};
ghost use Rattle.nx_ksys.specs.State.{KernelState, objects};
ghost use Rattle.nx_ksys.specs.Answers.{Caller};
ghost use Rattle.nx_ksys.specs.Descriptors.{kept_if};
ghost use Rattle.nx_ksys.specs.SemaphoreCalls.{is_semaphore_name, are_semaphore_flags, has_name, sem_open_row, create_semaphore, semaphore_there, wait_on, try_on, post_on};
ghost use Rattle.nx_ipc.specs.declared.opening.Opening.TheVariants as opening;
ghost use Rattle.nx_ipc.specs.Semaphores.{with_semaphores, opens_semaphore, wait_told, done, post_told};

use crate::opening::{Opening, has_flag, has_slash};
use arrayvec::ArrayVec;
use nx_base::{Errno, OutOfMemory};
use nx_ksys::Thread;
use std::alloc::{AllocError, Global};
use std::marker::Model;

/// The greatest value of a semaphore.
const MOST_POSTS: u32 = 32767;

/// What a wait came to.
#[derive(Clone, Copy, Debug)]
pub enum Waited {
    /// It took one.
    Taken,
    /// There is none: the caller waits.
    Waits,
}

/// What a post came to.
#[derive(Clone, Copy, Debug)]
pub enum Posted {
    /// There is one more.
    Counted,
    /// This thread waited, and goes on.
    Woke(Thread),
}

/// A semaphore: its name, and how many may be taken.
#[derive(Debug, Drop)]
struct Semaphore {
    name: ArrayVec<u8, 32>,
    value: u32,
}

impl Model for Semaphore {
    ghost use Rattle.nx_ksys.specs.State.{Semaphore as NamedCount};

    ghost Value = { NamedCount };

    ghost view = { λ s. record { name = s.name.items; value = s.value } };
}

fn copied(name: &[u8]) -> ArrayVec<u8, 32>
    requires { length name.now ≤ 32 }
    ensures { result.items ≡ name.now }
{
    let mut copy = ArrayVec::new();
    for byte in name {
        copy.push(*byte);
    }
    copy
}

impl Semaphore {
    fn new(name: &[u8], value: u32) -> Semaphore
        requires { length name.now ≤ 32 }
        ensures { result ≡ record { name = name.now; value = value } }
    {
        Semaphore {
            name: copied(name),
            value,
        }
    }

    fn name(&self) -> &[u8]
        ensures { result.now ≡ self.now.name }
    {
        self.name.as_slice()
    }

    fn value(&self) -> u32
        ensures { result ≡ self.now.value }
    {
        self.value
    }

    fn set(&mut self, value: u32)
        ensures { self.new ≡ record self.old { value = value } }
    {
        self.value = value;
    }
}

/// Semaphores by place. The places are taken when it is made. Contracts see the semaphores of the
/// kernel's state.
#[derive(Debug, Drop)]
pub struct Semaphores {
    items: Vec<Option<Semaphore>>,
}

impl Model for Semaphores {
    ghost use Rattle.std.specs.Prelude.{◌≤◌, List, Option, vec_len};
    ghost use Rattle.nx_ksys.specs.State.{Semaphore as NamedCount};

    ghost Value = { List (Option NamedCount) };

    ghost view = { λ s. s.items.items };

    ghost invariant = { λ s. vec_len s.items ≤ 65536 };
}

fn no_semaphores(alloc: Global, places: u32) -> Result<Vec<Option<Semaphore>>, AllocError>
    ensures { IfOk result (λ v. v.items ≡ replicate places None) }
{
    let mut items = Vec::new(alloc);
    for _ in 0..places {
        items.push(None)?;
    }
    Ok(items)
}

fn first_free(semaphores: &[Option<Semaphore>]) -> Option<u32>
    requires { length semaphores.now ≤ 65536 }
    ensures { result ≡ position_from is_none 0 semaphores.now }
{
    for (place, semaphore) in semaphores.iter().enumerate() {
        if semaphore.is_none() {
            return Some(place as u32);
        }
    }
    None
}

fn is_named(name: &[u8], semaphore: &Option<Semaphore>) -> bool
    ensures { result ≡ has_name name.now semaphore.now }
{
    match semaphore {
        None => false,
        Some(semaphore) => name == semaphore.name(),
    }
}

fn first_named(name: &[u8], semaphores: &[Option<Semaphore>]) -> Option<u32>
    requires { length semaphores.now ≤ 65536 }
    ensures { result ≡ position_from (has_name name.now) 0 semaphores.now }
{
    for (place, semaphore) in semaphores.iter().enumerate() {
        if is_named(name, semaphore) {
            return Some(place as u32);
        }
    }
    None
}

fn count_one(semaphore: &Option<Semaphore>) -> usize
    ensures count { result ≡ (if is_some semaphore.now then 1 else 0) }
    ensures few { result ≤ 1 }
{
    match semaphore {
        None => 0,
        Some(_) => 1,
    }
}

fn count_all(semaphores: &[Option<Semaphore>]) -> usize
    ensures { result ≡ count_by is_some semaphores.now }
{
    let mut count = 0;
    for semaphore in semaphores {
        count += count_one(semaphore);
    }
    count
}

fn value_at(semaphores: &[Option<Semaphore>], place: u32) -> Option<u32>
    ensures { result ≡ option_map (λ s. s.value) (flat (slice_get semaphores.now place)) }
{
    match semaphores.get(place as usize) {
        Some(Some(semaphore)) => Some(semaphore.value()),
        _ => None,
    }
}

fn set_at(semaphores: &mut [Option<Semaphore>], place: u32, value: u32)
    requires { IsSome (flat (slice_get semaphores.old place)) }
    ensures { IfSome (flat (slice_get semaphores.old place)) (λ s. semaphores.new ≡ slice_set semaphores.old place (Some (record s { value = value }))) }
{
    if place as usize >= semaphores.len() {
        return;
    }
    match &mut semaphores[place as usize] {
        None => {}
        Some(semaphore) => semaphore.set(value),
    }
}

fn is_name(name: &[u8]) -> bool
    ensures { result ≡ is_semaphore_name name.now }
{
    1 <= name.len() && name.len() <= 32 && !has_slash(name)
}

fn are_flags(flags: u32) -> bool
    ensures { result ≡ are_semaphore_flags flags }
{
    flags == 0 || flags == 4 || flags == 8 || flags == 12
}

fn create(flags: u32, value: u32, is_full: bool, free: Option<u32>) -> Result<Opening, Errno>
    ensures row { (k : KernelState) (c : Caller) (name : List ℕ) → nat_le k.limits.objects (objects k) ≡ is_full → position_from is_none 0 k.semaphores ≡ free
        → create_semaphore k c name flags value ≡ opens_semaphore k c name flags value result }
    ensures free { (place : ℕ) → result ≡ Ok (opening.Made place) → free ≡ Some place }
{
    if !has_flag(flags, 4) {
        return Err(Errno::Enoent);
    }
    if value > MOST_POSTS {
        return Err(Errno::Einval);
    }
    if is_full {
        return Err(Errno::Enospc);
    }
    match free {
        None => Err(Errno::Enospc),
        Some(place) => Ok(Opening::Made(place)),
    }
}

impl Semaphores {
    /// No semaphore, and so many places, at most 65,536.
    pub fn new(alloc: Global, places: u32) -> Result<Semaphores, OutOfMemory>
        requires { places ≤ 65536 }
        ensures { IfOk result (λ s. s ≡ replicate places None) }
    {
        let items = no_semaphores(alloc, places)?;
        Ok(Semaphores { items })
    }

    /// How many places there are.
    pub fn places(&self) -> usize
        ensures { result ≡ length self.now }
    {
        self.items.len()
    }

    /// How many semaphores live.
    pub fn count(&self) -> usize
        ensures { result ≡ count_by is_some self.now }
    {
        count_all(self.items.as_slice())
    }

    /// Whether there is a semaphore at a place.
    pub fn has(&self, place: u32) -> bool
        ensures { result ≡ is_some (flat (slice_get self.now place)) }
    {
        value_at(self.items.as_slice(), place).is_some()
    }

    /// What `nx_sem_open` finds or makes. EINVAL for a name that hasn't 1 to 32 bytes or has a slash,
    /// and for flags beyond O_CREAT and O_EXCL; EEXIST under both; where no semaphore has the name
    /// ENOENT without O_CREAT, EINVAL for a value over 32,767, ENOSPC where the objects are at their
    /// limit.
    #[tactic(auto, unfolding(nx_ksys::specs::SemaphoreCalls::sem_open_row))]
    pub fn open(&self, name: &[u8], flags: u32, value: u32, is_full: bool) -> Result<Opening, Errno>
        ensures row { (k : KernelState) (c : Caller) → nat_le k.limits.objects (objects (with_semaphores k self.now)) ≡ is_full
            → sem_open_row (with_semaphores k self.now) c name.now flags value ≡ opens_semaphore (with_semaphores k self.now) c name.now flags value result }
        ensures free { (made : ℕ) → result ≡ Ok (opening.Made made) → slice_get self.now made ≡ Some None }
        ensures short { (place : ℕ) → result ≡ Ok (opening.Made place) → length name.now ≤ 32 }
    {
        if !(is_name(name) && are_flags(flags)) {
            return Err(Errno::Einval);
        }
        match first_named(name, self.items.as_slice()) {
            None => create(flags, value, is_full, first_free(self.items.as_slice())),
            Some(place) => {
                if has_flag(flags, 4) && has_flag(flags, 8) {
                    return Err(Errno::Eexist);
                }
                Ok(Opening::Found(place))
            }
        }
    }

    /// A new semaphore comes to a free place.
    pub fn make(&mut self, place: u32, name: &[u8], value: u32)
        requires free { slice_get self.old place ≡ Some None }
        requires short { length name.now ≤ 32 }
        ensures { self.new ≡ slice_set self.old place (Some (record { name = name.now; value = value })) }
    {
        self.items[place as usize] = Some(Semaphore::new(name, value));
    }

    /// `nx_sem_wait` on the semaphore at a place. EBADF where there is none.
    pub fn wait(&mut self, place: u32) -> Result<Waited, Errno>
        ensures { (k : KernelState) (c : Caller) → wait_on (with_semaphores k self.old) c (semaphore_there place (flat (slice_get self.old place))) ≡ wait_told (with_semaphores k self.new) c place result }
    {
        match value_at(self.items.as_slice(), place) {
            None => Err(Errno::Ebadf),
            Some(value) => {
                if value == 0 {
                    return Ok(Waited::Waits);
                }
                set_at(&mut self.items, place, value - 1);
                Ok(Waited::Taken)
            }
        }
    }

    /// `nx_sem_trywait` on the semaphore at a place. EBADF where there is none, EAGAIN at 0.
    pub fn try_wait(&mut self, place: u32) -> Result<(), Errno>
        ensures { (k : KernelState) (c : Caller) → try_on (with_semaphores k self.old) c (semaphore_there place (flat (slice_get self.old place))) ≡ done (with_semaphores k self.new) c result }
    {
        match value_at(self.items.as_slice(), place) {
            None => Err(Errno::Ebadf),
            Some(value) => {
                if value == 0 {
                    return Err(Errno::Eagain);
                }
                set_at(&mut self.items, place, value - 1);
                Ok(())
            }
        }
    }

    /// `nx_sem_post` to the semaphore at a place; `waiter` is the first thread that waits on it, and
    /// goes on. EBADF where there is none, EINVAL at 32,767.
    pub fn post(&mut self, place: u32, waiter: Option<Thread>) -> Result<Posted, Errno>
        ensures { (k : KernelState) (c : Caller) → first_of (search.Waiter place) k.sched.threads ≡ waiter
            → post_on (with_semaphores k self.old) c (semaphore_there place (flat (slice_get self.old place))) ≡ post_told (with_semaphores k self.new) c result }
    {
        match value_at(self.items.as_slice(), place) {
            None => Err(Errno::Ebadf),
            Some(value) => {
                if value >= MOST_POSTS {
                    return Err(Errno::Einval);
                }
                match waiter {
                    None => {
                        set_at(&mut self.items, place, value + 1);
                        Ok(Posted::Counted)
                    }
                    Some(thread) => Ok(Posted::Woke(thread)),
                }
            }
        }
    }

    /// The semaphore at a place goes, if it lives no more.
    pub fn sweep(&mut self, place: u32, lives: bool)
        ensures { self.new ≡ kept_if lives self.old place }
    {
        if lives {
            return;
        }
        if place as usize >= self.items.len() {
            return;
        }
        self.items[place as usize] = None;
    }
}
