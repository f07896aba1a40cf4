ghost use Rattle.std.specs.Prelude.{◌≡◌, ◌<◌, ◌≤◌, ◌+◌, ◌*◌, Option, Some, None, IfOk, length, replicate};
ghost use Rattle.std.specs.List.{position_from, list_any};
ghost use Rattle.std.specs.Option.{is_none};
ghost use Rattle.nx_ksys.specs.Descriptors.{description_at, free_descriptor, set_descriptor, is_at, is_held};
ghost use Rattle.nx_ksys.specs.GroupCalls.{with_streams};

use nx_base::OutOfMemory;
use std::alloc::Global;
use std::marker::Model;

/// Descriptors of a group.
pub const PER_GROUP: usize = 32;

/// The descriptors of all groups: number d of the group at a place stands at 32 times that place
/// and d, and has the place of its open description. All memory is taken when it is made.
#[derive(Debug, Drop)]
pub struct Descriptors {
    items: Vec<Option<u32>>,
}

impl Model for Descriptors {
    ghost use Rattle.std.specs.Prelude.{List, Option, ℕ};

    ghost Value = { List (Option ℕ) };

    ghost view = { λ d. d.items.items };
}

fn leads_to(description: u32, descriptor: Option<u32>) -> bool
    ensures { result ≡ is_at description descriptor }
{
    match descriptor {
        None => false,
        Some(place) => place == description,
    }
}

fn any_leads_to(description: u32, descriptors: &[Option<u32>]) -> bool
    ensures { result ≡ list_any (is_at description) descriptors.now }
{
    descriptors
        .iter()
        .any(|descriptor| leads_to(description, *descriptor))
}

fn first_closed(descriptors: &[Option<u32>]) -> Option<usize>
    ensures { result ≡ position_from is_none 0 descriptors.now }
{
    for (fd, descriptor) in descriptors.iter().enumerate() {
        if descriptor.is_none() {
            return Some(fd);
        }
    }
    None
}

impl Descriptors {
    /// All closed, for so many groups.
    pub fn new(alloc: Global, groups: u32) -> Result<Descriptors, OutOfMemory>
        requires { groups ≤ 64 }
        ensures { IfOk result (λ d. d ≡ replicate (32 * groups) None) }
    {
        let items = vec![in alloc; None; PER_GROUP * groups as usize]?;
        Ok(Descriptors { items })
    }

    /// The place of a descriptor's description, if it is open.
    pub fn get(&self, place: u32, fd: u32) -> Option<u32>
        requires { 32 * place + 32 ≤ length self.now }
        ensures { result ≡ description_at self.now place fd }
    {
        if fd < 32 {
            return self.items[PER_GROUP * place as usize + fd as usize];
        }
        None
    }

    /// The least closed descriptor of a group.
    #[tactic(auto, unfolding(nx_ksys::specs::Descriptors::free_descriptor))]
    pub fn free(&self, place: u32) -> Option<usize>
        requires { 32 * place + 32 ≤ length self.now }
        ensures { result ≡ free_descriptor self.now place }
    {
        let first = PER_GROUP * place as usize;
        first_closed(&self.items.as_slice()[first..first + PER_GROUP])
    }

    /// A descriptor leads to the description at a place, or is closed.
    pub fn set(&mut self, place: u32, fd: u32, to: Option<u32>)
        requires place { 32 * place + 32 ≤ length self.old }
        requires fd { fd < 32 }
        ensures { self.new ≡ set_descriptor self.old place fd to }
    {
        self.items[PER_GROUP * place as usize + fd as usize] = to;
    }

    /// Descriptors 0, 1 and 2 of a group lead to what those of another do.
    pub fn share_streams(&mut self, from: u32, to: u32)
        requires from { 32 * from + 32 ≤ length self.old }
        requires to { 32 * to + 32 ≤ length self.old }
        ensures { self.new ≡ with_streams self.old from to }
    {
        let streams = [self.get(from, 0), self.get(from, 1), self.get(from, 2)];
        self.set(to, 0, streams[0]);
        self.set(to, 1, streams[1]);
        self.set(to, 2, streams[2]);
    }

    /// Whether some descriptor leads to a description.
    pub fn has(&self, description: u32) -> bool
        ensures { result ≡ is_held description self.now }
    {
        any_leads_to(description, self.items.as_slice())
    }
}
