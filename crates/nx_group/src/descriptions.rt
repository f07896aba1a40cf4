ghost use Rattle.std.specs.Prelude.{◌≡◌, ◌≤◌, ◌+◌, Option, Some, None, IsSome, IfOk, slice_get, slice_set, replicate};
ghost use Rattle.std.specs.List.{position_from, list_any};
ghost use Rattle.std.specs.Option.{is_none};
ghost use Rattle.slab.specs.Slab.{slab_len};
ghost use Rattle.nx_ksys.specs.Threads.{flat};
ghost use Rattle.nx_ksys.specs.Descriptors.{leads_to_file as leads_to_file_of, is_open_file};
ghost use Rattle.nx_group.specs.Places.{opens_file as opens_file_of, seen, AreKept};

use nx_base::OutOfMemory;
use nx_ksys::{Open, Target};
use slab::Slab;
use std::alloc::{AllocError, Global};
use std::marker::Model;

/// Open descriptions by place. They stand in a slab, and each place that has one keeps its key. All
/// memory is taken when it is made. Contracts see the descriptions by place, and no key.
#[derive(Drop)]
pub struct Descriptions {
    keys: Vec<Option<usize>>,
    slab: Slab<Open>,
}

impl Model for Descriptions {
    ghost use Rattle.std.specs.Prelude.{List, Option};
    ghost use Rattle.nx_ksys.specs.declared.node.Open.{Open};
    ghost use Rattle.nx_group.specs.Places.{seen, AreKept};

    ghost Value = { List (Option Open) };

    ghost view = { λ d. seen d.slab d.keys.items };

    ghost invariant = { λ d. AreKept d.slab d.keys.items };
}

fn key_at(keys: &[Option<usize>], place: usize) -> Option<usize>
    ensures { result ≡ flat (slice_get keys.now place) }
{
    match keys.get(place) {
        Some(Some(key)) => Some(*key),
        _ => None,
    }
}

fn first_free(keys: &[Option<usize>]) -> Option<usize>
    ensures { result ≡ position_from is_none 0 keys.now }
{
    for (place, key) in keys.iter().enumerate() {
        if key.is_none() {
            return Some(place);
        }
    }
    None
}

fn look(keys: &[Option<usize>], slab: &Slab<Open>, place: usize) -> Option<Open>
    ensures { result ≡ flat (slice_get (seen slab.now keys.now) place) }
{
    match key_at(keys, place) {
        None => None,
        Some(key) => slab.get(key).copied(),
    }
}

fn put(keys: &mut [Option<usize>], slab: &mut Slab<Open>, place: usize, description: Open)
    requires kept { AreKept slab.old keys.old }
    requires free { slice_get keys.old place ≡ Some None }
    ensures kept { AreKept slab.new keys.new }
    ensures seen { seen slab.new keys.new ≡ slice_set (seen slab.old keys.old) place (Some description) }
{
    let key = slab.insert_reserved(description);
    keys[place] = Some(key);
}

fn replace(keys: &[Option<usize>], slab: &mut Slab<Open>, place: usize, description: Open)
    requires kept { AreKept slab.old keys.now }
    requires there { IsSome (flat (slice_get keys.now place)) }
    ensures kept { AreKept slab.new keys.now }
    ensures seen { seen slab.new keys.now ≡ slice_set (seen slab.old keys.now) place (Some description) }
{
    if let Some(key) = key_at(keys, place) {
        match slab.get_mut(key) {
            None => {}
            Some(old) => *old = description,
        }
    }
}

fn take(keys: &mut [Option<usize>], slab: &mut Slab<Open>, place: usize)
    requires kept { AreKept slab.old keys.old }
    requires there { IsSome (flat (slice_get keys.old place)) }
    ensures kept { AreKept slab.new keys.new }
    ensures seen { seen slab.new keys.new ≡ slice_set (seen slab.old keys.old) place None }
{
    if let Some(key) = key_at(keys, place) {
        let _description = slab.try_remove(key);
        keys[place] = None;
    }
}

fn leads_to(place: u32, target: Target) -> bool
    ensures { result ≡ leads_to_file_of place target }
{
    match target {
        Target::File(other) => other == place,
        _ => false,
    }
}

fn opens_file(place: u32, slab: &Slab<Open>, key: Option<usize>) -> bool
    ensures { result ≡ opens_file_of place slab.now key }
{
    match key {
        None => false,
        Some(key) => match slab.get(key) {
            None => false,
            Some(description) => leads_to(place, description.target),
        },
    }
}

fn any_key_opens(place: u32, keys: &[Option<usize>], slab: &Slab<Open>) -> bool
    ensures { result ≡ list_any (opens_file_of place slab.now) keys.now }
{
    for key in keys {
        if opens_file(place, slab, *key) {
            return true;
        }
    }
    false
}

fn any_opens_file(place: u32, keys: &[Option<usize>], slab: &Slab<Open>) -> bool
    ensures { result ≡ list_any (is_open_file place) (seen slab.now keys.now) }
{
    any_key_opens(place, keys, slab)
}

fn no_keys(alloc: Global, count: usize) -> Result<Vec<Option<usize>>, AllocError>
    ensures { IfOk result (λ v. v.items ≡ replicate count None) }
{
    vec![in alloc; None; count]
}

fn no_descriptions(alloc: Global, count: usize) -> Result<Slab<Open>, AllocError>
    ensures { IfOk result (λ s. slab_len s + count ≤ s.capacity) }
{
    let mut slab = Slab::new(alloc);
    slab.reserve(count)?;
    Ok(slab)
}

impl Descriptions {
    /// So many free places.
    pub fn new(alloc: Global, count: usize) -> Result<Descriptions, OutOfMemory>
        ensures { IfOk result (λ d. d ≡ replicate count None) }
    {
        let keys = no_keys(alloc, count)?;
        let slab = no_descriptions(alloc, count)?;
        Ok(Descriptions { keys, slab })
    }

    /// The description at a place.
    pub fn get(&self, place: usize) -> Option<Open>
        ensures { result ≡ flat (slice_get self.now place) }
    {
        look(self.keys.as_slice(), &self.slab, place)
    }

    /// The least place without a description.
    pub fn free(&self) -> Option<usize>
        ensures { result ≡ position_from is_none 0 self.now }
    {
        first_free(self.keys.as_slice())
    }

    /// Whether some description leads to the file at a place.
    pub fn leads_to_file(&self, place: u32) -> bool
        ensures { result ≡ list_any (is_open_file place) self.now }
    {
        any_opens_file(place, self.keys.as_slice(), &self.slab)
    }

    /// A description comes to a free place.
    pub fn add(&mut self, place: usize, description: Open)
        requires { slice_get self.old place ≡ Some None }
        ensures { self.new ≡ slice_set self.old place (Some description) }
    {
        put(&mut self.keys, &mut self.slab, place, description);
    }

    /// The description at a place becomes another.
    pub fn set(&mut self, place: usize, description: Open)
        requires { IsSome (flat (slice_get self.old place)) }
        ensures { self.new ≡ slice_set self.old place (Some description) }
    {
        replace(self.keys.as_slice(), &mut self.slab, place, description);
    }

    /// The description at a place goes.
    pub fn remove(&mut self, place: usize)
        requires { IsSome (flat (slice_get self.old place)) }
        ensures { self.new ≡ slice_set self.old place None }
    {
        take(&mut self.keys, &mut self.slab, place);
    }
}
