ghost use Rattle.std.specs.Prelude.{◌≡◌, ◌<◌, ◌≤◌, if◌then◌else◌, Some, None, IfOk, IfSome, length, map, option_map, replicate, slice_get, slice_set};
ghost use Rattle.std.specs.List.{find, list_any, position_from, count_by};
ghost use Rattle.std.specs.Option.{is_some};
ghost use Rattle.nx_ksys.specs.Threads.{flat};
ghost use Rattle.nx_ksys.specs.Answers.{is_group, place_of as place_of_group};
ghost use Rattle.nx_ksys.specs.Ends.{is_child, is_any_child, nobodys};
ghost use Rattle.nx_ksys.specs.GroupCalls.{has_program, comes_earlier, is_nth, nth_group};

use crate::group::Group;
use nx_base::OutOfMemory;
use std::alloc::{AllocError, Global};
use std::marker::Model;

/// Task groups by the slots of their main threads, at most 64. All memory is taken when it is made.
#[derive(Debug, Drop)]
pub struct Groups {
    items: Vec<Option<Group>>,
}

impl Model for Groups {
    ghost use Rattle.std.specs.Prelude.{◌≤◌, List, Option, vec_len};
    ghost use Rattle.nx_ksys.specs.State.{Group as TaskGroup};

    ghost Value = { List (Option TaskGroup) };

    ghost view = { λ g. g.items.items };

    ghost invariant = { λ g. vec_len g.items ≤ 64 };
}

fn no_groups(alloc: Global, count: u32) -> Result<Vec<Option<Group>>, AllocError>
    ensures { IfOk result (λ v. v.items ≡ replicate count None) }
{
    let mut items = Vec::new(alloc);
    for _ in 0..count {
        items.push(None)?;
    }
    Ok(items)
}

fn has_number(number: u32, group: &Option<Group>) -> bool
    ensures { result ≡ is_group number group.now }
{
    match group {
        None => false,
        Some(group) => group.number() == number,
    }
}

fn is_child_of(parent: u32, child: u32, group: &Option<Group>) -> bool
    ensures { result ≡ is_child parent child group.now }
{
    match group {
        None => false,
        Some(group) => group.parent() == parent && group.number() == child,
    }
}

fn is_any_child_of(parent: u32, group: &Option<Group>) -> bool
    ensures { result ≡ is_any_child parent group.now }
{
    match group {
        None => false,
        Some(group) => group.parent() == parent,
    }
}

fn runs(program: u32, group: &Option<Group>) -> bool
    ensures { result ≡ has_program program group.now }
{
    match group {
        None => false,
        Some(group) => group.program() == program,
    }
}

fn first_numbered(number: u32, groups: &[Option<Group>]) -> Option<u32>
    requires { length groups.now ≤ 64 }
    ensures { result ≡ position_from (is_group number) 0 groups.now }
{
    for (place, group) in groups.iter().enumerate() {
        if has_number(number, group) {
            return Some(place as u32);
        }
    }
    None
}

fn lose_parent(parent: u32, group: &mut Option<Group>)
    ensures { group.new ≡ nobodys parent group.old }
{
    match group {
        None => {}
        Some(group) => {
            if group.parent() == parent {
                group.lose_parent();
            }
        }
    }
}

fn leave_children(parent: u32, groups: &mut [Option<Group>])
    ensures { groups.new ≡ map (nobodys parent) groups.old }
{
    for place in 0..groups.len() {
        lose_parent(parent, &mut groups[place]);
    }
}

fn enter_at(groups: &mut [Option<Group>], place: usize, directory: &[u8])
    requires place { place < length groups.old }
    requires short { length directory.now ≤ 255 }
    ensures { IfSome (flat (slice_get groups.old place)) (λ g. groups.new ≡ slice_set groups.old place (Some (record g { directory = directory.now }))) }
{
    match &mut groups[place] {
        None => {}
        Some(group) => group.enter(directory),
    }
}

fn count_earlier_one(number: u32, group: &Option<Group>) -> usize
    ensures count { result ≡ (if comes_earlier number group.now then 1 else 0) }
    ensures few { result ≤ 1 }
{
    match group {
        None => 0,
        Some(group) => if group.number() < number { 1 } else { 0 },
    }
}

fn count_earlier(number: u32, groups: &[Option<Group>]) -> usize
    ensures { result ≡ count_by (comes_earlier number) groups.now }
{
    let mut count = 0;
    for group in groups {
        count += count_earlier_one(number, group);
    }
    count
}

fn is_at(index: u32, group: &Option<Group>, groups: &[Option<Group>]) -> bool
    ensures { result ≡ is_nth groups.now index group.now }
{
    match group {
        None => false,
        Some(group) => count_earlier(group.number(), groups) == index as usize,
    }
}

fn find_nth(index: u32, groups: &[Option<Group>]) -> Option<&Group>
    ensures { option_map (λ r. r.now) result ≡ flat (find (is_nth groups.now index) groups.now) }
{
    for group in groups {
        if is_at(index, group, groups) {
            return group.as_ref();
        }
    }
    None
}

impl Groups {
    /// No group, and so many places, at most 64.
    pub fn new(alloc: Global, threads: u32) -> Result<Groups, OutOfMemory>
        requires { threads ≤ 64 }
        ensures { IfOk result (λ g. g ≡ replicate threads None) }
    {
        let items = no_groups(alloc, threads)?;
        Ok(Groups { items })
    }

    /// How many places there are.
    pub fn len(&self) -> usize
        ensures { result ≡ length self.now }
    {
        self.items.len()
    }

    /// The group at a place.
    pub fn get(&self, place: u32) -> Option<&Group>
        ensures { option_map (λ r. r.now) result ≡ flat (slice_get self.now place) }
    {
        match self.items.get(place as usize) {
            Some(Some(group)) => Some(group),
            _ => None,
        }
    }

    /// The place of the group of a number.
    pub fn place_of(&self, number: u32) -> Option<u32>
        ensures { result ≡ place_of_group self.now number }
    {
        first_numbered(number, self.items.as_slice())
    }

    /// Whether a group lives.
    pub fn any(&self) -> bool
        ensures { result ≡ list_any is_some self.now }
    {
        self.items.iter().any(|group| group.is_some())
    }

    /// Whether a group has a live child of a number.
    pub fn has_child(&self, parent: u32, child: u32) -> bool
        ensures { result ≡ list_any (is_child parent child) self.now }
    {
        self.items
            .iter()
            .any(|group| is_child_of(parent, child, group))
    }

    /// Whether a group has a live child.
    pub fn has_any_child(&self, parent: u32) -> bool
        ensures { result ≡ list_any (is_any_child parent) self.now }
    {
        self.items
            .iter()
            .any(|group| is_any_child_of(parent, group))
    }

    /// Whether a group of a program lives.
    pub fn has_program(&self, program: u32) -> bool
        ensures { result ≡ list_any (has_program program) self.now }
    {
        self.items.iter().any(|group| runs(program, group))
    }

    /// The live group of that index, in the order of their numbers.
    #[tactic(auto, unfolding(nx_ksys::specs::GroupCalls::nth_group))]
    pub fn nth(&self, index: u32) -> Option<&Group>
        ensures { option_map (λ r. r.now) result ≡ nth_group self.now index }
    {
        find_nth(index, self.items.as_slice())
    }

    /// A group begins at a place.
    pub fn begin(&mut self, place: u32, group: Group)
        requires { place < length self.old }
        ensures { self.new ≡ slice_set self.old place (Some group) }
    {
        self.items[place as usize] = Some(group);
    }

    /// The group at a place stands in another directory.
    pub fn enter(&mut self, place: u32, directory: &[u8])
        requires place { place < length self.old }
        requires short { length directory.now ≤ 255 }
        ensures { IfSome (flat (slice_get self.old place)) (λ g. self.new ≡ slice_set self.old place (Some (record g { directory = directory.now }))) }
    {
        enter_at(&mut self.items, place as usize, directory);
    }

    /// The group at a place is gone, and the children of its number are nobody's.
    pub fn end(&mut self, place: u32, number: u32)
        requires { place < length self.old }
        ensures { self.new ≡ map (nobodys number) (slice_set self.old place None) }
    {
        self.items[place as usize] = None;
        leave_children(number, &mut self.items);
    }
}
