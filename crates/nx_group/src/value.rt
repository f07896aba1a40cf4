ghost use Rattle.std.specs.Prelude.{◌≡◌, ◌<◌, ◌≤◌, vec_capacity, ◌==◌, ◌++◌, ◌↔◌, IsFalse, [], ◌∷◌, not, IfOk, filter, length, option_map};
ghost use Rattle.std.specs.List.{find};
ghost use Rattle.nx_ksys.specs.ThreadCalls.{is_value};

use nx_base::OutOfMemory;
use std::alloc::Global;
use std::marker::Model;

/// The value of a thread that ended.
#[derive(Debug, Drop)]
pub struct ThreadValue {
    group: u32,
    thread: u32,
    value: u32,
}

impl Model for ThreadValue {
    ghost use Rattle.nx_ksys.specs.State.{ThreadValue as KeptValue};

    ghost Value = { KeptValue };

    ghost view = { λ v. record { group = v.group; thread = v.thread; value = v.value } };
}

impl ThreadValue {
    /// The value of a thread with its group.
    pub fn new(group: u32, thread: u32, value: u32) -> ThreadValue
        ensures { result ≡ record { group = group; thread = thread; value = value } }
    {
        ThreadValue {
            group,
            thread,
            value,
        }
    }

    /// The group's number.
    pub fn group(&self) -> u32
        ensures { result ≡ self.now.group }
    {
        self.group
    }

    /// The thread's number.
    pub fn thread(&self) -> u32
        ensures { result ≡ self.now.thread }
    {
        self.thread
    }

    /// The value, a word.
    pub fn value(&self) -> u32
        ensures { result ≡ self.now.value }
    {
        self.value
    }
}

/// The values of threads that ended, which no thread of their groups has taken. Their room is taken
/// when it is made. Contracts see the values, and how many there may be.
#[derive(Debug, Drop)]
pub struct Values {
    items: Vec<ThreadValue>,
    room: usize,
}

impl Model for Values {
    ghost use Rattle.std.specs.Prelude.{◌≤◌, vec_capacity};
    ghost use Rattle.nx_group.specs.Rooms.{KeptValues};

    ghost Value = { KeptValues };

    ghost view = { λ v. record { values = v.items.items; room = v.room } };

    ghost invariant = { λ v. v.room ≤ vec_capacity v.items };
}

fn without_thread(thread: u32, values: &mut Vec<ThreadValue>)
    ensures items { values.new.items ≡ filter (λ v. not (v.thread == thread)) values.old.items }
    ensures capacity { vec_capacity values.old ≤ vec_capacity values.new }
{
    values.retain(|value| value.thread() != thread);
}

fn without_group(group: u32, values: &mut Vec<ThreadValue>)
    ensures items { values.new.items ≡ filter (λ v. not (v.group == group)) values.old.items }
    ensures capacity { vec_capacity values.old ≤ vec_capacity values.new }
{
    values.retain(|value| value.group() != group);
}

impl Values {
    /// No value, and room for so many.
    pub fn new(alloc: Global, room: usize) -> Result<Values, OutOfMemory>
        ensures { IfOk result (λ v. v ≡ record { values = []; room = room }) }
    {
        let items = Vec::with_capacity(alloc, room)?;
        Ok(Values { items, room })
    }

    /// The value of a thread of a group.
    pub fn find(&self, group: u32, thread: u32) -> Option<&ThreadValue>
        ensures { option_map (λ r. r.now) result ≡ find (is_value group thread) self.now.values }
    {
        self.items
            .iter()
            .find(|value| value.group() == group && value.thread() == thread)
    }

    /// Whether there is no room for one more.
    pub fn is_full(&self) -> bool
        ensures { IsFalse result ↔ (length self.now.values < self.now.room) }
    {
        self.items.len() >= self.room
    }

    /// A value is kept.
    pub fn add(&mut self, value: ThreadValue)
        requires { length self.old.values < self.old.room }
        ensures { self.new ≡ record self.old { values = self.old.values ++ value ∷ [] } }
    {
        self.items.push(value).unwrap();
    }

    /// The value of a thread is taken.
    pub fn take(&mut self, thread: u32)
        ensures { self.new ≡ record self.old { values = filter (λ v. not (v.thread == thread)) self.old.values } }
    {
        without_thread(thread, &mut self.items);
    }

    /// The values of a group's threads go.
    pub fn forget(&mut self, group: u32)
        ensures { self.new ≡ record self.old { values = filter (λ v. not (v.group == group)) self.old.values } }
    {
        without_group(group, &mut self.items);
    }
}
