ghost use Rattle.std.specs.Prelude.{◌≡◌, ◌<◌, ◌≤◌, vec_capacity, ◌==◌, ◌++◌, ◌↔◌, IsFalse, [], ◌∷◌, not, IfOk, filter, length, option_map};
ghost use Rattle.std.specs.List.{find, list_any};
ghost use Rattle.nx_ksys.specs.Ends.{is_code, is_any_code};
ghost use Rattle.nx_ksys.specs.GroupCalls.{without_code};

use nx_base::OutOfMemory;
use std::alloc::Global;
use std::marker::Model;

/// The code of a child that ended.
#[derive(Debug, Drop)]
pub struct Code {
    parent: u32,
    child: u32,
    code: u8,
}

impl Model for Code {
    ghost use Rattle.nx_ksys.specs.State.{Code as KeptCode};

    ghost Value = { KeptCode };

    ghost view = { λ c. record { parent = c.parent; child = c.child; code = c.code } };
}

impl Code {
    /// The code of a child with its parent.
    pub fn new(parent: u32, child: u32, code: u8) -> Code
        ensures { result ≡ record { parent = parent; child = child; code = code } }
    {
        Code {
            parent,
            child,
            code,
        }
    }

    /// The parent's number.
    pub fn parent(&self) -> u32
        ensures { result ≡ self.now.parent }
    {
        self.parent
    }

    /// The child's number.
    pub fn child(&self) -> u32
        ensures { result ≡ self.now.child }
    {
        self.child
    }

    /// The code, from 0 to 255.
    pub fn code(&self) -> u8
        ensures { result ≡ self.now.code }
    {
        self.code
    }
}

/// The codes of children that ended, which their parents have not taken, in the order in which they
/// ended. Their room is taken when it is made. Contracts see the codes, and how many there may be.
#[derive(Debug, Drop)]
pub struct Codes {
    items: Vec<Code>,
    room: usize,
}

impl Model for Codes {
    ghost use Rattle.std.specs.Prelude.{◌≤◌, vec_capacity};
    ghost use Rattle.nx_group.specs.Rooms.{KeptCodes};

    ghost Value = { KeptCodes };

    ghost view = { λ c. record { codes = c.items.items; room = c.room } };

    ghost invariant = { λ c. c.room ≤ vec_capacity c.items };
}

fn without_child(child: u32, codes: &mut Vec<Code>)
    ensures items { codes.new.items ≡ filter (λ c. not (c.child == child)) codes.old.items }
    ensures capacity { vec_capacity codes.old ≤ vec_capacity codes.new }
{
    codes.retain(|code| code.child() != child);
}

fn without_parent(parent: u32, codes: &mut Vec<Code>)
    ensures items { codes.new.items ≡ filter (λ c. not (c.parent == parent)) codes.old.items }
    ensures capacity { vec_capacity codes.old ≤ vec_capacity codes.new }
{
    codes.retain(|code| code.parent() != parent);
}

impl Codes {
    /// No code, and room for so many.
    pub fn new(alloc: Global, room: usize) -> Result<Codes, OutOfMemory>
        ensures { IfOk result (λ c. c ≡ record { codes = []; room = room }) }
    {
        let items = Vec::with_capacity(alloc, room)?;
        Ok(Codes { items, room })
    }

    /// The code of a child.
    pub fn find(&self, parent: u32, child: u32) -> Option<&Code>
        ensures { option_map (λ r. r.now) result ≡ find (is_code parent child) self.now.codes }
    {
        self.items
            .iter()
            .find(|code| code.parent() == parent && code.child() == child)
    }

    /// The code of the child that ended first.
    pub fn find_any(&self, parent: u32) -> Option<&Code>
        ensures { option_map (λ r. r.now) result ≡ find (is_any_code parent) self.now.codes }
    {
        self.items.iter().find(|code| code.parent() == parent)
    }

    /// Whether the code of a child is kept.
    pub fn has(&self, parent: u32, child: u32) -> bool
        ensures { result ≡ list_any (is_code parent child) self.now.codes }
    {
        self.items
            .iter()
            .any(|code| code.parent() == parent && code.child() == child)
    }

    /// Whether the code of any child is kept.
    pub fn has_any(&self, parent: u32) -> bool
        ensures { result ≡ list_any (is_any_code parent) self.now.codes }
    {
        self.items.iter().any(|code| code.parent() == parent)
    }

    /// Whether there is no room for one more.
    pub fn is_full(&self) -> bool
        ensures { IsFalse result ↔ (length self.now.codes < self.now.room) }
    {
        self.items.len() >= self.room
    }

    /// A code is kept.
    pub fn add(&mut self, code: Code)
        requires { length self.old.codes < self.old.room }
        ensures { self.new ≡ record self.old { codes = self.old.codes ++ code ∷ [] } }
    {
        self.items.push(code).unwrap();
    }

    /// The code of a child is taken.
    pub fn take(&mut self, child: u32)
        ensures { self.new ≡ record self.old { codes = filter (λ c. not (c.child == child)) self.old.codes } }
    {
        without_child(child, &mut self.items);
    }

    /// The codes of a group's children go.
    pub fn forget(&mut self, parent: u32)
        ensures { self.new ≡ record self.old { codes = filter (λ c. not (c.parent == parent)) self.old.codes } }
    {
        without_parent(parent, &mut self.items);
    }
}
