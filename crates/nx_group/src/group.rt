ghost use Rattle.std.specs.Prelude.{◌≡◌, ◌≤◌, [], ◌∷◌, length, option_map, slice_get};
ghost use Rattle.nx_ksys.specs.GroupCalls.{arguments_of};

use crate::lines::{count_lines, line_at};
use arrayvec::ArrayVec;
use std::marker::Model;

/// A task group. Its number is that of its main thread, and 0 stands for a parent that there isn't.
/// Its arguments are the name with which it was started, and the lines of a text. Contracts see the
/// group of the kernel's state, with an empty environment.
#[derive(Debug, Drop)]
pub struct Group {
    number: u32,
    program: u32,
    parent: u32,
    directory: ArrayVec<u8, 255>,
    name: ArrayVec<u8, 32>,
    text: ArrayVec<u8, 260>,
}

impl Model for Group {
    ghost use Rattle.std.specs.Prelude.{[], ◌∷◌};
    ghost use Rattle.nx_ksys.specs.State.{Group as TaskGroup};
    ghost use Rattle.nx_ksys.specs.GroupCalls.{arguments_of};

    ghost Value = { TaskGroup };

    ghost view = { λ g. record { number = g.number; program = g.program; parent = g.parent; directory = g.directory.items; arguments = g.name.items ∷ arguments_of g.text.items; environment = [] } };
}

fn copied<const N: usize>(bytes: &[u8]) -> ArrayVec<u8, N>
    requires { length bytes.now ≤ N }
    ensures { result.items ≡ bytes.now }
{
    let mut copy = ArrayVec::new();
    for byte in bytes {
        copy.push(*byte);
    }
    copy
}

impl Group {
    /// A group whose arguments are a name and the lines of a text, each ended by a newline.
    pub fn new(
        number: u32,
        program: u32,
        parent: u32,
        directory: &[u8],
        name: &[u8],
        text: &[u8],
    ) -> Group
        requires directory { length directory.now ≤ 255 }
        requires name { length name.now ≤ 32 }
        requires text { length text.now ≤ 260 }
        ensures { result ≡ record { number = number; program = program; parent = parent; directory = directory.now; arguments = name.now ∷ arguments_of text.now; environment = [] } }
    {
        Group {
            number,
            program,
            parent,
            directory: copied(directory),
            name: copied(name),
            text: copied(text),
        }
    }

    /// The number of its main thread.
    pub fn number(&self) -> u32
        ensures { result ≡ self.now.number }
    {
        self.number
    }

    /// The place of its program.
    pub fn program(&self) -> u32
        ensures { result ≡ self.now.program }
    {
        self.program
    }

    /// The number of its parent, or 0.
    pub fn parent(&self) -> u32
        ensures { result ≡ self.now.parent }
    {
        self.parent
    }

    /// The path of its directory.
    pub fn directory(&self) -> &[u8]
        ensures path { result.now ≡ self.now.directory }
        ensures short { length result.now ≤ 255 }
    {
        self.directory.as_slice()
    }

    /// How many arguments it has, its name among them.
    pub fn count_arguments(&self) -> usize
        ensures { result ≡ length self.now.arguments }
    {
        1 + count_lines(self.text.as_slice())
    }

    /// The argument of an index, from 0.
    pub fn argument(&self, index: usize) -> Option<&[u8]>
        ensures { option_map (λ r. r.now) result ≡ slice_get self.now.arguments index }
    {
        if index == 0 {
            return Some(self.name.as_slice());
        }
        line_at(self.text.as_slice(), index - 1)
    }

    /// It stands in another directory.
    pub fn enter(&mut self, directory: &[u8])
        requires { length directory.now ≤ 255 }
        ensures { self.new ≡ record self.old { directory = directory.now } }
    {
        self.directory = copied(directory);
    }

    /// It is nobody's child any more.
    pub fn lose_parent(&mut self)
        ensures { self.new ≡ record self.old { parent = 0 } }
    {
        self.parent = 0;
    }
}
