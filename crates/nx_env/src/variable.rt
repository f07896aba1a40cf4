ghost use Rattle.std.specs.Prelude.{◌≡◌, ◌≤◌, length};

use arrayvec::ArrayVec;
use std::marker::Model;

/// A variable of an environment: a name of at most 32 bytes, and a value of at most 260. Contracts
/// see both as a pair.
#[derive(Debug, Drop)]
pub struct Variable {
    name: ArrayVec<u8, 32>,
    value: ArrayVec<u8, 260>,
}

impl Model for Variable {
    ghost use Rattle.std.specs.Prelude.{List, ℕ};

    ghost Value = { List ℕ × List ℕ };

    ghost view = { λ v. (v.name.items, v.value.items) };
}

fn copied<const N: usize>(bytes: &[u8]) -> ArrayVec<u8, N>
    requires { length bytes.now ≤ N }
    ensures { result.items ≡ bytes.now }
{
    let mut copy = ArrayVec::new();
    for byte in bytes {
        copy.push(*byte);
    }
    copy
}

impl Variable {
    /// A name with a value.
    pub fn new(name: &[u8], value: &[u8]) -> Variable
        requires name { length name.now ≤ 32 }
        requires value { length value.now ≤ 260 }
        ensures { result ≡ (name.now, value.now) }
    {
        Variable {
            name: copied(name),
            value: copied(value),
        }
    }

    /// Its name.
    pub fn name(&self) -> &[u8]
        ensures name { result.now ≡ self.now.0 }
        ensures short { length result.now ≤ 32 }
    {
        self.name.as_slice()
    }

    /// Its value.
    pub fn value(&self) -> &[u8]
        ensures value { result.now ≡ self.now.1 }
        ensures short { length result.now ≤ 260 }
    {
        self.value.as_slice()
    }

    /// It has another value.
    pub fn set(&mut self, value: &[u8])
        requires { length value.now ≤ 260 }
        ensures { self.new ≡ (self.old.0, value.now) }
    {
        self.value = copied(value);
    }

    /// The same name with the same value.
    pub fn copy(&self) -> Variable
        ensures { result ≡ self.now }
    {
        Variable::new(self.name(), self.value())
    }
}
