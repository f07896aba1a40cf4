ghost use Rattle.std.specs.Prelude.{◌≡◌, [], ◌∷◌, OnOk, MatchOption};

use std::alloc::{AllocError, Global};
use std::marker::Model;

/// A stack. Contracts see it as a list, the top first.
#[derive(Drop)]
pub struct Stack<T> {
    items: Vec<T>,
}

impl<T> Model for Stack<T> {
    ghost use Rattle.std.specs.Prelude.{List, reverse};
    ghost use Rattle.std.specs.Coded.{coded_list};

    ghost Value = { List T };

    ghost coded = { coded_list T.code };

    ghost view = { λ s. reverse s.items.items };
}

impl<T> Stack<T> {
    /// An empty stack. This takes no memory.
    pub fn new(alloc: Global) -> Stack<T>
        ensures { result ≡ [] }
    {
        Stack {
            items: Vec::new(alloc),
        }
    }

    /// Takes the top away.
    pub fn pop(&mut self) -> Option<T>
        ensures { MatchOption result ((self.old ≡ []) × (self.new ≡ [])) (λ top. self.old ≡ top ∷ self.new) }
    {
        self.items.pop()
    }

    /// The items, the top first.
    pub fn into_vec(self) -> Vec<T>
        ensures { result.items ≡ self }
    {
        let Stack { items } = self;
        let mut items = items;
        items.as_mut_slice().reverse();
        items
    }
}

impl<T: Drop> Stack<T> {
    /// Puts an item on the top.
    pub fn push(&mut self, item: T) -> Result<(), AllocError>
        ensures { OnOk result (self.new ≡ item ∷ self.old) }
    {
        self.items.push(item)?;
        Ok(())
    }
}
