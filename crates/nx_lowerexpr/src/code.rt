ghost use Rattle.std.specs.Prelude.{◌≡◌, [], ◌∷◌, ◌<◌, ◌-◌, suc, length, slice_set, OnOk};

use nx_slot::SlotOp;
use std::alloc::{AllocError, Global};
use std::marker::Model;

/// Slot code that is written from its end, so that each jump knows what it passes. Contracts see the operations, the
/// first one first.
#[derive(Drop)]
pub struct Code {
    ops: Vec<SlotOp>,
}

impl Model for Code {
    ghost use Rattle.std.specs.Prelude.{List, reverse};
    ghost use Rattle.nx_slot.specs.declared.op.SlotOp.{SlotOp};

    ghost Value = { List SlotOp };

    ghost view = { λ c. reverse c.ops.items };
}

impl Code {
    /// No operations. This takes no memory.
    pub fn new(alloc: Global) -> Code
        ensures { result ≡ [] }
    {
        Code {
            ops: Vec::new(alloc),
        }
    }

    /// How many there are.
    pub fn len(&self) -> usize
        ensures { result ≡ length self.now }
    {
        self.ops.len()
    }

    /// Puts an operation before the others.
    pub fn put(&mut self, op: SlotOp) -> Result<(), AllocError>
        ensures { OnOk result (self.new ≡ op ∷ self.old) }
    {
        self.ops.push(op)?;
        Ok(())
    }

    /// Writes the operation that so many follow.
    pub fn patch(&mut self, behind: usize, op: SlotOp)
        requires { behind < length self.old }
        ensures { self.new ≡ slice_set self.old (length self.old - suc behind) op }
    {
        self.ops[behind] = op;
    }

    /// The operations, the first one first.
    pub fn into_ops(self) -> Vec<SlotOp>
        ensures { result.items ≡ self }
    {
        let Code { ops } = self;
        let mut ops = ops;
        ops.as_mut_slice().reverse();
        ops
    }
}
