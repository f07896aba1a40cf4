ghost use Rattle.std.specs.Prelude.{◌≡◌, ◌≤◌, [], ◌∷◌, length, IfOk};
ghost use Rattle.nx_shrun.specs.Calls.{call as call_with, write as write_call, getpid};
ghost use Rattle.nx_shrun.specs.Steps.{written as written_in};
ghost use Rattle.nx_shstep.specs.Made.{Tells};

use nx_base::{KCall, OutOfMemory};
use nx_ksys::Cooked;
use std::alloc::Global;
use std::marker::Model;

/// How many inputs a call has.
#[derive(Clone, Copy, Debug, PartialEq, Eq)]
pub enum Inputs {
    /// None.
    Neither,
    /// One.
    First,
    /// Two.
    Both,
}

/// A call that the shell makes, as the kernel is told of it. The room for its inputs is taken when
/// it is made, so no other call takes memory. Contracts see the call.
#[derive(Debug, Drop)]
pub struct MadeCall {
    which: KCall,
    inputs: Inputs,
    cooked: Cooked,
}

impl Model for MadeCall {
    ghost use Rattle.nx_shrun.specs.Calls.{Call};
    ghost use Rattle.nx_shstep.specs.Made.{Tells, call_of};

    ghost Value = { Call };

    ghost view = { λ m. call_of m.which m.inputs m.cooked };

    ghost invariant = { λ m. Tells (call_of m.which m.inputs m.cooked) m.cooked };
}

impl MadeCall {
    /// The call for the shell's number.
    pub fn new(alloc: Global) -> Result<MadeCall, OutOfMemory>
        ensures { IfOk result (λ m. m ≡ getpid) }
    {
        let mut cooked = Cooked::new(alloc)?;
        cooked.call = Some(KCall::Getpid);
        Ok(MadeCall {
            which: KCall::Getpid,
            inputs: Inputs::Neither,
            cooked,
        })
    }

    /// The call as the kernel is told of it.
    pub fn cooked(&self) -> &Cooked
        ensures { Tells self.now result.now }
    {
        &self.cooked
    }

    /// Which call it is.
    pub fn which(&self) -> KCall
        ensures { result ≡ self.now.which }
    {
        self.which
    }

    /// The length of its first input, 0 where it has none.
    pub fn written(&self) -> usize
        ensures { result ≡ written_in self.now }
    {
        self.cooked.first.len()
    }

    /// A call without inputs.
    pub fn set(&mut self, which: KCall, a: u32, b: u32, c: u32)
        ensures { self.new ≡ call_with which a b c 0 [] }
    {
        self.which = which;
        self.inputs = Inputs::Neither;
        self.cooked.call = Some(which);
        self.cooked.words = [a, b, c, 0, 0, 0];
        self.cooked.first.clear();
        self.cooked.second.clear();
    }

    /// A call with one input.
    pub fn set_one(&mut self, which: KCall, a: u32, b: u32, c: u32, d: u32, first: &[u8])
        requires { length first.now ≤ 4096 }
        ensures { self.new ≡ call_with which a b c d (first.now ∷ []) }
    {
        self.which = which;
        self.inputs = Inputs::First;
        self.cooked.call = Some(which);
        self.cooked.words = [a, b, c, d, 0, 0];
        self.cooked.first.set(first);
        self.cooked.second.clear();
    }

    /// A call with two inputs.
    pub fn set_two(&mut self, which: KCall, c: u32, first: &[u8], second: &[u8])
        requires first { length first.now ≤ 4096 }
        requires second { length second.now ≤ 4096 }
        ensures { self.new ≡ call_with which 0 0 c 0 (first.now ∷ second.now ∷ []) }
    {
        self.which = which;
        self.inputs = Inputs::Both;
        self.cooked.call = Some(which);
        self.cooked.words = [0, 0, c, 0, 0, 0];
        self.cooked.first.set(first);
        self.cooked.second.set(second);
    }

    /// A `write` to a descriptor.
    pub fn set_write(&mut self, fd: u32, text: &[u8])
        requires { length text.now ≤ 4096 }
        ensures { self.new ≡ write_call fd text.now }
    {
        self.set_one(KCall::Write, fd, 0, text.len() as u32, 0, text);
    }
}
