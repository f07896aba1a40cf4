ghost use Rattle.std.specs.Prelude.{◌≡◌, ℕ, ◌+◌, ◌*◌, ◌^◌, ◌≤◌, ◌<◌, ◌++◌, length, slice_index, IfOk, IfErr, OnErr};
ghost use Rattle.nx_frames.specs.Chains.{chain, AreApart};
ghost use Rattle.nx_frames.specs.Zeros.{ram_start};
ghost use Rattle.nx_frames.specs.Stock.{Stock, Holds, SameFrames, KeepsOthers, Takes, LieInside, frames_of, frames_from};

use crate::too_few::TooFew;
use crate::zeros::zero_frame;
use nx_base::OutOfMemory;
use nx_ram::Ram;
use std::alloc::Global;
use std::marker::Model;

const RAM_START: u32 = 0x80000000;

/// Frames that were taken, in their order. Whose frames they are is known by the `Frames` that gave
/// them.
#[derive(Debug, Drop)]
pub struct Taken {
    head: u32,
    tail: u32,
    count: u32,
}

impl Taken {
    /// How many frames there are.
    pub fn count(&self) -> u32
        ensures { result ≡ self.now.count }
    {
        self.count
    }
}

/// Page frames of 4,096 bytes in a RAM, one after another from an address on. Contracts see the
/// address of the first, which frame follows each in its chain, and the addresses of those that are
/// free, in the order in which they are taken.
#[derive(Drop)]
pub struct Frames {
    first: u32,
    next: Vec<u32>,
    head: u32,
    free: u32,
}

impl Model for Frames {
    ghost use Rattle.nx_frames.specs.Chains.{chain};
    ghost use Rattle.nx_frames.specs.Stock.{Stock, AreStocked};

    ghost Value = { Stock };

    ghost view = { λ f. record { first = f.first; next = f.next.items; free = chain f.first f.next.items f.head f.free } };

    ghost invariant = { λ f. AreStocked f.first f.next.items (chain f.first f.next.items f.head f.free) };
}

impl Frames {
    /// `count` frames from an address of the RAM on, all of them free. They end at 2^32 at the latest.
    pub fn new(alloc: Global, first: u32, count: u32) -> Result<Frames, OutOfMemory>
        requires low { ram_start ≤ first }
        requires fits { first + 4096 * count ≤ 2 ^ 32 }
        ensures { IfOk result (λ f. (f.first ≡ first) × (length f.next ≡ count) × (f.free ≡ frames_from first count)) }
    {
        let mut next = Vec::with_capacity(alloc, count as usize)?;
        for i in 0..count {
            next.push(i + 1)?;
        }
        Ok(Frames {
            first,
            next,
            head: 0,
            free: count,
        })
    }

    /// How many frames are free.
    pub fn free(&self) -> u32
        ensures { result ≡ length self.now.free }
    {
        self.free
    }

    /// Takes the first `n` frames that are free, sets them to zeros, and changes no other byte of the
    /// RAM, in which all frames must lie. Exactly where more frames are needed than are free, it
    /// answers how many these are, and nothing changes.
    pub fn take(&mut self, ram: &mut Ram, n: u32) -> Result<Taken, TooFew>
        requires { LieInside self.old (length ram.old) }
        ensures taken { IfOk result (λ t. Takes self.old self.new ram.old ram.new n t) }
        ensures same { SameFrames self.old self.new }
        ensures too_few { IfErr result (λ few. (few ≡ record { need = n; free = length self.old.free }) × (few.free < few.need)) }
        ensures refused { OnErr result ((self.new ≡ self.old) × (ram.new ≡ ram.old)) }
    {
        if n > self.free {
            return Err(TooFew {
                need: n,
                free: self.free,
            });
        }
        let head = self.head;
        let start = self.first - RAM_START;
        let mut at = head;
        let mut tail = head;
        for _taken in 0..n {
            zero_frame(ram, start + 4096 * at, 4096);
            tail = at;
            at = self.next[at as usize];
        }
        self.head = at;
        self.free -= n;
        Ok(Taken {
            head,
            tail,
            count: n,
        })
    }

    /// Gives frames back that came from here. They become free, before those that are free already.
    pub fn give(&mut self, taken: Taken)
        requires { Holds self.old taken }
        ensures free { self.new.free ≡ frames_of self.old taken ++ self.old.free }
        ensures same { SameFrames self.old self.new }
        ensures others { KeepsOthers self.old self.new (frames_of self.old taken) }
    {
        let Taken { head, tail, count } = taken;
        if count > 0 {
            self.next[tail as usize] = self.head;
            self.head = head;
            self.free += count;
        }
    }

    /// The address of the `i`-th frame, counted from 0, of those that were taken here. It takes `i`
    /// steps along their chain.
    pub fn frame(&self, taken: &Taken, i: u32) -> u32
        requires held { Holds self.now taken.now }
        requires below { i < taken.now.count }
        ensures { result ≡ slice_index (frames_of self.now taken.now) i }
    {
        let mut at = taken.head;
        for _step in 0..i {
            at = self.next[at as usize];
        }
        self.first + 4096 * at
    }

    /// Puts the frames of `more` after those of `into`. Both came from here, and have no frame in common.
    pub fn join(&mut self, into: &mut Taken, more: Taken)
        requires into { Holds self.old into.old }
        requires more { Holds self.old more }
        requires apart { AreApart (frames_of self.old into.old) (frames_of self.old more) }
        ensures joined { frames_of self.new into.new ≡ frames_of self.old into.old ++ frames_of self.old more }
        ensures holds { Holds self.new into.new }
        ensures free { self.new.free ≡ self.old.free }
        ensures same { SameFrames self.old self.new }
        ensures others { KeepsOthers self.old self.new (frames_of self.old into.old ++ frames_of self.old more) }
    {
        let Taken { head, tail, count } = more;
        if into.count == 0 {
            into.head = head;
            into.tail = tail;
            into.count = count;
        } else if count > 0 {
            self.next[into.tail as usize] = head;
            into.tail = tail;
            into.count += count;
        }
    }
}
