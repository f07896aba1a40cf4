ghost use Rattle.std.specs.Prelude.{◌≡◌, ◌<◌, ◌≤◌, ◌+◌, ◌^◌, ◌++◌, [], ◌∷◌, length, IfOk};
ghost use Rattle.nx_ksys.specs.Gathered.{Gathered, replies_of};
ghost use Rattle.nx_ksys.specs.Telling.{reply, failure};

use crate::moved_bytes::MovedBytes;
use nx_base::{Errno, OutOfMemory};
use std::alloc::Global;
use std::marker::Model;

/// What a call answers to a thread.
#[derive(Debug, Drop)]
pub struct Reply {
    /// The thread's number.
    pub tid: u32,
    /// What the call returns: -1 where it failed.
    pub value: i32,
    /// The number of the error, 0 where the call succeeded.
    pub errno: i32,
    /// The bytes of its first output.
    pub first: MovedBytes,
    /// The bytes of its second output.
    pub second: MovedBytes,
}

/// The replies of one call, in their order. The room for one reply to each thread is taken when
/// they are made, so no other call takes memory.
#[derive(Debug, Drop)]
pub struct Replies {
    items: Vec<Reply>,
    used: usize,
}

impl Model for Replies {
    ghost use Rattle.std.specs.Prelude.{◌≤◌, take, vec_len};
    ghost use Rattle.nx_ksys.specs.Gathered.{Gathered};

    ghost Value = { Gathered };

    ghost view = { λ r. record { replies = take r.used r.items.items; room = vec_len r.items } };

    ghost invariant = { λ r. r.used ≤ vec_len r.items };
}

impl Replies {
    /// No replies, with room for one to each of so many threads.
    pub fn new(alloc: Global, threads: u32) -> Result<Replies, OutOfMemory>
        ensures { IfOk result (λ r. r ≡ record { replies = []; room = threads }) }
    {
        let mut items = Vec::new(alloc);
        for _ in 0..threads {
            items.push(Reply {
                tid: 0,
                value: 0,
                errno: 0,
                first: MovedBytes::new(alloc)?,
                second: MovedBytes::new(alloc)?,
            })?;
        }
        Ok(Replies { items, used: 0 })
    }

    /// The replies.
    pub fn as_slice(&self) -> &[Reply]
        ensures { result.now ≡ self.now.replies }
    {
        &self.items.as_slice()[..self.used]
    }

    /// Drops them all, and keeps the room.
    pub fn clear(&mut self)
        ensures { self.new ≡ record self.old { replies = [] } }
    {
        self.used = 0;
    }

    /// Adds a reply with its outputs.
    pub fn add(&mut self, tid: u32, value: i32, errno: i32, first: &[u8], second: &[u8])
        requires room { length self.old.replies < self.old.room }
        requires first { length first.now ≤ 4096 }
        requires second { length second.now ≤ 4096 }
        ensures { self.new ≡ record self.old { replies = self.old.replies ++ record { tid = tid; value = value; errno = errno; first = first.now; second = second.now } ∷ [] } }
    {
        let reply = &mut self.items[self.used];
        reply.tid = tid;
        reply.value = value;
        reply.errno = errno;
        reply.first.set(first);
        reply.second.set(second);
        self.used += 1;
    }

    /// Tells a thread that its call succeeded, with a value and outputs.
    pub fn tell(&mut self, tid: u32, value: u32, first: &[u8], second: &[u8])
        requires room { length self.old.replies < self.old.room }
        requires value { value < 2 ^ 31 }
        requires first { length first.now ≤ 4096 }
        requires second { length second.now ≤ 4096 }
        ensures told { replies_of self.new.replies ≡ replies_of self.old.replies ++ reply tid value (first.now ∷ second.now ∷ []) ∷ [] }
        ensures len { length self.new.replies ≡ length self.old.replies + 1 }
        ensures room { self.new.room ≡ self.old.room }
    {
        self.add(tid, value as i32, 0, first, second);
    }

    /// Tells a thread that its call failed.
    pub fn fail(&mut self, tid: u32, errno: Errno)
        requires room { length self.old.replies < self.old.room }
        ensures told { replies_of self.new.replies ≡ replies_of self.old.replies ++ failure tid errno ∷ [] }
        ensures len { length self.new.replies ≡ length self.old.replies + 1 }
        ensures room { self.new.room ≡ self.old.room }
    {
        self.add(tid, -1, errno.number(), b"", b"");
    }
}
