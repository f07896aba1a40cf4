ghost use Rattle.std.specs.Prelude.{◌≡◌, ◌+◌, ◌<◌, ◌≤◌, MatchBool};

use std::marker::Model;

/// How many instructions were made, and how many may be.
#[derive(Drop)]
pub struct Count {
    limit: u64,
    used: u64,
}

impl Model for Count {
    ghost use Rattle.std.specs.Prelude.{◌≤◌};
    ghost use Rattle.nx_base.specs.Counted.{Counted};

    ghost Value = { Counted };

    ghost view = { λ c. record { limit = c.limit; used = c.used } };

    ghost invariant = { λ c. c.used ≤ c.limit };
}

impl Count {
    /// None made, and `limit` of them allowed.
    pub fn new(limit: u64) -> Count
        ensures { result ≡ record { limit = limit; used = 0 } }
    {
        Count { limit, used: 0 }
    }

    /// Counts one more. This is false exactly where the limit is reached, and then nothing changes.
    pub fn tick(&mut self) -> bool
        ensures limit { self.new.limit ≡ self.old.limit }
        ensures counted { MatchBool result
            ((self.old.used < self.old.limit) × (self.new.used ≡ self.old.used + 1))
            ((self.old.used ≡ self.old.limit) × (self.new ≡ self.old)) }
    {
        if self.used < self.limit {
            self.used += 1;
            true
        } else {
            false
        }
    }

    /// How many were made.
    pub fn used(&self) -> u64
        ensures value { result ≡ self.now.used }
        ensures within { result ≤ self.now.limit }
    {
        self.used
    }
}
