ghost use Rattle.std.specs.Prelude.{◌≡◌, ◌+◌, ◌-◌, ◌^◌, ◌<◌, ◌≤◌, ◌↔◌, min, Some, None, slice_set};
ghost use Rattle.nx_pmp.specs.Protection.{allows};
ghost use Rattle.nx_pmp.specs.Unit.{AskedUnit};

use crate::pmp::{Pmp, PmpEntry, permits};
use crate::region::{Region, no_region, region_of};
use nx_base::{Access, Mode};
use std::marker::Model;

/// What a unit is asked: whether an access to the `len` bytes at an address is allowed in a mode.
#[derive(Clone, Copy, Debug, PartialEq, Eq, Drop)]
pub struct Question {
    /// The address of the first byte.
    pub at: u32,
    /// How many bytes, 1 to 4.
    pub len: u32,
    /// What is done with them.
    pub access: Access,
    /// The privilege mode in which it is done.
    pub mode: Mode,
}

/// Entries that are asked before each access. Contracts see the entries, how often they were asked
/// and the last question, which is `None` exactly before the first.
#[derive(Drop)]
pub struct PmpUnit {
    pmp: Pmp,
    asked: u64,
    last: Option<Question>,
    // Round the last fetch, and the last load or store, for which the entries were searched.
    near_fetch: Region,
    near_data: Region,
}

impl Model for PmpUnit {
    ghost use Rattle.nx_pmp.specs.Unit.{AskedUnit, IsAsked, IsDecided};

    ghost Value = { AskedUnit };

    ghost view = { λ u. record { pmp = u.pmp; asked = u.asked; last = u.last } };

    ghost invariant = { λ u. IsAsked u.asked u.last × IsDecided u.pmp u.near_fetch × IsDecided u.pmp u.near_data };
}

impl PmpUnit {
    /// A unit with these entries that was not asked yet.
    pub fn new(pmp: Pmp) -> PmpUnit
        ensures { result ≡ record { pmp = pmp; asked = 0; last = None } }
    {
        PmpUnit {
            pmp,
            asked: 0,
            last: None,
            near_fetch: no_region(),
            near_data: no_region(),
        }
    }

    /// What `allows` answers. The question is kept and counted; the count stays at 2^64 - 1 once it
    /// is there.
    #[inline(always)]
    #[tactic(auto, using(crate::proofs::Kept::answered))]
    pub fn ask(&mut self, at: u32, len: u32, access: Access, mode: Mode) -> bool
        requires some { 1 ≤ len }
        requires few { len ≤ 4 }
        requires fits { at + len ≤ 2 ^ 32 }
        ensures answer { result ≡ allows self.old.pmp at len access mode }
        ensures pmp { self.new.pmp ≡ self.old.pmp }
        ensures asked { self.new.asked ≡ min (self.old.asked + 1) (2 ^ 64 - 1) }
        ensures last { self.new.last ≡ Some (record { at = at; len = len; access = access; mode = mode }) }
    {
        self.asked = self.asked.saturating_add(1);
        self.last = Some(Question {
            at,
            len,
            access,
            mode,
        });
        if self.near_fetch.range.matches_all(at, len) {
            return permits(self.near_fetch.cfg, access, mode);
        }
        if self.near_data.range.matches_all(at, len) {
            return permits(self.near_data.cfg, access, mode);
        }
        let region = region_of(&self.pmp, at, len);
        match access {
            Access::Fetch => self.near_fetch = region,
            _ => self.near_data = region,
        }
        self.pmp.allows(at, len, access, mode)
    }

    /// The entries.
    pub fn pmp(&self) -> &Pmp
        ensures { result.now ≡ self.now.pmp }
    {
        &self.pmp
    }

    /// Changes the entry at a place, counted from 0, and no other.
    pub fn set(&mut self, place: usize, entry: PmpEntry)
        requires { place < 16 }
        ensures entries { self.new.pmp.entries ≡ slice_set self.old.pmp.entries place entry }
        ensures asked { self.new.asked ≡ self.old.asked }
        ensures last { self.new.last ≡ self.old.last }
    {
        self.pmp.entries[place] = entry;
        self.near_fetch = no_region();
        self.near_data = no_region();
    }

    /// How many questions there were.
    pub fn asked(&self) -> u64
        ensures count { result ≡ self.now.asked }
        ensures first { result ≡ 0 ↔ self.now.last ≡ None }
    {
        self.asked
    }

    /// The last question. There is none exactly where none was asked.
    pub fn last(&self) -> Option<Question>
        ensures value { result ≡ self.now.last }
        ensures first { (self.now.asked ≡ 0) ↔ (result ≡ None) }
    {
        self.last
    }
}
