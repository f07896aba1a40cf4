ghost use Rattle.std.specs.Prelude.{ℕ, ◌-◌, ◌==◌, true, None, if◌then◌else◌};
ghost use Rattle.nx_shrun.specs.AbstractRuns.{Next, Ends, Answer};

use super::*;
use nx_base::OutOfMemory;
use nx_ksys::{Cooked, MovedBytes, Reply};
use std::alloc::Global;
use std::test::Fail;

/// Programs that count down from 2 in each thread, and keep the number in the globals.
#[derive(Debug, Drop)]
struct Countdown;

impl Programs for Countdown {
    type Globals = u32;

    type Thread = u32;

    type Fault = u8;

    ghost AllGlobals = { ℕ };

    ghost AllThreads = { ℕ };

    ghost AllFaults = { ℕ };

    ghost globals_of = { λ g. g };

    ghost thread_of = { λ t. t };

    ghost fault_of = { λ f. f };

    ghost meaning = { λ _. record {
      first = λ place. 0;
      main = λ place. 2;
      thread = λ place words. 1;
      step = λ place g t. if t == 0 then Ends g g else Next t (t - 1);
      reply = λ place g t r. record { globals = g; thread = 2 };
      has_globals = λ place. true;
      is_raw = λ place. place == 1;
      which = λ number. None;
      shared = 0;
      raw = 1;
    } };

    fn globals(&self, _alloc: Global, _program: u32) -> Result<u32, OutOfMemory> {
        Ok(0)
    }

    fn main(&self, _alloc: Global, _program: u32) -> Result<u32, OutOfMemory> {
        Ok(2)
    }

    fn thread(&self, _alloc: Global, _program: u32, _words: &[u32]) -> Result<u32, OutOfMemory> {
        Ok(1)
    }

    fn step(
        &self,
        _alloc: Global,
        _program: u32,
        globals: &mut u32,
        thread: &mut u32,
        _call: &mut Cooked,
    ) -> Result<Turn<u8>, OutOfMemory> {
        if *thread == 0 {
            return Ok(Turn::Ends(*globals));
        }
        *globals = *thread;
        *thread -= 1;
        Ok(Turn::Next)
    }

    fn reply(
        &self,
        _alloc: Global,
        _program: u32,
        _globals: &mut u32,
        thread: &mut u32,
        _reply: &Reply,
    ) -> Result<(), OutOfMemory> {
        *thread = 2;
        Ok(())
    }

    fn has_globals(&self, _program: u32) -> bool {
        true
    }

    fn is_raw(&self, program: u32) -> bool {
        program == 1
    }

    fn shared(&self) -> u8 {
        0
    }

    fn raw(&self) -> u8 {
        1
    }
}

/// With which value the next step of thread 2 ends, if it does.
fn ends(guests: &mut Guests<Countdown>, alloc: Global) -> Result<Option<u32>, OutOfMemory> {
    let mut call = Cooked::new(alloc)?;
    match guests.step(alloc, 2, 2, 0, &mut call)? {
        Some(Turn::Ends(value)) => Ok(Some(value)),
        _ => Ok(None),
    }
}

#[test]
fn a_thread_makes_its_steps(rt: HostRuntime) -> Result<(), Fail> {
    let alloc = rt.alloc();
    let mut guests = Guests::new(alloc, Countdown);
    assert_eq!(rt; ends(&mut guests, alloc)?, None);
    let start = Start {
        thread: 2,
        group: 2,
        program: 0,
        slot: 1,
        is_thread: false,
        fresh: true,
    };
    guests.begin(alloc, start, &[])?;
    assert_eq!(rt; ends(&mut guests, alloc)?, None);
    assert_eq!(rt; ends(&mut guests, alloc)?, None);
    assert_eq!(rt; ends(&mut guests, alloc)?, Some(1));
    let reply = Reply {
        tid: 2,
        value: 0,
        errno: 0,
        first: MovedBytes::new(alloc)?,
        second: MovedBytes::new(alloc)?,
    };
    guests.answer(alloc, 2, 0, &reply)?;
    assert_eq!(rt; ends(&mut guests, alloc)?, None);
    assert_eq!(rt; guests.programs().is_raw(1), true);
    Ok(())
}
