ghost use Rattle.std.specs.Prelude.{◌≡◌, ◌<◌, IfOk, length};
ghost use Rattle.nx_objects.specs.Tables.{chains_of};
ghost use Rattle.nx_ktables.specs.State.{IsPlaced};

use super::*;
use nx_base::{OutOfMemory, Text};
use nx_config::Limits;
use nx_kernel::Calling;
use nx_ksys::{Asked, Doing, Replies, Thread};
use nx_pool::{BlockStore, VecBlocks};
use std::alloc::Global;
use std::test::Fail;

// A store of 16 blocks, and the tables of boot, with two slots.
#[tactic(auto, using(nx_objects::proofs::AtFirst::held_at_first, nx_path::proofs::BootLemmas::no_names))]
fn at_boot(alloc: Global) -> Result<(VecBlocks, Tables), OutOfMemory>
    ensures placed { IfOk result (λ p. IsPlaced p.1) }
    ensures slots { IfOk result (λ p. length p.1.threads.threads ≡ 2) }
    ensures held { IfOk result (λ p. ⟦<VecBlocks as BlockStore>⟧.holds p.0 (chains_of p.1.objects)) }
{
    let limits = Limits {
        ram: 1048576,
        threads: 2,
        blocks: 16,
        nodes: 16,
        console: 64,
        stack: 4096,
    };
    let programs: [Text; 0] = [];
    let store = VecBlocks::new(alloc, 16)?;
    let tables = Tables::boot(alloc, &limits, &programs, Vec::new(alloc), Vec::new(alloc))?;
    Ok((store, tables))
}

fn shell() -> Calling {
    let asked = Asked {
        call: None,
        words: [0; 6],
    };
    let thread = Thread {
        number: 1,
        group: 1,
        priority: 100,
        errno: 0,
        doing: Doing::Ready(0),
        asked,
    };
    Calling { thread, asked }
}

// The value and the error number of the last reply.
fn last(replies: &Replies) -> Option<(i32, i32)> {
    match replies.as_slice().last() {
        None => None,
        Some(reply) => Some((reply.value, reply.errno)),
    }
}

#[test]
fn a_descriptor_has_a_second(rt: HostRuntime) -> Result<(), Fail> {
    let (_store, mut tables) = at_boot(rt.alloc())?;
    let mut replies = Replies::new(rt.alloc(), 2)?;
    tables.dup(shell(), 0, 0, &mut replies);
    assert_eq!(rt; last(&replies), Some((3, 0)));
    Ok(())
}

#[test]
fn a_call_that_fails_sets_the_error(rt: HostRuntime) -> Result<(), Fail> {
    let (mut store, mut tables) = at_boot(rt.alloc())?;
    let mut replies = Replies::new(rt.alloc(), 2)?;
    tables.close(shell(), 0, 3, &mut store, &mut replies);
    assert_eq!(rt; last(&replies), Some((-1, 9)));
    match tables.threads.thread(1) {
        None => assert!(rt; false),
        Some(thread) => assert_eq!(rt; thread.errno, 9),
    }
    Ok(())
}

#[test]
fn what_boot_made_stays(rt: HostRuntime) -> Result<(), Fail> {
    let (_store, mut tables) = at_boot(rt.alloc())?;
    let mut replies = Replies::new(rt.alloc(), 2)?;
    tables.rename(shell(), 0, b"/tmp", b"/t", &mut replies);
    assert_eq!(rt; last(&replies), Some((-1, 22)));
    Ok(())
}

#[test]
fn a_word_is_told_with_its_sign(rt: HostRuntime) -> Result<(), Fail> {
    let mut replies = Replies::new(rt.alloc(), 1)?;
    tell_word(1, 4294967295, b"", b"", &mut replies);
    assert_eq!(rt; last(&replies), Some((-1, 0)));
    Ok(())
}
