ghost use Rattle.std.specs.Prelude.{◌≡◌, ◌<◌, [], IfOk, length};
ghost use Rattle.nx_objects.specs.Tables.{chains_of, ArePlaced, IsBooted};

use super::*;
use nx_base::{Errno, OutOfMemory, Text};
use nx_ksys::{Asked, Doing, Open, Target, Thread, Wait};
use nx_pool::{BlockStore, VecBlocks};
use nx_sched::Threads;
use std::alloc::Global;
use std::test::Fail;

// A store of 16 blocks, two slots, and the objects of boot with room for one.
#[tactic(auto, using(crate::proofs::AtFirst::held_at_first))]
fn at_boot(alloc: Global) -> Result<(VecBlocks, Threads, Objects), OutOfMemory>
    ensures booted { IfOk result (λ p. IsBooted [] 2 1 p.2) }
    ensures placed { IfOk result (λ p. ArePlaced (length p.1.threads) p.2) }
    ensures threads { IfOk result (λ p. length p.1.threads ≡ 2) }
    ensures moments { IfOk result (λ p. p.1.moments ≡ 0) }
    ensures held { IfOk result (λ p. ⟦<VecBlocks as BlockStore>⟧.holds p.0 (chains_of p.2)) }
{
    let programs: [Text; 0] = [];
    let store = VecBlocks::new(alloc, 16)?;
    let threads = Threads::new(alloc, 2)?;
    let objects = Objects::boot(alloc, &programs, 2, 1)?;
    Ok((store, threads, objects))
}

#[derive(Clone, Copy, Debug)]
enum Step {
    Close(u32),
    Dup(u32),
    Dup2(u32, u32),
}

// What a call of the first group comes to.
#[tactic(auto, using(crate::proofs::Places::placed_still))]
fn act(
    objects: &mut Objects,
    step: Step,
    threads: &Threads,
    store: &mut VecBlocks,
) -> Result<u32, Errno>
    requires threads { 0 < length threads.now.threads }
    requires placed { ArePlaced (length threads.now.threads) objects.old }
    requires held { ⟦<VecBlocks as BlockStore>⟧.holds store.old (chains_of objects.old) }
    ensures placed { ArePlaced (length threads.now.threads) objects.new }
    ensures held { ⟦<VecBlocks as BlockStore>⟧.holds store.new (chains_of objects.new) }
{
    match step {
        Step::Close(fd) => match objects.close_any(0, fd, threads, store) {
            Ok(()) => Ok(0),
            Err(fault) => Err(fault),
        },
        Step::Dup(fd) => objects.dup(0, fd),
        Step::Dup2(first, second) => objects.dup2(0, first, second, threads, store),
    }
}

#[test]
fn a_description_ends_with_its_last_descriptor(rt: HostRuntime) -> Result<(), Fail> {
    let (mut store, threads, mut objects) = at_boot(rt.alloc())?;
    assert_eq!(rt;
        act(&mut objects, Step::Dup(0), &threads, &mut store),
        Ok(3)
    );
    assert_eq!(rt;
        act(&mut objects, Step::Dup2(3, 31), &threads, &mut store),
        Ok(31)
    );
    assert_eq!(rt;
        act(&mut objects, Step::Dup2(3, 3), &threads, &mut store),
        Ok(3)
    );
    assert_eq!(rt;
        act(&mut objects, Step::Dup2(3, 32), &threads, &mut store),
        Err(Errno::Ebadf)
    );
    assert_eq!(rt;
        act(&mut objects, Step::Dup2(9, 0), &threads, &mut store),
        Err(Errno::Ebadf)
    );
    objects.close_all(1, &threads, &mut store);
    assert!(rt; objects.descriptions.get(0).is_some());
    objects.close_all(0, &threads, &mut store);
    assert!(rt; objects.descriptions.get(0).is_none() && !objects.descriptors.has(0));
    assert_eq!(rt;
        act(&mut objects, Step::Dup(0), &threads, &mut store),
        Err(Errno::Ebadf)
    );
    assert_eq!(rt;
        act(&mut objects, Step::Close(0), &threads, &mut store),
        Err(Errno::Ebadf)
    );
    Ok(())
}

// The same with an empty file that no path names, open as descriptor 3 of the first group.
#[tactic(auto, using(crate::proofs::AtFirst::second_free, crate::proofs::AtFirst::placed_file, crate::proofs::Chains::files_held, crate::proofs::Chains::files_moved))]
fn with_file(alloc: Global) -> Result<(VecBlocks, Threads, Objects), OutOfMemory>
    ensures placed { IfOk result (λ p. ArePlaced (length p.1.threads) p.2) }
    ensures threads { IfOk result (λ p. length p.1.threads ≡ 2) }
    ensures held { IfOk result (λ p. ⟦<VecBlocks as BlockStore>⟧.holds p.0 (chains_of p.2)) }
{
    let (mut store, threads, mut objects) = at_boot(alloc)?;
    objects.files.set_empty(0, &mut store);
    objects.descriptions.add(
        1,
        Open {
            target: Target::File(0),
            flags: 3,
            offset: 0,
        },
    );
    objects.descriptors.set(0, 3, Some(1));
    Ok((store, threads, objects))
}

#[test]
fn an_unlinked_file_ends_when_it_is_closed(rt: HostRuntime) -> Result<(), Fail> {
    let (mut store, threads, mut objects) = with_file(rt.alloc())?;
    assert_eq!(rt;
        act(&mut objects, Step::Dup(3), &threads, &mut store),
        Ok(4)
    );
    assert_eq!(rt;
        act(&mut objects, Step::Close(3), &threads, &mut store),
        Ok(0)
    );
    assert_eq!(rt; objects.files.count(), 1);
    assert_eq!(rt;
        act(&mut objects, Step::Dup2(0, 4), &threads, &mut store),
        Ok(4)
    );
    assert_eq!(rt; objects.files.count(), 0);
    Ok(())
}

// The same with a semaphore that nothing leads to.
#[tactic(auto, using(crate::proofs::AtFirst::semaphore_free, crate::proofs::AtFirst::placed_semaphore))]
fn with_semaphore(alloc: Global) -> Result<(VecBlocks, Threads, Objects), OutOfMemory>
    ensures placed { IfOk result (λ p. ArePlaced (length p.1.threads) p.2) }
    ensures threads { IfOk result (λ p. length p.1.threads ≡ 2) }
    ensures moments { IfOk result (λ p. p.1.moments ≡ 0) }
    ensures held { IfOk result (λ p. ⟦<VecBlocks as BlockStore>⟧.holds p.0 (chains_of p.2)) }
{
    let (store, threads, mut objects) = at_boot(alloc)?;
    objects.semaphores.make(0, b"s", 0);
    Ok((store, threads, objects))
}

fn waiter() -> Thread {
    Thread {
        number: 2,
        group: 2,
        priority: 100,
        errno: 0,
        doing: Doing::Waits(Wait::Semaphore(0), 1),
        asked: Asked {
            call: None,
            words: [0; 6],
        },
    }
}

#[test]
fn a_semaphore_ends_when_no_thread_waits_on_it(rt: HostRuntime) -> Result<(), Fail> {
    let (mut store, mut threads, mut objects) = with_semaphore(rt.alloc())?;
    threads.begin(1, waiter());
    objects.sweep_idle(&threads, &mut store);
    assert_eq!(rt; objects.semaphores.count(), 1);
    threads.end_thread(2);
    objects.sweep_idle(&threads, &mut store);
    assert_eq!(rt; objects.semaphores.count(), 0);
    Ok(())
}
