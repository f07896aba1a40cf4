ghost use Rattle.std.specs.Prelude.{◌≤◌, IfOk};
ghost use Rattle.nx_pool.specs.Moves.{AreHeld};
ghost use Rattle.nx_fs.specs.Chains.{chains_of};

use super::*;
use nx_base::{Errno, OutOfMemory};
use nx_ksys::{Open, Target};
use nx_pool::{BlockStore, VecBlocks};
use std::alloc::Global;
use std::test::Fail;

fn at(offset: u32, flags: u32) -> Open {
    Open {
        target: Target::File(0),
        flags,
        offset,
    }
}

// A store of so many blocks, and one empty file at place 0.
#[tactic(auto, using(crate::proofs::PlaceLemmas::none_held))]
fn with_file(alloc: Global, blocks: u32) -> Result<(VecBlocks, Files), OutOfMemory>
    requires { blocks ≤ 65536 }
    ensures { IfOk result (λ p. AreHeld (⟦<VecBlocks as BlockStore>⟧.holds p.0) (chains_of p.1)) }
{
    let mut store = VecBlocks::new(alloc, blocks)?;
    let mut files = Files::new(alloc, 2)?;
    files.set_empty(0, &mut store);
    Ok((store, files))
}

fn writes(done: Result<Moved, Errno>, count: u32, end: u32) -> bool {
    match done {
        Ok(moved) => moved.count == count && moved.end == end,
        Err(_) => false,
    }
}

#[test]
fn a_gap_is_zeros_and_costs_blocks(rt: HostRuntime) -> Result<(), Fail> {
    let (mut store, mut files) = with_file(rt.alloc(), 4)?;
    assert_eq!(rt; (files.free(), files.count()), (Some(1), 1));
    assert!(rt; writes(files.write(0, at(0, 2), b"ab", &mut store), 2, 2));
    assert!(rt; writes(files.write(0, at(130, 2), b"cd", &mut store), 2, 132));
    assert_eq!(rt; store.free(), 1);
    let mut buffer = [7; 6];
    assert_eq!(rt; files.read(0, at(127, 1), &mut buffer, &store), Ok(5));
    assert_eq!(rt; buffer, [0, 0, 0, b'c', b'd', 7]);
    assert_eq!(rt; files.read(0, at(132, 1), &mut buffer, &store), Ok(0));
    assert_eq!(rt;
        files.read(1, at(0, 1), &mut buffer, &store),
        Err(Errno::Ebadf)
    );
    Ok(())
}

#[test]
fn a_write_stops_where_the_blocks_do(rt: HostRuntime) -> Result<(), Fail> {
    let (mut store, mut files) = with_file(rt.alloc(), 1)?;
    let long = [b'x'; 70];
    assert!(rt; writes(files.write(0, at(10, 2), &long, &mut store), 54, 64));
    assert!(rt;
        matches!(
            files.write(0, at(64, 2), &long, &mut store),
            Err(Errno::Enospc)
        )
    );
    assert!(rt;
        matches!(
            files.write(0, at(4194304, 2), &long, &mut store),
            Err(Errno::Efbig)
        )
    );
    assert!(rt;
        matches!(
            files.write(0, at(0, 18), b"y", &mut store),
            Err(Errno::Enospc)
        )
    );
    assert!(rt; writes(files.write(0, at(60, 2), b"yyyyyy", &mut store), 4, 64));
    Ok(())
}

#[test]
fn a_file_goes_with_its_last_name_and_description(rt: HostRuntime) -> Result<(), Fail> {
    let (mut store, mut files) = with_file(rt.alloc(), 4)?;
    assert!(rt; writes(files.write(0, at(0, 2), b"ab", &mut store), 2, 2));
    files.sweep(0, false, true, &mut store);
    files.sweep(0, true, false, &mut store);
    assert_eq!(rt; (files.count(), store.free()), (1, 3));
    files.sweep(0, false, false, &mut store);
    assert_eq!(rt; (files.count(), store.free()), (0, 4));
    files.set_empty(0, &mut store);
    assert!(rt; writes(files.write(0, at(0, 2), b"ab", &mut store), 2, 2));
    files.set_empty(0, &mut store);
    assert_eq!(rt; (files.count(), store.free()), (1, 4));
    Ok(())
}

#[test]
fn seeks_count_from_three_places(rt: HostRuntime) -> Result<(), Fail> {
    let (mut store, mut files) = with_file(rt.alloc(), 4)?;
    assert!(rt; writes(files.write(0, at(0, 2), b"abcde", &mut store), 5, 5));
    assert_eq!(rt; files.seek(0, at(3, 1), 2, 0), Ok(2));
    assert_eq!(rt; files.seek(0, at(3, 1), 4294967295, 1), Ok(2));
    assert_eq!(rt; files.seek(0, at(3, 1), 10, 2), Ok(15));
    assert_eq!(rt; files.seek(0, at(3, 1), 4294967290, 2), Err(Errno::Einval));
    assert_eq!(rt; files.seek(0, at(3, 1), 2147483647, 1), Err(Errno::Einval));
    assert_eq!(rt; files.seek(0, at(3, 1), 0, 3), Err(Errno::Einval));
    assert_eq!(rt; files.seek(1, at(3, 1), 0, 0), Err(Errno::Ebadf));
    Ok(())
}
