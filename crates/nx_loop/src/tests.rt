ghost use Rattle.std.specs.Prelude.{◌≤◌};

use nx_base::OutOfMemory;
use nx_ram::Ram;
use nx_space::{PmpSpace, RAM_START};
use std::alloc::Global;
use std::test::Fail;

// The layout of the default limits: a pool of 4,096 blocks, a page of texts, no data, and 16 stacks.
fn default_layout(alloc: Global, size: u32) -> Result<PmpSpace, OutOfMemory>
    requires room { 0x61000 ≤ size }
    requires most { size ≤ 0x1000000 }
{
    PmpSpace::new(
        alloc,
        Ram::new(alloc, size)?,
        Vec::new(alloc),
        RAM_START + 0x40000,
        RAM_START + 0x41000,
        RAM_START + 0x41000,
        8192,
        16,
    )
}

#[test]
fn entries_of_the_default_limits(rt: HostRuntime) -> Result<(), Fail> {
    let space = default_layout(rt.alloc(), 0x400000)?;
    let entries = &space.unit().pmp().entries;
    assert_eq!(rt; (entries[0].cfg, entries[0].addr), (0x00, 0x20010000));
    assert_eq!(rt; (entries[1].cfg, entries[1].addr), (0x0D, 0x20010400));
    assert_eq!(rt; (entries[2].cfg, entries[2].addr), (0x0B, 0x20018400));
    for entry in &entries[3..] {
        assert_eq!(rt; (entry.cfg, entry.addr), (0, 0));
    }
    Ok(())
}
