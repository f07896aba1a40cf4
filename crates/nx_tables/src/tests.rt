ghost use Rattle.std.specs.Prelude.{◌≡◌, IfOk, length};

use super::*;
use nx_base::{Access, OutOfMemory};
use nx_ram::Ram;
use nx_sv32::{PageFault, walk};
use std::alloc::Global;
use std::test::Fail;

fn ram_of(alloc: Global, size: u32) -> Result<Ram, OutOfMemory>
    ensures { IfOk result (λ ram. length ram ≡ size) }
{
    Ram::new(alloc, size)
}

// A root in frame 0, and in frame 1 the table of the first region: two pages of text from 0x10000 on.
#[test]
fn two_pages_of_text(rt: HostRuntime) -> Result<(), Fail> {
    let mut ram = ram_of(rt.alloc(), 0x4000)?;
    map_table(&mut ram, 0, 0, 1);
    map_page(&mut ram, 1, 16, 3, false);
    map_page(&mut ram, 1, 17, 2, true);
    assert_eq!(rt; table_of(&ram, 0, 0), Some(1));
    assert_eq!(rt; table_of(&ram, 0, 1), None);
    assert_eq!(rt; ram.load32(0), 0x20000401);
    assert_eq!(rt; ram.load32(0x1040), 0x20000C5B);
    assert_eq!(rt; ram.load32(0x1044), 0x200008D7);
    let satp = 0x80080000;
    for (at, access, to) in [
        (0x10004, Access::Load, Ok(0x80003004)),
        (0x10FFC, Access::Fetch, Ok(0x80003FFC)),
        (0x11FFC, Access::Store, Ok(0x80002FFC)),
        (0x10004, Access::Store, Err(PageFault)),
        (0x11000, Access::Fetch, Err(PageFault)),
        (0x12000, Access::Load, Err(PageFault)),
        (0x400000, Access::Load, Err(PageFault)),
    ] {
        assert_eq!(rt; walk(&ram, satp, at, access), to);
    }
    Ok(())
}
