use super::*;
use nx_base::{Access, OutOfMemory};
use nx_ram::Ram;
use std::alloc::Global;
use std::test::Fail;

// The mode, an ASID and the root's page number, 0x80000.
const SATP: u32 = 0xFFC80000;

// Two tables, and three quarters of a page.
const SIZE: u32 = 0x2C00;

// Entries by their places in the RAM: the root's first, then those of the table at 0x80001000.
const ENTRIES: [(u32, u32); 23] = [
    (0x0004, 0x20000401), // to the table
    (0x0008, 0x200000DF), // a superpage with all bits
    (0x000C, 0x200004DF), // a superpage that is not aligned
    (0x0010, 0x20000405), // W without R
    (0x0014, 0x20000411), // to the table, with U
    (0x0018, 0x20000441), // to the table, with A
    (0x001C, 0x20000481), // to the table, with D
    (0x0020, 0x20000721), // to the table, with G and the bits 8 and 9
    (0x0024, 0x20000801), // to a table partly outside the RAM
    (0x0028, 0x20000400), // to the table, with V clear
    (0x002C, 0x1FFFFC01), // to a table before the RAM
    (0x0030, 0x600000DF), // a superpage at 0x180000000
    (0x1000, 0x200008DF), // a page with all bits
    (0x1004, 0x20000853), // V, R, U, A
    (0x1008, 0x20000859), // V, X, U, A
    (0x100C, 0x20000857), // V, R, W, U, A
    (0x1010, 0x2000089F), // all but A and G
    (0x1014, 0x200008CF), // all but U and G
    (0x1018, 0x20000801), // to a table
    (0x101C, 0x20000CDF), // a page after the RAM
    (0x1020, 0x200008DE), // V clear
    (0x1024, 0x200008DD), // R clear, W set
    (0x1028, 0x1FFFFCDF), // a page before the RAM
];

fn mapped(alloc: Global) -> Result<Ram, OutOfMemory> {
    let mut ram = Ram::new(alloc, SIZE)?;
    for (place, entry) in ENTRIES {
        if place <= SIZE - 4 && ram.len() == SIZE {
            ram.store32(place, entry);
        }
    }
    Ok(ram)
}

fn translates(ram: &Ram, satp: u32, at: u32, access: Access, to: Option<u32>) -> bool {
    ram.len() == SIZE && walk(ram, satp, at, access).ok() == to
}

#[test]
fn entries_translate_or_fault(rt: HostRuntime) -> Result<(), Fail> {
    let ram = mapped(rt.alloc())?;
    for (at, access, to) in [
        (0x00400123, Access::Fetch, Some(0x80002123)),
        (0x00400123, Access::Load, Some(0x80002123)),
        (0x00400123, Access::Store, Some(0x80002123)),
        (0x00400BFF, Access::Load, Some(0x80002BFF)),
        (0x00400C00, Access::Load, None),
        (0x00401000, Access::Load, Some(0x80002000)),
        (0x00401000, Access::Store, None),
        (0x00401000, Access::Fetch, None),
        (0x00402004, Access::Fetch, Some(0x80002004)),
        (0x00402004, Access::Load, None),
        (0x00403008, Access::Load, Some(0x80002008)),
        (0x00403008, Access::Store, None),
        (0x00404000, Access::Load, None),
        (0x00405000, Access::Load, None),
        (0x00406000, Access::Load, None),
        (0x00407000, Access::Load, None),
        (0x00408000, Access::Load, None),
        (0x00409000, Access::Fetch, None),
        (0x0040A000, Access::Load, None),
        (0x0040B000, Access::Load, None),
        (0x00801234, Access::Store, Some(0x80001234)),
        (0x00802BFF, Access::Fetch, Some(0x80002BFF)),
        (0x00802C00, Access::Fetch, None),
        (0x00C00000, Access::Load, None),
        (0x01000000, Access::Store, None),
        (0x01400000, Access::Load, None),
        (0x01800000, Access::Load, None),
        (0x01C00000, Access::Load, None),
        (0x02000010, Access::Load, Some(0x80002010)),
        (0x02400000, Access::Load, None),
        (0x02800000, Access::Load, None),
        (0x02C00000, Access::Load, None),
        (0x03000000, Access::Load, None),
        (0xFFFFF000, Access::Load, None),
    ] {
        assert!(rt;
            translates(&ram, SATP, at, access, to),
            "{at:08x} {access:?}"
        );
    }
    Ok(())
}

#[test]
fn the_root_lies_in_the_ram(rt: HostRuntime) -> Result<(), Fail> {
    let ram = mapped(rt.alloc())?;
    for (satp, at, to) in [
        (0x80080000, 0x00400000, Some(0x80002000)),
        (0x80080002, 0x00400000, None),
        (0x8007FFFF, 0x00400000, None),
        (0x80180000, 0x00400000, None),
        (0x7FC80000, 0x00400000, Some(0x00400000)),
        (0, 0x90000000, Some(0x90000000)),
    ] {
        assert!(rt; translates(&ram, satp, at, Access::Load, to), "{satp:08x}");
    }
    let text = format!(in rt.alloc(); "{PageFault}")?;
    assert_eq!(rt; text.as_str(), "page fault");
    Ok(())
}
