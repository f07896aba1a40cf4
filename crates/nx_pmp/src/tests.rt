use super::*;
use nx_base::{Access, Mode};
use std::test::Fail;

const OFF: PmpEntry = PmpEntry { cfg: 0, addr: 0 };

// An access of `len` bytes, and whether it is allowed.
type Case = (u32, u32, Access, Mode, bool);

fn answers(pmp: &Pmp, case: Case) -> bool {
    let (at, len, access, mode, wanted) = case;
    1 <= len && len <= 4 && at <= 0xFFFFFFFF - 3 && pmp.allows(at, len, access, mode) == wanted
}

#[test]
fn each_kind_of_entry_matches_its_addresses(rt: HostRuntime) -> Result<(), Fail> {
    let mut entries = [OFF; 16];
    // Four bytes that may be read, eight that may be read and written, sixteen that may be run.
    entries[0] = PmpEntry {
        cfg: 0x11,
        addr: 0x100 / 4,
    };
    entries[1] = PmpEntry {
        cfg: 0x1B,
        addr: 0x200 / 4,
    };
    entries[2] = PmpEntry {
        cfg: 0x1C,
        addr: 0x300 / 4 + 1,
    };
    // From the address of an entry that is off, everything; then up to where the range begins.
    entries[3] = PmpEntry {
        cfg: 0x00,
        addr: 0x4000 / 4,
    };
    entries[4] = PmpEntry {
        cfg: 0x0F,
        addr: 0x5000 / 4,
    };
    entries[5] = PmpEntry {
        cfg: 0x88,
        addr: 0x5000 / 4,
    };
    // 32 bytes that may be read, locked, and four bytes above 32 bits of address.
    entries[6] = PmpEntry {
        cfg: 0x99,
        addr: 0x6000 / 4 + 3,
    };
    entries[7] = PmpEntry {
        cfg: 0x17,
        addr: 0x40000000,
    };
    let pmp = Pmp { entries };
    for case in [
        (0x100, 4, Access::Load, Mode::User, true),
        (0x100, 4, Access::Store, Mode::User, false),
        (0x104, 1, Access::Load, Mode::User, false),
        (0x104, 1, Access::Load, Mode::Machine, true),
        (0x0FE, 4, Access::Load, Mode::User, false),
        (0x0FE, 4, Access::Load, Mode::Machine, false),
        (0x200, 4, Access::Store, Mode::User, true),
        (0x204, 4, Access::Store, Mode::User, true),
        (0x207, 1, Access::Load, Mode::User, true),
        (0x208, 1, Access::Load, Mode::User, false),
        (0x204, 4, Access::Fetch, Mode::User, false),
        (0x204, 4, Access::Fetch, Mode::Machine, true),
        (0x30C, 4, Access::Fetch, Mode::User, true),
        (0x30E, 4, Access::Fetch, Mode::User, false),
        (0x310, 4, Access::Fetch, Mode::User, false),
        (0x3FFC, 4, Access::Fetch, Mode::User, false),
        (0x4000, 4, Access::Fetch, Mode::User, true),
        (0x4FFC, 4, Access::Store, Mode::User, true),
        (0x4FFE, 4, Access::Store, Mode::Machine, false),
        (0x5000, 1, Access::Load, Mode::User, false),
        (0x5000, 1, Access::Load, Mode::Machine, true),
        (0x6000, 4, Access::Load, Mode::User, true),
        (0x601C, 4, Access::Load, Mode::Machine, true),
        (0x6000, 4, Access::Store, Mode::Machine, false),
        (0x6020, 4, Access::Store, Mode::Machine, true),
        (0, 4, Access::Load, Mode::User, false),
    ] {
        assert!(rt; answers(&pmp, case), "{case:?}");
    }
    Ok(())
}

#[test]
fn the_lowest_number_decides(rt: HostRuntime) -> Result<(), Fail> {
    let mut entries = [OFF; 16];
    entries[14] = PmpEntry {
        cfg: 0x98,
        addr: 0x80000000 / 4 + 0x1FF,
    };
    entries[15] = PmpEntry {
        cfg: 0x1F,
        addr: 0xFFFFFFFF,
    };
    let pmp = Pmp { entries };
    for case in [
        (0x80000000, 4, Access::Load, Mode::Machine, false),
        (0x80000FFF, 1, Access::Load, Mode::User, false),
        (0x80000FFE, 4, Access::Load, Mode::User, false),
        (0x80001000, 4, Access::Store, Mode::User, true),
        (0x7FFFFFFC, 4, Access::Fetch, Mode::User, true),
        (0, 1, Access::Load, Mode::User, true),
        (0xFFFFFFFC, 4, Access::Load, Mode::User, true),
    ] {
        assert!(rt; answers(&pmp, case), "{case:?}");
    }
    Ok(())
}

#[test]
fn a_unit_counts_its_questions(rt: HostRuntime) -> Result<(), Fail> {
    let mut unit = PmpUnit::new(Pmp { entries: [OFF; 16] });
    assert_eq!(rt; unit.asked(), 0);
    assert!(rt; unit.last().is_none());
    assert!(rt; !unit.ask(0x80000000, 4, Access::Fetch, Mode::User));
    unit.set(
        3,
        PmpEntry {
            cfg: 0x14,
            addr: 0x20000000,
        },
    );
    assert_eq!(rt; unit.pmp().entries[3].cfg, 0x14);
    assert_eq!(rt; unit.pmp().entries[2].cfg, 0);
    assert_eq!(rt; unit.asked(), 1);
    assert!(rt; unit.ask(0x80000000, 4, Access::Fetch, Mode::User));
    assert!(rt; !unit.ask(0x80000002, 2, Access::Load, Mode::User));
    assert_eq!(rt; unit.asked(), 3);
    let last = Question {
        at: 0x80000002,
        len: 2,
        access: Access::Load,
        mode: Mode::User,
    };
    assert_eq!(rt; unit.last(), Some(last));
    Ok(())
}
