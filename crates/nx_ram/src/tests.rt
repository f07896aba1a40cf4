use super::*;
use std::test::Fail;

#[test]
fn stores_and_loads_of_each_width(rt: HostRuntime) -> Result<(), Fail> {
    let mut ram = Ram::new(rt.alloc(), 8)?;
    assert_eq!(rt; ram.len(), 8);
    ram.store32(1, 0x80FFFE7D);
    ram.store16(5, 0x1234);
    ram.store8(7, 0x9A);
    for (at, byte) in [
        (0, 0),
        (1, 0x7D),
        (2, 0xFE),
        (3, 0xFF),
        (4, 0x80),
        (5, 0x34),
        (6, 0x12),
        (7, 0x9A),
    ] {
        assert_eq!(rt; ram.load8(at), byte);
    }
    assert_eq!(rt; ram.load16(3), 0x80FF);
    assert_eq!(rt; ram.load32(4), 0x9A123480);
    ram.put(2, &[1, 2, 3]);
    ram.zero(3, 1);
    assert_eq!(rt; ram.load32(1), 0x0300017D);
    Ok(())
}
