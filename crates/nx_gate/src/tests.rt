use super::*;
use nx_base::{Bytes, Kind, OutOfMemory};
use nx_calls::read_calls;
use nx_config::read_config;
use std::alloc::Global;
use std::test::Fail;

const TABLE: &str = "\"write\",\"h\",\"\",\"int\",\"int\",\"const void *\",\"size_t\"
\"mq_send\",\"h\",\"!defined(CONFIG_DISABLE_MQUEUE)\",\"int\",\"int\",\"const char *\",\"size_t\",\"int\"
\"getpid\",\"h\",\"\",\"int\"
";

fn gates(alloc: Global, config: &str, table: &str) -> Result<Gates, OutOfMemory> {
    if config.len() > 1048576 || table.len() > 1048576 {
        return Err(OutOfMemory);
    }
    let Ok(config) = read_config(alloc, config.as_bytes()) else {
        return Err(OutOfMemory);
    };
    let Ok(calls) = read_calls(alloc, table.as_bytes(), &config) else {
        return Err(OutOfMemory);
    };
    plan(alloc, &calls)
}

fn listed(alloc: Global, config: &str, table: &str) -> Result<Bytes, OutOfMemory> {
    let gates = gates(alloc, config, table)?;
    listing(alloc, &gates)
}

#[test]
fn listings(rt: HostRuntime) -> Result<(), Fail> {
    let without = "CONFIG_BUILD_FLAT=y\nCONFIG_DISABLE_MQUEUE=y\n";
    let condition = "\"a_b\",\"h\",\"0x10 >= 17 || (defined(CONFIG_X) && !CONFIG_Y)\",\"int\"";
    let rows = [
        (
            without,
            TABLE,
            "16 write word in len 00060693 00058613 00050593 01000513 00000073 00008067\n17 getpid 01100513 00000073 00008067\n",
        ),
        (
            "CONFIG_X=3",
            condition,
            "16 a_b 01000513 00000073 00008067\n",
        ),
        ("", condition, ""),
    ];
    for (config, table, text) in rows {
        let listing = listed(rt.alloc(), config, table)?;
        assert_eq!(rt; listing.as_slice(), text.as_bytes());
    }
    Ok(())
}

#[test]
fn gates_are_found_by_their_numbers(rt: HostRuntime) -> Result<(), Fail> {
    let gates = gates(rt.alloc(), "", TABLE)?;
    assert!(rt; gates.find(15).is_none());
    assert!(rt; gates.find(19).is_none());
    let kinds = [Kind::Word, Kind::In, Kind::Len, Kind::Word];
    let gate = gates.find(17).ok_or("no gate")?;
    assert_eq!(rt; gate.name.as_slice(), b"mq_send".as_slice());
    assert_eq!(rt; gate.kinds.as_slice(), kinds.as_slice());
    assert!(rt; gate.returns);
    Ok(())
}
