use super::*;
use nx_base::Build;
use std::alloc::{AllocError, Global};
use std::test::Fail;

fn read(alloc: Global, text: &str) -> Result<Config, ConfigFault> {
    if text.len() > 1048576 {
        return Err(ConfigFault::Memory);
    }
    read_config(alloc, text.as_bytes())
}

fn fault_of(alloc: Global, text: &str) -> Option<ConfigFault> {
    match read(alloc, text) {
        Ok(_) => None,
        Err(fault) => Some(fault),
    }
}

fn fault_at(line: u32, kind: ConfigKind) -> Option<ConfigFault> {
    Some(ConfigFault::Text { line, kind })
}

fn is_number(value: Option<&Value>, number: i128) -> bool {
    match value {
        Some(Value::Number(n)) => *n == number,
        _ => false,
    }
}

fn is_text(value: Option<&Value>, text: &str) -> bool {
    match value {
        Some(Value::Text(bytes)) => bytes.as_slice() == text.as_bytes(),
        _ => false,
    }
}

fn is_yes(value: Option<&Value>) -> bool {
    match value {
        Some(Value::Yes) => true,
        _ => false,
    }
}

#[test]
fn numbers(rt: HostRuntime) -> Result<(), Fail> {
    for (text, number) in [
        ("X=0", 0),
        ("X=007", 7),
        ("X=-0", 0),
        (" \tX=-0x1F\r", -31),
        ("X=0xfF", 255),
        ("X=18446744073709551615", 18446744073709551615),
        ("X=-0xFFFFFFFFFFFFFFFF", -18446744073709551615),
        ("X=00000000000000000000000000001", 1),
    ] {
        let config = read(rt.alloc(), text)?;
        assert!(rt; is_number(config.value("X"), number), "{text}");
    }
    Ok(())
}

#[test]
fn texts(rt: HostRuntime) -> Result<(), Fail> {
    for (line, text) in [
        ("X=", ""),
        ("X= ", ""),
        ("X=\"\"", ""),
        ("X=\"a b\" ", "a b"),
        ("X=\" a#\"", " a#"),
        ("X=\"a\\\"b\\\\\"", "a\"b\\"),
        ("X=\"\\y\"", "y"),
    ] {
        let config = read(rt.alloc(), line)?;
        assert!(rt; is_text(config.value("X"), text), "{line}");
    }
    Ok(())
}

#[test]
fn the_last_line_counts(rt: HostRuntime) -> Result<(), Fail> {
    let config = read(
        rt.alloc(),
        "# a comment\n\nA=y\n1_b=2\nC=n\nD=y\n# D is not set\nE=1\nE=y\n  # A is not set yet\n#E is not set\n",
    )?;
    assert!(rt; is_yes(config.value("A")));
    assert!(rt; is_number(config.value("1_b"), 2));
    assert!(rt; config.value("C").is_none());
    assert!(rt; config.value("D").is_none());
    assert!(rt; is_yes(config.value("E")));
    assert!(rt; config.value("F").is_none());
    Ok(())
}

#[test]
fn bad_lines(rt: HostRuntime) {
    for (text, line) in [
        ("X", 1),
        ("=1", 1),
        ("X =1", 1),
        ("\nX= 1", 2),
        ("X=0X1\nY=99999999999999999999", 1),
        ("X=+1", 1),
        ("X=-", 1),
        ("X=0x", 1),
        ("X=0xg", 1),
        ("X=1a", 1),
        ("X=yes", 1),
        ("A=y\n\n#\nX-Y=1\n", 4),
        ("X=\"a", 1),
        ("X=\"a\"b", 1),
        ("X=\"ab\\\"", 1),
        ("CONFIG_NXSIM_THREADS=1\nX", 2),
    ] {
        let fault = fault_of(rt.alloc(), text);
        assert_eq!(rt; fault, fault_at(line, ConfigKind::BadLine), "{text}");
    }
}

#[test]
fn bad_numbers(rt: HostRuntime) {
    for (text, line) in [
        ("X=18446744073709551616\nX", 1),
        ("X=y\nX=-0x10000000000000000", 2),
        ("CONFIG_NXSIM_RAM=18446744073709551616", 1),
    ] {
        let fault = fault_of(rt.alloc(), text);
        assert_eq!(rt; fault, fault_at(line, ConfigKind::BadNumber), "{text}");
    }
}

#[test]
fn limits_out_of_range(rt: HostRuntime) {
    for (text, line) in [
        ("CONFIG_NXSIM_RAM=1044480", 1),
        ("CONFIG_NXSIM_RAM=1048577", 1),
        ("CONFIG_NXSIM_RAM=16781312", 1),
        ("CONFIG_NXSIM_THREADS=1", 1),
        ("CONFIG_NXSIM_THREADS=-2", 1),
        ("CONFIG_NXSIM_THREADS=65", 1),
        ("CONFIG_NXSIM_BLOCKS=15", 1),
        ("CONFIG_NXSIM_BLOCKS=65537", 1),
        ("CONFIG_NXSIM_NODES=15", 1),
        ("CONFIG_NXSIM_NODES=1025", 1),
        ("CONFIG_NXSIM_CONSOLE=1023", 1),
        ("CONFIG_NXSIM_CONSOLE=16777217", 1),
        ("CONFIG_NXSIM_STACK=0", 1),
        ("CONFIG_NXSIM_STACK=4097", 1),
        ("CONFIG_NXSIM_STACK=1052672", 1),
        ("CONFIG_NXSIM_NODES=y", 1),
        ("CONFIG_NXSIM_NODES=", 1),
        ("CONFIG_NXSIM_NODES=99\nCONFIG_NXSIM_NODES=\"99\"", 2),
        (
            "CONFIG_NXSIM_RAM=1\nCONFIG_NXSIM_STACK=1\nCONFIG_NXSIM_RAM=2\n",
            2,
        ),
    ] {
        let fault = fault_of(rt.alloc(), text);
        assert_eq!(rt; fault, fault_at(line, ConfigKind::OutOfRange), "{text}");
    }
}

#[test]
fn limits_are_read(rt: HostRuntime) -> Result<(), Fail> {
    let config = read(
        rt.alloc(),
        "CONFIG_NXSIM_RAM=1\n# CONFIG_NXSIM_RAM is not set\n",
    )?;
    let defaults = Limits {
        ram: 4194304,
        threads: 16,
        blocks: 4096,
        nodes: 128,
        console: 1048576,
        stack: 8192,
    };
    assert_eq!(rt; config.limits(), defaults);
    let lowest = Limits {
        ram: 1048576,
        threads: 2,
        blocks: 16,
        nodes: 16,
        console: 1024,
        stack: 4096,
    };
    let config = read(
        rt.alloc(),
        "CONFIG_NXSIM_RAM=0x100000\nCONFIG_NXSIM_THREADS=2\nCONFIG_NXSIM_BLOCKS=16\nCONFIG_NXSIM_NODES=16\nCONFIG_NXSIM_CONSOLE=1024\nCONFIG_NXSIM_STACK=4096\n",
    )?;
    assert_eq!(rt; config.limits(), lowest);
    let highest = Limits {
        ram: 16777216,
        threads: 64,
        blocks: 65536,
        nodes: 1024,
        console: 16777216,
        stack: 1048576,
    };
    let config = read(
        rt.alloc(),
        "CONFIG_NXSIM_RAM=0x1000000\nCONFIG_NXSIM_THREADS=64\nCONFIG_NXSIM_BLOCKS=65536\nCONFIG_NXSIM_NODES=1024\nCONFIG_NXSIM_CONSOLE=16777216\nCONFIG_NXSIM_STACK=1048576\n",
    )?;
    assert_eq!(rt; config.limits(), highest);
    Ok(())
}

#[test]
fn builds(rt: HostRuntime) -> Result<(), Fail> {
    for (text, build) in [
        ("CONFIG_BUILD_FLAT=y", Build::Flat),
        (
            "CONFIG_BUILD_PROTECTED=y\nCONFIG_BUILD_FLAT=n",
            Build::Protected,
        ),
        (
            "CONFIG_BUILD_FLAT=y\nCONFIG_BUILD_KERNEL=y\nCONFIG_BUILD_FLAT=1",
            Build::Kernel,
        ),
    ] {
        assert_eq!(rt; read(rt.alloc(), text)?.build(), Ok(build), "{text}");
    }
    for (text, line, kind) in [
        ("", 0, ConfigKind::NoBuild),
        (
            "CONFIG_BUILD_FLAT=\"y\"\nCONFIG_BUILD_KERNEL=1",
            0,
            ConfigKind::NoBuild,
        ),
        (
            "CONFIG_BUILD_FLAT=y\nCONFIG_BUILD_KERNEL=y\n",
            2,
            ConfigKind::TwoBuilds,
        ),
        (
            "CONFIG_BUILD_FLAT=y\nX=y\nCONFIG_BUILD_KERNEL=y",
            3,
            ConfigKind::TwoBuilds,
        ),
        (
            "CONFIG_BUILD_KERNEL=y\nCONFIG_BUILD_PROTECTED=y",
            2,
            ConfigKind::TwoBuilds,
        ),
        (
            "CONFIG_BUILD_KERNEL=y\nCONFIG_BUILD_PROTECTED=y\nCONFIG_BUILD_FLAT=y",
            2,
            ConfigKind::TwoBuilds,
        ),
        (
            "CONFIG_BUILD_FLAT=y\nCONFIG_BUILD_KERNEL=y\nCONFIG_BUILD_PROTECTED=y\nCONFIG_BUILD_KERNEL=y",
            3,
            ConfigKind::TwoBuilds,
        ),
        (
            "CONFIG_BUILD_FLAT=y\nCONFIG_BUILD_FLAT=y\nCONFIG_BUILD_PROTECTED=y\n",
            3,
            ConfigKind::TwoBuilds,
        ),
    ] {
        assert_eq!(rt;
            read(rt.alloc(), text)?.build(),
            Err(ConfigFault::Text { line, kind }),
            "{text}"
        );
    }
    Ok(())
}

// Lines for so many names, and further lines.
fn many_names(alloc: Global, count: u32, last: &str) -> Result<String, AllocError> {
    let mut text = String::new(alloc);
    for number in 0..count {
        let line = format!(in alloc; "N{number}=\n")?;
        text.push_str(&line)?;
    }
    text.push_str(last)?;
    Ok(text)
}

#[test]
fn names_up_to_the_limit(rt: HostRuntime) -> Result<(), Fail> {
    for (last, fault) in [
        ("N5=y\n# N8191 is not set\n", None),
        ("N=n", fault_at(8193, ConfigKind::Limit)),
        ("\n# N is not set\nX", fault_at(8194, ConfigKind::Limit)),
        (
            "N=18446744073709551616",
            fault_at(8193, ConfigKind::BadNumber),
        ),
    ] {
        let text = many_names(rt.alloc(), 8192, last)?;
        assert_eq!(rt; fault_of(rt.alloc(), &text), fault, "{last}");
    }
    Ok(())
}

#[test]
fn printed_texts(rt: HostRuntime) -> Result<(), Fail> {
    for (kind, text) in [
        (ConfigKind::BadLine, "bad line"),
        (ConfigKind::BadNumber, "bad number"),
        (ConfigKind::Limit, "limit"),
        (ConfigKind::OutOfRange, "out of range"),
        (ConfigKind::TwoBuilds, "two builds"),
        (ConfigKind::NoBuild, "no build"),
    ] {
        assert_eq!(rt; format!(in rt.alloc(); "{kind}")?.as_str(), text);
    }
    Ok(())
}
