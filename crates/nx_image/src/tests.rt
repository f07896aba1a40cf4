use super::*;
use nx_base::{Build, OutOfMemory};
use nx_calls::read_calls;
use nx_config::{Limits, read_config};
use nx_gate::{Gates, plan};
use std::alloc::Global;
use std::test::Fail;

// The numbers that a configuration without limits gives.
const DEFAULT: Limits = Limits {
    ram: 4194304,
    threads: 16,
    blocks: 4096,
    nodes: 128,
    console: 1048576,
    stack: 8192,
};

// Gates of so many rows without parameters.
fn gates(alloc: Global, rows: u32) -> Result<Gates, OutOfMemory> {
    let mut table = String::new(alloc);
    for row in 0..rows {
        let line = format!(in alloc; "f{row},h,,int\n")?;
        table.push_str(line.as_str())?;
    }
    if table.len() > 1048576 {
        return Err(OutOfMemory);
    }
    let Ok(config) = read_config(alloc, b"") else {
        return Err(OutOfMemory);
    };
    let Ok(calls) = read_calls(alloc, table.as_bytes(), &config) else {
        return Err(OutOfMemory);
    };
    plan(alloc, &calls)
}

#[test]
fn needs_of_worked_images(rt: HostRuntime) -> Result<(), Fail> {
    // A pool of 65536 blocks, and a stack of 524288 bytes.
    let large_pool = Limits {
        ram: 1048576,
        blocks: 65536,
        ..DEFAULT
    };
    let large_stack = Limits {
        ram: 1048576,
        stack: 524288,
        ..DEFAULT
    };
    let page = Sizes { text: 48, init: 0 };
    let both = Sizes {
        text: 4096,
        init: 16,
    };
    // One byte more than a region behind its first 16 pages.
    let long = Sizes {
        text: 4128769,
        init: 0,
    };
    let without = [];
    let one = [page];
    let two = [both, page];
    let tall = [long];
    let rows = [
        (Build::Flat, large_pool, without.as_slice(), 4325376),
        (
            Build::Kernel,
            large_stack,
            one.as_slice(),
            262144 + 4096 * 132,
        ),
        (Build::Kernel, DEFAULT, two.as_slice(), 262144 + 4096 * 8),
        (
            Build::Kernel,
            DEFAULT,
            tall.as_slice(),
            262144 + 4096 * 1015,
        ),
        (Build::Kernel, DEFAULT, without.as_slice(), 262144),
        (
            Build::Protected,
            DEFAULT,
            two.as_slice(),
            262144 + 8192 + 4096 + 131072,
        ),
    ];
    for (build, limits, sizes, bytes) in rows {
        let layout = Layout { build, limits };
        assert_eq!(rt; need(&layout, sizes), bytes);
    }
    Ok(())
}

#[test]
fn addresses_of_two_programs(rt: HostRuntime) -> Result<(), Fail> {
    let sizes = [
        Sizes {
            text: 4080,
            init: 16,
        },
        Sizes { text: 32, init: 0 },
    ];
    let rows = [
        (
            Build::Flat,
            [(0x80040000, 0x80042000), (0x80040FF0, 0x80042010)],
        ),
        (
            Build::Kernel,
            [(0x00010000, 0x10000000), (0x00010000, 0x10000000)],
        ),
    ];
    for (build, places) in rows {
        let layout = Layout {
            build,
            limits: DEFAULT,
        };
        if need(&layout, &sizes) > 4194304 {
            return Err(Fail::from("no room"));
        }
        let found = place_all(rt.alloc(), &layout, &sizes)?;
        assert_eq!(rt; found.len(), 2);
        for (place, (text_at, data_at)) in found.as_slice().iter().zip(places) {
            assert_eq!(rt; place.text_at, text_at);
            assert_eq!(rt; place.data_at, data_at);
        }
    }
    Ok(())
}

#[test]
fn bytes_without_programs(rt: HostRuntime) -> Result<(), Fail> {
    let layout = Layout {
        build: Build::Kernel,
        limits: DEFAULT,
    };
    let gates = gates(rt.alloc(), 45)?;
    let image = Image::new(layout, Vec::new(rt.alloc()), gates);
    let bytes = image.bytes(rt.alloc())?;
    let bytes = bytes.as_slice();
    assert_eq!(rt; bytes.len(), 560);
    assert_eq!(rt;
        &bytes[..16],
        b"NXI1\x02\0\0\0\0\0\x40\0\x2d\0\0\0".as_slice()
    );
    assert_eq!(rt; &bytes[16..28], b"\x10\0\0\0\0\0\0\0\0\0\0\0".as_slice());
    assert_eq!(rt;
        &bytes[544..],
        b"\x3c\0\0\0\0\0\0\0\0\0\0\0\0\0\0\0".as_slice()
    );
    Ok(())
}
