use crate::{FileStop, Files, LONGEST, MemFiles, MemSink, Sink};
use std::alloc::{AllocError, Global};
use std::test::Fail;

// Three entries, two of one name.
fn three_files(alloc: Global, fails: &[u32]) -> Result<MemFiles, AllocError> {
    let mut files = Vec::new(alloc);
    for (name, content) in [("config", "one"), ("calls", ""), ("config", "two")] {
        let name = String::from_str(alloc, name)?;
        files.push((name, Vec::from_slice(alloc, content.as_bytes())?))?;
    }
    Ok(MemFiles::new(alloc, files, Vec::from_slice(alloc, fails)?))
}

#[test]
fn reads_fail_where_listed(rt: HostRuntime) -> Result<(), Fail> {
    let alloc = rt.alloc();
    let cases = [
        ("config", Some("one")),
        ("script", None),
        ("calls", Some("")),
    ];
    for failing in 0u32..4 {
        let mut files = three_files(alloc, &[failing])?;
        let mut faults = 0u64;
        for (index, (name, content)) in cases.iter().enumerate() {
            let mut into = Vec::from_slice(alloc, b"before")?;
            let read = files.read(name, &mut into);
            if let Some(content) = content
                && index + 1 != failing as usize
            {
                assert_eq!(rt; read, Ok(()), "{name} with {failing} failing");
                assert_eq!(rt;
                    into.as_slice(),
                    content.as_bytes(),
                    "{name} with {failing} failing"
                );
            } else {
                assert_eq!(rt;
                    read,
                    Err(FileStop::Failed),
                    "{name} with {failing} failing"
                );
                faults = faults.saturating_add(1);
            }
            assert_eq!(rt; files.faults(), faults, "{name} with {failing} failing");
            assert_eq!(rt;
                files.asked().len(),
                index + 1,
                "{name} with {failing} failing"
            );
        }
        for (asked, (name, _)) in files.asked().iter().zip(&cases) {
            assert_eq!(rt; asked.as_str(), *name);
        }
    }
    Ok(())
}

#[test]
fn the_longest_content_is_read(rt: HostRuntime) -> Result<(), Fail> {
    let alloc = rt.alloc();
    for (length, answer) in [(LONGEST, Ok(())), (LONGEST + 1, Err(FileStop::TooLong))] {
        let entry = (String::from_str(alloc, "f")?, vec![in alloc; 7u8; length]?);
        let mut files = MemFiles::new(alloc, vec![in alloc; entry]?, Vec::new(alloc));
        let mut into = Vec::new(alloc);
        assert_eq!(rt; files.read("f", &mut into), answer, "{length} bytes");
        assert_eq!(rt; files.faults(), 0, "{length} bytes");
    }
    Ok(())
}

#[test]
fn puts_fail_where_listed(rt: HostRuntime) -> Result<(), Fail> {
    let alloc = rt.alloc();
    // The put that fails, how much it keeps, the room, the bytes at the end, and the faults.
    let cases = [
        (0u32, 0usize, 6usize, "abcdef", 0u64),
        (1, 0, 6, "def", 1),
        (1, 2, 6, "abdef", 1),
        (2, 1, 6, "abcdf", 1),
        (2, 9, 6, "abcdef", 1),
        (3, 0, 6, "abcde", 1),
        (3, 1, 6, "abcdef", 1),
        (0, 0, 4, "abcf", 1),
        (0, 5, 4, "abcd", 2),
        (0, 5, 0, "", 3),
    ];
    for (failing, keep, room, bytes, faults) in cases {
        let fails = Vec::from_slice(alloc, &[failing])?;
        let mut sink = MemSink::new(alloc, fails, keep, room)?;
        for piece in ["abc", "de", "f"] {
            let before = sink.faults();
            let put = sink.put(piece.as_bytes());
            assert_eq!(rt;
                put.is_err(),
                sink.faults() > before,
                "{piece} with {failing} failing"
            );
        }
        assert_eq!(rt;
            sink.bytes(),
            bytes.as_bytes(),
            "{failing} failing, {keep} kept, room for {room}"
        );
        assert_eq!(rt;
            sink.faults(),
            faults,
            "{failing} failing, {keep} kept, room for {room}"
        );
    }
    Ok(())
}
