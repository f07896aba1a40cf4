use crate::nxsim;
use nx_base::OutOfMemory;
use nx_outside::{MemFiles, MemSink};
use std::alloc::{AllocError, Global};
use std::test::Fail;

mod gates;
mod standard;

const CONFIG: &str = "CONFIG_BUILD_FLAT=y\n";

const CALLS: &str = "\"write\",\"nxsim.h\",\"\",\"int\",\"int\",\"const void *\",\"size_t\"\n";

const HELLO: &str = "int main(void) { write(1, \"hello\\n\", 6); return 0; }\n";

const TWO: &str = "int main(void) { write(1, \"a\", 1); write(1, \"b\", 1); return 7; }";

const NONE: &str = "int main(void){return 255;}";

// The digest is that of the 188 bytes of the image, which were put together by hand from the format.
const HELLO_REPORT: &str = "build flat
image b8f168222fb9b1d2f3824f2d9d76392d58e645b4ea8ffe2238857d33603e4be4
console 6
hello

stop: ended
calls 6
instructions 21
status 2 hello 0
status 1 nsh 0
";

const TWO_END: &str = "ab
stop: ended
calls 7
instructions 32
status 2 hello 7
status 1 nsh 7
";

const NONE_END: &str = "console 0

stop: ended
calls 5
instructions 10
status 2 hello 255
status 1 nsh 255
";

const LONGEST_END: &str = "a
stop: ended
calls 21
instructions 186
status 2 hello 0
status 1 nsh 0
";

fn entry(alloc: Global, name: &str, text: &str) -> Result<(String, Vec<u8>), AllocError> {
    let name = String::from_str(alloc, name)?;
    let text = Vec::from_slice(alloc, text.as_bytes())?;
    Ok((name, text))
}

fn files(
    alloc: Global,
    calls: &str,
    program: &str,
    script: &str,
    fails: &[u32],
) -> Result<MemFiles, AllocError> {
    let mut entries = Vec::new(alloc);
    entries.push(entry(alloc, "c", CONFIG)?)?;
    entries.push(entry(alloc, "t", calls)?)?;
    entries.push(entry(alloc, "s", script)?)?;
    entries.push(entry(alloc, "p.c", program)?)?;
    let fails = Vec::from_slice(alloc, fails)?;
    Ok(MemFiles::new(alloc, entries, fails))
}

fn sink(alloc: Global, fails: &[u32], keep: usize) -> Result<MemSink, OutOfMemory> {
    let fails = Vec::from_slice(alloc, fails)?;
    MemSink::new(alloc, fails, keep, 8192)
}

// 16 writes of 255 bytes each.
fn longest_program(alloc: Global) -> Result<String, AllocError> {
    let mut text = String::from_str(alloc, "int main(void) {\n")?;
    for _ in 0..16 {
        text.push_str("write(1, \"")?;
        for _ in 0..255 {
            text.push_str("a")?;
        }
        text.push_str("\", 255);\n")?;
    }
    text.push_str("return 0; }\n")?;
    Ok(text)
}

// A run answers its status, and what it puts ends with a text.
#[test]
fn rows(rt: HostRuntime) -> Result<(), Fail> {
    let alloc = rt.alloc();
    let run = ["run", "c", "t", "s", "hello=p.c"];
    let none: [u32; 0] = [];
    for (calls, program, script, status, end) in [
        (CALLS, HELLO, "hello\n", 0, HELLO_REPORT),
        (CALLS, TWO, "hello\n", 0, TWO_END),
        (CALLS, NONE, "hello\n", 0, NONE_END),
        ("", HELLO, "hello\n", 13, "nxsim: not built t\n"),
        ("", "", "", 13, "nxsim: not built t\n"),
        (CALLS, "int main(void) {", "", 13, "nxsim: not built p.c\n"),
        (CALLS, HELLO, "hello", 13, "nxsim: not built s\n"),
    ] {
        let mut files = files(alloc, calls, program, script, &none)?;
        let mut out = sink(alloc, &none, 0)?;
        assert_eq!(rt; nxsim(alloc, &run, &mut files, &mut out), status);
        assert!(rt; out.bytes().ends_with(end.as_bytes()));
        assert_eq!(rt; files.asked().len(), 4);
    }
    Ok(())
}

#[test]
fn the_longest_program_runs(rt: HostRuntime) -> Result<(), Fail> {
    let alloc = rt.alloc();
    let run = ["run", "c", "t", "s", "hello=p.c"];
    let program = longest_program(alloc)?;
    let mut files = files(alloc, CALLS, program.as_str(), "hello\n", &[])?;
    let mut out = sink(alloc, &[], 0)?;
    assert_eq!(rt; nxsim(alloc, &run, &mut files, &mut out), 0);
    assert_eq!(rt; out.bytes().len(), 4246);
    assert!(rt; out.bytes().ends_with(LONGEST_END.as_bytes()));
    Ok(())
}

#[test]
fn words_without_a_form_ask_nothing(rt: HostRuntime) -> Result<(), Fail> {
    let alloc = rt.alloc();
    let none: [u32; 0] = [];
    let mut files = files(alloc, CALLS, HELLO, "hello\n", &none)?;
    let mut out = sink(alloc, &none, 0)?;
    let words = ["run", "--build=flat", "c", "t", "s", "hello=p.c"];
    assert_eq!(rt; nxsim(alloc, &words, &mut files, &mut out), 2);
    assert_eq!(rt; out.bytes(), b"nxsim: usage\n".as_slice());
    assert_eq!(rt; files.asked().len(), 0);
    Ok(())
}

// The read of each file in turn fails. Nothing after it is read.
#[test]
fn each_read_fails(rt: HostRuntime) -> Result<(), Fail> {
    let alloc = rt.alloc();
    let run = ["run", "c", "t", "s", "hello=p.c"];
    let none: [u32; 0] = [];
    for (read, text) in [
        (1, "nxsim: cannot read c\n"),
        (2, "nxsim: cannot read t\n"),
        (3, "nxsim: cannot read s\n"),
        (4, "nxsim: cannot read p.c\n"),
    ] {
        let mut files = files(alloc, "", HELLO, "hello\n", &[read])?;
        let mut out = sink(alloc, &none, 0)?;
        assert_eq!(rt; nxsim(alloc, &run, &mut files, &mut out), 9);
        assert_eq!(rt; out.bytes(), text.as_bytes());
        assert_eq!(rt; files.asked().len(), read as usize);
    }
    Ok(())
}

// Each put in turn fails, and keeps two bytes of its piece.
#[test]
fn each_put_fails(rt: HostRuntime) -> Result<(), Fail> {
    let alloc = rt.alloc();
    let run = ["run", "c", "t", "s", "hello=p.c"];
    let none: [u32; 0] = [];
    for (put, length) in [(1, 2), (2, 94), (3, 100)] {
        let mut files = files(alloc, CALLS, HELLO, "hello\n", &none)?;
        let mut out = sink(alloc, &[put], 2)?;
        assert_eq!(rt; nxsim(alloc, &run, &mut files, &mut out), 11);
        assert_eq!(rt; out.bytes().len(), length);
        assert!(rt; HELLO_REPORT.as_bytes().starts_with(out.bytes()));
    }
    Ok(())
}

// A file of a byte more than a read hands out is not built, and the files after it are read all the same.
#[test]
fn a_file_is_too_long(rt: HostRuntime) -> Result<(), Fail> {
    let alloc = rt.alloc();
    let run = ["run", "c", "t", "s", "hello=p.c"];
    let none: [u32; 0] = [];
    let mut entries = Vec::new(alloc);
    entries.push(entry(alloc, "c", CONFIG)?)?;
    entries.push(entry(alloc, "t", CALLS)?)?;
    entries.push(entry(alloc, "p.c", HELLO)?)?;
    let script = vec![in alloc; b'\n'; 1_048_577]?;
    entries.push((String::from_str(alloc, "s")?, script))?;
    let mut files = MemFiles::new(alloc, entries, Vec::new(alloc));
    let mut out = sink(alloc, &none, 0)?;
    assert_eq!(rt; nxsim(alloc, &run, &mut files, &mut out), 13);
    assert_eq!(rt; out.bytes(), b"nxsim: not built s\n".as_slice());
    assert_eq!(rt; files.asked().len(), 4);
    Ok(())
}
