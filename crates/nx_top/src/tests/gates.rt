use super::standard::{STANDARD_LISTING, STANDARD_TABLE};
use super::{CALLS, CONFIG, entry, sink};
use crate::nxsim;
use nx_base::OutOfMemory;
use nx_outside::MemFiles;
use std::alloc::{AllocError, Global};
use std::test::Fail;

const GATES: [&str; 3] = ["gates", "c", "t"];

const CONDITION: &str =
    "\"a_b\",\"h\",\"0x10 >= 17 || (defined(CONFIG_X) && !CONFIG_Y)\",\"int\"\n";

const QUEUES: &str = "\"write\",\"h\",\"\",\"int\",\"int\",\"const void *\",\"size_t\"
\"mq_send\",\"h\",\"!defined(CONFIG_DISABLE_MQUEUE)\",\"int\",\"mqd_t\",\"const char *\",\"size_t\",\"unsigned int\"
\"getpid\",\"h\",\"\",\"int\"
";

const WITHOUT_QUEUES: &str =
    "16 write word in len 00060693 00058613 00050593 01000513 00000073 00008067
17 getpid 01100513 00000073 00008067
";

const UNION: &str = "nx_zap,h,,int,union sigval|FAR void *|sival_ptr";

fn gates_files(alloc: Global, config: &str, calls: &str) -> Result<MemFiles, AllocError> {
    let mut entries = Vec::new(alloc);
    entries.push(entry(alloc, "c", config)?)?;
    entries.push(entry(alloc, "t", calls)?)?;
    Ok(MemFiles::new(alloc, entries, Vec::new(alloc)))
}

// Whether `gates c t` over these two texts asks for both, ends with this status and puts this text.
fn comes_to(
    alloc: Global,
    config: &str,
    calls: &str,
    status: u8,
    text: &str,
) -> Result<bool, OutOfMemory> {
    let mut files = gates_files(alloc, config, calls)?;
    let mut out = sink(alloc, &[], 0)?;
    let answer = nxsim(alloc, &GATES, &mut files, &mut out);
    Ok(answer == status && out.bytes() == text.as_bytes() && files.asked().len() == 2)
}

#[test]
fn gates_of_true_rows_are_listed(rt: HostRuntime) -> Result<(), Fail> {
    for (config, calls, listing) in [
        (
            "CONFIG_X=3",
            CONDITION,
            "16 a_b 01000513 00000073 00008067\n",
        ),
        (CONFIG, CONDITION, ""),
        (
            "CONFIG_BUILD_FLAT=y\nCONFIG_DISABLE_MQUEUE=y\n",
            QUEUES,
            WITHOUT_QUEUES,
        ),
        (CONFIG, STANDARD_TABLE, STANDARD_LISTING),
        ("", STANDARD_TABLE, STANDARD_LISTING),
        // The choice of a build is no concern of a listing.
        (
            "CONFIG_BUILD_FLAT=y\nCONFIG_BUILD_KERNEL=y\n",
            "getpid,h,,int",
            "16 getpid 01000513 00000073 00008067\n",
        ),
        (
            CONFIG,
            "open,h,,int,const char *,int,...\nnx_zap,h,,int,int *",
            "16 open text word 00058613 00050593 01000513 00000073 00008067
17 nx_zap word 00050593 01100513 00000073 00008067
",
        ),
        (CONFIG, "", ""),
    ] {
        let done = comes_to(rt.alloc(), config, calls, 0, listing)?;
        assert!(rt; done, "at {config} and {calls}");
    }
    Ok(())
}

#[test]
fn a_faulty_configuration_is_refused_at_its_line(rt: HostRuntime) -> Result<(), Fail> {
    for (config, refusal) in [
        ("CONFIG_NXSIM_STACK=5000\n", "nxsim: c:1: out of range\n"),
        ("\n\nCONFIG_X\n", "nxsim: c:3: bad line\n"),
        ("=y", "nxsim: c:1: bad line\n"),
        ("X =y", "nxsim: c:1: bad line\n"),
        ("X=Y", "nxsim: c:1: bad line\n"),
        ("X=0X1", "nxsim: c:1: bad line\n"),
        ("# a\nX=\"ab\\\"\n", "nxsim: c:2: bad line\n"),
        ("X=\"a\"b", "nxsim: c:1: bad line\n"),
        ("X=1\nX=18446744073709551616\n", "nxsim: c:2: bad number\n"),
        ("X=-0x10000000000000000", "nxsim: c:1: bad number\n"),
        (
            "CONFIG_NXSIM_RAM=y\nCONFIG_NXSIM_NODES=1025\nX",
            "nxsim: c:3: bad line\n",
        ),
        (
            "CONFIG_NXSIM_THREADS=65\nCONFIG_NXSIM_RAM=4096\n",
            "nxsim: c:1: out of range\n",
        ),
        (
            "CONFIG_NXSIM_THREADS=1\nCONFIG_NXSIM_BLOCKS=15\nCONFIG_NXSIM_THREADS=2\n",
            "nxsim: c:2: out of range\n",
        ),
    ] {
        let done = comes_to(rt.alloc(), config, "9", 3, refusal)?;
        assert!(rt; done, "at {config}");
    }
    Ok(())
}

#[test]
fn a_faulty_table_is_refused_at_its_record(rt: HostRuntime) -> Result<(), Fail> {
    for (calls, refusal) in [
        (
            "\"getpid\",\"h\",\"1 ==\",\"int\"\n",
            "nxsim: t:1: bad condition\n",
        ),
        (
            "\"write\",\"h\",\"\",\"int\",\"int\",\"char *\",\"size_t\"\n",
            "nxsim: t:1: signature\n",
        ),
        (
            "f,h,,int,int,int,int,int,int,int,int\n",
            "nxsim: t:1: too many parameters\n",
        ),
        (UNION, "nxsim: t:1: union type\n"),
        ("a,h,,int\n\nb,h,\n", "nxsim: t:2: few fields\n"),
        ("9a,h,,int", "nxsim: t:1: bad name\n"),
        ("a,h,0,int,a|b|c\nb,h,,int,FAR", "nxsim: t:2: bad type\n"),
        ("a,h,,int\ra,h,,int\r", "nxsim: t:2: name twice\n"),
        ("\"a,h,,int\n", "nxsim: t:1: few fields\n"),
    ] {
        let done = comes_to(rt.alloc(), CONFIG, calls, 3, refusal)?;
        assert!(rt; done, "at {calls}");
    }
    Ok(())
}

// A number of lines, each of its first part, its number, and a rest.
fn numbered(alloc: Global, lines: u32, front: &str, rest: &str) -> Result<String, AllocError> {
    let mut text = String::new(alloc);
    for i in 0..lines {
        let line = format!(in alloc; "{front}{i}{rest}\n")?;
        text.push_str(line.as_str())?;
    }
    Ok(text)
}

#[test]
fn one_name_or_row_too_many_is_refused(rt: HostRuntime) -> Result<(), Fail> {
    let names = numbered(rt.alloc(), 8193, "X", "=n")?;
    assert!(rt; comes_to(rt.alloc(), names.as_str(), "", 3, "nxsim: c:8193: limit\n")?);
    let rows = numbered(rt.alloc(), 513, "f", ",h,,int")?;
    assert!(rt;
        comes_to(
            rt.alloc(),
            CONFIG,
            rows.as_str(),
            3,
            "nxsim: t:513: limit\n"
        )?
    );
    Ok(())
}

// A thousand parentheses, open ones alone and closed ones, in a condition of at most 1,024 bytes.
#[test]
fn a_deep_condition_is_read_or_refused(rt: HostRuntime) -> Result<(), Fail> {
    let mut open = String::from_str(rt.alloc(), "getpid,h,")?;
    let mut closed = String::from_str(rt.alloc(), "getpid,h,")?;
    for _ in 0..1000 {
        open.push('(')?;
    }
    for _ in 0..500 {
        closed.push('(')?;
    }
    closed.push('1')?;
    for _ in 0..500 {
        closed.push(')')?;
    }
    open.push_str(",int")?;
    closed.push_str(",int")?;
    let refusal = "nxsim: t:1: bad condition\n";
    assert!(rt; comes_to(rt.alloc(), CONFIG, open.as_str(), 3, refusal)?);
    let listing = "16 getpid 01000513 00000073 00008067\n";
    assert!(rt; comes_to(rt.alloc(), CONFIG, closed.as_str(), 0, listing)?);
    Ok(())
}

#[test]
fn file_names_are_printed_as_given(rt: HostRuntime) -> Result<(), Fail> {
    let alloc = rt.alloc();
    for (config, calls, text, refusal) in [
        ("", "t", "X", "nxsim: :1: bad line\n"),
        ("./a b/é%s:9", "t", "X", "nxsim: ./a b/é%s:9:1: bad line\n"),
        ("c", "-\t=", "", "nxsim: -\t=:1: few fields\n"),
    ] {
        let mut entries = Vec::new(alloc);
        entries.push(entry(alloc, config, text)?)?;
        entries.push(entry(alloc, calls, "x")?)?;
        let mut files = MemFiles::new(alloc, entries, Vec::new(alloc));
        let mut out = sink(alloc, &[], 0)?;
        assert_eq!(rt;
            nxsim(alloc, &["gates", config, calls], &mut files, &mut out),
            3
        );
        assert_eq!(rt; out.bytes(), refusal.as_bytes());
    }
    Ok(())
}

// Each read in turn fails, and nothing after it is read. A missing file is such a fault.
#[test]
fn a_file_of_a_listing_cannot_be_read(rt: HostRuntime) -> Result<(), Fail> {
    let alloc = rt.alloc();
    for (fails, text) in [(1, "nxsim: cannot read c\n"), (2, "nxsim: cannot read t\n")] {
        let mut entries = Vec::new(alloc);
        entries.push(entry(alloc, "c", "X")?)?;
        entries.push(entry(alloc, "t", CALLS)?)?;
        let mut files = MemFiles::new(alloc, entries, Vec::from_slice(alloc, &[fails])?);
        let mut out = sink(alloc, &[], 0)?;
        assert_eq!(rt; nxsim(alloc, &GATES, &mut files, &mut out), 9);
        assert_eq!(rt; out.bytes(), text.as_bytes());
        assert_eq!(rt; files.asked().len(), fails as usize);
    }
    let mut files = gates_files(alloc, CONFIG, CALLS)?;
    let mut out = sink(alloc, &[], 0)?;
    assert_eq!(rt; nxsim(alloc, &["gates", "c", "u"], &mut files, &mut out), 9);
    assert_eq!(rt; out.bytes(), b"nxsim: cannot read u\n".as_slice());
    Ok(())
}

// A file of as many newlines as a read hands out is read, and one of a byte more is too long.
#[test]
fn a_file_of_a_listing_is_too_long(rt: HostRuntime) -> Result<(), Fail> {
    let alloc = rt.alloc();
    for (config, calls, status, text, asked) in [
        (1_048_576, 1_048_576, 0, "", 2),
        (1_048_577, 1_048_577, 10, "nxsim: too long c\n", 1),
        (1, 1_048_577, 10, "nxsim: too long t\n", 2),
    ] {
        let mut entries = Vec::new(alloc);
        entries.push((
            String::from_str(alloc, "c")?,
            vec![in alloc; b'\n'; config]?,
        ))?;
        entries.push((String::from_str(alloc, "t")?, vec![in alloc; b'\n'; calls]?))?;
        let mut files = MemFiles::new(alloc, entries, Vec::new(alloc));
        let mut out = sink(alloc, &[], 0)?;
        assert_eq!(rt; nxsim(alloc, &GATES, &mut files, &mut out), status);
        assert_eq!(rt; out.bytes(), text.as_bytes());
        assert_eq!(rt; files.asked().len(), asked);
    }
    Ok(())
}

// The put fails and keeps two bytes: of a listing, of one without a byte, and of a refusal.
#[test]
fn the_put_of_a_listing_fails(rt: HostRuntime) -> Result<(), Fail> {
    let alloc = rt.alloc();
    for (config, calls, kept) in [(CONFIG, CALLS, "16"), (CONFIG, "", ""), ("X", CALLS, "nx")] {
        let mut files = gates_files(alloc, config, calls)?;
        let mut out = sink(alloc, &[1], 2)?;
        assert_eq!(rt; nxsim(alloc, &GATES, &mut files, &mut out), 11);
        assert_eq!(rt; out.bytes(), kept.as_bytes());
    }
    Ok(())
}
