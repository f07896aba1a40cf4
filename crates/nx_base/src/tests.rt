use super::*;
use std::test::Fail;

#[test]
fn words_in_bytes(rt: HostRuntime) {
    let mut bytes = [1, 2, 3, 4, 5, 6];
    assert_eq!(rt; get_le32(&bytes, 0), 0x04030201);
    assert_eq!(rt; get_le32(&bytes, 2), 0x06050403);
    put_le32(&mut bytes, 1, 0x80FFFE7D);
    assert_eq!(rt; bytes, [1, 0x7D, 0xFE, 0xFF, 0x80, 6]);
}

#[test]
fn a_cursor_counts_lines(rt: HostRuntime) {
    let mut cursor = Cursor::new(b"a\r\n\nb");
    for (byte, line) in [(b'a', 1), (b'\r', 1), (b'\n', 2), (b'\n', 3), (b'b', 3)] {
        assert_eq!(rt; cursor.peek(), Some(byte));
        assert_eq!(rt; cursor.next(), Some(byte));
        assert_eq!(rt; cursor.line(), line);
    }
    assert_eq!(rt; cursor.peek(), None);
    assert_eq!(rt; cursor.next(), None);
    assert_eq!(rt; cursor.line(), 3);
}

#[test]
fn a_count_stops_at_its_limit(rt: HostRuntime) {
    let mut count = Count::new(2);
    for (goes, used) in [(true, 1), (true, 2), (false, 2), (false, 2)] {
        assert_eq!(rt; count.tick(), goes);
        assert_eq!(rt; count.used(), used);
    }
}

#[test]
fn register_0_stays_0(rt: HostRuntime) {
    let mut regs = Regs { x: [7; 32], pc: 0 };
    regs.set(0, 5);
    regs.set(31, 9);
    for (k, value) in [(0, 0), (1, 7), (31, 9)] {
        assert_eq!(rt; regs.get(k), value, "at {k}");
    }
}

#[test]
fn bytes_and_texts_take_memory(rt: HostRuntime) -> Result<(), Fail> {
    let mut bytes = Bytes::from_slice(rt.alloc(), b"ab")?;
    bytes.push(b'c')?;
    bytes.append(b"de")?;
    assert_eq!(rt; bytes.as_slice(), b"abcde".as_slice());
    let text = Text::from_str(rt.alloc(), "nuttx")?;
    assert_eq!(rt; text.as_str(), "nuttx");
    Ok(())
}

#[test]
fn calls_have_names_and_kinds(rt: HostRuntime) {
    assert_eq!(rt;
        KCall::named(b"nx_mq_timedreceive"),
        Some(KCall::NxMqTimedreceive)
    );
    assert_eq!(rt; KCall::named(b"_exit"), Some(KCall::Exit));
    assert_eq!(rt; KCall::named(b"exit"), None);
    assert_eq!(rt; KCall::all().len(), 45);
    let want = [Kind::Word, Kind::Out, Kind::Len, Kind::Out4];
    assert_eq!(rt; KCall::MqReceive.kinds(), want.as_slice());
    assert_eq!(rt; KCall::NxGetenv.name(), b"nx_getenv".as_slice());
    assert!(rt; KCall::Getpid.gives_value() && !KCall::NxThreadExit.gives_value());
    assert_eq!(rt; Errno::Emsgsize.number(), 90);
}

#[test]
fn bytes_are_cut_at_the_first_mark(rt: HostRuntime) {
    for (bytes, before, after) in [
        (b"a=b=c".as_slice(), b"a".as_slice(), b"b=c".as_slice()),
        (b"=".as_slice(), b"".as_slice(), b"".as_slice()),
        (b"abc".as_slice(), b"abc".as_slice(), b"".as_slice()),
    ] {
        let (first, rest) = cut(bytes, b'=');
        assert_eq!(rt; first, before);
        assert_eq!(rt; rest, after);
    }
}
