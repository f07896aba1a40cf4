use crate::host_files::{HostFiles, read_all};
use crate::host_reader::HostReader;
use crate::host_sink::HostSink;
use nx_outside::{FileStop, Files, LONGEST, Sink};
use std::io;
use std::io::{ErrorKind, Read, Write};
use std::test::Fail;

/// Takes at most `step` bytes at a call, and fails once its room is used.
#[derive(Drop)]
struct Narrow<'a> {
    taken: &'a mut Vec<u8>,
    step: usize,
    room: usize,
}

impl Write for Narrow<'_> {
    fn write(&mut self, buf: &[u8]) -> io::Result<usize> {
        if self.room == 0 {
            return Err(io::Error::from(ErrorKind::BrokenPipe));
        }
        let count = buf.len().min(self.step).min(self.room);
        self.taken.extend_from_slice(&buf[..count])?;
        self.room -= count;
        Ok(count)
    }

    fn flush(&mut self) -> io::Result<()> {
        Ok(())
    }
}

/// Gives `left` bytes, at most `step` at a call, and then its end or an error.
#[derive(Drop)]
struct Source {
    left: usize,
    step: usize,
    fails: bool,
}

impl Read for Source {
    fn read(&mut self, buf: &mut [u8]) -> io::Result<usize> {
        if self.left == 0 && self.fails {
            return Err(io::Error::from(ErrorKind::UnexpectedEof));
        }
        let count = buf.len().min(self.step).min(self.left);
        for byte in buf[..count].iter_mut() {
            *byte = 7;
        }
        self.left -= count;
        Ok(count)
    }
}

#[test]
fn a_sink_goes_on_until_all_is_taken(rt: HostRuntime) -> Result<(), Fail> {
    // How many bytes go at a time, the room, what is taken in all, and the faults.
    let cases = [
        (9usize, 9usize, "abcdef", 0u64),
        (1, 9, "abcdef", 0),
        (2, 6, "abcdef", 0),
        (2, 4, "abcd", 1),
        (9, 1, "a", 2),
        (1, 0, "", 2),
        (0, 9, "", 2),
    ];
    for (step, room, wanted, faults) in cases {
        let mut taken = Vec::new(rt.alloc());
        let mut sink = HostSink::new(Narrow {
            taken: &mut taken,
            step,
            room,
        });
        let mut failed = 0u64;
        for piece in ["", "abc", "def"] {
            if sink.put(piece.as_bytes()).is_err() {
                failed = failed.saturating_add(1);
            }
        }
        assert_eq!(rt; failed, faults, "{step} at a time, room for {room}");
        assert_eq!(rt;
            taken.as_slice(),
            wanted.as_bytes(),
            "{step} at a time, room for {room}"
        );
    }
    Ok(())
}

#[test]
fn files_are_read_to_their_end(rt: HostRuntime) -> Result<(), Fail> {
    // How many bytes there are, how many come at a time, whether an error follows, and the answer.
    let cases = [
        (0usize, 5usize, false, Ok(())),
        (12, 5, false, Ok(())),
        (9000, 9000, false, Ok(())),
        (LONGEST, 4000, false, Ok(())),
        (LONGEST + 1, 4000, false, Err(FileStop::TooLong)),
        (LONGEST + 9, 4000, true, Err(FileStop::TooLong)),
        (12, 5, true, Err(FileStop::Failed)),
        (LONGEST, 4000, true, Err(FileStop::Failed)),
    ];
    for (left, step, fails, wanted) in cases {
        let mut into = Vec::from_slice(rt.alloc(), b"before")?;
        let mut reader = HostReader::new(Source { left, step, fails });
        let read = read_all(&mut reader, &mut into);
        assert_eq!(rt; read, wanted, "{left} bytes, {step} at a time");
        assert_eq!(rt;
            into.len(),
            left.min(LONGEST + 1),
            "{left} bytes, {step} at a time"
        );
    }
    let mut into = Vec::new(rt.alloc());
    let mut files = HostFiles::new(&rt);
    assert_eq!(rt;
        files.read("no/such/file", &mut into),
        Err(FileStop::Failed)
    );
    Ok(())
}
