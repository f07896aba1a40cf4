// The trusted edge: a writer of the host.
ghost use Rattle.std.specs.Prelude.{None, ◌≡◌};
ghost use Rattle.nx_outside.specs.Outside.{Puts, HasCause};
ghost use Rattle.nx_outside.specs.Fakes.{put_faults};
ghost use Rattle.nxsim.specs.Host.{Sends};

use nx_outside::{Sink, SinkFail};
use std::io::Write;

/// A sink over a writer of the host. The bytes written are not told.
#[derive(Drop)]
pub struct HostSink<W> {
    inner: W,
    failed: u64,
}

impl<W> HostSink<W> {
    /// A sink that hands each piece to this writer at once.
    pub fn new(inner: W) -> Self
        ensures { result.failed ≡ 0 }
    {
        HostSink { inner, failed: 0 }
    }
}

impl<W: Write> Sink for HostSink<W> {
    ghost told = { λ _. None };

    ghost faults = { λ h. h.failed };

    fn put(&mut self, piece: &[u8]) -> Result<(), SinkFail>
        ensures puts { Puts result None None piece.now }
        ensures cause { HasCause self.old.failed self.new.failed result }

        ensures sends { Sends result (W.contents self.old.inner) (W.contents self.new.inner) piece.now }
        ensures faults { self.new.failed ≡ put_faults result self.old.failed }
    {
        let put = write_whole(&mut self.inner, piece);
        if put.is_err() {
            self.failed = self.failed.saturating_add(1);
        }
        put
    }
}

// Writes all of the bytes. A write that takes none of them is a failure.
fn write_whole<W: Write>(to: &mut W, bytes: &[u8]) -> Result<(), SinkFail>
    ensures { Sends result (W.contents to.old) (W.contents to.new) bytes.now }
{
    let mut rest = bytes;
    while !rest.is_empty() {
        match to.write(rest) {
            Ok(0) | Err(_) => return Err(SinkFail),
            Ok(count) => rest = &rest[count..],
        }
    }
    Ok(())
}
