// The trusted edge: a reader of the host.
ghost use Rattle.std.specs.Prelude.{◌≡◌};
ghost use Rattle.std.specs.Io.{ReadsAtMost};
ghost use Rattle.std.specs.Io.KnownBytes.{ReadConsumes};
ghost use Rattle.nxsim.specs.Host.{faults_after};

use std::io;
use std::io::Read;

/// A reader of the host that counts the reads that fail. It gives what the reader in it gives.
#[derive(Drop)]
pub struct HostReader<F> {
    inner: F,
    failed: u64,
}

impl<F> HostReader<F> {
    /// A reader over this one, of which no read has failed.
    pub fn new(inner: F) -> Self
        ensures inner { result.inner ≡ inner }
        ensures none { result.failed ≡ 0 }
    {
        HostReader { inner, failed: 0 }
    }
}

impl<F: Read> Read for HostReader<F> {
    ghost remaining = { λ r. F.remaining r.inner };

    fn read(&mut self, buf: &mut [u8]) -> io::Result<usize>
        ensures bound { ReadsAtMost result buf.new }
        ensures bytes { ReadConsumes (F.remaining self.old.inner) (F.remaining self.new.inner) result buf.new }

        // Each read that fails is counted once, and no other.
        ensures faults { self.new.failed ≡ faults_after result self.old.failed }
    {
        let got = self.inner.read(buf);
        if got.is_err() {
            self.failed = self.failed.saturating_add(1);
        }
        got
    }
}
