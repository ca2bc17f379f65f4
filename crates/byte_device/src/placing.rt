//! A device over the readers of `std` that seek.

ghost use Rattle.std.specs.Prelude.{◌≡◌, ◌==◌, ◌+◌, ◌<◌, ◌≤◌, IfOk, Some, is_some, length, not};
ghost use Rattle.byte_device.specs.Devices.{most_failures};

use crate::{Failed, Placed};
use std::io::{self, Read, Seek, SeekFrom};

/// The bytes of a reader that seeks, for example a file. Each error of the reader, including `Interrupted`, is a
/// failure.
///
/// Nothing is known of the bytes: no contract of `std` specifies what a read returns after a seek.
#[derive(Drop)]
pub struct Placing<R> {
    reader: R,
    failures: u64,
    reason: Option<io::Error>,
    // There is a reason exactly if it failed.
    ghost said: { is_some reason ≡ not (failures == 0) },
}

impl<R: Read + Seek + Drop> Placing<R> {
    /// Creates a device over the reader.
    pub fn new(reader: R) -> Self
        ensures { ⟦<Placing<R> as Placed>⟧.failures result ≡ 0 }
    {
        Placing {
            reader,
            failures: 0,
            reason: None,
        }
    }

    /// The reader's last error. There is one exactly if the device failed.
    pub fn reason(&self) -> Option<io::Error>
        ensures reason { result ≡ self.now.reason }
        ensures failed { is_some result ≡ not (⟦<Placing<R> as Placed>⟧.failures self.now == 0) }
    {
        self.reason
    }

    // Counts a failure, with its error.
    fn fail(&mut self, error: io::Error) -> Failed
        requires { self.old.failures < most_failures }
        ensures reason { self.new.reason ≡ Some error }
        ensures failures { self.new.failures ≡ self.old.failures + 1 }
    {
        self.reason = Some(error);
        self.failures += 1;
        Failed
    }

    // Reads bytes from the offset.
    fn read_from(&mut self, at: u64, buf: &mut [u8]) -> io::Result<usize>
        ensures bound { IfOk result (λ n. n ≤ length buf.new) }
        ensures failures { self.new.failures ≡ self.old.failures }
    {
        self.reader.seek(SeekFrom::Start(at))?;
        self.reader.read(buf)
    }
}

impl<R: Read + Seek + Drop> Placed for Placing<R> {
    ghost use Rattle.std.specs.Prelude.{None};
    ghost use Rattle.byte_device.specs.Devices.{FailedIn};

    ghost whole = { λ _. None };

    ghost failures = { λ s. s.failures };

    ghost unread = { λ old new _. FailedIn old.failures new.failures };

    ghost unmeasured = { λ old new. FailedIn old.failures new.failures };

    fn take_at(&mut self, at: u64, buf: &mut [u8]) -> Result<usize, Failed> {
        if self.failures == u64::MAX {
            return Err(Failed);
        }
        match self.read_from(at, buf) {
            Ok(n) => Ok(n),
            Err(error) => Err(self.fail(error)),
        }
    }

    fn size(&mut self) -> Result<u64, Failed> {
        if self.failures == u64::MAX {
            return Err(Failed);
        }
        match self.reader.seek(SeekFrom::End(0)) {
            Ok(size) => Ok(size),
            Err(error) => Err(self.fail(error)),
        }
    }
}
