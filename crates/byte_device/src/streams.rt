//! Devices over the readers and writers of `std`.

ghost use Rattle.std.specs.Prelude.{◌≡◌, ◌==◌, ◌+◌, ◌<◌, Some, false, is_some, not};
ghost use Rattle.byte_device.specs.Devices.{most_failures};

use crate::{Failed, Sink, Source};
use std::io::{self, Read, Write};

/// The bytes of a reader. Each error of the reader, including `Interrupted`, is a failure.
#[derive(Drop)]
pub struct Reading<R> {
    reader: R,
    failures: u64,
    reason: Option<io::Error>,
    // There is a reason exactly if it failed.
    ghost said: { is_some reason ≡ not (failures == 0) },
}

impl<R: Read + Drop> Reading<R> {
    /// Creates a device that returns the bytes that the reader has left.
    pub fn new(reader: R) -> Self
        ensures left { ⟦<Reading<R> as Source>⟧.left result ≡ R.remaining reader }
        ensures failures { ⟦<Reading<R> as Source>⟧.failures result ≡ 0 }
    {
        Reading {
            reader,
            failures: 0,
            reason: None,
        }
    }

    /// The reader's last error. There is one exactly if the device failed.
    pub fn reason(&self) -> Option<io::Error>
        ensures reason { result ≡ self.now.reason }
        ensures failed { is_some result ≡ not (⟦<Reading<R> as Source>⟧.failures self.now == 0) }
    {
        self.reason
    }

    /// Counts a failure, with its error.
    fn fail(&mut self, error: io::Error) -> Failed
        requires { self.old.failures < most_failures }
        ensures reason { self.new.reason ≡ Some error }
        ensures failures { self.new.failures ≡ self.old.failures + 1 }
        ensures reader { self.new.reader ≡ self.old.reader }
    {
        self.reason = Some(error);
        self.failures += 1;
        Failed
    }
}

impl<R: Read + Drop> Source for Reading<R> {
    ghost left = { λ s. R.remaining s.reader };

    ghost failures = { λ s. s.failures };

    fn pull(&mut self, buf: &mut [u8]) -> Result<usize, Failed> {
        if self.failures == u64::MAX {
            return Err(Failed);
        }
        match self.reader.read(buf) {
            Ok(n) => Ok(n),
            Err(error) => Err(self.fail(error)),
        }
    }
}

/// The bytes of a writer. Each error of the writer, and a write that accepts no byte, is a failure.
///
/// It never flushes: the owner of a writer with a buffer flushes it.
#[derive(Drop)]
pub struct Writing<W> {
    writer: W,
    failures: u64,
    reason: Option<io::Error>,
    // If there is a reason, it failed. A write that accepts no byte has none.
    ghost said: { failures ≡ 0 → is_some reason ≡ false },
}

impl<W: Write + Drop> Writing<W> {
    /// Creates a device that appends bytes to those of the writer.
    pub fn new(writer: W) -> Self
        ensures held { ⟦<Writing<W> as Sink>⟧.held result ≡ W.contents writer }
        ensures failures { ⟦<Writing<W> as Sink>⟧.failures result ≡ 0 }
    {
        Writing {
            writer,
            failures: 0,
            reason: None,
        }
    }

    /// The writer's last error, if the last failure was an error.
    pub fn reason(&self) -> Option<io::Error>
        ensures reason { result ≡ self.now.reason }
        ensures unfailed { ⟦<Writing<W> as Sink>⟧.failures self.now ≡ 0 → is_some result ≡ false }
    {
        self.reason
    }
}

impl<W: Write + Drop> Sink for Writing<W> {
    ghost held = { λ s. W.contents s.writer };

    ghost failures = { λ s. s.failures };

    fn push(&mut self, bytes: &[u8]) -> Result<usize, Failed> {
        if self.failures == u64::MAX {
            return Err(Failed);
        }
        match self.writer.write(bytes) {
            Ok(n) if n > 0 || bytes.is_empty() => Ok(n),
            taken => {
                self.reason = taken.err();
                self.failures += 1;
                Err(Failed)
            }
        }
    }
}
