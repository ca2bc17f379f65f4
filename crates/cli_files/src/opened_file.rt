//! A file of the system that was opened to be read, and is closed at its end.

ghost use Rattle.std.specs.Prelude.{◌≡◌, ◌≤◌, ◌<◌, None, Ok, IfOk, OnErr, ◌∷◌, [], length, replicate, take};
ghost use Rattle.std.specs.Io.KnownBytes.{ReadConsumes};
ghost use Rattle.cli_files.specs.Opened.{kept, kept_count, left_of, reason_of};

use crate::call_log::CallLog;
use byte_device::{Failed, Reading, Source};
use std::io::{self, Read};

/// The number of first bytes of a file that are kept.
pub const LEADING_LEN: usize = 8;

/// The first bytes of a file, as far as it was read, padded with zeros.
pub type LeadingBytes = [u8; LEADING_LEN];

/// The reader of a file that was opened at a path. It is closed at its end, and then returns no more bytes.
#[derive(Drop)]
pub struct OpenedFile<R> {
    // `None` once it is closed.
    reading: Option<Reading<R>>,
    failures: u64,
    leading_bytes: LeadingBytes,
    read: usize,
    // Its path, which only clauses read.
    at: CallLog,
}

impl<R: Read + Drop> OpenedFile<R> {
    /// A reader of the file that was opened at this path.
    pub fn new(reader: R, path: &str) -> Self
        ensures path { result.at.entries ≡ path.now ∷ [] }
        ensures leading { result.leading_bytes ≡ replicate 8 0 }
        ensures unread { result.read ≡ 0 }
    {
        let mut at = CallLog::new();
        at.note(path.as_bytes());
        OpenedFile {
            reading: Some(Reading::new(reader)),
            failures: 0,
            leading_bytes: [0; LEADING_LEN],
            read: 0,
            at,
        }
    }

    /// Why it could not be read, if it could not.
    pub fn reason(&self) -> Option<io::Error>
        ensures { result ≡ reason_of self.now.reading }
    {
        match &self.reading {
            Some(reading) => reading.reason(),
            None => None,
        }
    }

    /// Its first bytes.
    pub fn leading_bytes(&self) -> LeadingBytes
        ensures { result ≡ self.now.leading_bytes }
    {
        self.leading_bytes
    }
}

/// Keeps those of `bytes`, which follow the first `read` bytes of the file, that are among its first eight. Returns the
/// number of the first eight that were read by then.
pub(crate) fn keep(leading_bytes: &mut LeadingBytes, read: usize, bytes: &[u8]) -> usize
    ensures bytes { leading_bytes.new ≡ kept leading_bytes.old read bytes.now }
    ensures count { result ≡ kept_count read (length bytes.now) }
{
    if read >= LEADING_LEN {
        return read;
    }
    let most = bytes.len().min(LEADING_LEN - read);
    leading_bytes[read..read + most].copy_from_slice(&bytes[..most]);
    read + most
}

/// Reads bytes of a file, and closes it at its end.
fn pull_open<R: Read + Drop>(
    reading: &mut Option<Reading<R>>,
    buf: &mut [u8],
) -> Result<usize, Failed>
    ensures bound { IfOk result (λ n. n ≤ length buf.new) }
    ensures bytes { ReadConsumes (left_of ⟦<Reading<R> as Source>⟧.left reading.old)
        (left_of ⟦<Reading<R> as Source>⟧.left reading.new) result buf.new }
    ensures closed { result ≡ Ok 0 → 0 < length buf.new → reading.new ≡ None }
{
    let Some(open) = reading else {
        return Ok(0);
    };
    let taken = open.pull(buf)?;
    if taken == 0 && !buf.is_empty() {
        *reading = None;
    }
    Ok(taken)
}

impl<R: Read + Drop> Source for OpenedFile<R> {
    ghost use Rattle.byte_device.specs.Devices.{CountsFailure};

    ghost left = { λ file. left_of ⟦<Reading<R> as Source>⟧.left file.reading };

    ghost failures = { λ file. file.failures };

    fn pull(&mut self, buf: &mut [u8]) -> Result<usize, Failed>
        ensures bound { IfOk result (λ n. n ≤ length buf.new) }
        ensures bytes { ReadConsumes (left_of ⟦<Reading<R> as Source>⟧.left self.old.reading)
            (left_of ⟦<Reading<R> as Source>⟧.left self.new.reading) result buf.new }
        ensures count { CountsFailure self.old.failures self.new.failures result }

        // It is closed at its end.
        ensures closed { result ≡ Ok 0 → 0 < length buf.new → self.new.reading ≡ None }
        ensures leading { IfOk result
            (λ n. self.new.leading_bytes ≡ kept self.old.leading_bytes self.old.read (take n buf.new)) }
        ensures read { IfOk result (λ n. self.new.read ≡ kept_count self.old.read n) }
        ensures refused { OnErr result
            ((self.new.leading_bytes ≡ self.old.leading_bytes) × (self.new.read ≡ self.old.read)) }
    {
        if self.failures == u64::MAX {
            return Err(Failed);
        }
        match pull_open(&mut self.reading, buf) {
            Ok(taken) => {
                self.read = keep(&mut self.leading_bytes, self.read, &buf[..taken]);
                Ok(taken)
            }
            Err(Failed) => {
                self.failures += 1;
                Err(Failed)
            }
        }
    }
}
