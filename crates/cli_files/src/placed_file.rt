//! A file of the system that was opened to be read at any offset.

ghost use Rattle.std.specs.Prelude.{◌≡◌, ◌==◌, ◌≤◌, ◌∷◌, [], IfOk, OnErr, is_some, length, not, replicate, take};
ghost use Rattle.byte_device.specs.Places.{TakenAt};
ghost use Rattle.cli_files.specs.Opened.{kept};

use crate::call_log::CallLog;
use crate::opened_file::{LEADING_LEN, LeadingBytes, keep};
use byte_device::{Failed, Placed, Placing};
use std::io::{self, Read, Seek};

/// The file that was opened at a path. It stays open.
#[derive(Drop)]
pub struct PlacedFile<R> {
    placing: Placing<R>,
    // Its path, which only clauses read.
    at: CallLog,
    // Its first bytes, once they were read.
    leading_bytes: LeadingBytes,
}

impl<R: Read + Seek + Drop> PlacedFile<R> {
    /// A reader of the file that was opened at this path.
    pub fn new(reader: R, path: &str) -> Self
        ensures path { result.at.entries ≡ path.now ∷ [] }
        ensures leading { result.leading_bytes ≡ replicate 8 0 }
    {
        let mut at = CallLog::new();
        at.note(path.as_bytes());
        PlacedFile {
            placing: Placing::new(reader),
            at,
            leading_bytes: [0; LEADING_LEN],
        }
    }

    /// Its first bytes, if they were read; else zeros.
    pub fn leading_bytes(&self) -> LeadingBytes
        ensures { result ≡ self.now.leading_bytes }
    {
        self.leading_bytes
    }

    /// Why it could not be read, if it could not.
    pub fn reason(&self) -> Option<io::Error>
        ensures reason { result ≡ self.now.placing.reason }
        ensures failed { is_some result ≡ not (⟦<PlacedFile<R> as Placed>⟧.failures self.now == 0) }
    {
        self.placing.reason()
    }
}

impl<R: Read + Seek + Drop> Placed for PlacedFile<R> {
    ghost use Rattle.byte_device.specs.Devices.{CountsFailure, FailedIn};

    ghost whole = { λ file. ⟦<Placing<R> as Placed>⟧.whole file.placing };

    ghost failures = { λ file. ⟦<Placing<R> as Placed>⟧.failures file.placing };

    ghost unread = { λ old new at. ⟦<Placing<R> as Placed>⟧.unread old.placing new.placing at };

    ghost unmeasured = { λ old new. FailedIn old.placing.failures new.placing.failures };

    fn take_at(&mut self, at: u64, buf: &mut [u8]) -> Result<usize, Failed>
        ensures bound { IfOk result (λ n. n ≤ length buf.new) }
        ensures bytes { IfOk result
            (λ n. TakenAt (⟦<Placing<R> as Placed>⟧.whole self.old.placing) at n buf.new) }
        ensures keeps { ⟦<Placing<R> as Placed>⟧.whole self.new.placing
            ≡ ⟦<Placing<R> as Placed>⟧.whole self.old.placing }
        ensures count { CountsFailure (⟦<Placing<R> as Placed>⟧.failures self.old.placing)
            (⟦<Placing<R> as Placed>⟧.failures self.new.placing) result }
        ensures unread { OnErr result (⟦<Placing<R> as Placed>⟧.unread self.old.placing self.new.placing at) }
        ensures leading { IfOk result
            (λ n. self.new.leading_bytes ≡ kept self.old.leading_bytes at (take n buf.new)) }
        ensures refused { OnErr result (self.new.leading_bytes ≡ self.old.leading_bytes) }
    {
        let count = self.placing.take_at(at, buf)?;
        keep(&mut self.leading_bytes, at as usize, &buf[..count]);
        Ok(count)
    }

    // A folder has a size too, but none of its bytes can be read.
    fn size(&mut self) -> Result<u64, Failed> {
        self.placing.take_at(0, &mut [0])?;
        self.placing.size()
    }
}
