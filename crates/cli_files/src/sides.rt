//! One of two archives that are compared, read from its start.

ghost use Rattle.std.specs.Prelude.{◌≡◌, ◌==◌, ◌≤◌, IfErr, IfOk, is_some, length, not};
ghost use Rattle.std.specs.IoError.{error_kind};

use crate::system_calls::Opened;
use byte_device::{Failed, PIECE_LEN, Reading, Source};
use std::alloc::Global;
use std::io::{self, BufReader, ErrorKind, Read};

/// The archive in the file that was opened at a path.
#[derive(Drop)]
pub struct ArchiveSide<'p, R> {
    reading: Reading<BufReader<R>>,
    path: &'p str,
}

/// The archive in this file, from the next byte on.
pub fn side_of<'p, R: Read + Drop>(
    alloc: Global,
    opened: Opened<'p, R>,
) -> io::Result<ArchiveSide<'p, R>>
    ensures path { IfOk result (λ side. side.path.now ≡ opened.entry.path.now) }
    ensures memory { IfErr result (λ error. error_kind error ≡ ErrorKind.OutOfMemory) }
{
    let path = opened.path();
    let reader = BufReader::with_capacity(alloc, PIECE_LEN, opened.into_file())?;
    Ok(ArchiveSide {
        reading: Reading::new(reader),
        path,
    })
}

impl<'p, R: Read + Drop> ArchiveSide<'p, R> {
    /// The path of its file.
    pub fn path(&self) -> &'p str
        ensures { result.now ≡ self.now.path.now }
    {
        self.path
    }

    /// Why it could not be read, if it could not.
    pub fn reason(&self) -> Option<io::Error>
        ensures reason { result ≡ self.now.reading.reason }
        ensures failed { is_some result ≡ not (⟦<ArchiveSide<'p, R> as Source>⟧.failures self.now == 0) }
    {
        self.reading.reason()
    }
}

impl<'p, R: Read + Drop> Source for ArchiveSide<'p, R> {
    ghost left = { λ side. ⟦<Reading<BufReader<R>> as Source>⟧.left side.reading };

    ghost failures = { λ side. ⟦<Reading<BufReader<R>> as Source>⟧.failures side.reading };

    fn pull(&mut self, buf: &mut [u8]) -> Result<usize, Failed> {
        self.reading.pull(buf)
    }
}
