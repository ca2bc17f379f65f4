//! Files of the system for reading. Contracts cover which were opened, not their contents.

ghost use Rattle.std.specs.Prelude.{◌≡◌, ◌≢◌, ◌∷◌, ◌++◌, [], Err, IfErr, IsErr, Ok, OnOk};
ghost use Rattle.std.specs.IoError.{error_kind};

use crate::call_log::CallLog;
use crate::disks::Disk;
use crate::opened_file::OpenedFile;
use crate::placed_file::PlacedFile;
use byte_device::{CannotOpen, PIECE_LEN};
use heap_memory::NoMemory;
use std::alloc::Global;
use std::fs;
use std::io::{self, BufReader, ErrorKind, Read};
use std::rt::Files;

/// The files of the system, of which one is read.
#[derive(Drop)]
pub struct SystemDisk<'a, F: Files> {
    alloc: Global,
    files: &'a F,
    opened: CallLog,
    /// The paths at which the system reported that memory ran out.
    wanting: CallLog,
}

impl<'a, F: Files> SystemDisk<'a, F> {
    ghost use Rattle.std.specs.Prelude.{[]};

    /// The files of the system; none was opened.
    pub(crate) fn new(alloc: Global, files: &'a F) -> Self
        ensures opened { result.opened.entries ≡ [] }
        ensures wanting { result.wanting.entries ≡ [] }
    {
        SystemDisk {
            alloc,
            files,
            opened: CallLog::new(),
            wanting: CallLog::new(),
        }
    }
}

/// Notes that memory ran out, if that is the reason of the system.
fn note_wanting(reason: &io::Error, path: &str, wanting: &mut CallLog)
    ensures memory { error_kind reason.now ≡ ErrorKind.OutOfMemory
        → wanting.new.entries ≡ wanting.old.entries ++ path.now ∷ [] }
    ensures other { error_kind reason.now ≢ ErrorKind.OutOfMemory → wanting.new.entries ≡ wanting.old.entries }
{
    if reason.kind() == ErrorKind::OutOfMemory {
        wanting.note(path.as_bytes());
    }
}

/// Opens the file at a path.
fn open_file<F: Files>(files: &F, path: &str, wanting: &mut CallLog) -> io::Result<F::File>
    ensures opened { OnOk result (wanting.new.entries ≡ wanting.old.entries) }
    ensures memory { IfErr result (λ reason. error_kind reason ≡ ErrorKind.OutOfMemory
        → wanting.new.entries ≡ wanting.old.entries ++ path.now ∷ []) }
    ensures other { IfErr result (λ reason. error_kind reason ≢ ErrorKind.OutOfMemory
        → wanting.new.entries ≡ wanting.old.entries) }
{
    match fs::open(files, path) {
        Ok(file) => Ok(file),
        Err(reason) => {
            note_wanting(&reason, path, wanting);
            Err(reason)
        }
    }
}

/// A reader of an open file, which was opened at this path.
fn reader_of<T: Read + Drop>(
    alloc: Global,
    file: T,
    path: &str,
    wanting: &mut CallLog,
) -> io::Result<BufReader<T>>
    ensures opened { OnOk result (wanting.new.entries ≡ wanting.old.entries) }
    ensures memory { IfErr result (λ reason. error_kind reason ≡ ErrorKind.OutOfMemory
        → wanting.new.entries ≡ wanting.old.entries ++ path.now ∷ []) }
    ensures other { IfErr result (λ reason. error_kind reason ≢ ErrorKind.OutOfMemory
        → wanting.new.entries ≡ wanting.old.entries) }
{
    match BufReader::with_capacity(alloc, PIECE_LEN, file) {
        Ok(reader) => Ok(reader),
        Err(reason) => {
            note_wanting(&reason, path, wanting);
            Err(reason)
        }
    }
}

/// The result for a file that was not opened for this reason: the outer error is lack of memory.
fn unopened<T>(reason: io::Error) -> Result<Result<T, CannotOpen>, NoMemory>
    ensures memory { error_kind reason ≡ ErrorKind.OutOfMemory → IsErr result }
    ensures other { error_kind reason ≢ ErrorKind.OutOfMemory → result ≡ Ok (Err (record { reason = reason })) }
{
    if reason.kind() == ErrorKind::OutOfMemory {
        Err(NoMemory)
    } else {
        Ok(Err(CannotOpen { reason }))
    }
}

impl<'a, F: Files> Disk for SystemDisk<'a, F> {
    ghost use Rattle.std.specs.Prelude.{Some};
    ghost use Rattle.byte_device.specs.Disks.FileAt.{At};

    type Input = OpenedFile<BufReader<F::File>>;

    type Places = PlacedFile<F::File>;

    ghost file_at = { λ _ path. At path };

    ghost path_of = { λ file. file.at.entries };

    ghost opened_at = { λ file. file.at.entries };

    ghost opened = { λ disk. Some disk.opened.entries };

    ghost wanting = { λ disk. Some disk.wanting.entries };

    fn open(&mut self, path: &str) -> Result<Result<Self::Input, CannotOpen>, NoMemory> {
        self.opened.note(path.as_bytes());
        let file = match open_file(self.files, path, &mut self.wanting) {
            Ok(file) => file,
            Err(reason) => return unopened(reason),
        };
        match reader_of(self.alloc, file, path, &mut self.wanting) {
            Ok(reader) => Ok(Ok(OpenedFile::new(reader, path))),
            Err(reason) => unopened(reason),
        }
    }

    fn open_places(&mut self, path: &str) -> Result<Result<Self::Places, CannotOpen>, NoMemory> {
        self.opened.note(path.as_bytes());
        match open_file(self.files, path, &mut self.wanting) {
            Ok(file) => Ok(Ok(PlacedFile::new(file, path))),
            Err(reason) => unopened(reason),
        }
    }
}
