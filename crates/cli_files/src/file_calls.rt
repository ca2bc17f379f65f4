//! The calls to the system for one output, in order, with the replies. Only clauses read them: the list uses no memory,
//! and its methods do nothing at run time.

ghost use Rattle.std.specs.Prelude.{◌≡◌, List, [], ◌∷◌, ◌++◌};
ghost use Rattle.std.specs.Borrow.{ftrue};
ghost use Rattle.std.specs.IoError.{error_kind};
ghost use Rattle.cli_files.specs.FileCalls.{Compares, FileCall, Finds, Gives, Opens, Removes, Renames, Syncs};
ghost use Rattle.cli_files.specs.FileCalls.{SyncsFolder, Writes, answered, begun, call_of, created, failed, found};
ghost use Rattle.cli_files.specs.FileCalls.{led, linked, refused};

use crate::found::Found;
use crate::opened_file::LeadingBytes;
use std::io::{self, ErrorKind};
use std::marker::{Model, PhantomData};

/// The calls to the system for one output, with the replies. A call is noted when the system reported that it was done;
/// a failed call is noted as a failure. The results of removing a draft and of syncing its folder are not read.
#[derive(Drop)]
pub struct FileCalls {
    marker: PhantomData<u8>,
    pub ghost entries: { List FileCall },
}

impl Model for FileCalls {
    ghost also_owns = { λ _. ftrue };
}

impl FileCalls {
    /// No calls.
    pub fn new() -> FileCalls
        ensures { result.entries ≡ [] }
    {
        FileCalls {
            marker: PhantomData,
        }
    }

    // Notes a call. Its number is its name, since a ghost list takes only numbers; the numbers of the reply follow.
    fn note(&mut self, _numbers: &[u64], _path: &[u8], _other: &[u8])
        ensures { self.new.entries ≡ self.old.entries ++ call_of _numbers.now _path.now _other.now ∷ [] }
    {}

    /// Notes the metadata that the system reported for a path, or the failure.
    pub fn note_metadata(&mut self, path: &str, answer: io::Result<Found>) -> io::Result<Found>
        ensures calls { self.new.entries ≡ self.old.entries ++ found path.now answer }
        ensures same { result ≡ answer }
    {
        match &answer {
            Ok(found) => self.note_file(path, found),
            Err(error) => self.note_failure(path, error),
        }
        answer
    }

    // Notes the file that the system reported for a path.
    fn note_file(&mut self, path: &str, found: &Found)
        ensures { self.new.entries ≡ self.old.entries ++ Finds path.now found.now ∷ [] }
    {
        let number = if found.is_file { 7 } else { 8 };
        self.note(
            &[
                number,
                found.size,
                found.device,
                found.number,
                found.mode as u64,
                found.user as u64,
                found.group as u64,
            ],
            path.as_bytes(),
            &[],
        );
    }

    /// Notes whether the path itself is a link.
    pub fn note_is_link(&mut self, path: &str, is_link: bool) -> bool
        ensures calls { self.new.entries ≡ self.old.entries ++ linked path.now is_link }
        ensures same { result ≡ is_link }
    {
        if is_link {
            self.note(&[9], path.as_bytes(), &[]);
        } else {
            self.note(&[10], path.as_bytes(), &[]);
        }
        is_link
    }

    /// Notes the path that a path leads to, or the failure.
    pub fn note_canonical(&mut self, path: &str, answer: io::Result<String>) -> io::Result<String>
        ensures calls { self.new.entries ≡ self.old.entries ++ led path.now answer }
        ensures same { result ≡ answer }
    {
        match &answer {
            Ok(target) => self.note(&[11], path.as_bytes(), target.as_bytes()),
            Err(error) => self.note_failure(path, error),
        }
        answer
    }

    /// Notes the first bytes of the file at a path, or the failure; `None` if it is empty.
    pub fn note_beginning(&mut self, path: &str, answer: &io::Result<Option<LeadingBytes>>)
        ensures { self.new.entries ≡ self.old.entries ++ begun path.now answer.now }
    {
        match answer {
            Ok(Some(bytes)) => self.note(&[12], path.as_bytes(), bytes),
            Ok(None) => self.note(&[12], path.as_bytes(), &[]),
            Err(error) => self.note_failure(path, error),
        }
    }

    /// Notes the next bytes that were read from the file at a path, or the failure.
    pub fn note_read(&mut self, path: &str, bytes: &[u8], answer: &io::Result<()>)
        ensures { self.new.entries ≡ self.old.entries ++ answered (Gives path.now bytes.now) path.now answer.now }
    {
        match answer {
            Ok(()) => self.note(&[13], path.as_bytes(), bytes),
            Err(error) => self.note_failure(path, error),
        }
    }

    /// Notes that the archive at `draft` neither has nor covers `lost` records of the archive at `target`.
    pub fn note_losses(&mut self, draft: &str, target: &str, lost: u64)
        ensures { self.new.entries ≡ self.old.entries ++ Compares draft.now target.now lost ∷ [] }
    {
        self.note(&[14, lost], draft.as_bytes(), target.as_bytes());
    }

    /// Notes the failure to open a file for reading; success is not noted.
    pub fn note_failed_open<T>(&mut self, path: &str, answer: io::Result<T>) -> io::Result<T>
        ensures calls { self.new.entries ≡ self.old.entries ++ refused path.now answer }
        ensures same { result ≡ answer }
    {
        if let Err(error) = &answer {
            self.note_failure(path, error);
        }
        answer
    }

    /// Notes that an existing file was opened and truncated, or the failure.
    pub fn note_truncate<T>(&mut self, path: &str, answer: io::Result<T>) -> io::Result<T>
        ensures calls { self.new.entries ≡ self.old.entries ++ answered (Opens path.now) path.now answer }
        ensures same { result ≡ answer }
    {
        match &answer {
            Ok(_) => self.note(&[1], path.as_bytes(), &[]),
            Err(error) => self.note_failure(path, error),
        }
        answer
    }

    /// Notes that a new file was created with this mode, or the failure.
    pub fn note_create<T>(&mut self, path: &str, mode: u32, answer: io::Result<T>) -> io::Result<T>
        ensures calls { self.new.entries ≡ self.old.entries ++ created path.now mode answer }
        ensures same { result ≡ answer }
    {
        match &answer {
            Ok(_) => self.note(&[0, mode as u64], path.as_bytes(), &[]),
            Err(error) if error.kind() == ErrorKind::AlreadyExists => self.note(
                &[18],
                path.as_bytes(),
                &[],
            ),
            Err(error) => self.note_failure(path, error),
        }
        answer
    }

    /// Notes bytes that were written to the file that was created or opened.
    pub fn note_write(&mut self, bytes: &[u8])
        ensures { self.new.entries ≡ self.old.entries ++ Writes bytes.now ∷ [] }
    {
        self.note(&[2], bytes, &[]);
    }

    /// Notes that the written bytes, at this path, were synced to the disk, or the failure.
    pub fn note_sync(&mut self, path: &str, answer: io::Result<()>) -> io::Result<()>
        ensures calls { self.new.entries ≡ self.old.entries ++ answered Syncs path.now answer }
        ensures same { result ≡ answer }
    {
        match &answer {
            Ok(()) => self.note(&[3], &[], &[]),
            Err(error) => self.note_failure(path, error),
        }
        answer
    }

    /// Notes that the draft was renamed to the target, which it replaces, or the failure.
    pub fn note_rename(
        &mut self,
        draft: &str,
        target: &str,
        answer: io::Result<()>,
    ) -> io::Result<()>
        ensures calls { self.new.entries ≡ self.old.entries
            ++ answered (Renames draft.now target.now) target.now answer }
        ensures same { result ≡ answer }
    {
        match &answer {
            Ok(()) => self.note(&[4], draft.as_bytes(), target.as_bytes()),
            Err(error) => self.note_failure(target, error),
        }
        answer
    }

    /// Notes that a folder was to be synced to the disk; the result is not noted.
    pub fn note_sync_folder(&mut self, path: &str)
        ensures { self.new.entries ≡ self.old.entries ++ SyncsFolder path.now ∷ [] }
    {
        self.note(&[5], path.as_bytes(), &[]);
    }

    /// Notes that a file was to be removed; the result is not noted.
    pub fn note_remove(&mut self, path: &str)
        ensures { self.new.entries ≡ self.old.entries ++ Removes path.now ∷ [] }
    {
        self.note(&[6], path.as_bytes(), &[]);
    }

    // Notes that a call on a path failed with this error.
    fn note_failure(&mut self, path: &str, error: &io::Error)
        ensures { self.new.entries ≡ self.old.entries ++ failed path.now (error_kind error.now) ∷ [] }
    {
        match error.kind() {
            ErrorKind::NotFound => self.note(&[15], path.as_bytes(), &[]),
            ErrorKind::OutOfMemory => self.note(&[16], path.as_bytes(), &[]),
            _ => self.note(&[17], path.as_bytes(), &[]),
        }
    }
}
