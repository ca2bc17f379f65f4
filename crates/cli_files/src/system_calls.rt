//! The calls to the system for OUT, one method for each, which notes the call and its reply. [`bodies`] has their
//! bodies; a reader of that file sees that each makes the call that it notes.

ghost use Rattle.std.specs.Prelude.{◌≡◌, ◌≤◌, ◌∷◌, ◌++◌, [], IfOk, OnOk, length, string_bytes};
ghost use Rattle.std.specs.Io.KnownBytes.{Consumes, WriteAppends};
ghost use Rattle.cli_files.specs.FileCalls.{Gives, Opens, Removes, Renames, Syncs, SyncsFolder, answered, begun};
ghost use Rattle.cli_files.specs.FileCalls.{HasRead, created, first_bytes, found, led, linked, refused};

mod bodies;

use crate::file_calls::FileCalls;
use crate::found::Found;
use crate::opened_file::LeadingBytes;
use crate::replaceable::beginning_of;
use std::alloc::Global;
use std::io::{self, Read, Write};
use std::rt::Files;

/// The files of the system.
#[derive(Drop)]
pub struct System<'a, F: Files> {
    files: &'a F,
}

/// A file that was opened at this path.
#[derive(Drop)]
pub struct Opened<'p, T> {
    file: T,
    path: &'p str,
}

/// A file of this run, which was created at this path.
#[derive(Drop)]
pub struct Own<T> {
    file: T,
    path: String,
}

/// The calls to the files of the system.
pub trait SystemCalls {
    type File: Drop;

    /// The metadata of the file that a path leads to.
    fn metadata(&self, path: &str, calls: &mut FileCalls) -> io::Result<Found>
        ensures { calls.new.entries ≡ calls.old.entries ++ found path.now result };

    /// Whether the path itself is a symbolic link.
    fn is_link(&self, path: &str, calls: &mut FileCalls) -> bool
        ensures { calls.new.entries ≡ calls.old.entries ++ linked path.now result };

    /// The path that a path leads to, without symbolic links.
    fn canonicalize(&self, alloc: Global, path: &str, calls: &mut FileCalls) -> io::Result<String>
        ensures { calls.new.entries ≡ calls.old.entries ++ led path.now result };

    /// Opens a file for reading, and for writing too if `writes`.
    fn open<'p>(
        &self,
        path: &'p str,
        writes: bool,
        calls: &mut FileCalls,
    ) -> io::Result<Opened<'p, Self::File>>
        ensures calls { calls.new.entries ≡ calls.old.entries ++ refused path.now result }
        ensures path { IfOk result (λ file. file.path.now ≡ path.now) };

    /// Opens and truncates the file at a path.
    fn create(&self, path: &str, calls: &mut FileCalls) -> io::Result<Self::File>
        ensures { calls.new.entries ≡ calls.old.entries ++ answered (Opens path.now) path.now result };

    /// Creates a new file with this mode, and with the group and the owner of the file to be replaced. If this user may
    /// not change the owner, the file stays the user's, but its group may still be set; some systems have no owners.
    fn create_new(
        &self,
        path: String,
        mode: u32,
        there: Option<Found>,
        calls: &mut FileCalls,
    ) -> io::Result<Own<Self::File>>
        ensures calls { calls.new.entries ≡ calls.old.entries ++ created (string_bytes path) mode result }
        ensures path { IfOk result (λ own. own.path ≡ path) };

    /// Syncs a file of this run to the disk.
    fn sync(&self, own: &Own<Self::File>, calls: &mut FileCalls) -> io::Result<()>
        ensures { calls.new.entries ≡ calls.old.entries ++ answered Syncs (string_bytes own.now.path) result };

    /// Renames a file of this run to another path.
    fn rename(&self, own: &Own<Self::File>, target: &str, calls: &mut FileCalls) -> io::Result<()>
        ensures { calls.new.entries ≡ calls.old.entries
            ++ answered (Renames (string_bytes own.now.path) target.now) target.now result };

    /// Removes a file of this run.
    fn remove<T>(&self, own: &Own<T>, calls: &mut FileCalls)
        ensures { calls.new.entries ≡ calls.old.entries ++ Removes (string_bytes own.now.path) ∷ [] };

    /// Syncs a folder, on systems that support it.
    fn sync_folder(&self, folder: &str, calls: &mut FileCalls)
        ensures { calls.new.entries ≡ calls.old.entries ++ SyncsFolder folder.now ∷ [] };
}

impl<'a, F: Files> System<'a, F> {
    pub fn new(files: &'a F) -> Self
        ensures { result.files.now ≡ files.now }
    {
        System { files }
    }
}

impl<T: Write> Own<T> {
    /// Writes some first bytes, and returns their number.
    pub fn write(&mut self, bytes: &[u8]) -> io::Result<usize>
        ensures bound { IfOk result (λ n. n ≤ length bytes.now) }
        ensures bytes { WriteAppends (T.contents self.old.file) (T.contents self.new.file) result bytes.now }
        ensures path { self.new.path ≡ self.old.path }
    {
        self.file.write(bytes)
    }
}

impl<T> Own<T> {
    pub fn path(&self) -> &str
        ensures { result.now ≡ string_bytes self.now.path }
    {
        &self.path
    }
}

impl<'p, T> Opened<'p, T> {
    fn new(file: T, path: &'p str) -> Self
        ensures { result.path.now ≡ path.now }
    {
        Opened { file, path }
    }

    /// Its path.
    pub fn path(&self) -> &'p str
        ensures { result.now ≡ self.now.path.now }
    {
        self.path
    }

    /// The file alone.
    pub fn into_file(self) -> T
        ensures { result ≡ self.entry.file }
    {
        self.file
    }
}

impl<'p, T: Read> Opened<'p, T> {
    /// Its first bytes, for a file of this size.
    pub fn beginning(
        &mut self,
        size: u64,
        calls: &mut FileCalls,
    ) -> io::Result<Option<LeadingBytes>>
        ensures calls { calls.new.entries ≡ calls.old.entries ++ begun self.old.path.now result }
        ensures empty { IfOk result (λ beginning. first_bytes beginning ≡ [] → size ≡ 0) }
        ensures bytes { IfOk result
            (λ beginning. HasRead (T.remaining self.old.file) (T.remaining self.new.file) size beginning) }
    {
        let answer = beginning_of(&mut self.file, size);
        calls.note_beginning(self.path, &answer);
        answer
    }

    /// Reads its next bytes, which fill the buffer.
    pub fn read_exact(&mut self, buf: &mut [u8], calls: &mut FileCalls) -> io::Result<()>
        ensures calls { calls.new.entries ≡ calls.old.entries
            ++ answered (Gives self.old.path.now buf.new) self.old.path.now result }
        ensures path { self.new.path.now ≡ self.old.path.now }
        ensures bytes { OnOk result
            (Consumes (T.remaining self.old.file) (T.remaining self.new.file) buf.new) }
    {
        let answer = self.file.read_exact(buf);
        calls.note_read(self.path, buf, &answer);
        answer
    }
}
