//! The calls to the system for OUT, one function for each. Each makes the call that it notes: a person sees that by
//! reading this file. No other module of this crate calls these files; inputs have their own.

use super::{Opened, Own, System, SystemCalls};
use crate::file_calls::FileCalls;
use crate::found::Found;
use std::alloc::Global;
use std::fs::{self, Metadata, OpenFile, OpenOptions, Permissions};
use std::io;
use std::os::unix::fs::{MetadataExt, OpenOptionsExt, PermissionsExt};
use std::rt::Files;

fn found_of(metadata: Metadata) -> Found {
    Found {
        is_file: metadata.is_file(),
        size: metadata.len(),
        device: metadata.dev(),
        number: metadata.ino(),
        mode: metadata.mode(),
        user: metadata.uid(),
        group: metadata.gid(),
    }
}

impl<'a, F: Files> SystemCalls for System<'a, F> {
    type File = F::File;

    fn metadata(&self, path: &str, calls: &mut FileCalls) -> io::Result<Found> {
        calls.note_metadata(path, fs::metadata(self.files, path).map(found_of))
    }

    fn is_link(&self, path: &str, calls: &mut FileCalls) -> bool {
        let found = fs::symlink_metadata(self.files, path);
        calls.note_is_link(path, found.is_ok_and(|it| it.is_symlink()))
    }

    fn canonicalize(&self, alloc: Global, path: &str, calls: &mut FileCalls) -> io::Result<String> {
        let answer = self.files.canonicalize(alloc, path);
        calls.note_canonical(path, answer.map(|it| it.into_string()))
    }

    fn open<'p>(
        &self,
        path: &'p str,
        writes: bool,
        calls: &mut FileCalls,
    ) -> io::Result<Opened<'p, F::File>> {
        let answer = OpenOptions::new()
            .read(true)
            .write(writes)
            .open(self.files, path);
        Ok(Opened::new(calls.note_failed_open(path, answer)?, path))
    }

    fn create(&self, path: &str, calls: &mut FileCalls) -> io::Result<F::File> {
        calls.note_truncate(path, fs::create(self.files, path))
    }

    fn create_new(
        &self,
        path: String,
        mode: u32,
        there: Option<Found>,
        calls: &mut FileCalls,
    ) -> io::Result<Own<F::File>> {
        let answer = OpenOptions::new()
            .write(true)
            .create_new(true)
            .mode(mode)
            .open(self.files, &path);
        let file = calls.note_create(&path, mode, answer)?;
        if let Some(there) = there {
            let _ = self.files.chown(&path, None, Some(there.group));
            let _ = self.files.chown(&path, Some(there.user), None);
            let _ = file.set_permissions(Permissions::from_mode(mode));
        }
        Ok(Own { file, path })
    }

    fn sync(&self, own: &Own<F::File>, calls: &mut FileCalls) -> io::Result<()> {
        calls.note_sync(&own.path, own.file.sync_all())
    }

    fn rename(&self, own: &Own<F::File>, target: &str, calls: &mut FileCalls) -> io::Result<()> {
        let answer = fs::rename(self.files, &own.path, target);
        calls.note_rename(&own.path, target, answer)
    }

    fn remove<T>(&self, own: &Own<T>, calls: &mut FileCalls) {
        calls.note_remove(&own.path);
        let _ = fs::remove_file(self.files, &own.path);
    }

    fn sync_folder(&self, folder: &str, calls: &mut FileCalls) {
        calls.note_sync_folder(folder);
        let _ = fs::open(self.files, folder).and_then(|it| it.sync_all());
    }
}
