//! Files of the system, in a folder of this run's own.

use cli_files::SystemFiles;
use cli_run::run;
use heap_memory::{Heap, NoMemory};
use std::io::{self, ErrorKind};
use std::os::unix::fs::symlink;
use std::rt::Files;
use std::{fs, process};
use test_parts::{CaseFault, Store, StrictSink, first_word, print_report, words_of};

/// A folder, whose files are named by words of a command line that begin with `@`.
#[derive(Drop)]
pub struct Folder<'a, R> {
    rt: &'a R,
    process: u32,
    path: String,
}

impl<'a> Folder<'a, HostRuntime> {
    /// An empty folder, of this run alone.
    pub fn create(rt: &'a HostRuntime) -> io::Result<Self> {
        let process = process::id(rt.process());
        let path = format!(in rt.alloc(); "/tmp/symarch_rows_{process}")?;
        if fs::exists(rt, &path)? {
            fs::remove_dir_all(rt, &path)?;
        }
        fs::create_dir(rt, &path)?;
        Ok(Folder { rt, process, path })
    }
}

impl<'a, R: Files + AllocGlobal> Folder<'a, R> {
    /// Removes the folder and its files.
    pub fn remove(&self) -> io::Result<()> {
        fs::remove_dir_all(self.rt, &self.path)
    }

    fn path_of(&self, name: &str) -> Result<String, NoMemory> {
        let path = &self.path;
        format!(in self.rt.alloc(); "{path}/{name}")
    }

    /// Writes files in memory to the folder.
    pub fn lay(&self, store: &Store, names: &str) -> Result<(), CaseFault> {
        for name in words_of(self.rt.alloc(), names)? {
            fs::write(self.rt, &self.path_of(name)?, store.named(name)?)?;
        }
        Ok(())
    }

    /// Makes a hard or a symbolic link to a file of the folder: `hard NEW OLD`, `soft NEW OLD`.
    pub fn link(&self, words: &str) -> Result<(), CaseFault> {
        let (kind, names) = words.split_once(' ').ok_or(CaseFault::BadLine)?;
        let (new, old) = names.split_once(' ').ok_or(CaseFault::BadLine)?;
        let new = self.path_of(new)?;
        let old = self.path_of(old)?;
        match kind {
            "hard" => fs::hard_link(self.rt, &old, &new)?,
            "soft" => symlink(self.rt, &old, &new)?,
            _ => return Err(CaseFault::BadLine),
        }
        Ok(())
    }

    /// Reads a file of the folder into memory, and prints the number of its bytes, or that it does not exist.
    pub fn fetch(
        &self,
        store: &mut Store,
        word: &str,
        printed: &mut String,
    ) -> Result<(), CaseFault> {
        let (name, _) = first_word(word);
        let path = self.path_of(name)?;
        if !fs::exists(self.rt, &path)? {
            return Ok(writeln!(printed, "  not there")?);
        }
        let bytes = fs::read(self.rt, &path)?;
        writeln!(printed, "  {} bytes", bytes.len())?;
        store.keep(self.rt.alloc(), name, bytes)
    }

    /// Carries out the words of a command line over files of the folder, with a report that accepts `most` bytes, and
    /// prints the report, standard error, and the status.
    pub fn run(&self, words: &str, most: usize, printed: &mut String) -> Result<(), CaseFault> {
        self.print_run(Ok(self.line_of(words)?), most, printed)
    }

    /// The same for words that could not be read: one is not UTF-8 text, or there was no memory for them.
    pub fn run_unread(&self, why: &str, printed: &mut String) -> Result<(), CaseFault> {
        let error = match why {
            "text" => ErrorKind::InvalidData,
            "memory" => ErrorKind::OutOfMemory,
            _ => return Err(CaseFault::BadLine),
        };
        self.print_run(Err(error.into()), usize::MAX, printed)
    }

    fn print_run(
        &self,
        words: io::Result<Vec<String>>,
        most: usize,
        printed: &mut String,
    ) -> Result<(), CaseFault> {
        let mut report = StrictSink::new(Heap::new(self.rt.alloc())?, most);
        let mut errors = StrictSink::new(Heap::new(self.rt.alloc())?, usize::MAX);
        let mut files = SystemFiles::new(self.rt.alloc(), self.rt, self.process);
        let status = run(words, &mut files, &mut report, &mut errors);
        print_report(report.as_slice(), printed)?;
        self.print_errors(errors.as_slice(), printed)?;
        Ok(writeln!(printed, "  status {status}")?)
    }

    // The words of a command line, after the program's name.
    fn line_of(&self, words: &str) -> Result<Vec<String>, NoMemory> {
        let mut line = Vec::new(self.rt.alloc());
        line.push(String::from_str(self.rt.alloc(), "symarch")?)?;
        for word in words_of(self.rt.alloc(), words)? {
            line.push(match word.strip_prefix('@') {
                Some(name) => self.path_of(name)?,
                None => String::from_str(self.rt.alloc(), word)?,
            })?;
        }
        Ok(line)
    }

    // Prints the lines of standard error, with `@` for the folder.
    fn print_errors(&self, errors: &[u8], printed: &mut String) -> Result<(), CaseFault> {
        let text = str::from_utf8(errors).ok().ok_or(CaseFault::BadLine)?;
        for line in text.lines() {
            match line.split_once(self.path.as_str()) {
                Some((before, behind)) => writeln!(printed, "  {before}@{behind}")?,
                None => writeln!(printed, "  {line}")?,
            }
        }
        Ok(())
    }
}
