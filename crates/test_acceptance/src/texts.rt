//! The texts of cases: one file for each subject, and those that subjects share.
//!
//! They are in the folders `cases` and `shared` of the folder where the program runs, or of `data` there. A line `use
//! NAME` of a subject is replaced by the lines of `shared/NAME`.

use heap_memory::NoMemory;
use std::alloc::Global;
use std::rt::Files;
use std::{fs, io};
use thiserror::Error;

/// Why no case is carried out.
#[derive(Debug, Drop, Error)]
pub enum TextFault {
    /// The file of the subject, or one that it uses, cannot be read.
    #[error("no such subject, or no such file to use")]
    NoText,
    #[error("no such case")]
    NoCase,
    #[error("a subject without a case")]
    Empty,
    #[error("two cases have one name, {0}")]
    NamedTwice(String),
    #[error("nothing has to come of the case {0}")]
    Void(String),
    /// The system refused a call on files.
    #[error("the system refused a call on files")]
    System(#[from] io::Error),
    #[error("out of memory")]
    OutOfMemory(#[from(alloc)] NoMemory),
}

/// The folders of the texts.
#[derive(Drop)]
pub struct Texts<'a, R> {
    rt: &'a R,
    /// Where they are.
    root: &'static str,
}

impl<'a, R: Files + AllocGlobal> Texts<'a, R> {
    /// Finds the folders.
    pub fn find(rt: &'a R) -> io::Result<Self> {
        let root = if fs::exists(rt, "cases")? {
            "."
        } else {
            "data"
        };
        Ok(Texts { rt, root })
    }

    /// The text of a subject, with the files that it uses.
    pub fn read(&self, subject: &str) -> Result<String, TextFault> {
        let mut text = String::new(self.rt.alloc());
        for line in self.file("cases", subject)?.lines() {
            match line.strip_prefix("use ") {
                Some(name) => writeln!(text, "{}", self.file("shared", name)?)?,
                None => writeln!(text, "{line}")?,
            }
        }
        Ok(text)
    }

    fn file(&self, folder: &str, name: &str) -> Result<String, TextFault> {
        let path = format!(in self.rt.alloc(); "{}/{folder}/{name}", self.root)?;
        fs::read_to_string(self.rt, &path)
            .ok()
            .ok_or(TextFault::NoText)
    }
}

impl<R: Files + AllocGlobal + Clone + Drop> Texts<'_, R> {
    /// The names of all subjects, in order.
    pub fn subjects(&self) -> io::Result<Vec<String>> {
        let path = format!(in self.rt.alloc(); "{}/cases", self.root)?;
        let mut names = Vec::new(self.rt.alloc());
        for entry in fs::read_dir(self.rt, &path)? {
            names.push(String::from_str(self.rt.alloc(), entry?.file_name())?)?;
        }
        names.sort()?;
        Ok(names)
    }
}

/// Tests that a text has cases, each with a name of its own and with expected results.
pub fn check_cases(alloc: Global, text: &str) -> Result<(), TextFault> {
    let mut names = Vec::new(alloc);
    for case in text.split("\n= ").skip(1) {
        let (name, lines) = case.split_once('\n').unwrap_or((case, ""));
        if names.contains(&name) {
            return Err(TextFault::NamedTwice(String::from_str(alloc, name)?));
        }
        if !lines.contains("\n  ") {
            return Err(TextFault::Void(String::from_str(alloc, name)?));
        }
        names.push(name)?;
    }
    if names.is_empty() {
        return Err(TextFault::Empty);
    }
    Ok(())
}

/// The lines above a case of a text, and its own lines.
pub fn cut_case<'t>(
    alloc: Global,
    text: &'t str,
    name: &str,
) -> Result<(&'t str, &'t str), TextFault> {
    let head = format!(in alloc; "\n= {name}\n")?;
    let (above, rest) = text.split_once(head.as_str()).ok_or(TextFault::NoCase)?;
    let (case, _) = rest.split_once("\n= ").unwrap_or((rest, ""));
    Ok((above, case))
}
