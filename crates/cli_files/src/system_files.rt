//! The files of the system in one command: its inputs, and OUT.

ghost use Rattle.std.specs.Prelude.{◌≡◌, ◌++◌, [], IfOk, None, OnOk, Some, map, option_map, string_bytes};
ghost use Rattle.cli_files.specs.LazyInputs.{told};
ghost use Rattle.cli_files.specs.Fresh.{AreFresh};
ghost use Rattle.cli_files.specs.InputStates.{AreFirstAsked, AreWaiting};
ghost use Rattle.cli_files.specs.OutFiles.{Untouched, stage_of};
ghost use Rattle.cli_files.specs.Publishing.{IsPath};

use crate::call_log::CallLog;
use crate::file_calls::FileCalls;
use crate::identities::none_is_same_file;
use crate::inputs::{SystemInput, make_inputs};
use crate::out_file::OutFile;
use crate::out_path::OutTarget;
use crate::replaceable::ReplaceRule;
use crate::system_calls::System;
use byte_device::Output;
use heap_memory::NoMemory;
use std::alloc::Global;
use std::rt::Files;

/// The files of the system in one command.
#[derive(Drop)]
pub struct SystemFiles<'a, F: Files> {
    alloc: Global,
    files: &'a F,
    pub out: Output<OutFile<'a, F>, OutTarget<'a, F>>,
    /// The paths for which it made inputs.
    asked: CallLog,
    /// The metadata of OUT and of each input, before anything was opened.
    compared: FileCalls,
}

impl<'a, F: Files> SystemFiles<'a, F> {
    /// No input was made and no file created. The names of drafts contain the number of this process.
    pub fn new(alloc: Global, files: &'a F, process: u32) -> Self
        ensures asked { result.asked.entries ≡ [] }
        ensures fresh { AreFresh result }
    {
        SystemFiles {
            alloc,
            files,
            out: Output {
                draft: OutFile::new(alloc, files, process),
                target: OutTarget::new(files),
            },
            asked: CallLog::new(),
            compared: FileCalls::new(),
        }
    }

    /// The memory that its readers use.
    pub fn alloc(&self) -> Global {
        self.alloc
    }

    /// Sets OUT's path, and which files there may be replaced. If it names the same regular file as an input, no path
    /// is set, and `Ok` is returned: the first write to OUT then fails with `NotCreated(None)`.
    pub fn begin(
        &mut self,
        path: &str,
        inputs: &[&str],
        replaces: ReplaceRule,
    ) -> Result<(), NoMemory>
        requires { AreFresh self.old }
        ensures asked { self.new.asked.entries ≡ self.old.asked.entries }
        ensures path { OnOk result (IsPath (Some path.now) (map (λ p. p.now) inputs.now) self.new.compared.entries
            (option_map string_bytes self.new.out.draft.path)) }
        ensures replaces { OnOk result (self.new.out.draft.replaces ≡ replaces) }
        ensures untouched { stage_of self.new.out.draft.state ≡ Untouched }
        ensures unfailed { self.new.out.draft.failures ≡ 0 }
        ensures calls { self.new.out.draft.calls.entries ≡ [] }
        ensures published { self.new.out.target.published ≡ None }
    {
        self.out.draft.set_rule(replaces);
        let system = System::new(self.files);
        if none_is_same_file(&system, path, inputs, &mut self.compared) {
            let path = String::from_str(self.alloc, path)?;
            self.out.draft.set_path(path);
        }
        Ok(())
    }

    /// An input for each of these paths, which is opened at its first read.
    pub fn inputs<'l>(&mut self, paths: &[&'l str]) -> Result<Vec<SystemInput<'l, 'a, F>>, NoMemory>
        ensures inputs { IfOk result (λ inputs. AreWaiting told (map (λ p. p.now) paths.now) inputs.items) }
        ensures asked { OnOk result
            (self.new.asked.entries ≡ self.old.asked.entries ++ map (λ p. p.now) paths.now) }
        ensures first { AreFirstAsked self.old.asked.entries self.new.asked.entries (map (λ p. p.now) paths.now) }
        ensures out { self.new.out ≡ self.old.out }
        ensures compared { self.new.compared ≡ self.old.compared }
    {
        let mut inputs = Vec::new(self.alloc);
        make_inputs(self.alloc, self.files, paths, &mut self.asked, &mut inputs)?;
        Ok(inputs)
    }
}
