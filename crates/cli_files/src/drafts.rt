//! Drafts of OUT: a separate file next to OUT, to which the bytes are written, and which is renamed when it is
//! complete. Contracts cover the calls to the system and its replies, not their effects.

ghost use Rattle.std.specs.Prelude.{◌≡◌, ◌∷◌, ◌++◌, [], ℕ, IfErr, IfOk, List, OnErr, OnOk, false, string_bytes, true};
ghost use Rattle.std.specs.Path.{path_with_file_name};
ghost use Rattle.cli_files.specs.FileCalls.{Creates, FileCall, Removes, are_probes, publishing, taking};
ghost use Rattle.cli_files.specs.Refusals.{IsRemovedFor, IsSaid, is_failure};
ghost use Rattle.cli_files.specs.declared.replaceable.ReplaceRule.{ReplaceRule};
ghost use Rattle.cli_files.specs.Publishing.{IsBeside, IsTakenBack, IsTested, draft_mode, draft_name, folder_of};

use crate::file_calls::FileCalls;
use crate::found::Found;
use crate::losses::{check_losses, replaceable_beginning};
use crate::replaceable::{Obstacle, OutFault, ReplaceRule};
use crate::sameness::check_sameness;
use crate::system_calls::{Own, System, SystemCalls};
use heap_memory::NoMemory;
use std::alloc::Global;
use std::io::{self, ErrorKind};
use std::path::Path;
use std::rt::Files;

/// The number of names that are tried for a draft.
const MOST_NAMES: u32 = 100;

/// The mode of a new file, from which the system removes the bits of the user's mask.
const NEW_FILE_MODE: u32 = 0o666;

/// The bits of a mode for the permissions.
const PERMISSION_BITS: u32 = 0o777;

/// A file of this run, next to the file that it is to replace.
#[derive(Drop)]
pub struct Draft<T> {
    pub own: Own<T>,
    pub target: String,
}

/// The path of the draft with this number.
fn draft_path(alloc: Global, target: &str, process: u32, number: u32) -> Result<String, NoMemory>
    ensures { IfOk result
        (λ path. string_bytes path ≡ path_with_file_name target.now (draft_name process number)) }
{
    let name = format!(in alloc; ".symarch-{process}-{number}")?;
    Ok(
        Path::new(target)
            .with_file_name(alloc, &name)?
            .into_string(),
    )
}

/// The mode of a draft that replaces this file: its permissions without set-id bits, or that of a new file.
fn mode_of(there: &Option<Found>) -> u32
    ensures { result ≡ draft_mode there.now }
{
    match there {
        Some(there) => there.mode & PERMISSION_BITS,
        None => NEW_FILE_MODE,
    }
}

/// Creates a draft next to the target, under a name that is not in use, with the mode of the file there.
pub fn create_draft<F: Files>(
    alloc: Global,
    system: &System<'_, F>,
    process: u32,
    target: String,
    there: Option<Found>,
    calls: &mut FileCalls,
) -> Result<Draft<F::File>, OutFault>
    ensures target { IfOk result (λ draft. draft.target ≡ target) }
    ensures beside { IfOk result (λ draft. IsBeside (string_bytes draft.own.path) (string_bytes target)) }
    ensures created { IfOk result (λ draft. (taken : List (List ℕ)) × (calls.new.entries
        ≡ calls.old.entries ++ taking taken ++ Creates (string_bytes draft.own.path) (draft_mode there) ∷ [])) }
    ensures refused { OnErr result ((tests : List FileCall) × (are_probes tests ≡ true)
        × (calls.new.entries ≡ calls.old.entries ++ tests)) }
    ensures said { (replaces : ReplaceRule) (before : List FileCall) (said : FileCall)
        → calls.old.entries ≡ before ++ said ∷ [] → is_failure said ≡ false
        → IfErr result (λ fault. IsSaid replaces fault calls.new.entries) }
{
    let mode = mode_of(&there);
    'names: for number in 0..MOST_NAMES {
        let path = draft_path(alloc, &target, process, number)?;
        if path == target {
            continue;
        }
        match system.create_new(path, mode, there, calls) {
            Ok(own) => return Ok(Draft { own, target }),
            Err(error) if error.kind() == ErrorKind::AlreadyExists => {}
            Err(error) => return Err(OutFault::NotCreated(Some(error))),
        }
    }
    let taken = io::Error::new(ErrorKind::AlreadyExists, "no name is free for its draft");
    Err(OutFault::NotCreated(Some(taken)))
}

/// The folder of a path.
fn folder_of(path: &str) -> &str
    ensures { result.now ≡ folder_of path.now }
{
    match Path::new(path).parent() {
        Some(folder) if !folder.as_str().is_empty() => folder.as_str(),
        _ => ".",
    }
}

/// Removes a draft.
pub fn remove_draft<F: Files, T>(system: &System<'_, F>, draft: &Draft<T>, calls: &mut FileCalls)
    ensures { calls.new.entries ≡ calls.old.entries ++ Removes (string_bytes draft.now.own.path) ∷ [] }
{
    system.remove(&draft.own, calls);
}

/// Replaces the target by a draft, or removes the draft. Its bytes are synced to the disk before it is renamed.
pub fn put_draft<F: Files>(
    alloc: Global,
    system: &System<'_, F>,
    draft: &Draft<F::File>,
    replaces: ReplaceRule,
    calls: &mut FileCalls,
) -> Result<(), OutFault>
    ensures published { OnOk result ((tests : List FileCall)
        × IsTested replaces (string_bytes draft.now.own.path) (string_bytes draft.now.target) tests
        × (calls.new.entries ≡ calls.old.entries ++ tests
        ++ publishing (string_bytes draft.now.own.path) (string_bytes draft.now.target)
        (folder_of (string_bytes draft.now.target)))) }
    ensures removed { OnErr result (IsTakenBack (string_bytes draft.now.own.path) calls.old.entries calls.new.entries) }
    ensures said { IfErr result
        (λ fault. IsRemovedFor replaces fault (string_bytes draft.now.own.path) calls.new.entries) }
{
    if let Err(fault) = check_place(alloc, system, draft, replaces, calls) {
        remove_draft(system, draft, calls);
        return Err(fault);
    }
    if let Err(error) = system.sync(&draft.own, calls) {
        remove_draft(system, draft, calls);
        return Err(OutFault::NotReplaced(Obstacle::Refused(Some(error))));
    }
    if let Err(error) = system.rename(&draft.own, &draft.target, calls) {
        remove_draft(system, draft, calls);
        return Err(OutFault::NotReplaced(Obstacle::Refused(Some(error))));
    }
    system.sync_folder(folder_of(&draft.target), calls);
    Ok(())
}

/// Tests whether a draft may replace the file at the target.
fn check_place<F: Files>(
    alloc: Global,
    system: &System<'_, F>,
    draft: &Draft<F::File>,
    replaces: ReplaceRule,
    calls: &mut FileCalls,
) -> Result<(), OutFault>
    ensures tested { OnOk result ((tests : List FileCall)
        × IsTested replaces (string_bytes draft.now.own.path) (string_bytes draft.now.target) tests
        × (calls.new.entries ≡ calls.old.entries ++ tests)) }
    ensures refused { OnErr result ((tests : List FileCall) × (are_probes tests ≡ true)
        × (calls.new.entries ≡ calls.old.entries ++ tests)) }
    ensures said { IfErr result (λ fault. IsSaid replaces fault calls.new.entries) }
{
    match replaces {
        ReplaceRule::Summaries | ReplaceRule::Indexes => {
            replaceable_beginning(system, &draft.target, replaces, calls)?;
            Ok(())
        }
        ReplaceRule::ArchivesBelow => check_losses(
            alloc,
            system,
            draft.own.path(),
            &draft.target,
            calls,
        ),
        ReplaceRule::SameBytes => check_sameness(system, draft.own.path(), &draft.target, calls),
    }
}
