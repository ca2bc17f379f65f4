//! How OUT is written, by the file that its path leads to. Each call that reads is noted with its reply.

ghost use Rattle.std.specs.Prelude.{◌≡◌, ◌∷◌, ◌++◌, [], IfErr, IfOk, List, OnErr, Some, string_bytes, true};
ghost use Rattle.std.specs.IoError.{error_kind};
ghost use Rattle.cli_files.specs.declared.replaceable.ReplaceRule.{ReplaceRule};
ghost use Rattle.cli_files.specs.FileCalls.{FileCall, Finds, FindsNothing, are_probes};
ghost use Rattle.cli_files.specs.OutFiles.{IsWayTo};
ghost use Rattle.cli_files.specs.Publishing.{FindsReplaced, IsDescriptor, IsTargetOf, there};
ghost use Rattle.cli_files.specs.Refusals.{IsSaid};
ghost use Rattle.cli_files.specs.declared.found.Found.{Found};

use crate::descriptors::is_descriptor;
use crate::file_calls::FileCalls;
use crate::found::Found;
use crate::replaceable::{Obstacle, OutFault, ReplaceRule, check_kind};
use crate::system_calls::{System, SystemCalls};
use std::alloc::Global;
use std::io::{self, ErrorKind};
use std::rt::Files;

/// How OUT is written.
#[derive(Drop)]
pub enum WriteMode {
    /// To the file there, which is no regular file, or whose path is a descriptor.
    Through,
    /// To a draft next to this path, which has no symbolic links; with the metadata of the file there, if one exists.
    Beside(String, Option<Found>),
}

/// How OUT with this path is written, if the command replaces these files.
///
/// A file that is not regular is written through, and so is a descriptor, which other processes may hold. A symbolic
/// link is followed; one that leads to nothing is refused.
pub fn write_mode_of<F: Files>(
    alloc: Global,
    system: &System<'_, F>,
    path: &str,
    replaces: ReplaceRule,
    calls: &mut FileCalls,
) -> Result<WriteMode, OutFault>
    ensures way { calls.old.entries ≡ [] → IfOk result (λ way. IsWayTo replaces path.now way calls.new.entries) }
    ensures refused { calls.old.entries ≡ [] → OnErr result (are_probes calls.new.entries ≡ true) }
    ensures said { IfErr result (λ fault. IsSaid replaces fault calls.new.entries) }
{
    if is_descriptor(path) {
        return Ok(WriteMode::Through);
    }
    match system.metadata(path, calls) {
        Ok(found) if found.is_file => mode_over_file(alloc, system, path, replaces, found, calls),
        Ok(_) => Ok(WriteMode::Through),
        Err(error) if error.kind() == ErrorKind::NotFound => {
            mode_for_new(alloc, system, path, error, calls)
        }
        Err(error) => Err(OutFault::NotCreated(Some(error))),
    }
}

/// How OUT is written at a path at which the system finds nothing. Refused if the path is a link, or if it is empty or
/// ends with a slash.
fn mode_for_new<F: Files>(
    alloc: Global,
    system: &System<'_, F>,
    path: &str,
    error: io::Error,
    calls: &mut FileCalls,
) -> Result<WriteMode, OutFault>
    requires { IsDescriptor path.now → ⊥ }
    ensures way { calls.old.entries ≡ FindsNothing path.now ∷ []
        → IfOk result (λ way. (replaces : ReplaceRule) → IsWayTo replaces path.now way calls.new.entries) }
    ensures refused { calls.old.entries ≡ FindsNothing path.now ∷ []
        → OnErr result (are_probes calls.new.entries ≡ true) }
    ensures said { (replaces : ReplaceRule) (before : List FileCall)
        → calls.old.entries ≡ before ++ FindsNothing path.now ∷ [] → error_kind error ≡ ErrorKind.NotFound
        → IfErr result (λ fault. IsSaid replaces fault calls.new.entries) }
{
    if path.is_empty() || path.ends_with('/') {
        return Err(OutFault::NotCreated(Some(error)));
    }
    if system.is_link(path, calls) {
        return Err(OutFault::NotCreated(Some(error)));
    }
    Ok(WriteMode::Beside(String::from_str(alloc, path)?, None))
}

/// How OUT is written over a regular file. Refused if it may not be written, or if its first bytes do not allow it to
/// be replaced.
fn mode_over_file<F: Files>(
    alloc: Global,
    system: &System<'_, F>,
    path: &str,
    replaces: ReplaceRule,
    found: Found,
    calls: &mut FileCalls,
) -> Result<WriteMode, OutFault>
    requires regular { found.is_file ≡ true }
    requires no_descriptor { IsDescriptor path.now → ⊥ }
    ensures way { calls.old.entries ≡ Finds path.now found ∷ []
        → IfOk result (λ way. IsWayTo replaces path.now way calls.new.entries) }
    ensures refused { calls.old.entries ≡ Finds path.now found ∷ []
        → OnErr result (are_probes calls.new.entries ≡ true) }
    ensures said { IfErr result (λ fault. IsSaid replaces fault calls.new.entries) }
{
    let mut file = match system.open(path, true, calls) {
        Ok(file) => file,
        Err(error) => return Err(OutFault::NotCreated(Some(error))),
    };
    let beginning = match file.beginning(found.size, calls) {
        Ok(beginning) => beginning,
        Err(error) => return Err(OutFault::NotReplaced(Obstacle::Refused(Some(error)))),
    };
    check_kind(replaces, &beginning)?;
    let target = target_of(alloc, system, path, calls)?;
    Ok(WriteMode::Beside(target, Some(found)))
}

/// The path of the regular file that a path leads to: its own, unless it is a link.
fn target_of<F: Files>(
    alloc: Global,
    system: &System<'_, F>,
    path: &str,
    calls: &mut FileCalls,
) -> Result<String, OutFault>
    ensures target { (replaces : ReplaceRule) → FindsReplaced replaces path.now calls.old.entries
        → IfOk result (λ target. IsTargetOf replaces path.now (string_bytes target) calls.new.entries) }
    ensures found { (found : Found) (rest : List FileCall) → calls.old.entries ≡ Finds path.now found ∷ rest
        → there calls.new.entries ≡ Some found }
    ensures refused { are_probes calls.old.entries ≡ true → OnErr result (are_probes calls.new.entries ≡ true) }
    ensures said { (replaces : ReplaceRule) → IfErr result (λ fault. IsSaid replaces fault calls.new.entries) }
{
    if !system.is_link(path, calls) {
        return Ok(String::from_str(alloc, path)?);
    }
    match system.canonicalize(alloc, path, calls) {
        Ok(target) => Ok(target),
        Err(error) if error.kind() == ErrorKind::OutOfMemory => Err(OutFault::OutOfMemory),
        Err(error) => Err(OutFault::NotCreated(Some(error))),
    }
}
