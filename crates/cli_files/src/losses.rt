//! The records that an archive would lose if a draft replaced it.

ghost use Rattle.std.specs.Prelude.{◌≡◌, ◌≢◌, ◌≤◌, ◌⊎◌, ◌∷◌, ◌++◌, IfErr, IfOk, List, None, OnErr, OnOk, Some, []};
ghost use Rattle.std.specs.Prelude.{length, true, ℕ};
ghost use Rattle.std.specs.Io.KnownBytes.{ReadConsumes};
ghost use Rattle.std.specs.IoError.{error_kind};
ghost use Rattle.byte_device.specs.Devices.{stream};
ghost use Rattle.archive_merge.specs.Losses.{IsNotCompared, Loses};
ghost use Rattle.archive_records.specs.declared.fault.MergeCause.{MergeCause};
ghost use Rattle.cli_files.specs.Comparing.{AreCompared, IsBeforeComparison, IsOfComparison, NoneLost};
ghost use Rattle.cli_files.specs.FileCalls.{Begins, Compares, FileCall, are_probes, first_bytes};
ghost use Rattle.cli_files.specs.Publishing.{BeginsSo, IsTested};
ghost use Rattle.cli_files.specs.Refusals.{Fails, IsSaid, IsUncompared, IsUnread};
ghost use Rattle.cli_files.specs.Replacing.{GivesWay, IsOfKind};
ghost use Rattle.cli_files.specs.declared.replaceable.ReplaceRule.{ReplaceRule};
ghost use Rattle.cli_files.specs.declared.replaceable.ReplaceRule.TheVariants.{ArchivesBelow};

use crate::file_calls::FileCalls;
use crate::opened_file::LeadingBytes;
use crate::replaceable::{Obstacle, OutFault, ReplaceRule, check_kind};
use crate::sides::{ArchiveSide, side_of};
use crate::system_calls::{System, SystemCalls};
use archive_merge::lost_operations;
use archive_records::{MergeCause, MergeFault, RecordFaultKind};
use byte_device::Source;
use heap_memory::Heap;
use std::alloc::Global;
use std::io::{self, ErrorKind, Read};
use std::rt::Files;

/// Tests whether a draft may replace the file at its target: nothing, an empty file, or an archive of which the draft
/// has or covers each record.
pub fn check_losses<'d, 't, F: Files>(
    alloc: Global,
    system: &System<'_, F>,
    draft: &'d str,
    target: &'t str,
    calls: &mut FileCalls,
) -> Result<(), OutFault>
    ensures tested { OnOk result ((tests : List FileCall) × IsTested ArchivesBelow draft.now target.now tests
        × (calls.new.entries ≡ calls.old.entries ++ tests)) }
    ensures refused { OnErr result ((tests : List FileCall) × (are_probes tests ≡ true)
        × (calls.new.entries ≡ calls.old.entries ++ tests)) }
    ensures said { IfErr result (λ fault. IsSaid ArchivesBelow fault calls.new.entries) }
    ensures compared { OnOk result (NoneLost ⟦<ArchiveSide<'d, F::File> as Source>⟧
        ⟦<ArchiveSide<'t, F::File> as Source>⟧ draft.now target.now calls.old.entries calls.new.entries) }
    ensures uncompared { IfErr result (λ fault. IsOfComparison ⟦<ArchiveSide<'d, F::File> as Source>⟧
        ⟦<ArchiveSide<'t, F::File> as Source>⟧ draft.now target.now calls.new.entries fault) }
{
    if replaceable_beginning(system, target, ReplaceRule::ArchivesBelow, calls)?.is_none() {
        return Ok(());
    }
    match lost_at(alloc, system, draft, target, calls)? {
        0 => Ok(()),
        lost => Err(OutFault::NotReplaced(Obstacle::Loses(lost))),
    }
}

/// The number of records of the archive at the target that the draft neither has nor covers.
fn lost_at<'d, 't, F: Files>(
    alloc: Global,
    system: &System<'_, F>,
    draft: &'d str,
    target: &'t str,
    calls: &mut FileCalls,
) -> Result<u64, OutFault>
    ensures lost { IfOk result
        (λ lost. calls.new.entries ≡ calls.old.entries ++ Compares draft.now target.now lost ∷ []) }
    ensures refused { OnErr result ((tests : List FileCall) × (are_probes tests ≡ true)
        × (calls.new.entries ≡ calls.old.entries ++ tests)) }
    ensures said { (replaces : ReplaceRule) → IsUncompared calls.old.entries
        → IfErr result (λ fault. IsSaid replaces fault calls.new.entries) }
    ensures compared { IfOk result (λ lost. AreCompared ⟦<ArchiveSide<'d, F::File> as Source>⟧
        ⟦<ArchiveSide<'t, F::File> as Source>⟧ draft.now target.now lost) }
    ensures uncompared { IfErr result (λ fault. IsOfComparison ⟦<ArchiveSide<'d, F::File> as Source>⟧
        ⟦<ArchiveSide<'t, F::File> as Source>⟧ draft.now target.now calls.new.entries fault) }
{
    let heap = Heap::new(alloc)?;
    let mut new = side_at(alloc, system, draft, calls)?;
    let mut old = side_at(alloc, system, target, calls)?;
    lost_between(&heap, &mut new, &mut old, calls)
}

/// The number of records of the old archive that the new one neither has nor covers.
fn lost_between<'d, 't, R: Read + Drop>(
    heap: &Heap,
    new: &mut ArchiveSide<'d, R>,
    old: &mut ArchiveSide<'t, R>,
    calls: &mut FileCalls,
) -> Result<u64, OutFault>
    ensures lost { IfOk result (λ lost.
        Loses (stream ⟦<ArchiveSide<'d, R> as Source>⟧.left ⟦<ArchiveSide<'d, R> as Source>⟧.failures new.old new.new)
        (stream ⟦<ArchiveSide<'t, R> as Source>⟧.left ⟦<ArchiveSide<'t, R> as Source>⟧.failures old.old old.new)
        lost) }
    ensures noted { IfOk result (λ lost. calls.new.entries
        ≡ calls.old.entries ++ Compares new.old.path.now old.old.path.now lost ∷ []) }
    ensures refused { OnErr result (calls.new.entries ≡ calls.old.entries) }
    ensures unread { IfErr result (λ fault. (stop : MergeCause)
        × IsNotCompared (stream ⟦<ArchiveSide<'d, R> as Source>⟧.left ⟦<ArchiveSide<'d, R> as Source>⟧.failures new.old
        new.new)
        (stream ⟦<ArchiveSide<'t, R> as Source>⟧.left ⟦<ArchiveSide<'t, R> as Source>⟧.failures old.old old.new) stop
        × IsUnread stop new.new.reading.reason old.new.reading.reason fault) }
{
    let (draft, target) = (new.path(), old.path());
    match lost_operations(heap, new, old) {
        Ok(lost) => {
            calls.note_losses(draft, target, lost);
            Ok(lost)
        }
        Err(fault) => Err(unread(fault, new.reason(), old.reason())),
    }
}

/// The first bytes of the file at a path, which the rule allows to replace; `None` if it is empty or absent.
#[tactic(auto, using(crate::proofs::Said::other_kind))]
pub fn replaceable_beginning<F: Files>(
    system: &System<'_, F>,
    path: &str,
    replaces: ReplaceRule,
    calls: &mut FileCalls,
) -> Result<Option<LeadingBytes>, OutFault>
    ensures kind { IfOk result
        (λ beginning. (bytes : List ℕ) → beginning ≡ Some bytes → IsOfKind replaces bytes) }
    ensures begins { IfOk result (λ beginning. GivesWay replaces (first_bytes beginning)
        × (tests : List FileCall) × BeginsSo path.now (first_bytes beginning) tests
        × (calls.new.entries ≡ calls.old.entries ++ tests)) }
    ensures refused { OnErr result ((tests : List FileCall) × (are_probes tests ≡ true)
        × (calls.new.entries ≡ calls.old.entries ++ tests)) }
    ensures said { IfErr result (λ fault. IsSaid replaces fault calls.new.entries) }
    ensures before { IfErr result (λ fault. IsBeforeComparison calls.new.entries fault) }
{
    let beginning = match beginning_at(system, path, calls) {
        Ok(beginning) => beginning,
        Err(error) => return Err(refused(error)),
    };
    check_kind(replaces, &beginning)?;
    Ok(beginning)
}

/// The first bytes of the file at a path; `None` if it is empty or absent.
fn beginning_at<F: Files>(
    system: &System<'_, F>,
    path: &str,
    calls: &mut FileCalls,
) -> io::Result<Option<LeadingBytes>>
    ensures begins { IfOk result (λ beginning. (tests : List FileCall) × BeginsSo path.now (first_bytes beginning) tests
        × (calls.new.entries ≡ calls.old.entries ++ tests)) }
    ensures refused { OnErr result ((tests : List FileCall) × (are_probes tests ≡ true)
        × (calls.new.entries ≡ calls.old.entries ++ tests)) }
    ensures read { IfOk result (λ beginning. beginning ≢ None → (before : List FileCall)
        × (calls.new.entries ≡ before ++ Begins path.now (first_bytes beginning) ∷ [])) }
    ensures failed { IfErr result (λ error. Fails error calls.new.entries) }
{
    let size = match system.metadata(path, calls) {
        Ok(there) => there.size,
        Err(error) if error.kind() == ErrorKind::NotFound => return Ok(None),
        Err(error) => return Err(error),
    };
    system.open(path, false, calls)?.beginning(size, calls)
}

/// Opens the archive at a path, to be read from its start.
fn side_at<'p, F: Files>(
    alloc: Global,
    system: &System<'_, F>,
    path: &'p str,
    calls: &mut FileCalls,
) -> Result<ArchiveSide<'p, F::File>, OutFault>
    ensures path { IfOk result (λ side. side.path.now ≡ path.now) }
    ensures opened { OnOk result (calls.new.entries ≡ calls.old.entries) }
    ensures refused { OnErr result ((tests : List FileCall) × (are_probes tests ≡ true)
        × (calls.new.entries ≡ calls.old.entries ++ tests)) }
    ensures said { (replaces : ReplaceRule) → IsUncompared calls.old.entries
        → IfErr result (λ fault. IsSaid replaces fault calls.new.entries) }
    ensures before { IfErr result (λ fault. IsBeforeComparison calls.new.entries fault) }
{
    let opened = match system.open(path, false, calls) {
        Ok(opened) => opened,
        Err(error) => return Err(refused(error)),
    };
    match side_of(alloc, opened) {
        Ok(side) => Ok(side),
        Err(error) => Err(refused(error)),
    }
}

/// The fault for a call that the system refused.
fn refused(error: io::Error) -> OutFault
    ensures said { (calls : List FileCall) (replaces : ReplaceRule) → Fails error calls ⊎ IsUncompared calls
        → IsSaid replaces result calls }
    ensures memory { error_kind error ≡ ErrorKind.OutOfMemory → result ≡ OutFault.OutOfMemory }
    ensures other { error_kind error ≢ ErrorKind.OutOfMemory
        → result ≡ OutFault.NotReplaced (Obstacle.Refused (Some error)) }
    ensures before { (calls : List FileCall) → Fails error calls ⊎ (error_kind error ≡ ErrorKind.OutOfMemory)
        → IsBeforeComparison calls result }
{
    if error.kind() == ErrorKind::OutOfMemory {
        OutFault::OutOfMemory
    } else {
        OutFault::NotReplaced(Obstacle::Refused(Some(error)))
    }
}

/// The fault if one of the two archives was not read to its end, with the last error of each. This command wrote the
/// draft, so if the draft cannot be read, its device is the cause.
fn unread(fault: MergeFault, of_draft: Option<io::Error>, of_target: Option<io::Error>) -> OutFault
    ensures { IsUnread fault.cause of_draft of_target result }
{
    match fault.cause {
        MergeCause::Left(fault) | MergeCause::Right(fault)
            if fault.kind == RecordFaultKind::OutOfMemory => OutFault::OutOfMemory,
        MergeCause::Right(fault) if fault.kind == RecordFaultKind::Device => {
            OutFault::NotReplaced(Obstacle::Refused(of_target))
        }
        MergeCause::Right(_) => OutFault::NotReplaced(Obstacle::Damaged),
        MergeCause::Left(_) | MergeCause::Write => {
            OutFault::NotReplaced(Obstacle::Refused(of_draft))
        }
    }
}
