//! A line, carried out over files of the system.

ghost use Rattle.std.specs.Prelude.{◌≡◌, ◌≢◌, ◌++◌, [], Err, IfOk, MatchResult, None, Ok, OnOk};
ghost use Rattle.std.specs.Prelude.{option_map, string_bytes};
ghost use Rattle.command_common.specs.Outputs.{writer};
ghost use Rattle.cli_files.specs.LazyInputs.{told as told_of, told_by};
ghost use Rattle.cli_files.specs.Fresh.{AreFresh};
ghost use Rattle.cli_files.specs.OutFiles.{Untouched, stage_of};
ghost use Rattle.cli_files.specs.Publishing.{IsPath};
ghost use Rattle.cli_files.specs.InputStates.{AreFirstAsked};
ghost use Rattle.cli_arguments.specs.Inputs.{inputs_view};
ghost use Rattle.cli_arguments.specs.Lines.{inputs_of, out_of};
ghost use Rattle.cli_arguments.specs.LineView.{line_view};
ghost use Rattle.cli_run.specs.Files.{IsDone, calls_of, command_fault_of, out_failure};
ghost use Rattle.cli_arguments.specs.Plan.{HasInputs, IsPlanOf};
ghost use Rattle.cli_arguments.specs.declared.plan.Plan.{Plan};
ghost use Rattle.cli_standard_error.specs.Names.{AreOfLine};

use crate::execute_on;
use crate::plans::replace_rule;
use archive_index::{IndexedArchive, PlainArchive};
use byte_device::{CannotCreate, Placed, Sink, Source, Target};
use cli_arguments::{Inputs, Line, Plan};
use cli_files::{
    Disk, OpenedFile, OutFault, OutFile, OutTarget, PlacedFile, ReplaceRule, SystemDisk,
    SystemFiles, SystemInput,
};
use cli_standard_error::Seen;
use command_common::{CommandFault, Failure, Note, Status};
use heap_memory::{Heap, NoMemory};
use std::io::BufReader;
use std::rt::Files;

/// Sets the path of OUT, if the line has one, and which files it replaces.
fn begin_out<F: Files>(
    files: &mut SystemFiles<'_, F>,
    line: &Line,
    replaces: ReplaceRule,
) -> Result<(), NoMemory>
    requires { AreFresh files.old }
    ensures asked { files.new.asked.entries ≡ files.old.asked.entries }
    ensures path { OnOk result (IsPath (out_of (line_view line.now)) (inputs_of (line_view line.now))
        files.new.compared.entries (option_map string_bytes files.new.out.draft.path)) }
    ensures rule { OnOk result (out_of (line_view line.now) ≢ None → files.new.out.draft.replaces ≡ replaces) }
    ensures untouched { stage_of files.new.out.draft.state ≡ Untouched }
    ensures unfailed { files.new.out.draft.failures ≡ 0 }
    ensures calls { files.new.out.draft.calls.entries ≡ [] }
    ensures published { files.new.out.target.published ≡ None }
{
    let Some(path) = line.out_path() else {
        return Ok(());
    };
    let inputs = line.inputs(files.alloc())?;
    files.begin(path, &inputs, replaces)
}

/// The inputs of a line, each opened at its first read.
fn inputs_for<'l, 'f, F: Files>(
    files: &mut SystemFiles<'f, F>,
    line: &'l Line,
) -> Result<Inputs<SystemInput<'l, 'f, F>>, NoMemory>
    ensures inputs { IfOk result (λ inputs. AreOfLine told_of (line_view line.now) (inputs_view inputs)) }
    ensures enough { IfOk result (λ inputs. (plan : Plan) → IsPlanOf plan (line_view line.now)
        → HasInputs plan (inputs_view inputs)) }
    ensures asked { OnOk result
        (files.new.asked.entries ≡ files.old.asked.entries ++ inputs_of (line_view line.now)) }
    ensures first { AreFirstAsked files.old.asked.entries files.new.asked.entries (inputs_of (line_view line.now)) }
    ensures out { files.new.out ≡ files.old.out }
    ensures compared { files.new.compared ≡ files.old.compared }
{
    let paths = line.inputs(files.alloc())?;
    let inputs = files.inputs(&paths)?;
    line.by_kind(files.alloc(), inputs)
}

/// Why OUT failed after it accepted this number of bytes: it was not created, or not published, or its device failed.
fn out_failure(fault: Option<OutFault>, written: u128) -> Failure
    ensures { result ≡ out_failure fault written }
{
    match fault {
        None => Failure::Command(CommandFault::Output(written)),
        Some(OutFault::NotCreated(_)) => Failure::CannotCreate(CannotCreate),
        Some(OutFault::NotReplaced(_)) => Failure::CannotReplace,
        Some(OutFault::OutOfMemory) => Failure::Command(CommandFault::OutOfMemory),
    }
}

/// The reported result of a command with this result and this fault of OUT.
fn with_out_failure(
    ended: Result<Status, CommandFault>,
    fault: Option<OutFault>,
) -> Result<Status, Failure>
    ensures { result ≡ command_fault_of fault ended }
{
    match ended {
        Ok(status) => Ok(status),
        Err(CommandFault::Output(written)) => Err(out_failure(fault, written)),
        Err(refused) => Err(Failure::Command(refused)),
    }
}

/// The same, with its notes if it succeeded.
fn told_with(
    ended: Result<Status, CommandFault>,
    notes: Vec<Note, Heap>,
    fault: Option<OutFault>,
) -> Result<(Status, Vec<Note, Heap>), Failure>
    ensures { MatchResult result
        (λ both. (Ok both.0 ≡ command_fault_of fault ended) × (both.1.items ≡ notes.items))
        (λ failure. Err failure ≡ command_fault_of fault ended) }
{
    match with_out_failure(ended, fault) {
        Ok(status) => Ok((status, notes)),
        Err(failure) => Err(failure),
    }
}

/// Carries out the plan of a line over files of the system, and writes its report to `report`. Each input is opened at
/// its first read, and closed at its end. OUT's draft is created with its first bytes, published when it is complete,
/// and otherwise removed. A command line without OUT creates no draft. `seen` receives the known facts about the file
/// at which the command failed. The notes of a command that succeeded are returned.
pub fn execute_line<'f, F: Files, P: Sink>(
    files: &mut SystemFiles<'f, F>,
    line: &Line,
    plan: &Plan,
    report: &mut P,
    seen: &mut Seen,
) -> Result<(Status, Vec<Note, Heap>), Failure>
    requires files { AreFresh files.old }
    requires plan { IsPlanOf plan.now (line_view line.now) }
    ensures { let calls = calls_of
        (told_by ⟦<SystemDisk<'f, F> as Disk>⟧ ⟦<OpenedFile<BufReader<F::File>> as Source>⟧
        ⟦<PlacedFile<F::File> as Placed>⟧)
        ⟦<OutFile<'f, F> as Sink>⟧.held
        ⟦<OutFile<'f, F> as Sink>⟧.failures ⟦<OutTarget<'f, F> as Target>⟧.published
        ⟦<OutTarget<'f, F> as Target>⟧.failures files.old files.new in
        let told = writer P.held P.failures report.old report.new in
        MatchResult result
        (λ both. IsDone calls (line_view line.now) told (Ok both.0) both.1.items)
        (λ failure. IsDone calls (line_view line.now) told (Err failure) []) }
{
    let heap = Heap::new(files.alloc())?;
    let mut notes = Vec::new(heap.share());
    begin_out(files, line, replace_rule(plan))?;
    let mut inputs = inputs_for(files, line)?;
    let ended = execute_on::<PlainArchive, IndexedArchive, _, _, _>(
        heap,
        &mut inputs,
        plan,
        &mut notes,
        &mut files.out,
        report,
    );
    files.out.draft.discard();
    *seen = Seen::by(&ended, &inputs, &files.out.draft);
    told_with(ended, notes, files.out.draft.fault())
}
