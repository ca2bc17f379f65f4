//! The plans that write no OUT, over their inputs: archives are read to their ends, or by their indexes.

ghost use Rattle.std.specs.Prelude.{◌≡◌, ◌<◌, IfErr, OnOk, length, true};
ghost use Rattle.command_common.specs.Ends.{EndsReport};
ghost use Rattle.command_common.specs.Inputs.{reader, readers};
ghost use Rattle.command_common.specs.Outputs.{writer};
ghost use Rattle.cli_arguments.specs.Inputs.{inputs_view};
ghost use Rattle.cli_arguments.specs.Plan.{HasInputs};
ghost use Rattle.command_queries.specs.Name.{name as name_of};
ghost use Rattle.cli_run.specs.Disks.{AreAsMany};
ghost use Rattle.cli_run.specs.Plans.{Answers, EndsAsked, Notes, NotesNamed, listed_of, named_of, only_reports};
ghost use Rattle.cli_run.specs.Plans.{readers_by};
ghost use Rattle.cli_run.specs.Queries.{AddsUnderscored, NotesUnderscored};
ghost use Rattle.cli_run.specs.Queries.{IsAlone, find_of, frames_of, symbolicate_of};

use archive_core::{Archive, SliceKey};
use archive_exchange::run_rehearse;
use byte_device::{Placed, Sink, Source};
use byte_lazy_inputs::Opens;
use cli_arguments::{Inputs, Plan};
use command_common::{
    CommandFault, InputName, Note, Records, Status, Why, first_and_rest, write_report,
};
use command_frames::{run_frames, run_symbolicate};
use command_given_indexes::Indexes;
use command_queries::{answer_name, run_find, run_list};
use heap_memory::{Heap, NoMemory};
use uuid::Uuid;

/// Refuses the first index without an archive, or the first archive without an index.
pub fn check_pairs(archives: usize, indexes: usize) -> Result<(), CommandFault>
    ensures same { OnOk result (indexes ≡ archives) }
    ensures other { IfErr result (IsAlone archives indexes) }
{
    if indexes > archives {
        return Err(CommandFault::Input(InputName::Index(archives as u64), Why::NoArchive));
    }
    if indexes < archives {
        return Err(CommandFault::Input(InputName::Archive(indexes as u64), Why::NoIndex));
    }
    Ok(())
}

/// `find` over archives, which are read by these indexes, if there are any.
fn find<A: Archive + Drop, S: Source + Placed, P: Sink>(
    heap: Heap,
    archives: &mut [S],
    indexes: &mut [S],
    uuid: &Uuid,
    report: &mut P,
) -> Result<Status, CommandFault>
    requires { 0 < length archives.old }
    ensures { EndsReport (find_of
        (readers ⟦<S as Source>⟧.left ⟦<S as Source>⟧.failures archives.old archives.new)
        (readers ⟦<S as Placed>⟧.whole ⟦<S as Placed>⟧.failures archives.old archives.new)
        (readers ⟦<S as Placed>⟧.whole ⟦<S as Placed>⟧.failures indexes.old indexes.new) uuid.now)
        (writer P.held P.failures report.old report.new) result }
{
    if indexes.is_empty() {
        return run_find::<A, _, _>(heap, &mut Records { archives }, uuid, report);
    }
    check_pairs(archives.len(), indexes.len())?;
    run_find::<A, _, _>(heap, &mut Indexes { indexes, archives }, uuid, report)
}

/// `list` over the first archive, which is read by the first index, if there is one.
fn list<S: Source + Placed, P: Sink>(
    heap: Heap,
    archives: &mut [S],
    indexes: &mut [S],
    report: &mut P,
) -> Result<Status, CommandFault>
    requires { 0 < length archives.old }
    ensures { EndsAsked (listed_of
        (readers ⟦<S as Source>⟧.left ⟦<S as Source>⟧.failures archives.old archives.new)
        (readers ⟦<S as Placed>⟧.whole ⟦<S as Placed>⟧.failures archives.old archives.new)
        (readers ⟦<S as Placed>⟧.whole ⟦<S as Placed>⟧.failures indexes.old indexes.new))
        (writer P.held P.failures report.old report.new) result }
{
    if indexes.is_empty() {
        return run_list(heap, &mut Records { archives }, report);
    }
    run_list(heap, &mut Indexes { indexes, archives }, report)
}

/// Adds a note that a symbol has this name with a `_` before it, if `is_underscored`.
fn note_underscored(
    heap: Heap,
    notes: &mut Vec<Note, Heap>,
    is_underscored: bool,
    name: &[u8],
) -> Result<(), NoMemory>
    ensures { OnOk result (AddsUnderscored is_underscored name.now notes.old.items notes.new.items) }
{
    if is_underscored {
        let name = Vec::from_slice(heap, name)?;
        notes.push(Note::Underscored(name))?;
    }
    Ok(())
}

/// `name` over archives: a row for each symbol with exactly this name. If there is none, and a symbol has the name with
/// a `_` before it, a note is added.
fn name<S: Source, P: Sink>(
    heap: Heap,
    archive: &mut S,
    others: &mut [S],
    sought: &[u8],
    notes: &mut Vec<Note, Heap>,
    report: &mut P,
) -> Result<Status, CommandFault>
    ensures ends { EndsReport (name_of
        (reader S.left S.failures archive.old archive.new)
        (readers S.left S.failures others.old others.new) sought.now)
        (writer P.held P.failures report.old report.new) result }
    ensures noted { OnOk result (NotesUnderscored
        (reader S.left S.failures archive.old archive.new)
        (readers S.left S.failures others.old others.new) sought.now notes.old.items notes.new.items) }
{
    let answer = answer_name(heap.share(), archive, others, sought)?;
    note_underscored(heap, notes, answer.is_underscored, sought)?;
    write_report(answer.status, &answer.text, report)
}

/// `name` over the join of archives.
fn name_in<S: Source, P: Sink>(
    heap: Heap,
    archives: &mut [S],
    sought: &[u8],
    notes: &mut Vec<Note, Heap>,
    report: &mut P,
) -> Result<Status, CommandFault>
    requires { 0 < length archives.old }
    ensures ends { EndsAsked (named_of (readers S.left S.failures archives.old archives.new) sought.now)
        (writer P.held P.failures report.old report.new) result }
    ensures noted { OnOk result (NotesNamed (readers S.left S.failures archives.old archives.new) sought.now
        notes.old.items notes.new.items) }
{
    let (archive, others) = first_and_rest(archives);
    name(heap, archive, others, sought, notes, report)
}

/// `symbolicate` over archives, which are read by these indexes, if there are any.
fn symbolicate<A: Archive + Drop, S: Source + Placed, P: Sink>(
    heap: Heap,
    archives: &mut [S],
    indexes: &mut [S],
    key: &SliceKey,
    load: Option<u64>,
    lines: bool,
    slices: bool,
    addresses: &[u64],
    report: &mut P,
) -> Result<Status, CommandFault>
    requires { 0 < length archives.old }
    ensures { EndsReport (symbolicate_of
        (readers ⟦<S as Source>⟧.left ⟦<S as Source>⟧.failures archives.old archives.new)
        (readers ⟦<S as Placed>⟧.whole ⟦<S as Placed>⟧.failures archives.old archives.new)
        (readers ⟦<S as Placed>⟧.whole ⟦<S as Placed>⟧.failures indexes.old indexes.new) key.now load lines slices
        addresses.now)
        (writer P.held P.failures report.old report.new) result }
{
    if indexes.is_empty() {
        let records = &mut Records { archives };
        return run_symbolicate::<A, _, _>(
            heap, records, key, load, lines, slices, addresses, report,
        );
    }
    check_pairs(archives.len(), indexes.len())?;
    let evidence = &mut Indexes { indexes, archives };
    run_symbolicate::<A, _, _>(heap, evidence, key, load, lines, slices, addresses, report)
}

/// `frames` over archives, which are read by these indexes, if there are any.
fn frames<A: Archive + Drop, S: Source + Placed, P: Sink>(
    heap: Heap,
    lines: bool,
    slices: bool,
    crash: &mut S,
    archives: &mut [S],
    indexes: &mut [S],
    report: &mut P,
) -> Result<Status, CommandFault>
    requires { 0 < length archives.old }
    ensures { EndsReport (frames_of lines slices
        (reader ⟦<S as Source>⟧.left ⟦<S as Source>⟧.failures crash.old crash.new)
        (readers ⟦<S as Source>⟧.left ⟦<S as Source>⟧.failures archives.old archives.new)
        (readers ⟦<S as Placed>⟧.whole ⟦<S as Placed>⟧.failures archives.old archives.new)
        (readers ⟦<S as Placed>⟧.whole ⟦<S as Placed>⟧.failures indexes.old indexes.new))
        (writer P.held P.failures report.old report.new) result }
{
    if indexes.is_empty() {
        let records = &mut Records { archives };
        return run_frames::<A, _, _, _>(heap, lines, slices, crash, records, report);
    }
    check_pairs(archives.len(), indexes.len())?;
    let evidence = &mut Indexes { indexes, archives };
    run_frames::<A, _, _, _>(heap, lines, slices, crash, evidence, report)
}

/// Carries out a plan that writes no OUT over its inputs. Archives are of type `L` for addresses, and of type `A`
/// otherwise. Notes of the command are added to `notes`.
pub fn answer<A: Archive + Drop, L: Archive + Drop, S: Source + Placed + Opens, P: Sink>(
    heap: Heap,
    plan: &Plan,
    inputs: &mut Inputs<S>,
    notes: &mut Vec<Note, Heap>,
    report: &mut P,
) -> Result<Status, CommandFault>
    requires reports { only_reports plan.now ≡ true }
    requires inputs { HasInputs plan.now (inputs_view inputs.old) }
    ensures as_many { AreAsMany (inputs_view inputs.old) (inputs_view inputs.new) }
    ensures ends { Answers plan.now
        (readers_by ⟦<S as Source>⟧.left ⟦<S as Source>⟧.failures (inputs_view inputs.old) (inputs_view inputs.new))
        (readers_by ⟦<S as Placed>⟧.whole ⟦<S as Placed>⟧.failures (inputs_view inputs.old) (inputs_view inputs.new))
        (writer P.held P.failures report.old report.new) result }
    ensures noted { OnOk result (Notes S.opening_of plan.now
        (readers_by ⟦<S as Source>⟧.left ⟦<S as Source>⟧.failures (inputs_view inputs.old) (inputs_view inputs.new))
        notes.old.items notes.new.items) }
{
    let Inputs {
        archives,
        indexes,
        scripts,
        frames: crashes,
        ..
    } = inputs;
    match plan {
        Plan::Find { uuid } => find::<A, _, _>(heap, archives, indexes, uuid, report),
        Plan::List => list(heap, archives, indexes, report),
        Plan::Name { name } => name_in(heap, archives, name.as_bytes(), notes, report),
        Plan::Symbolicate {
            key,
            load,
            lines,
            slices,
            addresses,
        } => symbolicate::<L, _, _>(
            heap, archives, indexes, key, *load, *lines, *slices, addresses, report,
        ),
        Plan::Frames { lines, slices } => match crashes.as_mut_slice() {
            [crash, ..] => frames::<L, _, _>(
                heap, *lines, *slices, crash, archives, indexes, report,
            ),
            [] => unreachable!(),
        },
        Plan::Rehearse => match scripts.as_mut_slice() {
            [script, ..] => run_rehearse::<A, _, _>(heap, script, report),
            [] => unreachable!(),
        },
        _ => unreachable!(),
    }
}
