//! `merge IN OUT FILE...`.
ghost use Rattle.std.specs.Prelude.{◌≡◌, ◌+◌, Some, OnOk, IfOk, IfErr};
ghost use Rattle.std.specs.FinSet as set;
ghost use Rattle.archive_core.specs.Content.{Operations, IsContent, joined};
ghost use Rattle.archive_records.specs.Text.{written};
ghost use Rattle.command_common.specs.Archives.{ReadsOthers};
ghost use Rattle.command_archives.specs.Begun.{EndsBegun};
ghost use Rattle.command_common.specs.Ends.{EndsStreamed};
ghost use Rattle.command_common.specs.declared.faults.CommandFault.TheVariants.{OutOfMemory};
ghost use Rattle.command_common.specs.Inputs.{HoldsContent, IsRefusedArchive, ReadsInput, reader, readers};
ghost use Rattle.command_archives.specs.Joining.{joins};
ghost use Rattle.command_archives.specs.Merge.{HasJoined, merge_in_turn};
ghost use Rattle.command_archives.specs.MergeStreams.{merge_as_it_comes, merge_of_one};
ghost use Rattle.command_common.specs.Outputs.{draft_of, out_of, outs, writer};

use crate::joining::{command_fault_of, join_input};
use archive_core::{Archive, take_all};
use archive_merge::merge_streams;
use archive_records::write_archive;
use byte_device::{Bytes, Grown, Output, Sink, Source, Target};
use command_common::{CommandFault, Status, first_refusal, publish_draft, read_archive_input};
use heap_memory::Heap;

/// Joins the archive with this number on the command line.
fn join_file<A: Archive + Drop, S: Source>(
    heap: Heap,
    archive: &mut A,
    number: u64,
    file: &mut S,
) -> Result<(), CommandFault>
    ensures { ReadsInput (reader S.left S.failures file.old file.new) result
        (λ file _. HoldsContent file (λ o. A.content archive.new ≡ joined (A.content archive.old) o))
        (IsRefusedArchive number) }
{
    let other: A = read_archive_input(heap, number, file)?;
    take_all(archive, other)?;
    Ok(())
}

/// Joins the archives of the files, in order. IN is archive 0, and the first file archive 1.
fn join_files<A: Archive + Drop, S: Source>(
    heap: &Heap,
    archive: &mut A,
    files: &mut [S],
) -> Result<(), CommandFault>
    ensures { ReadsOthers (readers S.left S.failures files.old files.new) result
        (λ files _. HasJoined files (A.content archive.old) (A.content archive.new)) }
{
    'files: for (index, file) in files.iter_mut().enumerate() {
        join_file(heap.share(), archive, index as u64 + 1, file)?;
    }
    Ok(())
}

fn text_in_memory<A: Archive>(heap: &Heap, archive: &A) -> Result<Grown, CommandFault>
    ensures text { IfOk result (λ text. ⟦<Grown as Sink>⟧.held text ≡ Some (written (A.content archive.now))) }
    ensures content { OnOk result (IsContent (A.content archive.now)) }
    ensures wanting { IfErr result (λ fault. fault ≡ OutOfMemory) }
{
    let mut text = Grown::new(heap.share());
    match write_archive(archive, &mut text) {
        Ok(_) => Ok(text),
        Err(_) => Err(CommandFault::OutOfMemory),
    }
}

fn joined_text<A: Archive + Drop, S: Source>(
    heap: &Heap,
    files: &mut [S],
) -> Result<Grown, CommandFault>
    ensures { ReadsOthers (readers S.left S.failures files.old files.new) result
        (λ files text. (p : Operations) × IsContent p × (⟦<Grown as Sink>⟧.held text ≡ Some (written p))
        × HasJoined files set.empty p) }
{
    let mut joined = A::empty(heap.share());
    join_files(heap, &mut joined, files)?;
    text_in_memory(heap, &joined)
}

/// Writes the join of IN's archive with the archive of this text to OUT as IN is read, and its sizes to the report.
fn merge_text<R: Source, T: Target, P: Sink>(
    heap: Heap,
    input: &mut R,
    text: &[u8],
    out: &mut Output<T::Draft, T>,
    report: &mut P,
) -> Result<Status, CommandFault>
    ensures { (p : Operations) → IsContent p → text.now ≡ written p
        → EndsBegun (reader R.left R.failures input.old input.new) (λ input. joins input p)
        (out_of (outs T.Draft.held T.Draft.failures T.published T.failures out.old out.new))
        (writer P.held P.failures report.old report.new) result }
{
    let mut other = Bytes::new(text);
    let sizes = join_input(&heap, input, &mut other, &mut out.draft)?;
    publish_draft(String::new(heap), sizes, out, report)
}

/// Writes the join of IN's archive with that of each file to OUT, and its sizes to the report. The files are read and
/// joined first; then the join is written to OUT as IN is read.
fn merge_in_turn<A: Archive + Drop, R: Source, S: Source, T: Target, P: Sink>(
    heap: Heap,
    input: &mut R,
    files: &mut [S],
    out: &mut Output<T::Draft, T>,
    report: &mut P,
) -> Result<Status, CommandFault>
    ensures { let known = out_of (outs T.Draft.held T.Draft.failures T.published T.failures out.old out.new) in
        EndsStreamed (merge_in_turn (reader R.left R.failures input.old input.new)
        (readers S.left S.failures files.old files.new) known.draft) known
        (writer P.held P.failures report.old report.new) result }
{
    match joined_text::<A, S>(&heap, files) {
        Ok(text) => merge_text(heap, input, text.as_slice(), out, report),
        Err(fault) => Err(first_refusal(heap, input, fault)),
    }
}

/// Merges IN's archive with that of the one file into OUT as both are read, and writes the sizes to the report.
fn merge_one<R: Source, S: Source, T: Target, P: Sink>(
    heap: Heap,
    input: &mut R,
    file: &mut S,
    out: &mut Output<T::Draft, T>,
    report: &mut P,
) -> Result<Status, CommandFault>
    ensures { let known = outs T.Draft.held T.Draft.failures T.published T.failures out.old out.new in
        EndsStreamed (merge_of_one (reader R.left R.failures input.old input.new)
        (reader S.left S.failures file.old file.new) (draft_of known)) (out_of known)
        (writer P.held P.failures report.old report.new) result }
{
    match merge_streams(&heap, input, file, &mut out.draft) {
        Ok(sizes) => publish_draft(String::new(heap), sizes, out, report),
        Err(fault) => Err(command_fault_of(fault)),
    }
}

/// Writes the join of IN's archive with that of each file to OUT, and its sizes to the report. With one file the two
/// are merged as they are read, in the memory of their retirements and of one record of each. With more, the files are
/// read first, in the order of the command line, each to its end, and joined in memory; then IN is merged with the join
/// as it is read. If a file is then refused, IN is tested to its end before that is reported.
///
/// # Errors
///
/// `Input` for the first archive that is refused, where IN is archive 0 and the first file archive 1; with one file,
/// for the archive that stops their merge. `Output` and `Report` if that writer failed; `OutOfMemory`.
pub fn run_merge<A: Archive + Drop, R: Source, S: Source, T: Target, P: Sink>(
    heap: Heap,
    input: &mut R,
    files: &mut [S],
    out: &mut Output<T::Draft, T>,
    report: &mut P,
) -> Result<Status, CommandFault>
    ensures { let known = outs T.Draft.held T.Draft.failures T.published T.failures out.old out.new in
        EndsStreamed (merge_as_it_comes (reader R.left R.failures input.old input.new)
        (readers S.left S.failures files.old files.new) known) (out_of known)
        (writer P.held P.failures report.old report.new) result }
{
    if files.len() == 1 {
        merge_one(heap, input, &mut files[0], out, report)
    } else {
        merge_in_turn::<A, R, S, T, P>(heap, input, files, out, report)
    }
}
