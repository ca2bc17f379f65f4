//! `delta ARCHIVE SUMMARY OUT`.
ghost use Rattle.byte_device.specs.Devices.{stream};
ghost use Rattle.command_archives.specs.Copying.{IsUnnamed, copying};
ghost use Rattle.command_archives.specs.Delta.{delta_as_it_comes};
ghost use Rattle.command_archives.specs.Joining.{WritesAmidst};
ghost use Rattle.command_archives.specs.Begun.{EndsBegun};
ghost use Rattle.command_common.specs.Ends.{EndsStreamed};
ghost use Rattle.command_common.specs.Inputs.{reader};
ghost use Rattle.command_common.specs.Outputs.{out_of, outs, writer};

use crate::copying::copy_unnamed;
use crate::joining::command_fault_of;
use archive_records::{Sizes, Summary};
use byte_device::{Output, Sink, Source, Target};
use command_common::{CommandFault, Status, first_refusal, publish_draft, read_summary_input};
use heap_memory::Heap;

/// Copies the records of ARCHIVE that the summary does not name into the draft.
fn copy_input<R: Source, W: Sink>(
    heap: Heap,
    archive: &mut R,
    named: &Summary,
    draft: &mut W,
) -> Result<Sizes, CommandFault>
    ensures { WritesAmidst (λ archive. copying archive named.now) (λ archive. IsUnnamed archive named.now)
        (reader R.left R.failures archive.old archive.new) (stream W.held W.failures draft.old draft.new) result }
{
    match copy_unnamed(heap, named, archive, draft) {
        Ok(sizes) => Ok(sizes),
        Err(fault) => Err(command_fault_of(fault)),
    }
}

fn write_unnamed<R: Source, T: Target, P: Sink>(
    heap: Heap,
    archive: &mut R,
    named: &Summary,
    out: &mut Output<T::Draft, T>,
    report: &mut P,
) -> Result<Status, CommandFault>
    ensures { EndsBegun (reader R.left R.failures archive.old archive.new) (λ archive. copying archive named.now)
        (out_of (outs T.Draft.held T.Draft.failures T.published T.failures out.old out.new))
        (writer P.held P.failures report.old report.new) result }
{
    let sizes = copy_input(heap.share(), archive, named, &mut out.draft)?;
    publish_draft(String::new(heap), sizes, out, report)
}

/// Writes the archive of those operations of ARCHIVE whose entries are not in SUMMARY to OUT, and its sizes to the
/// report. SUMMARY is read first, to its end; then ARCHIVE is read, and its records are written to OUT as they are
/// read, in the memory of the summary, of one record and of 57 bytes for each retirement. If SUMMARY is refused,
/// ARCHIVE is tested to its end before that is reported.
///
/// # Errors
///
/// `Input` for the first input that is refused, in the order of the command line; `Output` and `Report` if that writer
/// failed; `OutOfMemory`.
pub fn run_delta<R: Source, S: Source, T: Target, P: Sink>(
    heap: Heap,
    archive: &mut R,
    summary: &mut S,
    out: &mut Output<T::Draft, T>,
    report: &mut P,
) -> Result<Status, CommandFault>
    ensures { let known = out_of (outs T.Draft.held T.Draft.failures T.published T.failures out.old out.new) in
        EndsStreamed (delta_as_it_comes (reader R.left R.failures archive.old archive.new)
        (reader S.left S.failures summary.old summary.new) known.draft) known
        (writer P.held P.failures report.old report.new) result }
{
    match read_summary_input(heap.share(), summary) {
        Ok(named) => write_unnamed(heap, archive, &named, out, report),
        Err(fault) => Err(first_refusal(heap, archive, fault)),
    }
}
