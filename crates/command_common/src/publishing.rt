//! The end of each command: OUT is published, and then the report is written.
ghost use Rattle.std.specs.Prelude.{◌≡◌, ◌++◌, [], ℕ, List, IfErr, OnErr, OnOk, Some, length, string_bytes};
ghost use Rattle.archive_records.specs.Text.{summary_text, written};
ghost use Rattle.byte_device.specs.Devices.{FailedIn};
ghost use Rattle.text_reports.specs.Report.{archive_line};
ghost use Rattle.command_common.specs.declared.faults.CommandFault.TheVariants.{Output as FailedOutput};
ghost use Rattle.command_common.specs.Outputs.{Publishes, Reports, Takes, out_of, outs, report_of, summary_report_of};
ghost use Rattle.command_common.specs.Outputs.{writer};

use crate::faults::{CommandFault, Status};
use archive_core::Archive;
use archive_records::{Sizes, Summary, write_archive, write_summary};
use byte_device::{Failed, Output, Sink, Target, push_all};
use heap_memory::Heap;
use text_reports::{summary_line, with_sizes};

/// Publishes an output whose draft has accepted this number of bytes.
pub fn publish_output<T: Target>(
    out: &mut Output<T::Draft, T>,
    written: u128,
) -> Result<(), CommandFault>
    ensures published { OnOk result (T.published out.new.target ≡ T.Draft.held out.old.draft) }
    ensures emptied { OnOk result (T.Draft.held out.new.draft ≡ Some []) }
    ensures kept { OnErr result (T.published out.new.target ≡ T.published out.old.target) }
    ensures held { OnErr result (T.Draft.held out.new.draft ≡ T.Draft.held out.old.draft) }
    ensures draft { T.Draft.failures out.new.draft ≡ T.Draft.failures out.old.draft }
    ensures unfailed { OnOk result (T.failures out.new.target ≡ T.failures out.old.target) }
    ensures failed { IfErr result (λ fault. (fault ≡ FailedOutput written)
        × FailedIn (T.failures out.old.target) (T.failures out.new.target)) }
{
    match out.target.publish(&mut out.draft) {
        Ok(()) => Ok(()),
        Err(Failed) => Err(CommandFault::Output(written)),
    }
}

/// Publishes OUT, whose draft has accepted one whole text of these sizes, and then writes the lines and the sizes to
/// the report. The report is made in memory first, so nothing is published if memory runs out. `start` in the clause is
/// the draft before that text.
pub fn publish_draft<T: Target, P: Sink>(
    lines: String<Heap>,
    sizes: Sizes,
    out: &mut Output<T::Draft, T>,
    report: &mut P,
) -> Result<Status, CommandFault>
    ensures { (start : T.Draft) (text : List ℕ)
        → Takes (writer T.Draft.held T.Draft.failures start out.old.draft) text
        → sizes.bytes ≡ length text
        → Publishes (out_of (outs T.Draft.held T.Draft.failures T.published T.failures
        (record { draft = start; target = out.old.target }) out.new))
        (writer P.held P.failures report.old report.new) text (string_bytes lines ++ archive_line sizes) result }
{
    let text = with_sizes(lines, sizes)?;
    publish_output(out, sizes.bytes)?;
    write_report(Status::Done, &text, report)
}

/// Writes the archive to OUT, publishes it, and then writes the lines and the sizes to the report, which is made in
/// memory before OUT is published.
pub fn publish<A: Archive, T: Target, P: Sink>(
    archive: &A,
    lines: String<Heap>,
    out: &mut Output<T::Draft, T>,
    report: &mut P,
) -> Result<Status, CommandFault>
    ensures { Publishes (out_of (outs T.Draft.held T.Draft.failures T.published T.failures out.old out.new))
        (writer P.held P.failures report.old report.new)
        (written (A.content archive.now)) (report_of (A.content archive.now) (string_bytes lines)) result }
{
    match write_archive(archive, &mut out.draft) {
        Ok(sizes) => publish_draft(lines, sizes, out, report),
        Err(fault) => Err(CommandFault::Output(fault.written)),
    }
}

/// Writes the summary to OUT, publishes it, and then writes its sizes to the report.
pub fn publish_summary<T: Target, P: Sink>(
    heap: Heap,
    summary: &Summary,
    out: &mut Output<T::Draft, T>,
    report: &mut P,
) -> Result<Status, CommandFault>
    ensures { Publishes (out_of (outs T.Draft.held T.Draft.failures T.published T.failures out.old out.new))
        (writer P.held P.failures report.old report.new)
        (summary_text summary.now) (summary_report_of summary.now) result }
{
    let sizes = match write_summary(summary, &mut out.draft) {
        Ok(sizes) => sizes,
        Err(fault) => return Err(CommandFault::Output(fault.written)),
    };
    let text = summary_line(heap, sizes)?;
    publish_output(out, sizes.bytes)?;
    write_report(Status::Done, &text, report)
}

/// Writes a text to the report, which is the end of each command that only reports.
pub fn write_report<P: Sink>(
    status: Status,
    text: &str,
    report: &mut P,
) -> Result<Status, CommandFault>
    ensures { Reports (writer P.held P.failures report.old report.new) status text.now result }
{
    write_report_bytes(status, text.as_bytes(), report)
}

/// Writes these bytes to the report, as [`write_report`] does.
pub fn write_report_bytes<P: Sink>(
    status: Status,
    bytes: &[u8],
    report: &mut P,
) -> Result<Status, CommandFault>
    ensures { Reports (writer P.held P.failures report.old report.new) status bytes.now result }
{
    match push_all(report, bytes) {
        Ok(()) => Ok(status),
        Err(fault) => Err(CommandFault::Report(fault.written)),
    }
}
