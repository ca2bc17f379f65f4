//! The end of the command: publishes OUT, and then writes the report.
ghost use Rattle.std.specs.Prelude.{◌≡◌, ℕ, List, IfOk, length, string_bytes};
ghost use Rattle.command_common.specs.Outputs.{Publishes, Takes, out_of, outs, writer};
ghost use Rattle.index_build.specs.Index.{index_line};

use archive_records::Sizes;
use byte_device::{Output, Sink, Target};
use command_common::{CommandFault, Status, publish_output, write_report};
use heap_memory::{Heap, NoMemory};

/// The line of `index`: the numbers of entries and bytes that were written.
fn index_line(heap: Heap, sizes: Sizes) -> Result<String<Heap>, NoMemory>
    ensures { IfOk result (λ text. string_bytes text ≡ index_line sizes) }
{
    let mut text = String::new(heap);
    let entries = sizes.records;
    let bytes = sizes.bytes;
    writeln!(text, "index: {entries} entries, {bytes} bytes")?;
    Ok(text)
}

/// Publishes OUT, whose draft has accepted one whole index of these sizes, and then writes the sizes to the report. The
/// report is made in memory first, so nothing is published if memory runs out. `start` in the clause is the draft
/// before that index.
pub fn publish_index<T: Target, P: Sink>(
    heap: Heap,
    sizes: Sizes,
    out: &mut Output<T::Draft, T>,
    report: &mut P,
) -> Result<Status, CommandFault>
    ensures { (start : T.Draft) (text : List ℕ)
        → Takes (writer T.Draft.held T.Draft.failures start out.old.draft) text
        → sizes.bytes ≡ length text
        → Publishes (out_of (outs T.Draft.held T.Draft.failures T.published T.failures
        (record { draft = start; target = out.old.target }) out.new))
        (writer P.held P.failures report.old report.new) text (index_line sizes) result }
{
    let text = index_line(heap, sizes)?;
    publish_output(out, sizes.bytes)?;
    write_report(Status::Done, &text, report)
}
