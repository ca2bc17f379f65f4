//! The lines of the report.

ghost use Rattle.std.specs.Prelude.{◌≡◌, IfOk, string_bytes};
ghost use Rattle.command_common.specs.Outputs.{writer};
ghost use Rattle.command_extract.specs.InnerSteps.{ReportsRows};
ghost use Rattle.command_extract.specs.Wanted.{line_of};

use archive_core::{Digest, FindRow, SliceKey};
use byte_device::Sink;
use command_common::{CommandFault, Status, write_report};
use heap_memory::{Heap, NoMemory};
use text_reports::{Text, find_lines};
use text_values::Spelled;

/// The line of a slice under a key that was written: its digest, and its length in bytes.
pub(crate) fn line_of(
    heap: Heap,
    key: SliceKey,
    digest: Digest,
    size: u64,
) -> Result<String<Heap>, NoMemory>
    ensures { IfOk result (λ text. string_bytes text ≡ line_of key digest size) }
{
    let mut text = String::new(heap);
    let key = Text(key);
    let digest = Spelled(digest);
    writeln!(text, "slice {key} {digest}, {size} bytes")?;
    Ok(text)
}

/// Reports the slices that answer, none of which is wanted.
pub(crate) fn report_rows<P: Sink>(
    heap: Heap,
    rows: &[FindRow],
    report: &mut P,
) -> Result<Status, CommandFault>
    ensures { ReportsRows rows.now (writer P.held P.failures report.old report.new) result }
{
    let text = find_lines(heap, rows)?;
    write_report(Status::Partial, &text, report)
}
