//! `find ARCHIVE UUID`, over one archive or several.
ghost use Rattle.text_reports.specs.Finds.{find_lines};
ghost use Rattle.command_common.specs.Asked.{prints_rows};
ghost use Rattle.command_common.specs.Ends.{EndsReport};
ghost use Rattle.command_common.specs.Outputs.{writer};

use archive_core::Archive;
use byte_device::Sink;
use command_common::{CommandFault, Evidence, Status, found_status, write_report};
use heap_memory::Heap;
use text_reports::find_lines;
use uuid::Uuid;

/// Writes to the report a row for each retirement and each live slice of the UUID in the join of the archives. If
/// several slices answer for an architecture, its rows are followed by their number.
///
/// # Errors
///
/// `Input` for the first input that is refused; `Report` if the report failed; `OutOfMemory`.
pub fn run_find<A: Archive + Drop, E: Evidence, P: Sink>(
    heap: Heap,
    evidence: &mut E,
    uuid: &Uuid,
    report: &mut P,
) -> Result<Status, CommandFault>
    requires { E.can_find evidence.old }
    ensures keeps { E.keeps evidence.old evidence.new }
    ensures ends { EndsReport (prints_rows find_lines (E.found evidence.old evidence.new uuid.now))
        (writer P.held P.failures report.old report.new) result }
{
    let rows = evidence.find::<A>(heap.share(), uuid)?;
    let text = find_lines(heap, &rows)?;
    write_report(found_status(&rows), &text, report)
}
