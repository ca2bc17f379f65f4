//! `list ARCHIVE`.
ghost use Rattle.text_reports.specs.Finds.{list_lines};
ghost use Rattle.command_common.specs.Asked.{prints_rows};
ghost use Rattle.command_common.specs.Ends.{EndsReport};
ghost use Rattle.command_common.specs.Outputs.{writer};

use byte_device::Sink;
use command_common::{CommandFault, Evidence, Status, found_status, write_report};
use heap_memory::Heap;
use text_reports::list_lines;

/// Writes to the report a row for each retirement and each live slice of the archive, by UUID and then as `find` orders
/// them. If several slices answer for a UUID and an architecture, their rows are followed by their number.
///
/// The status is `Done` if there is a row, and else `Partial`.
///
/// # Errors
///
/// `Input` for the first input that is refused; `Report` if the report failed; `OutOfMemory`.
pub fn run_list<E: Evidence, P: Sink>(
    heap: Heap,
    evidence: &mut E,
    report: &mut P,
) -> Result<Status, CommandFault>
    requires { E.can_list evidence.old }
    ensures keeps { E.keeps evidence.old evidence.new }
    ensures ends { EndsReport (prints_rows list_lines (E.listed evidence.old evidence.new))
        (writer P.held P.failures report.old report.new) result }
{
    let rows = evidence.list(heap.share())?;
    let text = list_lines(heap, &rows)?;
    write_report(found_status(&rows), &text, report)
}
