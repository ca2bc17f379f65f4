//! `new OUT`.
ghost use Rattle.std.specs.Prelude.{[]};
ghost use Rattle.std.specs.FinSet as set;
ghost use Rattle.archive_records.specs.Text.{written};
ghost use Rattle.command_common.specs.Outputs.{Publishes, out_of, outs, report_of, writer};

use archive_core::Archive;
use byte_device::{Output, Sink, Target};
use command_common::{CommandFault, Status, publish};
use heap_memory::Heap;

/// Writes the empty archive to OUT, and its sizes to the report.
///
/// # Errors
///
/// `Output`, `Report` and `OutOfMemory`.
pub fn run_new<A: Archive + Drop, T: Target, P: Sink>(
    heap: Heap,
    out: &mut Output<T::Draft, T>,
    report: &mut P,
) -> Result<Status, CommandFault>
    ensures { Publishes (out_of (outs T.Draft.held T.Draft.failures T.published T.failures out.old out.new))
        (writer P.held P.failures report.old report.new)
        (written set.empty) (report_of set.empty []) result }
{
    let archive = A::empty(heap.share());
    publish(&archive, String::new(heap), out, report)
}
