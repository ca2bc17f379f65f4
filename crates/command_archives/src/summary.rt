//! `summary ARCHIVE OUT`.
ghost use Rattle.command_common.specs.Asked.{writes_summary};
ghost use Rattle.command_common.specs.Ends.{Ends};
ghost use Rattle.command_common.specs.Outputs.{out_of, outs, writer};

use byte_device::{Output, Sink, Target};
use command_common::{CommandFault, Evidence, Status, publish_summary};
use heap_memory::Heap;

/// Writes the summary of ARCHIVE's content to OUT, and to the report its numbers of entries and bytes.
///
/// # Errors
///
/// `Input` for the first input that is refused; `Output` and `Report` if that writer failed; `OutOfMemory`.
pub fn run_summary<E: Evidence, T: Target, P: Sink>(
    heap: Heap,
    evidence: &mut E,
    out: &mut Output<T::Draft, T>,
    report: &mut P,
) -> Result<Status, CommandFault>
    requires { E.can_list evidence.old }
    ensures keeps { E.keeps evidence.old evidence.new }
    ensures ends { Ends (writes_summary (E.summarized evidence.old evidence.new))
        (out_of (outs T.Draft.held T.Draft.failures T.published T.failures out.old out.new))
        (writer P.held P.failures report.old report.new) result }
{
    let summary = evidence.summarize(heap.share())?;
    publish_summary(heap, &summary, out, report)
}
