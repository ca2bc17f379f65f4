//! `index ARCHIVE OUT`.
ghost use Rattle.command_common.specs.Ends.{EndsStreamed};
ghost use Rattle.command_common.specs.Inputs.{reader};
ghost use Rattle.command_common.specs.Outputs.{draft_of, out_of, outs, writer};
ghost use Rattle.index_build.specs.Index.{index};

use crate::indexing::index_input;
use crate::publishing::publish_index;
use byte_device::{Output, Sink, Source, Target};
use command_common::{CommandFault, Status};
use heap_memory::Heap;

/// Writes the index of ARCHIVE, with the tables of its slices, to OUT while ARCHIVE is read, and to the report the
/// numbers of its entries and bytes.
///
/// # Errors
///
/// `Input` if the archive is refused, as by `summary`, if it has version 1: `OldArchive`, whatever follows its magic,
/// and if the offset of a record or a table would be more than 2^64 - 1: `TooLong`; `Output` and `Report` if that
/// writer failed; `OutOfMemory`. A fault of OUT is reported before a later one of ARCHIVE.
pub fn run_index<R: Source, T: Target, P: Sink>(
    heap: Heap,
    archive: &mut R,
    out: &mut Output<T::Draft, T>,
    report: &mut P,
) -> Result<Status, CommandFault>
    ensures { let known = outs T.Draft.held T.Draft.failures T.published T.failures out.old out.new in
        EndsStreamed (index (reader R.left R.failures archive.old archive.new) (draft_of known)) (out_of known)
        (writer P.held P.failures report.old report.new) result }
{
    let sizes = index_input(&heap, archive, &mut out.draft)?;
    publish_index(heap, sizes, out, report)
}
