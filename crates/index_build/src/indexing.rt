//! ARCHIVE's index, made in OUT's draft while ARCHIVE is read.
ghost use Rattle.byte_device.specs.Devices.{stream};
ghost use Rattle.command_common.specs.Inputs.{reader};
ghost use Rattle.index_build.specs.Index.{TellsRefusal, TellsStop};
ghost use Rattle.index_build.specs.InnerIndexing.{IndexesAmidst};

use crate::fault::MakingFault;
use crate::making::index_into;
use archive_records::Sizes;
use byte_device::{Sink, Source};
use command_common::{CommandFault, InputName, Why, refusal};
use heap_memory::Heap;
use index_format::IndexingFault;
use table_source_frames::laws::one_slice_table;

/// The command's fault for an archive that is refused with this fault.
fn refusal_of(fault: IndexingFault) -> CommandFault
    ensures { TellsRefusal fault result }
{
    let at = InputName::Archive(0);
    match fault {
        IndexingFault::Archive(fault) => refusal(at, fault),
        IndexingFault::OldArchive => CommandFault::Input(at, Why::OldArchive),
        IndexingFault::TooLong => CommandFault::Input(at, Why::TooLong),
    }
}

/// The command's fault if making an index stopped with this fault.
fn stop_of(fault: MakingFault) -> CommandFault
    ensures { TellsStop fault result }
{
    match fault {
        MakingFault::Archive(fault) => refusal_of(fault),
        MakingFault::Write(fault) => CommandFault::Output(fault.written),
    }
}

/// Makes the index of the archive in the draft.
pub fn index_input<R: Source, W: Sink>(
    heap: &Heap,
    archive: &mut R,
    draft: &mut W,
) -> Result<Sizes, CommandFault>
    ensures { IndexesAmidst (reader R.left R.failures archive.old archive.new)
        (stream W.held W.failures draft.old draft.new) result }
{
    one_slice_table();
    match index_into(heap.share(), archive, draft) {
        Ok(sizes) => Ok(sizes),
        Err(fault) => Err(stop_of(fault)),
    }
}
