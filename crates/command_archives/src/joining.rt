//! IN's archive, merged into OUT's draft with one in memory.
ghost use Rattle.byte_device.specs.Devices.{stream};
ghost use Rattle.command_common.specs.Inputs.{reader};
ghost use Rattle.command_archives.specs.Joining.{IsAtHand, JoinsAmidst};
ghost use Rattle.command_archives.specs.MergeStreams.{IsMergeFaultTold};

use archive_merge::merge_streams;
use archive_records::{MergeCause, MergeFault, Sizes};
use byte_device::{Sink, Source};
use command_common::{CommandFault, InputName, refusal};
use heap_memory::Heap;

/// The fault that is reported if this stopped a merge; the left side is archive 0, and the right one archive 1.
pub fn command_fault_of(fault: MergeFault) -> CommandFault
    ensures { IsMergeFaultTold fault result }
{
    match fault.cause {
        MergeCause::Left(why) => refusal(InputName::Archive(0), why),
        MergeCause::Right(why) => refusal(InputName::Archive(1), why),
        MergeCause::Write => CommandFault::Output(fault.written),
    }
}

/// Merges IN's archive with the one in memory into the draft.
pub fn join_input<R: Source, S: Source, W: Sink>(
    heap: &Heap,
    input: &mut R,
    other: &mut S,
    draft: &mut W,
) -> Result<Sizes, CommandFault>
    ensures { JoinsAmidst (IsAtHand (stream S.left S.failures other.old other.new))
        (reader R.left R.failures input.old input.new) (stream W.held W.failures draft.old draft.new) result }
{
    match merge_streams(heap, input, other, draft) {
        Ok(sizes) => Ok(sizes),
        Err(fault) => Err(command_fault_of(fault)),
    }
}
