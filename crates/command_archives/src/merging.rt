//! IN's archive, merged into OUT's draft with operations in memory, and the arrival of each of these in IN.
ghost use Rattle.std.specs.Prelude.{map};
ghost use Rattle.std.specs.Cmp.Lexicographic.{slice_cmp};
ghost use Rattle.std.specs.FinSet as set;
ghost use Rattle.std.specs.List.{AllByRecursion};
ghost use Rattle.std.specs.List.Sorted.{IsStrictlySortedBy};
ghost use Rattle.std.specs.Ordering.{nat_cmp};
ghost use Rattle.archive_core.specs.Content.{content_of};
ghost use Rattle.archive_core.specs.Record.{IsOperation, record_bytes};
ghost use Rattle.byte_device.specs.Devices.{stream};
ghost use Rattle.command_common.specs.Inputs.{reader};
ghost use Rattle.command_archives.specs.InnerArrivalJoins.{IsJoinedWithArrivals};
ghost use Rattle.command_archives.specs.Joining.{WritesAmidst, joining};

use crate::joining::command_fault_of;
use archive_core::Operation;
use archive_merge::{BorrowedSide, BorrowedText, MergeReport, merge_with_arrivals};
use archive_records::Sizes;
use byte_device::{Sink, Source};
use command_common::CommandFault;
use heap_memory::Heap;

/// Merges IN's archive with operations in memory into the draft, and returns the arrival of each in IN.
pub fn merge_operations<R: Source, W: Sink>(
    heap: &Heap,
    input: &mut R,
    operations: &[Operation],
    draft: &mut W,
) -> Result<(Sizes, MergeReport), CommandFault>
    requires ascending { IsStrictlySortedBy (slice_cmp nat_cmp) (map record_bytes operations.now) }
    requires are { AllByRecursion IsOperation operations.now }
    ensures { let operations = set.from_list (map record_bytes operations.now) in
        WritesAmidst (λ input. joining input (content_of operations))
        (λ input draft both. IsJoinedWithArrivals input operations draft both.0 both.1.arrivals.items both.1.withdraws)
        (reader R.left R.failures input.old input.new) (stream W.held W.failures draft.old draft.new) result }
{
    let mut text = BorrowedText::new(operations);
    match merge_with_arrivals::<R, BorrowedText<'_>, BorrowedSide<'_>, W>(
        heap, input, &mut text, draft,
    ) {
        Ok(told) => Ok(told),
        Err(fault) => Err(command_fault_of(fault)),
    }
}
