//! `apply IN OUT OPS`.
ghost use Rattle.std.specs.Prelude.{◌≤◌, map};
ghost use Rattle.std.specs.Cmp.Lexicographic.{slice_cmp};
ghost use Rattle.std.specs.FinSet as set;
ghost use Rattle.std.specs.List.{AllByRecursion, count_by};
ghost use Rattle.std.specs.List.Sorted.{IsStrictlySortedBy};
ghost use Rattle.std.specs.Ordering.{nat_cmp};
ghost use Rattle.archive_core.specs.Content.{Operations, IsMade, changes};
ghost use Rattle.archive_core.specs.Record.{IsOperation, record_bytes};
ghost use Rattle.command_archives.specs.Apply.{apply_as_it_comes};
ghost use Rattle.command_archives.specs.InnerArrivalJoins.{HasSortedOperations, counts_of, telling};
ghost use Rattle.command_archives.specs.Begun.{EndsBegun};
ghost use Rattle.command_common.specs.Ends.{EndsStreamed};
ghost use Rattle.command_common.specs.Inputs.{IsRefusedOps, ReadsInput, reader};
ghost use Rattle.command_common.specs.Outputs.{out_of, outs, writer};

use crate::merging::merge_operations;
use archive_core::Operation;
use archive_index::sort_with_same_effect;
use archive_merge::number_of_new;
use byte_device::{Output, Sink, Source, Target};
use command_common::{CommandFault, Status, first_refusal, publish_draft, read_operations};
use heap_memory::Heap;
use text_reports::apply_line;

/// Writes IN's archive with these operations to OUT, and to the report the numbers of new and known ones among the
/// `number` operations of OPS, and the sizes.
fn write_applied<R: Source, T: Target, P: Sink>(
    heap: Heap,
    input: &mut R,
    operations: &[Operation],
    number: u64,
    out: &mut Output<T::Draft, T>,
    report: &mut P,
) -> Result<Status, CommandFault>
    requires ascending { IsStrictlySortedBy (slice_cmp nat_cmp) (map record_bytes operations.now) }
    requires are { AllByRecursion IsOperation operations.now }
    requires few { (o : Operations) → IsMade o → count_by (changes o) (map record_bytes operations.now) ≤ number }
    ensures { EndsBegun (reader R.left R.failures input.old input.new)
        (λ input. telling input (set.from_list (map record_bytes operations.now))
        (counts_of (map record_bytes operations.now) number))
        (out_of (outs T.Draft.held T.Draft.failures T.published T.failures out.old out.new))
        (writer P.held P.failures report.old report.new) result }
{
    let (sizes, told) = merge_operations(&heap, input, operations, &mut out.draft)?;
    let new = number_of_new(&told.arrivals);
    let lines = apply_line(heap, new, number - new)?;
    publish_draft(lines, sizes, out, report)
}

/// Reads OPS. Returns those of its operations that are new when applied in order, sorted by their records, and the
/// number of all its operations.
fn read_new<S: Source>(heap: Heap, ops: &mut S) -> Result<(Vec<Operation, Heap>, u64), CommandFault>
    ensures { ReadsInput (reader S.left S.failures ops.old ops.new) result
        (λ ops both. HasSortedOperations ops both.0.items both.1) IsRefusedOps }
{
    let operations = read_operations(heap, ops)?;
    let number = operations.len() as u64;
    let sorted = sort_with_same_effect(operations)?;
    Ok((sorted, number))
}

/// Writes IN's archive with the operations of an operations file to OUT, and to the report the number of new ones, the
/// number of known ones (in IN, earlier in OPS or covered by a retirement), and the sizes. OPS is read first, to its
/// end; then IN is merged with its operations as it is read, in the memory of these, of one record and of 57 bytes for
/// each retirement. If OPS is refused, IN is tested to its end before that is reported.
///
/// # Errors
///
/// `Input` for the first input that is refused, in the order of the command line; `Output` and `Report` if that writer
/// failed; `OutOfMemory`.
pub fn run_apply<R: Source, S: Source, T: Target, P: Sink>(
    heap: Heap,
    input: &mut R,
    ops: &mut S,
    out: &mut Output<T::Draft, T>,
    report: &mut P,
) -> Result<Status, CommandFault>
    ensures { let known = out_of (outs T.Draft.held T.Draft.failures T.published T.failures out.old out.new) in
        EndsStreamed (apply_as_it_comes (reader R.left R.failures input.old input.new)
        (reader S.left S.failures ops.old ops.new) known.draft) known
        (writer P.held P.failures report.old report.new) result }
{
    match read_new(heap.share(), ops) {
        Ok((sorted, number)) => write_applied(heap, input, &sorted, number, out, report),
        Err(fault) => Err(first_refusal(heap, input, fault)),
    }
}
