//! The operations that are lost if one archive replaces another.

ghost use Rattle.std.specs.Prelude.{IfErr, IfOk};
ghost use Rattle.byte_device.specs.Devices.{stream};
ghost use Rattle.archive_merge.specs.Losses.{IsNotCompared, Loses};

use crate::arrival_merge::merge_with_arrivals;
use crate::arrivals::number_of_new;
use crate::side::MergeInput;
use archive_records::MergeFault;
use byte_device::{Nowhere, Source};
use heap_memory::Heap;

/// The number of operations of the old archive that the new one neither has nor covers by a retirement: those that are
/// lost if it replaces the old one. Each may have either version. The two are read side by side, like in
/// [`merge_streams`](crate::merge_streams), in the memory of one record of each, of 57 bytes for each retirement of
/// either and of one byte for each record of the old one.
///
/// # Errors
/// `Left` with the fault that `read_archive` of `archive_from_records` returns for the new archive, and `Right` with
///that of the old one: if both are refused, it is the one that stops [`merge_streams`](crate::merge_streams). `Write`
///is never returned.
pub fn lost_operations<R: Source, S: Source>(
    heap: &Heap,
    new: &mut R,
    old: &mut S,
) -> Result<u64, MergeFault>
    ensures lost { IfOk result (λ lost. Loses (stream R.left R.failures new.old new.new)
        (stream S.left S.failures old.old old.new) lost) }
    ensures refused { IfErr result (λ e. IsNotCompared (stream R.left R.failures new.old new.new)
        (stream S.left S.failures old.old old.new) e.cause) }
{
    let (_, told) = merge_with_arrivals::<R, S, MergeInput, Nowhere>(heap, new, old, &mut Nowhere)?;
    Ok(number_of_new(&told.arrivals))
}
