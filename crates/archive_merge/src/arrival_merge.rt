//! A merge that reports the effect of each record of its right side on the left one, and whether the right one retires
//! a slice of the left one.

ghost use Rattle.std.specs.Prelude.{◌≡◌, ◌≢◌, ◌<◌, ℕ, List, [], Option, OnOk, IfOk, IfErr, IsSome, IfSome, map, false};
ghost use Rattle.std.specs.List.{list_any};
ghost use Rattle.std.specs.Result.{result_map_both};
ghost use Rattle.std.specs.declared.cmp.Ordering.TheVariants.{Less};
ghost use Rattle.join_core.specs.Listing.{listing};
ghost use Rattle.byte_device.specs.Devices.{stream};
ghost use Rattle.archive_core.specs.Content.{IsContent, Operations, is_covered};
ghost use Rattle.archive_records.specs.Text.{IsArchiveOf};
ghost use Rattle.archive_records.specs.declared.fault.MergeCause.TheVariants.{Right};
ghost use Rattle.archive_merge.specs.Merging.{GainsCount, Merges};
ghost use Rattle.archive_merge.specs.MergeSteps.{BlamesDevices, Fits, HasEnded, HasStoppedMerge, IsBeforeTurn};
ghost use Rattle.archive_merge.specs.MergeSteps.{IsReadOn};
ghost use Rattle.archive_merge.specs.MergeSteps.{Leaves, Merging, cost_of, first_of, memory_after};
ghost use Rattle.archive_merge.specs.Sides.{sides_of};
ghost use Rattle.archive_merge.specs.ArrivalMerge.{HasOperations, IsMergedWithArrivals};
ghost use Rattle.archive_merge.specs.ArrivalSteps.{IsNextArrival, GoesOnWithArrivals, ReportsAllArrivals};
ghost use Rattle.archive_merge.specs.ArrivalSteps.{has_next, with_arrival};
ghost use Rattle.archive_merge.specs.Arrivals.{arrival_of};

use crate::arrivals::{Arrival, MergeReport, arrival_by};
use crate::merging::{Merge, next_side, read_left, read_right, share_retirement, take_turn};
use crate::side::{Lookahead, ReadFrom, Side};
use crate::streams::{begin_both, finish};
use archive_records::{MergeCause, MergeFault, RecordFault, Sizes};
use byte_device::{Sink, Source};
use heap_memory::Heap;
use std::cmp::Ordering;

/// The effect of the next record on the left side: none if only the left side has it. All records of the left side that
/// are not above it were read; if it is an admission, so were all retirements of that side.
fn next_arrival<B: Side>(m: &mut Merge<B>, next: Ordering) -> Option<Arrival>
    requires { next ≡ first_of m.old.left (B.seen m.old.right) }
    ensures tells { IsNextArrival (sides_of B.seen m.old) result }
    ensures right { IsSome result → first_of m.old.left (B.seen m.old.right) ≢ Less }
    ensures same { m.new ≡ m.old }
{
    match next {
        Ordering::Less => None,
        Ordering::Equal => Some(arrival_by(m.left.reader.dropped(), true)),
        Ordering::Greater => Some(arrival_by(
            m.right.covered_by(&m.shared, m.left.reader.retired()),
            false,
        )),
    }
}

/// Whether the left side has the next record, and does not retire it.
fn has_next<B: Side>(m: &Merge<B>, next: Ordering) -> bool
    requires { next ≡ first_of m.now.left (B.seen m.now.right) }
    ensures { result ≡ has_next (sides_of B.seen m.now) }
{
    match next {
        Ordering::Less | Ordering::Equal => !m.left.reader.dropped(),
        Ordering::Greater => false,
    }
}

/// Reports the processed record of the right side, if there is one. If recording the result runs out of memory, the
/// next record is not read.
fn push_arrival<B: Side>(
    m: &Merge<B>,
    told: &mut MergeReport,
    arrival: Option<Arrival>,
) -> Result<(), MergeFault>
    requires fits { Fits (sides_of B.seen m.now) }
    requires read { m.now.left.ahead ≢ Lookahead.Unread }
    requires unread { IsSome arrival → (B.seen m.now.right).ahead ≡ Lookahead.Unread }
    ensures arrivals { OnOk result (told.new.arrivals.items ≡ with_arrival told.old.arrivals.items arrival) }
    ensures withdraws { told.new.withdraws ≡ told.old.withdraws }
    ensures stops { IfErr result (λ e. (a1 b1 a2 b2 w0 w1 : Option (List ℕ))
        → Merging a1 b1 a2 b2 w0 w1 (sides_of B.seen m.now)
        → HasStoppedMerge a1 b1 a2 b2 w0 w1 e) }
    ensures cause { IfErr result (λ e. e.cause ≡ Right (memory_after (B.seen m.now.right).reader.offset)) }
{
    let Some(arrival) = arrival else {
        return Ok(());
    };
    match told.arrivals.push(arrival) {
        Ok(()) => Ok(()),
        Err(_) => {
            let fault = RecordFault::out_of_memory(m.right.offset());
            Err(m.stopped_by(MergeCause::Right(fault)))
        }
    }
}

/// Reads on the sides whose record was processed, left first, and reports the right side's record before that side is
/// read on.
fn push_arrival_and_read_on<R: Source, F, B: ReadFrom<F>>(
    r1: &mut R,
    r2: &mut F,
    m: &mut Merge<B>,
    told: &mut MergeReport,
    arrival: Option<Arrival>,
) -> Result<(), MergeFault>
    requires fits { Fits (sides_of B.seen m.old) }
    requires unread { IsSome arrival → (B.seen m.old.right).ahead ≡ Lookahead.Unread }
    ensures telling { (w : Option (List ℕ))
        → GoesOnWithArrivals (R.left r1.old) (R.left r1.new) (B.left r2.old) (B.left r2.new)
        w w (sides_of B.seen m.old) (sides_of B.seen m.new)
        (with_arrival told.old.arrivals.items arrival) told.new.arrivals.items
        told.old.withdraws told.new.withdraws result }
    ensures read { OnOk result (IsReadOn (sides_of B.seen m.old) (sides_of B.seen m.new)) }
    ensures devices { BlamesDevices (stream R.left R.failures r1.old r1.new) (stream B.left B.failures r2.old r2.new)
        0 0 result }
{
    read_left(r1, m)?;
    push_arrival(m, told, arrival)?;
    read_right(r2, m)
}

/// Processes the next record, reports it if it is one of the right side, and reads on.
fn merge_next_record<R: Source, F, B: ReadFrom<F>, W: Sink>(
    r1: &mut R,
    r2: &mut F,
    w: &mut W,
    m: &mut Merge<B>,
    told: &mut MergeReport,
) -> Result<(), MergeFault>
    requires { IsBeforeTurn (sides_of B.seen m.old) }
    ensures telling { GoesOnWithArrivals (R.left r1.old) (R.left r1.new) (B.left r2.old) (B.left r2.new)
        (W.held w.old) (W.held w.new) (sides_of B.seen m.old) (sides_of B.seen m.new)
        told.old.arrivals.items told.new.arrivals.items
        told.old.withdraws told.new.withdraws result }
    ensures read { OnOk result (IsReadOn (sides_of B.seen m.old) (sides_of B.seen m.new)) }
    ensures less { OnOk result (cost_of (sides_of B.seen m.new) < cost_of (sides_of B.seen m.old)) }
    ensures devices { BlamesDevices (stream R.left R.failures r1.old r1.new) (stream B.left B.failures r2.old r2.new)
        (W.failures w.old) (W.failures w.new) result }
{
    let next = next_side(&m.left, &m.right);
    share_retirement(m, next);
    let arrival = next_arrival(m, next);
    let had = has_next(m, next);
    let passed = take_turn(w, m, next)?;
    told.pass(passed, had);
    push_arrival_and_read_on(r1, r2, m, told, arrival)
}

/// Writes all records after the magic, without the covered ones, and reports those of the right side.
fn merge_records_with_arrivals<R: Source, F, B: ReadFrom<F>, W: Sink>(
    r1: &mut R,
    r2: &mut F,
    w: &mut W,
    m: &mut Merge<B>,
    told: &mut MergeReport,
) -> Result<(), MergeFault>
    requires fits { Fits (sides_of B.seen m.old) }
    ensures telling { GoesOnWithArrivals (R.left r1.old) (R.left r1.new) (B.left r2.old) (B.left r2.new)
        (W.held w.old) (W.held w.new) (sides_of B.seen m.old) (sides_of B.seen m.new)
        told.old.arrivals.items told.new.arrivals.items
        told.old.withdraws told.new.withdraws result }
    ensures ended { OnOk result (HasEnded (sides_of B.seen m.new)) }
    ensures devices { BlamesDevices (stream R.left R.failures r1.old r1.new) (stream B.left B.failures r2.old r2.new)
        (W.failures w.old) (W.failures w.new) result }
{
    push_arrival_and_read_on(r1, r2, m, told, None)?;
    'turns: while !m.is_done() {
        merge_next_record(r1, r2, w, m, told)?;
    }
    Ok(())
}

/// Merges two inputs, and reports the right one's records. The contract is about the bytes that were consumed.
fn merge_taken_with_arrivals<R: Source, F, B: ReadFrom<F>, W: Sink>(
    heap: &Heap,
    r1: &mut R,
    r2: &mut F,
    w: &mut W,
    told: &mut MergeReport,
) -> Result<Sizes, MergeFault>
    requires arrivals { told.old.arrivals.items ≡ [] }
    requires withdraws { told.old.withdraws ≡ false }
    ensures leaves { Leaves (R.left r1.old) (R.left r1.new) (B.left r2.old) (B.left r2.new)
        (W.held w.old) (W.held w.new) result }
    ensures told { IfOk result (λ sizes. ReportsAllArrivals (R.left r1.old) (R.left r1.new) (B.left r2.old)
        (B.left r2.new)
        (W.held w.old) (W.held w.new) sizes told.new.arrivals.items told.new.withdraws) }
    ensures devices { BlamesDevices (stream R.left R.failures r1.old r1.new) (stream B.left B.failures r2.old r2.new)
        (W.failures w.old) (W.failures w.new) result }
{
    let mut m = begin_both::<R, F, B, W>(heap, r1, r2, w)?;
    merge_records_with_arrivals(r1, r2, w, &mut m, told)?;
    finish(w, &m)
}

/// Merges two archives like [`merge_streams`](crate::merge_streams), and reports for each record of the right one, in
/// order, whether the left one retires it, and if not, whether it has it; in a text of version 1 also for the records
/// that are covered there. It also reports whether the right one retires a slice that the left one has.
///
/// # Errors
///
/// Those of `merge_streams`. If the report of a record runs out of memory, that is `OutOfMemory` of the right side,
/// before the next one is read; if there is no memory at all, it is that of the left one, before anything is read.
pub fn merge_with_arrivals<R: Source, F, B: ReadFrom<F>, W: Sink>(
    heap: &Heap,
    left: &mut R,
    right: &mut F,
    w: &mut W,
) -> Result<(Sizes, MergeReport), MergeFault>
    ensures merges { Merges (stream R.left R.failures left.old left.new) (stream B.left B.failures right.old right.new)
        (stream W.held W.failures w.old w.new)
        (result_map_both (λ both. both.0) (λ e. e) result) }
    ensures tells { IfOk result (λ both. IsMergedWithArrivals (stream R.left R.failures left.old left.new)
        (stream B.left B.failures right.old right.new) (stream W.held W.failures w.old w.new) both.0
        both.1.arrivals.items both.1.withdraws) }

    // If the texts are known, about their contents.
    ensures arrivals { IfOk result (λ both. IfSome (R.left left.old) (λ t. IfSome (B.left right.old) (λ u.
        (o p : Operations) → IsContent o → IsArchiveOf o t → HasOperations p u
        → both.1.arrivals.items ≡ map (arrival_of o) (listing p)))) }
    ensures withdraws { IfOk result (λ both. IfSome (R.left left.old) (λ t. IfSome (B.left right.old) (λ u.
        (o p : Operations) → IsContent o → IsArchiveOf o t → HasOperations p u
        → both.1.withdraws ≡ list_any (is_covered p) (listing o)))) }

    // Whatever stops it, and whether the inputs are known or not.
    ensures written { IfErr result (λ e. GainsCount (stream W.held W.failures w.old w.new) e.written) }
{
    let mut told = MergeReport::nothing(heap.share());
    let sizes = merge_taken_with_arrivals::<R, F, B, W>(heap, left, right, w, &mut told)?;
    Ok((sizes, told))
}
