//! Merges two archives as they are read.

ghost use Rattle.std.specs.Prelude.{◌≡◌, ℕ, Bool, false, List, [], Option, OnOk, IfOk, IfErr, MatchResult};
ghost use Rattle.byte_device.specs.Devices.{FailedIn, stream};
ghost use Rattle.archive_records.specs.declared.fault.MergeCause.TheVariants.{Write};
ghost use Rattle.archive_merge.specs.Merging.{GainsCount, Merges};
ghost use Rattle.archive_merge.specs.MergeSteps.{BlamesDevices, Fits, HasEnded, Leaves, Merging, StopsMerge};
ghost use Rattle.archive_merge.specs.Sides.{sides_of};
ghost use Rattle.archive_merge.specs.declared.arrivals.Arrival.{Arrival};
ghost use Rattle.archive_merge.specs.ArrivalSteps.{MergingWithArrivals, ReportsAllArrivals};

use crate::merging::{Merge, merge_records};
use crate::side::{MergeInput, ReadFrom, Side};
use archive_core::Retirements;
use archive_records::{Format, MergeCause, MergeFault, Sizes, put_end};
use byte_device::{Sink, Source, put};
use heap_memory::Heap;

// The fault with this cause, with nothing written.
pub fn before_the_magic(cause: MergeCause) -> MergeFault
    ensures { result ≡ record { cause = cause; written = 0 } }
{
    MergeFault { cause, written: 0 }
}

/// Reads both magics, left first, and writes one.
pub fn begin_both<R: Source, F, B: ReadFrom<F>, W: Sink>(
    heap: &Heap,
    r1: &mut R,
    r2: &mut F,
    w: &mut W,
) -> Result<Merge<B>, MergeFault>
    ensures telling { MatchResult result
        (λ m. MergingWithArrivals (R.left r1.old) (R.left r1.new) (B.left r2.old) (B.left r2.new)
        (W.held w.old) (W.held w.new) (sides_of B.seen m) [] false)
        (λ e. StopsMerge (R.left r1.old) (R.left r1.new) (B.left r2.old) (B.left r2.new)
        (W.held w.old) (W.held w.new) e) }
    ensures fits { IfOk result (λ m. Fits (sides_of B.seen m)) }
    ensures devices { BlamesDevices (stream R.left R.failures r1.old r1.new) (stream B.left B.failures r2.old r2.new)
        (W.failures w.old) (W.failures w.new) result }
{
    let left = match MergeInput::begin(heap, r1) {
        Ok(side) => side,
        Err(fault) => return Err(before_the_magic(MergeCause::Left(fault))),
    };
    let right = match B::begin(heap, r2) {
        Ok(side) => side,
        Err(fault) => return Err(before_the_magic(MergeCause::Right(fault))),
    };
    match put(w, 0, &Format::Archive.magic()) {
        Ok(bytes) => Ok(Merge {
            left,
            right,
            shared: Retirements::none(heap),
            written: Sizes { records: 0, bytes },
        }),
        Err(fault) => Err(MergeFault {
            cause: MergeCause::Write,
            written: fault.written,
        }),
    }
}

/// Writes the end record.
pub fn finish<W: Sink, B: Side>(w: &mut W, m: &Merge<B>) -> Result<Sizes, MergeFault>
    requires { HasEnded (sides_of B.seen m.now) }
    ensures leaves { (a1 b1 a2 b2 w0 : Option (List ℕ)) → Merging a1 b1 a2 b2 w0 (W.held w.old) (sides_of B.seen m.now)
        → Leaves a1 b1 a2 b2 w0 (W.held w.new) result }
    ensures told { (a1 b1 a2 b2 w0 : Option (List ℕ)) (told : List Arrival) (withdraws : Bool)
        → MergingWithArrivals a1 b1 a2 b2 w0 (W.held w.old) (sides_of B.seen m.now) told withdraws
        → IfOk result (λ sizes. ReportsAllArrivals a1 b1 a2 b2 w0 (W.held w.new) sizes told withdraws) }
    ensures unfailed { OnOk result (W.failures w.new ≡ W.failures w.old) }
    ensures cause { IfErr result (λ e. (e.cause ≡ Write) × FailedIn (W.failures w.old) (W.failures w.new)) }
{
    match put_end(w, m.written.bytes, m.written.records) {
        Ok(sizes) => Ok(sizes),
        Err(fault) => Err(MergeFault {
            cause: MergeCause::Write,
            written: fault.written,
        }),
    }
}

/// Merges two inputs. The contract is about the bytes that were consumed.
fn merge_taken<R: Source, F, B: ReadFrom<F>, W: Sink>(
    heap: &Heap,
    r1: &mut R,
    r2: &mut F,
    w: &mut W,
) -> Result<Sizes, MergeFault>
    ensures leaves { Leaves (R.left r1.old) (R.left r1.new) (B.left r2.old) (B.left r2.new)
        (W.held w.old) (W.held w.new) result }
    ensures devices { BlamesDevices (stream R.left R.failures r1.old r1.new) (stream B.left B.failures r2.old r2.new)
        (W.failures w.old) (W.failures w.new) result }
{
    let mut m = begin_both::<R, F, B, W>(heap, r1, r2, w)?;
    merge_records(r1, r2, w, &mut m)?;
    finish(w, &m)
}

/// Merges two archives of any size, each of either version, in the memory of one record of each and of 57 bytes for
/// each retirement of either, writes one of version 2, and returns its size. Each slice is checked, none is copied, and
/// one is hashed if a retirement of its key was read. The sizes of the readers' pieces do not matter.
///
/// It reads the left magic and the right one and writes the magic; then it reads the left record and the right one,
/// writes the lesser of the two, or one of two that are equal, and reads on the side or sides with it, left first. A
/// slice that either side retired is not written, and the side or sides with it are read on as if it had been. After an
/// end record it tests that the input ends.
/// # Errors `Left` and `Right` with the fault that `read_archive` of `archive_from_records` returns for that side
///alone; `Write` if the writer failed, and no side was refused before. A record after 9,223,372,036,854,775,807 others
///is `OutOfMemory` of the side with it, the left one if both have it, and so is a retirement for which there is no
///memory. In that case the writer has the first `written` bytes of an archive, and no end record: its bytes are not an
///archive's text.
pub fn merge_streams<R: Source, S: Source, W: Sink>(
    heap: &Heap,
    left: &mut R,
    right: &mut S,
    w: &mut W,
) -> Result<Sizes, MergeFault>
    ensures merges { Merges (stream R.left R.failures left.old left.new) (stream S.left S.failures right.old right.new)
        (stream W.held W.failures w.old w.new) result }

    // Whatever stops it, and whether the inputs are known or not.
    ensures written { IfErr result (λ e. GainsCount (stream W.held W.failures w.old w.new) e.written) }
{
    merge_taken::<R, S, MergeInput, W>(heap, left, right, w)
}
