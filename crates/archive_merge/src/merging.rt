//! A merge, step by step: the next record is written, or skipped if it is covered, and the side or sides with it are
//! read on.

ghost use Rattle.std.specs.Prelude.{◌≡◌, ◌+◌, ◌*◌, ◌^◌, ◌<◌, ◌≤◌, ℕ, List, Option, OnOk};
ghost use Rattle.std.specs.Prelude.{Bool, IfErr, IfOk, IsTrue, ◌↔◌, ◌≢◌, ◌&&◌, ◌||◌, true, false};
ghost use Rattle.byte_device.specs.Writes.{Puts};
ghost use Rattle.archive_merge.specs.Merging.{most_records};
ghost use Rattle.byte_device.specs.Devices.{stream};
ghost use Rattle.archive_merge.specs.MergeSteps.{BlamesDevices, BlamesLeft, BlamesRight, BlamesWriter, Fits, HadTurn};
ghost use Rattle.archive_merge.specs.MergeSteps.{HasEnded, IsBeforeTurn, IsLastOfBoth, IsOneMore, IsRead, IsReadOn};
ghost use Rattle.archive_merge.specs.MergeSteps.{IsRefusedMore, IsToldOfRight, Merging, MergesOn, DecidesCovered};
ghost use Rattle.archive_merge.specs.MergeSteps.{after_turn, cost_of, first_of, next_record, unread_of};
ghost use Rattle.archive_merge.specs.Sides.{sides_of};
ghost use Rattle.archive_merge.specs.declared.arrivals.Arrival.{Arrival};
ghost use Rattle.archive_merge.specs.ArrivalSteps.{MergingWithArrivals, IsNextArrival, has_next, with_arrival};

use crate::side::{Lookahead, MergeInput, ReadFrom, Side};
use archive_core::Retirements;
use archive_records::{MOST, MergeCause, MergeFault, RecordFault, RecordFaultKind, Sizes};
use byte_device::{Sink, Source, WriteFault, put};
use std::cmp::Ordering;

/// A text and a right side that are merged, and the sizes of the written part of their join. A retirement that both
/// sides have is kept once, in `shared`, and counts as each one's own.
#[derive(Drop)]
pub struct Merge<B> {
    pub left: MergeInput,
    pub right: B,
    pub shared: Retirements,
    pub written: Sizes,
}

impl<B: Side> Merge<B> {
    /// The fault with this cause after the bytes that were written.
    pub fn stopped_by(&self, cause: MergeCause) -> MergeFault
        ensures { result ≡ record { cause = cause; written = self.now.written.bytes } }
    {
        MergeFault {
            cause,
            written: self.written.bytes,
        }
    }

    /// Tests whether one more record may be written. If not, it is `OutOfMemory` of the side with that record.
    fn test_number(&self, next: Ordering) -> Result<(), MergeFault>
        requires few { self.now.written.records < 2 ^ 63 }
        requires next { next ≡ first_of self.now.left (B.seen self.now.right) }
        ensures room { OnOk result (self.now.written.records < most_records) }
        ensures refused { IfErr result (λ e. IsRefusedMore (sides_of B.seen self.now) e) }
    {
        if self.written.records < MOST {
            return Ok(());
        }
        let cause = match next {
            Ordering::Greater => MergeCause::Right(self.right.wanted()),
            Ordering::Less | Ordering::Equal => MergeCause::Left(self.left.wanted()),
        };
        Err(self.stopped_by(cause))
    }

    /// Whether the left side holds the record that the right side read last.
    fn left_holds_last_of_right(&self) -> bool
        ensures { IsTrue result ↔ IsLastOfBoth (sides_of B.seen self.now) }
    {
        self.left.ahead == Lookahead::Held && self.right.compare(self.left.reader.last()).is_eq()
    }

    /// The fault to report if the right side is refused with this one. `OutOfMemory` for a record that both sides have
    /// is reported for the left one: the right side read it whole, and the left side holds it.
    fn right_refused(&self, fault: RecordFault) -> MergeFault
        ensures { IsToldOfRight (sides_of B.seen self.now) fault result }
    {
        if fault.kind == RecordFaultKind::OutOfMemory && self.left_holds_last_of_right() {
            return self.stopped_by(MergeCause::Left(self.left.wanted()));
        }
        self.stopped_by(MergeCause::Right(fault))
    }

    /// Whether both texts were read to their ends.
    pub fn is_done(&self) -> bool
        requires { IsRead (sides_of B.seen self.now) }
        ensures left { result ≡ true → self.now.left.ahead ≡ Lookahead.Ended }
        ensures right { result ≡ true → (B.seen self.now.right).ahead ≡ Lookahead.Ended }
        ensures some { result ≡ false → self.now.left.ahead ≡ Lookahead.Ended
            → (B.seen self.now.right).ahead ≡ Lookahead.Held }
    {
        match (self.left.ahead, self.right.ahead()) {
            (Lookahead::Ended, Lookahead::Ended) => true,
            _ => false,
        }
    }
}

/// The side with the next record: `Less` for the left one, `Equal` for both, `Greater` for the right one, also if both
/// have ended.
pub fn next_side<B: Side>(left: &MergeInput, right: &B) -> Ordering
    ensures { result ≡ first_of left.now (B.seen right.now) }
{
    match (left.ahead, right.ahead()) {
        (Lookahead::Held, Lookahead::Held) => right.compare(left.reader.last()),
        (Lookahead::Held, _) => Ordering::Less,
        _ => Ordering::Greater,
    }
}

/// Whether a retirement of either side covers the next record. One of its own side does so only in version 1, and the
/// reader reports it. All retirements precede the admissions, so those of both sides have been read if the next record
/// is an admission.
fn is_covered<B: Side>(m: &mut Merge<B>, next: Ordering) -> bool
    requires { next ≡ first_of m.old.left (B.seen m.old.right) }
    ensures covered { DecidesCovered (sides_of B.seen m.old).left (sides_of B.seen m.old).right result }
    ensures same { m.new ≡ m.old }
{
    match next {
        Ordering::Less => {
            m.left.reader.dropped() || m.left.reader.covered_by(&m.shared, m.right.retired())
        }
        Ordering::Equal => m.left.reader.dropped() || m.right.dropped(),
        Ordering::Greater => {
            m.right.dropped() || m.right.covered_by(&m.shared, m.left.reader.retired())
        }
    }
}

/// Marks the side or sides with the next record to be read on, as if it had been written.
fn pass_over<B: Side>(m: &mut Merge<B>, next: Ordering)
    requires { next ≡ first_of m.old.left (B.seen m.old.right) }
    ensures { sides_of B.seen m.new ≡ after_turn (sides_of B.seen m.old) m.old.written }
{
    match next {
        Ordering::Less => m.left.ahead = Lookahead::Unread,
        Ordering::Equal => {
            m.left.ahead = Lookahead::Unread;
            m.right.pass();
        }
        Ordering::Greater => m.right.pass(),
    }
}

/// Writes the record that the left side holds.
fn put_left<W: Sink>(
    w: &mut W,
    written: &mut Sizes,
    side: &mut MergeInput,
) -> Result<(), WriteFault>
    requires few { written.old.records + 1 < 2 ^ 64 }
    requires fits { written.old.bytes ≤ 8 + written.old.records * 2 ^ 64 }
    ensures puts { Puts W.held W.failures (λ _. written.new.bytes) w.old w.new written.old.bytes side.old.reader.last
        result }
    ensures more { OnOk result (IsOneMore written.old written.new) }
    ensures side { OnOk result (side.new ≡ unread_of side.old) }
{
    written.bytes = put(w, written.bytes, side.reader.last())?;
    written.records += 1;
    side.ahead = Lookahead::Unread;
    Ok(())
}

/// Writes the record that the right side holds.
fn put_right<W: Sink, B: Side>(
    w: &mut W,
    written: &mut Sizes,
    side: &mut B,
) -> Result<(), WriteFault>
    requires few { written.old.records + 1 < 2 ^ 64 }
    requires fits { written.old.bytes ≤ 8 + written.old.records * 2 ^ 64 }
    ensures puts { Puts W.held W.failures (λ _. written.new.bytes) w.old w.new written.old.bytes
        (B.seen side.old).reader.last result }
    ensures more { OnOk result (IsOneMore written.old written.new) }
    ensures side { OnOk result (B.seen side.new ≡ unread_of (B.seen side.old)) }
{
    written.bytes = side.put_last(w, written.bytes)?;
    written.records += 1;
    side.pass();
    Ok(())
}

/// Writes the next record, once, and marks the side or sides with it to be read on.
fn write_first<W: Sink, B: Side>(
    w: &mut W,
    m: &mut Merge<B>,
    next: Ordering,
) -> Result<(), WriteFault>
    requires fits { Fits (sides_of B.seen m.old) }
    requires room { m.old.written.records < most_records }
    requires next { next ≡ first_of m.old.left (B.seen m.old.right) }
    ensures puts { Puts W.held W.failures (λ _. m.new.written.bytes) w.old w.new m.old.written.bytes
        (next_record (sides_of B.seen m.old)) result }
    ensures more { OnOk result (IsOneMore m.old.written m.new.written) }
    ensures turned { OnOk result (sides_of B.seen m.new ≡ after_turn (sides_of B.seen m.old) m.new.written) }
{
    match next {
        Ordering::Less => put_left(w, &mut m.written, &mut m.left),
        Ordering::Equal => {
            m.right.pass();
            put_left(w, &mut m.written, &mut m.left)
        }
        Ordering::Greater => put_right(w, &mut m.written, &mut m.right),
    }
}

/// Processes the next record: it is written, unless a retirement of either side covers it, and the side or sides with
/// it are marked to be read on. Returns whether it was skipped.
pub fn take_turn<W: Sink, B: Side>(
    w: &mut W,
    m: &mut Merge<B>,
    next: Ordering,
) -> Result<bool, MergeFault>
    requires before { IsBeforeTurn (sides_of B.seen m.old) }
    requires next { next ≡ first_of m.old.left (B.seen m.old.right) }
    ensures merging { (left right : Option (List ℕ))
        → MergesOn left left right right (W.held w.old) (W.held w.new) (sides_of B.seen m.old) (sides_of B.seen m.new)
        result }
    ensures telling { (a1 b1 a2 b2 w0 : Option (List ℕ)) (told : List Arrival) (withdraws : Bool)
        (arrival : Option Arrival)
        → MergingWithArrivals a1 b1 a2 b2 w0 (W.held w.old) (sides_of B.seen m.old) told withdraws
        → IsNextArrival (sides_of B.seen m.old) arrival
        → IfOk result (λ passed. MergingWithArrivals a1 b1 a2 b2 w0 (W.held w.new) (sides_of B.seen m.new)
        (with_arrival told arrival) ((passed && has_next (sides_of B.seen m.old)) || withdraws)) }
    ensures had { OnOk result (HadTurn (sides_of B.seen m.old) (sides_of B.seen m.new)) }
    ensures unfailed { OnOk result (W.failures w.new ≡ W.failures w.old) }
    ensures blames { IfErr result (λ e. BlamesWriter (W.failures w.old) (W.failures w.new) e.cause) }
{
    if is_covered(m, next) {
        pass_over(m, next);
        return Ok(true);
    }
    m.test_number(next)?;
    if let Err(fault) = write_first(w, m, next) {
        return Err(MergeFault {
            cause: MergeCause::Write,
            written: fault.written,
        });
    }
    Ok(false)
}

/// Keeps a retirement that both sides hold once, in `shared`. If there is no memory for that, each side keeps its own.
pub fn share_retirement<B: Side>(m: &mut Merge<B>, next: Ordering)
    requires { next ≡ first_of m.old.left (B.seen m.old.right) }
    ensures next { next ≡ first_of m.new.left (B.seen m.new.right) }
    ensures merging { (a1 b1 a2 b2 w0 w1 : Option (List ℕ)) → Merging a1 b1 a2 b2 w0 w1 (sides_of B.seen m.old)
        → Merging a1 b1 a2 b2 w0 w1 (sides_of B.seen m.new) }
    ensures telling { (a1 b1 a2 b2 w0 w1 : Option (List ℕ)) (told : List Arrival) (withdraws : Bool)
        → MergingWithArrivals a1 b1 a2 b2 w0 w1 (sides_of B.seen m.old) told withdraws
        → MergingWithArrivals a1 b1 a2 b2 w0 w1 (sides_of B.seen m.new) told withdraws }
    ensures fits { Fits (sides_of B.seen m.old) → Fits (sides_of B.seen m.new) }
    ensures left { m.new.left.ahead ≡ m.old.left.ahead }
    ensures right { (B.seen m.new.right).ahead ≡ (B.seen m.old.right).ahead }
    ensures cost { cost_of (sides_of B.seen m.new) ≡ cost_of (sides_of B.seen m.old) }
{
    if next.is_ne() {
        return;
    }
    let Some(retirement) = m.left.reader.last_retirement() else {
        return;
    };
    if let Ok(_) = m.shared.keep(retirement) {
        m.left.reader.forget(&retirement);
        m.right.forget(&retirement);
    }
}

/// Reads the left side on, if its last record was processed.
pub fn read_left<R: Source, B: Side>(r1: &mut R, m: &mut Merge<B>) -> Result<(), MergeFault>
    requires { Fits (sides_of B.seen m.old) }
    ensures merging { (right w : Option (List ℕ))
        → MergesOn (R.left r1.old) (R.left r1.new) right right w w (sides_of B.seen m.old) (sides_of B.seen m.new)
        result }
    ensures telling { (a1 a2 b2 w0 w1 : Option (List ℕ)) (told : List Arrival) (withdraws : Bool)
        → MergingWithArrivals a1 (R.left r1.old) a2 b2 w0 w1 (sides_of B.seen m.old) told withdraws
        → OnOk result (MergingWithArrivals a1 (R.left r1.new) a2 b2 w0 w1 (sides_of B.seen m.new) told withdraws) }
    ensures fits { OnOk result (Fits (sides_of B.seen m.new)) }
    ensures read { OnOk result (m.new.left.ahead ≢ Lookahead.Unread) }
    ensures right { OnOk result (m.new.right ≡ m.old.right) }
    ensures less { OnOk result (cost_of (sides_of B.seen m.new) ≤ cost_of (sides_of B.seen m.old)) }
    ensures unfailed { OnOk result (R.failures r1.new ≡ R.failures r1.old) }
    ensures blames { IfErr result (λ e. BlamesLeft (stream R.left R.failures r1.old r1.new) e.cause) }
{
    match m.left.read_on(r1, &m.shared) {
        Ok(()) => Ok(()),
        Err(fault) => Err(m.stopped_by(MergeCause::Left(fault))),
    }
}

/// Reads the right side on, if its last record was processed, after the left side.
pub fn read_right<F, B: ReadFrom<F>>(r2: &mut F, m: &mut Merge<B>) -> Result<(), MergeFault>
    requires fits { Fits (sides_of B.seen m.old) }
    requires read { m.old.left.ahead ≢ Lookahead.Unread }
    ensures merging { (left w : Option (List ℕ))
        → MergesOn left left (B.left r2.old) (B.left r2.new) w w (sides_of B.seen m.old) (sides_of B.seen m.new)
        result }
    ensures telling { (a1 b1 a2 w0 w1 : Option (List ℕ)) (told : List Arrival) (withdraws : Bool)
        → MergingWithArrivals a1 b1 a2 (B.left r2.old) w0 w1 (sides_of B.seen m.old) told withdraws
        → OnOk result (MergingWithArrivals a1 b1 a2 (B.left r2.new) w0 w1 (sides_of B.seen m.new) told withdraws) }
    ensures read { OnOk result (IsReadOn (sides_of B.seen m.old) (sides_of B.seen m.new)) }
    ensures unfailed { OnOk result (B.failures r2.new ≡ B.failures r2.old) }
    ensures blames { IfErr result (λ e. BlamesRight (stream B.left B.failures r2.old r2.new) e.cause) }
{
    match m.right.read_on(r2, &m.shared) {
        Ok(()) => Ok(()),
        Err(fault) => Err(m.right_refused(fault)),
    }
}

/// Reads on the sides whose record was processed, left first.
fn read_on<R: Source, F, B: ReadFrom<F>>(
    r1: &mut R,
    r2: &mut F,
    m: &mut Merge<B>,
) -> Result<(), MergeFault>
    requires { Fits (sides_of B.seen m.old) }
    ensures merging { (w : Option (List ℕ)) → MergesOn (R.left r1.old) (R.left r1.new) (B.left r2.old) (B.left r2.new)
        w w (sides_of B.seen m.old) (sides_of B.seen m.new) result }
    ensures read { OnOk result (IsReadOn (sides_of B.seen m.old) (sides_of B.seen m.new)) }
    ensures devices { BlamesDevices (stream R.left R.failures r1.old r1.new) (stream B.left B.failures r2.old r2.new)
        0 0 result }
{
    read_left(r1, m)?;
    read_right(r2, m)
}

/// Processes the next record, and reads on. The side with it is determined once: two slices may be long, and equal.
fn turn<R: Source, F, B: ReadFrom<F>, W: Sink>(
    r1: &mut R,
    r2: &mut F,
    w: &mut W,
    m: &mut Merge<B>,
) -> Result<(), MergeFault>
    requires { IsBeforeTurn (sides_of B.seen m.old) }
    ensures merging { MergesOn (R.left r1.old) (R.left r1.new) (B.left r2.old) (B.left r2.new)
        (W.held w.old) (W.held w.new) (sides_of B.seen m.old) (sides_of B.seen m.new) result }
    ensures read { OnOk result (IsReadOn (sides_of B.seen m.old) (sides_of B.seen m.new)) }
    ensures less { OnOk result (cost_of (sides_of B.seen m.new) < cost_of (sides_of B.seen m.old)) }
    ensures devices { BlamesDevices (stream R.left R.failures r1.old r1.new) (stream B.left B.failures r2.old r2.new)
        (W.failures w.old) (W.failures w.new) result }
{
    let next = next_side(&m.left, &m.right);
    share_retirement(m, next);
    take_turn(w, m, next)?;
    read_on(r1, r2, m)
}

/// Writes all records after the magic, without the covered ones.
pub fn merge_records<R: Source, F, B: ReadFrom<F>, W: Sink>(
    r1: &mut R,
    r2: &mut F,
    w: &mut W,
    m: &mut Merge<B>,
) -> Result<(), MergeFault>
    requires fits { Fits (sides_of B.seen m.old) }
    ensures merging { MergesOn (R.left r1.old) (R.left r1.new) (B.left r2.old) (B.left r2.new)
        (W.held w.old) (W.held w.new) (sides_of B.seen m.old) (sides_of B.seen m.new) result }
    ensures ended { OnOk result (HasEnded (sides_of B.seen m.new)) }
    ensures devices { BlamesDevices (stream R.left R.failures r1.old r1.new) (stream B.left B.failures r2.old r2.new)
        (W.failures w.old) (W.failures w.new) result }
{
    read_on(r1, r2, m)?;
    'turns: while !m.is_done() {
        turn(r1, r2, w, m)?;
    }
    Ok(())
}
