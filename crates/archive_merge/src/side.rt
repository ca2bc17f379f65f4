//! One side of a merge.

ghost use Rattle.std.specs.Prelude.{◌≡◌, ◌≢◌, ◌<◌, ◌≤◌, ◌+◌, ◌^◌, ◌++◌, ℕ, List, Option, [], OnOk, OnErr, IfOk, IfErr};
ghost use Rattle.std.specs.Prelude.{MatchResult};
ghost use Rattle.std.specs.FinSet as set;
ghost use Rattle.std.specs.Ordering.{nat_cmp};
ghost use Rattle.std.specs.Cmp.Lexicographic.{slice_cmp};
ghost use Rattle.archive_records.specs.declared.kind.TextKind.TheVariants.{Archive};
ghost use Rattle.archive_records.specs.Kind.{kind_of};
ghost use Rattle.archive_records.specs.Text.{last_of};
ghost use Rattle.archive_records.specs.Reader.{FaultBlamesReader, HasRead, StoppedWith, set_of};
ghost use Rattle.archive_core.specs.Content.{is_covered};
ghost use Rattle.archive_core.specs.Record.{IsRecord};
ghost use Rattle.byte_device.specs.Writes.{Puts};
ghost use Rattle.archive_merge.specs.Sides.{side_with};
ghost use Rattle.archive_merge.specs.MergeSteps.{Stands, StopsBeforeRecords, memory_for, unread_of, weight};

use archive_core::{RETIREMENT_LEN, Retirements};
use archive_records::{NextRecord, RecordFault, RecordReader, TextKind};
use byte_device::{Sink, Source, WriteFault, put};
use heap_memory::Heap;
use std::cmp::Ordering;

/// The state of the next record.
#[derive(Clone, Copy, Debug, PartialEq, Eq)]
pub enum Lookahead {
    /// It is to be read, over the last one, which was processed.
    Unread,
    /// It was read, and is processed when it is next.
    Held,
    /// There is none: the end record was read, and nothing follows it.
    Ended,
}

/// The text of an archive that is read record by record.
#[derive(Drop)]
pub struct MergeInput {
    pub reader: RecordReader,
    pub ahead: Lookahead,
}

impl MergeInput {
    /// Reads the next record over the last one, or the end record, after which the input must end. The retirements that
    /// it shares with the other side count as its own.
    fn advance<R: Source>(&mut self, r: &mut R, shared: &Retirements) -> Result<(), RecordFault>
        requires archive { kind_of self.old.reader.file ≡ Archive }
        requires few { self.old.reader.count < 2 ^ 63 }
        requires unread { self.old.ahead ≡ Lookahead.Unread }
        ensures stands { (a : Option (List ℕ)) (done : List (List ℕ))
            → HasRead self.old.reader.file a (R.left r.old) done (side_with shared.now self.old).reader
            → MatchResult result
            (λ _. Stands a (R.left r.new) done (last_of [] done) (side_with shared.now self.new))
            (λ fault. StoppedWith self.old.reader.file a (R.left r.new) done fault self.new.reader.last) }
        ensures archive { OnOk result (self.new.reader.file ≡ self.old.reader.file) }
        ensures read { OnOk result (self.new.ahead ≢ Lookahead.Unread) }
        ensures few { OnOk result (self.new.reader.count < 2 ^ 63) }
        ensures less { OnOk result (weight self.new < weight self.old) }
        ensures reader { FaultBlamesReader R.left R.failures r.old r.new result }
    {
        match self.reader.advance_beside(r, Some(shared))? {
            NextRecord::End => {
                self.reader.finish(r)?;
                self.ahead = Lookahead::Ended;
            }
            NextRecord::Item(_) => self.ahead = Lookahead::Held,
        }
        Ok(())
    }
}

/// The right side of a merge: records that are read one after another, from a text or from operations in memory.
pub trait Side: Sized + Drop {
    ghost use Rattle.archive_merge.specs.declared.side.MergeInput.{MergeInput};

    // Its state, as that of a text that is read.
    ghost seen: { Self → MergeInput };

    /// The state of the next record.
    fn ahead(&self) -> Lookahead
        ensures { result ≡ (seen self.now).ahead };

    /// Compares a record with the last one.
    fn compare(&self, item: &[u8]) -> Ordering
        ensures { result ≡ slice_cmp nat_cmp item.now (seen self.now).reader.last };

    /// Writes the last record after the first `done` bytes of a text, and returns the new number of bytes.
    fn put_last<W: Sink>(&self, w: &mut W, done: u128) -> Result<u128, WriteFault>
        requires { done + 2 ^ 64 < 2 ^ 128 }
        ensures puts { Puts W.held W.failures (λ n. n) w.old w.new done (seen self.now).reader.last result }
        ensures short { IfOk result (λ n. n ≤ done + 2 ^ 64) };

    /// Marks the next record to be read: the last one was processed.
    fn pass(&mut self)
        ensures { seen self.new ≡ unread_of (seen self.old) };

    /// Whether the last record is dropped: a slice that a retirement before it covers.
    fn dropped(&self) -> bool
        ensures { result ≡ (seen self.now).reader.dropped };

    /// The number of bytes of the magic and the records that were read.
    fn offset(&self) -> u128
        ensures { result ≡ (seen self.now).reader.offset };

    /// The fault `OutOfMemory` for the record that the side holds.
    fn wanted(&self) -> RecordFault
        ensures { result ≡ memory_for (seen self.now) };

    /// The retirements that were read, without those that were forgotten.
    fn retired(&self) -> &Retirements
        ensures { result.now ≡ (seen self.now).reader.retired };

    /// Whether one of these retirements, which are shared or of one side, covers the last record. Its slice is hashed
    /// if one of them has its key, and it was not hashed before.
    fn covered_by(&mut self, shared: &Retirements, retired: &Retirements) -> bool
        ensures covered { IsRecord (seen self.old).reader.last
            → result ≡ is_covered (set_of (shared.now ++ retired.now)) (seen self.old).reader.last }
        ensures same { self.new ≡ self.old };

    /// Forgets a retirement that is also kept elsewhere, if it is the last that was read.
    fn forget(&mut self, retirement: &[u8; RETIREMENT_LEN])
        ensures ahead { (seen self.new).ahead ≡ (seen self.old).ahead }
        ensures same { (seen self.new).reader
            ≡ record (seen self.old).reader { retired = (seen self.new).reader.retired } }
        ensures others { set.insert (set_of (seen self.new).reader.retired) retirement.now
            ≡ set.insert (set_of (seen self.old).reader.retired) retirement.now };
}

/// A right side that is read from such a source.
pub trait ReadFrom<F>: Side {
    // The rest of the source's text, if it is known.
    ghost left: { F → Option (List ℕ) };

    // The number of failures of the source.
    ghost failures: { F → ℕ };

    /// Reads the magic.
    fn begin(heap: &Heap, text: &mut F) -> Result<Self, RecordFault>
        ensures read { IfOk result (λ side. HasRead (Self.seen side).reader.file (left text.old) (left text.new) []
            (Self.seen side).reader) }
        ensures archive { IfOk result (λ side. kind_of (Self.seen side).reader.file ≡ Archive) }
        ensures unread { IfOk result (λ side. (Self.seen side).ahead ≡ Lookahead.Unread) }
        ensures stops { IfErr result (StopsBeforeRecords (left text.old) (left text.new)) }
        ensures reader { FaultBlamesReader left failures text.old text.new result };

    /// Reads on, if the last record was processed. The retirements that it shares with the other side count as its own.
    fn read_on(&mut self, text: &mut F, shared: &Retirements) -> Result<(), RecordFault>
        requires archive { kind_of (Self.seen self.old).reader.file ≡ Archive }
        requires few { (Self.seen self.old).reader.count < 2 ^ 63 }
        ensures stands { (a : Option (List ℕ)) (done : List (List ℕ)) (low : List ℕ)
            → Stands a (left text.old) done low (side_with shared.now (Self.seen self.old))
            → MatchResult result
            (λ _. Stands a (left text.new) done low (side_with shared.now (Self.seen self.new)))
            (λ fault. StoppedWith (Self.seen self.old).reader.file a (left text.new) done fault
            (Self.seen self.new).reader.last × (last_of [] done ≡ low)) }
        ensures unread { OnErr result ((Self.seen self.old).ahead ≡ Lookahead.Unread) }
        ensures archive { OnOk result ((Self.seen self.new).reader.file ≡ (Self.seen self.old).reader.file) }
        ensures read { OnOk result ((Self.seen self.new).ahead ≢ Lookahead.Unread) }
        ensures few { OnOk result ((Self.seen self.new).reader.count < 2 ^ 63) }
        ensures less { OnOk result (weight (Self.seen self.new) ≤ weight (Self.seen self.old)) }
        ensures reader { FaultBlamesReader left failures text.old text.new result };
}

impl Side for MergeInput {
    ghost seen = { λ side. side };

    fn ahead(&self) -> Lookahead {
        self.ahead
    }

    fn compare(&self, item: &[u8]) -> Ordering {
        item.cmp(&self.reader.last())
    }

    fn put_last<W: Sink>(&self, w: &mut W, done: u128) -> Result<u128, WriteFault> {
        put(w, done, self.reader.last())
    }

    fn pass(&mut self) {
        self.ahead = Lookahead::Unread;
    }

    fn dropped(&self) -> bool {
        self.reader.dropped()
    }

    fn offset(&self) -> u128 {
        self.reader.offset()
    }

    fn wanted(&self) -> RecordFault {
        RecordFault::out_of_memory(self.reader.before_last())
    }

    fn retired(&self) -> &Retirements {
        self.reader.retired()
    }

    fn covered_by(&mut self, shared: &Retirements, retired: &Retirements) -> bool {
        self.reader.covered_by(shared, retired)
    }

    fn forget(&mut self, retirement: &[u8; RETIREMENT_LEN]) {
        self.reader.forget(retirement);
    }
}

impl<S: Source> ReadFrom<S> for MergeInput {
    ghost left = { λ s. S.left s };

    ghost failures = { λ s. S.failures s };

    fn begin(heap: &Heap, text: &mut S) -> Result<MergeInput, RecordFault> {
        let reader = RecordReader::begin(heap.share(), TextKind::Archive, text)?;
        Ok(MergeInput {
            reader,
            ahead: Lookahead::Unread,
        })
    }

    fn read_on(&mut self, text: &mut S, shared: &Retirements) -> Result<(), RecordFault> {
        match self.ahead {
            Lookahead::Unread => self.advance(text, shared),
            Lookahead::Held | Lookahead::Ended => Ok(()),
        }
    }
}
