//! Operations in memory, read as if they were a text.

ghost use Rattle.std.specs.Prelude.{◌≡◌, ◌+◌, ◌<◌, ◌^◌, ◌++◌, ℕ, List, [], length, map, true, false};
ghost use Rattle.std.specs.Prelude.{Some, None, IfOk, IfSome};
ghost use Rattle.std.specs.Ordering.{nat_cmp};
ghost use Rattle.std.specs.Cmp.Lexicographic.{slice_cmp};
ghost use Rattle.archive_core.specs.Content.{is_covered};
ghost use Rattle.archive_core.specs.Record.{IsOperation, admission_record, borrowed_bytes, operation_borrowed};
ghost use Rattle.archive_core.specs.Record.{record_bytes};
ghost use Rattle.archive_records.specs.declared.format.Format.TheVariants.{OldArchive};
ghost use Rattle.archive_records.specs.Kind.{may_follow, old_magic};
ghost use Rattle.archive_records.specs.Reader.{Keeps, beside, set_of};
ghost use Rattle.archive_records.specs.Text.{end_record, text_of};
ghost use Rattle.archive_merge.specs.Borrowed.{AdvancesTo, last_bytes, left_of, seen_of};

use crate::side::{Lookahead, MergeInput, ReadFrom, Side};
use archive_core::{CheckedSlice, Operation, RETIREMENT_LEN, Record, Retirements, retirement};
use archive_records::{
    MAGIC_LEN, MOST, RecordFault, RecordFaultKind, admission_head, put_record, retirement_bytes,
};
use byte_device::{Sink, WriteFault};
use heap_memory::{Heap, NoMemory};
use std::cmp::Ordering;

/// The part of a text that was read.
#[derive(Clone, Copy, Debug, PartialEq, Eq)]
enum Part {
    /// Nothing.
    None,
    /// The magic, and some records after it.
    Records,
    /// The whole text.
    All,
}

/// The text of an archive of version 1 with these operations, some of which may be covered. Its bytes never exist: a
/// [`BorrowedSide`] reads the records from where they are.
#[derive(Drop)]
pub struct BorrowedText<'a> {
    taken: Part,
    /// The number of records that were read.
    count: u64,
    rest: &'a [Operation],
}

impl<'a> BorrowedText<'a> {
    /// Creates the text of these operations, which must strictly ascend by their records.
    pub fn new(operations: &'a [Operation]) -> Self
        ensures { left_of result ≡ text_of OldArchive (map record_bytes operations.now) }
    {
        BorrowedText {
            taken: Part::None,
            count: 0,
            rest: operations,
        }
    }

    /// Reads the magic. Returns false if something was read before.
    fn take_magic(&mut self) -> bool
        ensures taken { result ≡ true → left_of self.old ≡ old_magic ++ left_of self.new }
        ensures same { result ≡ false → self.new ≡ self.old }
    {
        if self.taken != Part::None {
            return false;
        }
        self.taken = Part::Records;
        true
    }

    /// Whether exactly the magic and this number of records were read.
    fn has_taken_just(&self, count: u64) -> bool
        ensures taken { result ≡ true → self.now.taken ≡ Part.Records }
        ensures count { result ≡ true → self.now.count ≡ count }
    {
        self.taken == Part::Records && self.count == count
    }

    /// Reads the next record, or the end record.
    fn take_next(&mut self) -> Option<Record<'a>>
        requires taken { self.old.taken ≡ Part.Records }
        requires few { self.old.count < 2 ^ 63 }
        ensures some { IfSome result (λ item. left_of self.old ≡ borrowed_bytes item ++ left_of self.new) }
        ensures none { result ≡ None → left_of self.old ≡ end_record self.old.count }
        ensures all { result ≡ None → left_of self.new ≡ [] }
    {
        match self.rest.split_first() {
            Some((next, rest)) => {
                self.rest = rest;
                self.count += 1;
                Some(next.lend())
            }
            None => {
                self.taken = Part::All;
                None
            }
        }
    }
}

/// Proves that a borrowed operation is an operation.
fn show_operation(item: &Record<'_>)
    ensures { IsOperation (operation_borrowed item.now) }
{
    match item {
        Record::Admit(slice) => {
            let _bytes = slice.bytes();
        }
        Record::Retire(key, digest) => {
            let _retirement = retirement(*key, *digest);
        }
    }
}

/// The length of an operation's record in bytes.
fn length_of(item: &Record<'_>) -> u64
    ensures { result ≡ length (borrowed_bytes item.now) }
{
    match item {
        Record::Admit(slice) => admission_head(slice).len() as u64 + slice.bytes().len() as u64,
        Record::Retire(key, digest) => retirement_bytes(key, digest).len() as u64,
    }
}

/// Compares a record with one in two parts.
fn compare_parts(item: &[u8], front: &[u8], rest: &[u8]) -> Ordering
    ensures { result ≡ slice_cmp nat_cmp item.now (front.now ++ rest.now) }
{
    let (head, tail) = item.split_at(front.len().min(item.len()));
    match head.cmp(&front) {
        Ordering::Equal => tail.cmp(&rest),
        order => order,
    }
}

/// Compares a record with that of an operation.
fn compare_record(item: &[u8], last: &Record<'_>) -> Ordering
    ensures { result ≡ slice_cmp nat_cmp item.now (borrowed_bytes last.now) }
{
    match last {
        Record::Admit(slice) => compare_parts(item, &admission_head(slice), slice.bytes()),
        Record::Retire(key, digest) => compare_parts(item, &retirement_bytes(key, digest), &[]),
    }
}

/// Whether a record may follow the last one, if there is one.
#[tactic(auto, unfolding(archive_records::specs::Kind::may_follow, archive_records::specs::Kind::allows))]
fn may_follow(last: &Option<Record<'_>>, next: &Record<'_>) -> bool
    ensures { result ≡ may_follow OldArchive (last_bytes last.now) (borrowed_bytes next.now) }
{
    match last {
        Some(last) => last.compare(next) == Ordering::Less,
        None => true,
    }
}

/// Whether one of these retirements covers the slice. If the slice's digest is needed, it is computed and kept.
fn covers_slice(retirements: &Retirements, slice: &mut CheckedSlice<'_>) -> bool
    ensures covered { result ≡ is_covered (set_of retirements.now) (admission_record slice.old) }
    ensures same { slice.new ≡ slice.old }
{
    let _bytes = slice.bytes();
    retirements.covers(slice)
}

/// Whether one of these retirements covers the record.
fn covers(shared: &Retirements, retired: &Retirements, item: &mut Record<'_>) -> bool
    ensures covered { result ≡ is_covered (set_of (shared.now ++ retired.now)) (borrowed_bytes item.old) }
    ensures same { item.new ≡ item.old }
{
    match item {
        Record::Admit(slice) => covers_slice(retired, slice) || covers_slice(shared, slice),
        Record::Retire(_, _) => false,
    }
}

/// Adds the record if it is a retirement, and returns whether a retirement, own or shared, covers it.
fn keep(
    shared: &Retirements,
    retired: &mut Retirements,
    next: &mut Record<'_>,
) -> Result<bool, NoMemory>
    ensures kept { IfOk result (λ dropped. Keeps (shared.now ++ retired.old) (shared.now ++ retired.new) dropped
        (borrowed_bytes next.old)) }
    ensures same { next.new ≡ next.old }
{
    if let Record::Retire(key, digest) = next {
        retired.keep(retirement_bytes(key, digest))?;
        return Ok(false);
    }
    Ok(covers(shared, retired, next))
}

/// A side of a merge whose records are operations in memory. None is copied, no slice is checked again, and each is
/// hashed at most once.
#[derive(Drop)]
pub struct BorrowedSide<'a> {
    last: Option<Record<'a>>,
    ahead: Lookahead,
    count: u64,
    offset: u128,
    retired: Retirements,
    dropped: bool,
}

impl<'a> BorrowedSide<'a> {
    /// The fault `OutOfMemory` at the offset that was reached.
    fn refused(&self) -> RecordFault
        ensures { result ≡ record { kind = RecordFaultKind.OutOfMemory; offset = self.now.offset } }
    {
        RecordFault::out_of_memory(self.offset)
    }

    /// Reads the next record over the last one.
    fn take(&mut self, next: Record<'a>, shared: &Retirements) -> Result<(), RecordFault>
        requires few { self.old.count + 1 < 2 ^ 63 }
        ensures { (rest : List ℕ) → AdvancesTo (Some (borrowed_bytes next.entry ++ rest)) (Some rest)
            (beside (Some shared.now) (seen_of self.old).reader) (beside (Some shared.now) (seen_of self.new).reader)
            self.new.ahead result }
    {
        let mut next = next;
        show_operation(&next);
        if !may_follow(&self.last, &next) {
            return Err(RecordFault {
                kind: RecordFaultKind::NotAscending,
                offset: self.offset,
            });
        }
        let kept = keep(shared, &mut self.retired, &mut next);
        let length = length_of(&next);
        self.last = Some(next);
        let Ok(dropped) = kept else {
            return Err(self.refused());
        };
        let Some(offset) = self.offset.checked_add(length as u128) else {
            return Err(self.refused());
        };
        self.dropped = dropped;
        self.count += 1;
        self.offset = offset;
        self.ahead = Lookahead::Held;
        Ok(())
    }

    /// Reads the next record over the last one, or the end record. From a text that another side has begun nothing is
    /// read: it is refused with `OutOfMemory`.
    fn advance(
        &mut self,
        text: &mut BorrowedText<'a>,
        shared: &Retirements,
    ) -> Result<(), RecordFault>
        requires few { self.old.count < 2 ^ 63 }
        ensures { AdvancesTo (Some (left_of text.old)) (Some (left_of text.new))
            (beside (Some shared.now) (seen_of self.old).reader) (beside (Some shared.now) (seen_of self.new).reader)
            self.new.ahead result }
    {
        if !text.has_taken_just(self.count) || self.count == MOST {
            self.last = None;
            return Err(self.refused());
        }
        match text.take_next() {
            Some(next) => self.take(next, shared),
            None => {
                self.last = None;
                self.ahead = Lookahead::Ended;
                Ok(())
            }
        }
    }
}

impl<'a> Side for BorrowedSide<'a> {
    ghost seen = { λ side. seen_of side };

    fn ahead(&self) -> Lookahead {
        self.ahead
    }

    fn compare(&self, item: &[u8]) -> Ordering {
        match &self.last {
            Some(last) => compare_record(item, last),
            None => compare_parts(item, &[], &[]),
        }
    }

    fn put_last<W: Sink>(&self, w: &mut W, done: u128) -> Result<u128, WriteFault> {
        match &self.last {
            Some(item) => put_record(w, done, item),
            None => Ok(done),
        }
    }

    fn pass(&mut self) {
        self.ahead = Lookahead::Unread;
    }

    fn dropped(&self) -> bool {
        self.dropped
    }

    fn offset(&self) -> u128 {
        self.offset
    }

    fn wanted(&self) -> RecordFault {
        let length = match &self.last {
            Some(item) => length_of(item),
            None => 0,
        };
        RecordFault::out_of_memory(self.offset.saturating_sub(length as u128))
    }

    fn retired(&self) -> &Retirements {
        &self.retired
    }

    fn covered_by(&mut self, shared: &Retirements, retired: &Retirements) -> bool {
        match &mut self.last {
            Some(item) => covers(shared, retired, item),
            None => false,
        }
    }

    fn forget(&mut self, retirement: &[u8; RETIREMENT_LEN]) {
        self.retired.forget(retirement);
    }
}

impl<'a> ReadFrom<BorrowedText<'a>> for BorrowedSide<'a> {
    ghost left = { λ text. Some (left_of text) };

    ghost failures = { λ _. 0 };

    fn begin(heap: &Heap, text: &mut BorrowedText<'a>) -> Result<BorrowedSide<'a>, RecordFault> {
        if !text.take_magic() {
            return Err(RecordFault::out_of_memory(0));
        }
        Ok(BorrowedSide {
            last: None,
            ahead: Lookahead::Unread,
            count: 0,
            offset: MAGIC_LEN,
            retired: Retirements::none(heap),
            dropped: false,
        })
    }

    fn read_on(
        &mut self,
        text: &mut BorrowedText<'a>,
        shared: &Retirements,
    ) -> Result<(), RecordFault> {
        match self.ahead {
            Lookahead::Unread => self.advance(text, shared),
            Lookahead::Held | Lookahead::Ended => Ok(()),
        }
    }
}
