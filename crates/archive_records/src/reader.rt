//! A reader of records from a source.

ghost use Rattle.std.specs.Prelude.{◌≡◌, ◌≢◌, ◌-◌, ◌<◌, ℕ, List, Option, Some, [], length, ◌⊎◌, true, false};
ghost use Rattle.std.specs.Prelude.{OnOk, IfOk, IfErr, ◌++◌, ◌≤◌, drop, option_map};
ghost use Rattle.std.specs.FinSet as set;
ghost use Rattle.archive_core.specs.Content.{is_covered};
ghost use Rattle.archive_core.specs.Record.{IsOperation, IsRecord, borrowed_bytes, operation_borrowed};
ghost use Rattle.std.specs.Io.KnownBytes.{Consumes, IsAtEnd};
ghost use Rattle.archive_records.specs.declared.format.Format.{Format};
ghost use Rattle.archive_records.specs.declared.format.Format.TheVariants.{Archive};
ghost use Rattle.archive_records.specs.declared.fault.RecordFaultKind.TheVariants.{Covered, OutOfMemory};
ghost use Rattle.archive_records.specs.Kind.{magic_of, kind_of, end_length};
ghost use Rattle.archive_records.specs.Reader.{Position, Bounds, Advances, BlamesReader, FaultBlamesReader, KeepsIn};
ghost use Rattle.archive_records.specs.Reader.{IsFoundIn, IsFoundOfLast, after_taken, beside, retirement_in, set_of};
ghost use Rattle.archive_records.specs.Reader.{with_shared};
ghost use Rattle.archive_records.specs.Reader.{Fills, bytes_so_far, StopsInMagicOf, HasRead, HasReadAll, Stopped};

use crate::buffer::{Buffer, fill};
use crate::fault::{RecordFault, RecordFaultKind};
use crate::format::Format;
use crate::head::{ADMISSION_HEAD_LEN, record_in};
use crate::kind::TextKind;
use crate::next::{NextRecord, read_next};
use crate::retired::{retirement_in, retires_beside, take};
use archive_core::{RETIREMENT_LEN, Record, Retirements, Slice, SliceFacts};
use byte_device::{Failed, PIECE_LEN, Source, is_at_end};
use heap_memory::{Heap, NoMemory};
use std::cmp::Ordering;
use std::marker::Model;
use std::mem;

/// The largest number of records in a file.
pub const MOST: u64 = 9223372036854775807;

/// The state of the reader: contracts see its position.
#[derive(Drop)]
pub struct RecordReader {
    file: Format,
    /// The last record.
    buffer: Buffer,
    /// The facts of its slice, if it has one.
    found: Option<SliceFacts>,
    /// The buffer for the next piece of a record.
    chunk: Vec<u8, Heap>,
    count: u64,
    /// The number of bytes of the magic and the records that were read.
    offset: u128,
    /// The retirements of an archive's text.
    retired: Retirements,
    /// Whether the last record is dropped.
    dropped: bool,
}

impl Model for RecordReader {
    ghost Value = { Position };

    ghost view = { λ r. record {
      file = r.file;
      last = r.buffer.bytes.items;
      count = r.count;
      offset = r.offset;
      retired = r.retired;
      dropped = r.dropped;
    } };

    ghost invariant = { λ r. Bounds (length r.chunk.items) r.count r.offset
        × IsFoundOfLast r.buffer.bytes.items r.found };
}

// A chunk of this number of bytes. Fails only if memory runs out.
fn chunk_of(size: usize, heap: &Heap) -> Result<Vec<u8, Heap>, NoMemory>
    ensures { IfOk result (λ chunk. length chunk.items ≡ size) }
{
    Ok(vec![in heap.share(); 0; size]?)
}

/// Reads the magic into the empty buffer, and returns its format.
fn read_magic<R: Source>(
    file: TextKind,
    r: &mut R,
    chunk: &mut [u8],
    buffer: &mut Buffer,
) -> Result<Format, RecordFaultKind>
    requires room { 0 < length chunk.old }
    requires start { buffer.old.at ≡ 0 }
    ensures fills { Fills (R.left r.old) (R.left r.new) buffer.old buffer.new }
    ensures magic { IfOk result (λ format.
        (kind_of format ≡ file) × (bytes_so_far buffer.new ≡ magic_of format)) }
    ensures stops { IfErr result (λ kind. StopsInMagicOf file (bytes_so_far buffer.new) kind) }
    ensures reader { BlamesReader R.left R.failures r.old r.new result }
{
    match fill(r, chunk, buffer, 8) {
        Ok(()) => match file.format_of(&buffer.bytes[..buffer.at]) {
            Some(format) => Ok(format),
            None => Err(RecordFaultKind::BadMagic),
        },
        Err(RecordFaultKind::Truncated) => {
            if file.magic_begins_with(&buffer.bytes[..buffer.at]) {
                Err(RecordFaultKind::Truncated)
            } else {
                Err(RecordFaultKind::BadMagic)
            }
        }
        Err(RecordFaultKind::Device) => Err(RecordFaultKind::Device),
        Err(_) => Err(RecordFaultKind::OutOfMemory),
    }
}

/// Whether one more item of an archive is dropped, by the retirements of the archive and the shared ones; if the item
/// is a retirement, it is added. In an archive of version 1 a covered item is dropped, and is no fault.
fn keep(
    file: Format,
    shared: Option<&Retirements>,
    retired: &mut Retirements,
    bytes: &[u8],
    found: &mut Option<SliceFacts>,
) -> Result<bool, RecordFaultKind>
    requires { IsFoundIn (kind_of file) bytes.now found.old }
    ensures found { IsFoundIn (kind_of file) bytes.now found.new }
    ensures kept { IfOk result (λ dropped. KeepsIn file (with_shared (option_map (λ s. s.now) shared.entry) retired.old)
        (with_shared (option_map (λ s. s.now) shared.entry) retired.new) dropped bytes.now) }
    ensures refused { IfErr result (λ kind.
        let there = is_covered (set_of (with_shared (option_map (λ s. s.now) shared.entry) retired.old)) bytes.now in
        ((kind ≡ OutOfMemory) × (there ≡ false)) ⊎ ((kind ≡ Covered) × (file ≡ Archive) × (there ≡ true))) }
{
    match file {
        Format::Operations | Format::Summary => Ok(false),
        Format::OldArchive => take(shared, retired, bytes, found),
        Format::Archive => match take(shared, retired, bytes, found) {
            Ok(true) => Err(RecordFaultKind::Covered),
            kept => kept,
        },
    }
}

/// The bytes after the head of an admission's record, in the same memory.
fn without_head(mut whole: Vec<u8, Heap>) -> Vec<u8, Heap>
    requires { 33 ≤ length whole.items }
    ensures { result.items ≡ drop 33 whole.items }
{
    let length = whole.len() - ADMISSION_HEAD_LEN;
    whole.copy_within(ADMISSION_HEAD_LEN.., 0);
    whole.truncate(length);
    whole.shrink_to_fit();
    whole
}

impl RecordReader {
    /// Reads the magic.
    pub fn begin<R: Source>(
        heap: Heap,
        file: TextKind,
        r: &mut R,
    ) -> Result<RecordReader, RecordFault>
        ensures read { IfOk result (λ reader. HasRead reader.file (R.left r.old) (R.left r.new) [] reader) }
        ensures kind { IfOk result (λ reader. kind_of reader.file ≡ file) }
        ensures start { IfErr result (λ fault. fault.offset ≡ 0) }
        ensures stops { IfErr result (λ fault. (bytes : List ℕ) × Consumes (R.left r.old) (R.left r.new) bytes
            × StopsInMagicOf file bytes fault.kind) }
        ensures reader { FaultBlamesReader R.left R.failures r.old r.new result }
    {
        let Ok(mut chunk) = chunk_of(PIECE_LEN, &heap) else {
            return Err(RecordFault::out_of_memory(0));
        };
        let retired = Retirements::none(&heap);
        let mut buffer = Buffer {
            bytes: Vec::new(heap),
            at: 0,
            order: Ordering::Equal,
        };
        let file = match read_magic(file, r, &mut chunk, &mut buffer) {
            Ok(format) => format,
            Err(kind) => return Err(RecordFault { kind, offset: 0 }),
        };
        buffer.bytes.clear();
        Ok(RecordReader {
            file,
            buffer,
            found: None,
            chunk,
            count: 0,
            offset: 8,
            retired,
            dropped: false,
        })
    }

    /// The last record.
    pub fn last(&self) -> &[u8]
        ensures { result.now ≡ self.now.last }
    {
        &self.buffer.bytes
    }

    /// The last record, borrowed. Its slice is not tested again.
    pub fn record(&self) -> Record<'_>
        requires { IsRecord self.now.last }
        ensures bytes { borrowed_bytes result ≡ self.now.last }
        ensures operation { IsOperation (operation_borrowed result) }
    {
        record_in(&self.buffer.bytes, self.found)
    }

    /// Moves the slice of the last record, if that is an admission, out of the reader, which then has no last record.
    /// The next record is read by [`RecordReader::advance_after`].
    pub fn take_slice(&mut self) -> Option<Slice>
        ensures { after_taken result self.new ≡ self.old }
    {
        let Some(facts) = self.found.take() else {
            return None;
        };
        let heap = self.buffer.bytes.allocator().share();
        let whole = mem::replace(&mut self.buffer.bytes, Vec::new(heap));
        Some(Slice::of_checked(without_head(whole), facts))
    }

    /// Whether the last record is dropped: a slice in an archive of version 1 that a retirement before it covers.
    pub fn dropped(&self) -> bool
        ensures { result ≡ self.now.dropped }
    {
        self.dropped
    }

    /// The number of bytes of the magic and the records that were read.
    pub fn offset(&self) -> u128
        ensures { result ≡ self.now.offset }
    {
        self.offset
    }

    /// The number of these bytes before the last record.
    pub fn before_last(&self) -> u128
        ensures { result ≡ self.now.offset - length self.now.last }
    {
        self.offset.saturating_sub(self.buffer.bytes.len() as u128)
    }

    /// The retirements of an archive's text that were read, without those that were forgotten.
    pub fn retired(&self) -> &Retirements
        ensures { result.now ≡ self.now.retired }
    {
        &self.retired
    }

    /// Whether one of the retirements in either set covers the last record. The slice is hashed if one of them has its
    /// key, and it was not hashed before.
    pub fn covered_by(&mut self, shared: &Retirements, retired: &Retirements) -> bool
        ensures covered { IsRecord self.old.last
            → result ≡ is_covered (set_of (shared.now ++ retired.now)) self.old.last }
        ensures same { self.new ≡ self.old }
    {
        retires_beside(Some(shared), retired, &self.buffer.bytes, &mut self.found)
    }

    /// The last record, if it is a retirement.
    pub fn last_retirement(&self) -> Option<[u8; RETIREMENT_LEN]>
        ensures { result ≡ retirement_in self.now.last }
    {
        retirement_in(&self.buffer.bytes)
    }

    /// Forgets a retirement that is also kept elsewhere, if it is the last that was read.
    pub fn forget(&mut self, retirement: &[u8; RETIREMENT_LEN])
        ensures same { self.new ≡ record self.old { retired = self.new.retired } }
        ensures others { set.insert (set_of self.new.retired) retirement.now
            ≡ set.insert (set_of self.old.retired) retirement.now }
    {
        self.retired.forget(retirement);
    }

    /// Reads the next record over the last one, or the end of the file. If memory runs out after a whole record, that
    /// is the last record; if it runs out before, there is no last record.
    pub fn advance<R: Source>(&mut self, r: &mut R) -> Result<NextRecord, RecordFault>
        ensures { Advances R.left R.failures r.old r.new self.old self.new result }
    {
        self.advance_beside(r, None)
    }

    /// The same, after the slice of the last record was moved out of the reader.
    pub fn advance_after<R: Source>(
        &mut self,
        r: &mut R,
        taken: Option<&Slice>,
    ) -> Result<NextRecord, RecordFault>
        ensures { Advances R.left R.failures r.old r.new (after_taken (option_map (λ s. s.now) taken.entry) self.old)
            self.new result }
    {
        self.advance_by(r, None, taken)
    }

    /// The same for a reader that shares retirements with another: they count as its own.
    pub fn advance_beside<R: Source>(
        &mut self,
        r: &mut R,
        shared: Option<&Retirements>,
    ) -> Result<NextRecord, RecordFault>
        ensures { Advances R.left R.failures r.old r.new (beside (option_map (λ s. s.now) shared.entry) self.old)
            (beside (option_map (λ s. s.now) shared.entry) self.new) result }
    {
        self.advance_by(r, shared, None)
    }

    // The same for both cases.
    fn advance_by<R: Source>(
        &mut self,
        r: &mut R,
        shared: Option<&Retirements>,
        taken: Option<&Slice>,
    ) -> Result<NextRecord, RecordFault>
        ensures { Advances R.left R.failures r.old r.new
            (beside (option_map (λ s. s.now) shared.entry) (after_taken (option_map (λ s. s.now) taken.entry) self.old))
            (beside (option_map (λ s. s.now) shared.entry) self.new) result }
    {
        let offset = self.offset;
        self.found = None;
        match read_next(
            self.file,
            r,
            &mut self.chunk,
            &mut self.buffer,
            taken,
            self.count,
        ) {
            Ok(NextRecord::End) => {
                self.buffer.bytes.clear();
                Ok(NextRecord::End)
            }
            Ok(NextRecord::Item(found)) => {
                self.found = found;
                match keep(
                    self.file,
                    shared,
                    &mut self.retired,
                    &self.buffer.bytes,
                    &mut self.found,
                ) {
                    Ok(dropped) => self.dropped = dropped,
                    Err(kind) => return Err(RecordFault { kind, offset }),
                }
                // After all tests of the record: a fault of the text comes before `OutOfMemory`.
                if self.count == MOST {
                    return Err(RecordFault::out_of_memory(offset));
                }
                self.count += 1;
                self.offset += self.buffer.bytes.len() as u128;
                Ok(NextRecord::Item(self.found))
            }
            Err(kind) => {
                self.buffer.bytes.clear();
                Err(RecordFault { kind, offset })
            }
        }
    }

    /// Checks that the input ends after the end record.
    pub fn finish<R: Source>(&self, r: &mut R) -> Result<(), RecordFault>
        ensures at_end { OnOk result (IsAtEnd (R.left r.new) × Consumes (R.left r.old) (R.left r.new) []) }
        ensures stopped { IfErr result (λ fault. (file : Format) (a : Option (List ℕ)) (records : List (List ℕ))
            → end_length file ≡ Some 9 → HasReadAll file a (R.left r.old) records self.now
            → Stopped file a (R.left r.new) records fault) }
        ensures stopped_beside { IfErr result (λ fault. (shared : Option (List (List ℕ))) (file : Format)
            (a : Option (List ℕ)) (records : List (List ℕ)) → end_length file ≡ Some 9
            → HasReadAll file a (R.left r.old) records (beside shared self.now)
            → Stopped file a (R.left r.new) records fault) }
        ensures memory { IfErr result (λ fault. fault.kind ≢ OutOfMemory) }
        ensures reader { FaultBlamesReader R.left R.failures r.old r.new result }
    {
        match is_at_end(r) {
            Ok(true) => Ok(()),
            Ok(false) => Err(RecordFault {
                kind: RecordFaultKind::Trailing,
                offset: self.offset + 9,
            }),
            Err(Failed) => Err(RecordFault {
                kind: RecordFaultKind::Device,
                offset: self.offset,
            }),
        }
    }
}
