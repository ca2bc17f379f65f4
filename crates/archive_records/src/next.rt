//! The next record, tested against the records before it.

ghost use Rattle.std.specs.Prelude.{◌≡◌, ◌≢◌, ◌<◌, ◌≤◌, ℕ, List, length, Ok, Err};
ghost use Rattle.std.specs.Prelude.{IfOk, IfErr, MatchResult, IsTrue, ◌↔◌, true, false};
ghost use Rattle.std.specs.Io.KnownBytes.{Consumes};
ghost use Rattle.archive_records.specs.declared.fault.RecordFaultKind.TheVariants.{Truncated, Device};
ghost use Rattle.archive_records.specs.declared.format.Format.TheVariants.{Archive, Operations};
ghost use Rattle.archive_records.specs.Kind.{may_follow, kind_of};
ghost use Rattle.archive_records.specs.Layout.{framed};
ghost use Rattle.archive_records.specs.Text.{end_record};
ghost use Rattle.archive_records.specs.Fault.{is_end, tested, next, RefusesSlice, Refuses};
ghost use Rattle.archive_records.specs.Fault.{FailsNext, IsUnended, IsOfText};
ghost use Rattle.archive_records.specs.Reader.{BlamesReader, bytes_so_far, seen_as, IsFound, IsFoundIn};
ghost use Rattle.archive_records.specs.Reader.{HoldsNext, IsStep, StepsTo, last_after, order_after};
ghost use Rattle.std.specs.Ordering.{nat_cmp};
ghost use Rattle.std.specs.Option.{option_map};
ghost use Rattle.std.specs.Cmp.Lexicographic.{slice_cmp};
ghost use Rattle.archive_core.specs.Record.{admission_record};

use crate::buffer::{Buffer, compare_bytes};
use crate::fault::RecordFaultKind;
use crate::format::Format;
use crate::frame::read_record;
use crate::head::{ADMISSION_HEAD_LEN, END, admission_head, has_key, record_count_of};
use archive_core::{RETIREMENT, Slice, SliceFacts};
use byte_device::Source;
use std::cmp::Ordering;

/// The result of a step of the reader.
#[derive(Clone, Copy)]
pub enum NextRecord {
    /// The end of the file.
    End,
    /// One more item. For an admission it has the facts from the check of the slice.
    Item(Option<SliceFacts>),
}

/// The tests of a whole record or end record. Returns whether it is the end record.
#[tactic(auto, unfolding(crate::specs::Fault::is_end))]
fn test(file: Format, allowed: bool, count: u64, bytes: &[u8]) -> Result<bool, RecordFaultKind>
    requires { framed file bytes.now ≡ Ok (length bytes.now) }
    ensures tested { (last : List ℕ) → allowed ≡ may_follow file last bytes.now
        → MatchResult result
        (λ _. tested file last count bytes.now (length bytes.now) ≡ Ok (length bytes.now))
        (λ kind. tested file last count bytes.now (length bytes.now) ≡ Err (seen_as kind)) }
    ensures end { IfOk result (λ end. end ≡ is_end bytes.now) }
    ensures end_is { IfOk result (λ end. end ≡ true → bytes.now ≡ end_record count) }
    ensures not_part { IfErr result (λ kind. (kind ≢ Truncated) × (kind ≢ Device)) }
{
    if bytes[0] == END {
        if record_count_of(bytes) == count {
            Ok(true)
        } else {
            Err(RecordFaultKind::BadCount)
        }
    } else if allowed {
        Ok(false)
    } else {
        Err(RecordFaultKind::NotAscending)
    }
}

/// Compares the admission of a slice with the bytes of a record.
fn compare_admission(slice: &Slice, bytes: &[u8]) -> Ordering
    ensures { result ≡ slice_cmp nat_cmp (admission_record slice.now) bytes.now }
{
    let head = admission_head(&slice.lend());
    let (front, rest) = bytes.split_at(bytes.len().min(ADMISSION_HEAD_LEN));
    match compare_bytes(&head, front) {
        Ordering::Equal => compare_bytes(slice.bytes(), rest),
        order => order,
    }
}

/// Compares the last record, whose slice may have been moved out of the buffer, with the whole record in the buffer.
fn order_after(taken: Option<&Slice>, buffer: &Buffer) -> Ordering
    ensures { result ≡ order_after (option_map (λ s. s.now) taken.entry) buffer.now }
{
    match taken {
        Some(slice) => compare_admission(slice, &buffer.bytes),
        None => buffer.order,
    }
}

/// Reads the next record or the end record over the last record, or after one whose slice was moved out of the buffer,
/// and returns whether it is the end record. The slice of an admission is not tested.
fn read_in_order<R: Source>(
    file: Format,
    r: &mut R,
    chunk: &mut [u8],
    buffer: &mut Buffer,
    taken: Option<&Slice>,
    count: u64,
) -> Result<bool, RecordFaultKind>
    requires { 0 < length chunk.old }
    ensures within { buffer.new.at ≤ length buffer.new.bytes.items }
    ensures taken { Consumes (R.left r.old) (R.left r.new) (bytes_so_far buffer.new) }
    ensures next { MatchResult result
        (λ end. HoldsNext file (last_after (option_map (λ s. s.now) taken.entry) buffer.old.bytes.items) count
        buffer.new
        × (end ≡ is_end (bytes_so_far buffer.new)) × (end ≡ true → bytes_so_far buffer.new ≡ end_record count))
        (λ kind. next file (last_after (option_map (λ s. s.now) taken.entry) buffer.old.bytes.items) count
        (bytes_so_far buffer.new) ≡ Err (seen_as kind)) }
    ensures reader { BlamesReader R.left R.failures r.old r.new result }
{
    read_record(file, r, chunk, buffer)?;
    buffer.bytes.truncate(buffer.at);
    let order = order_after(taken, buffer);
    test(file, file.allows(order), count, &buffer.bytes)
}

/// Tests whether the slice of a whole record is valid and has the record's key, and returns its facts.
fn test_slice(bytes: &[u8]) -> Result<Option<SliceFacts>, RecordFaultKind>
    requires whole { framed Archive bytes.now ≡ Ok (length bytes.now) }
    requires item { is_end bytes.now ≡ false }
    ensures found { IfOk result (λ found. IsFound bytes.now found) }
    ensures refused { IfErr result (λ kind. RefusesSlice bytes.now kind) }
{
    if bytes[0] == RETIREMENT {
        return Ok(None);
    }
    match Slice::check(&bytes[ADMISSION_HEAD_LEN..]) {
        Ok(slice) => {
            if has_key(bytes, &slice.key()) {
                Ok(Some(slice.facts()))
            } else {
                Err(RecordFaultKind::KeyMismatch)
            }
        }
        Err(fault) => Err(RecordFaultKind::BadSlice(fault)),
    }
}

/// Tests the fields of a whole item, and returns the facts of its slice.
fn test_item(file: Format, bytes: &[u8]) -> Result<Option<SliceFacts>, RecordFaultKind>
    requires whole { framed file bytes.now ≡ Ok (length bytes.now) }
    requires item { is_end bytes.now ≡ false }
    ensures found { IfOk result (λ found. IsFoundIn (kind_of file) bytes.now found) }
    ensures refused { IfErr result (λ kind. Refuses file bytes.now kind) }
{
    match file {
        Format::Summary => Ok(None),
        Format::Archive | Format::OldArchive | Format::Operations => test_slice(bytes),
    }
}

/// Reads the next record or the end record over the last record, or after one whose slice was moved out of the buffer.
fn read_tested<R: Source>(
    file: Format,
    r: &mut R,
    chunk: &mut [u8],
    buffer: &mut Buffer,
    taken: Option<&Slice>,
    count: u64,
) -> Result<NextRecord, RecordFaultKind>
    requires { 0 < length chunk.old }
    ensures within { buffer.new.at ≤ length buffer.new.bytes.items }
    ensures taken { Consumes (R.left r.old) (R.left r.new) (bytes_so_far buffer.new) }
    ensures step { IfOk result (λ step.
        HoldsNext file (last_after (option_map (λ s. s.now) taken.entry) buffer.old.bytes.items) count buffer.new
        × IsStep file count (bytes_so_far buffer.new) step) }
    ensures fails { IfErr result (λ kind.
        FailsNext file (last_after (option_map (λ s. s.now) taken.entry) buffer.old.bytes.items) count
        (bytes_so_far buffer.new) (seen_as kind)) }
    ensures reader { BlamesReader R.left R.failures r.old r.new result }
{
    let end = read_in_order(file, r, chunk, buffer, taken, count)?;
    if end {
        return Ok(NextRecord::End);
    }
    match test_item(file, &buffer.bytes) {
        Ok(found) => Ok(NextRecord::Item(found)),
        Err(kind) => Err(kind),
    }
}

/// Whether this fault of the next record, with this number of its bytes read, is the end of the file.
fn ends_file(file: Format, kind: RecordFaultKind, at: usize) -> bool
    ensures { IsTrue result ↔ ((kind ≡ Truncated) × (at ≡ 0) × (file ≡ Operations)) }
{
    kind == RecordFaultKind::Truncated && at == 0 && file.is_open()
}

/// Reads the next record over the last record, or after one whose slice was moved out of the buffer, or the end of the
/// file.
pub fn read_next<R: Source>(
    file: Format,
    r: &mut R,
    chunk: &mut [u8],
    buffer: &mut Buffer,
    taken: Option<&Slice>,
    count: u64,
) -> Result<NextRecord, RecordFaultKind>
    requires { 0 < length chunk.old }
    ensures taken { Consumes (R.left r.old) (R.left r.new) (bytes_so_far buffer.new) }
    ensures step { IfOk result (StepsTo file (last_after (option_map (λ s. s.now) taken.entry) buffer.old.bytes.items)
        count (R.left r.new) buffer.new) }
    ensures fails { IfErr result (λ kind.
        FailsNext file (last_after (option_map (λ s. s.now) taken.entry) buffer.old.bytes.items) count
        (bytes_so_far buffer.new) (seen_as kind)) }
    ensures unended { IfErr result (λ kind. IsOfText kind → IsUnended file (bytes_so_far buffer.new)) }
    ensures reader { BlamesReader R.left R.failures r.old r.new result }
{
    match read_tested(file, r, chunk, buffer, taken, count) {
        Ok(step) => Ok(step),
        Err(kind) => {
            if ends_file(file, kind, buffer.at) {
                Ok(NextRecord::End)
            } else {
                Err(kind)
            }
        }
    }
}
