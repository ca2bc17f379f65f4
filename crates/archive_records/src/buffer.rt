//! A buffer that reads each record from a source over the last one.

ghost use Rattle.std.specs.Prelude.{◌≡◌, ◌≢◌, ◌+◌, ◌^◌, ◌<◌, ◌≤◌, ◌++◌, MatchResult};
ghost use Rattle.std.specs.Prelude.{ℕ, length, take, drop, vec_capacity};
ghost use Rattle.std.specs.Ordering.{nat_cmp, ordering_then};
ghost use Rattle.std.specs.Cmp.Lexicographic.{slice_cmp};
ghost use Rattle.std.specs.declared.cmp.Ordering.TheVariants.{Equal};
ghost use Rattle.archive_records.specs.declared.fault.RecordFaultKind.TheVariants.{Truncated};
ghost use Rattle.archive_records.specs.Reader.{BlamesReader, Fills, Pulls, seen_as};

use crate::fault::RecordFaultKind;
use byte_device::{Failed, Source, make_room};
use heap_memory::{Heap, NoMemory};
use std::cmp::Ordering;

/// A record that is being read: its first `at` bytes, and after them the rest of the last record.
#[derive(Drop)]
pub struct Buffer {
    pub bytes: Vec<u8, Heap>,
    pub at: usize,
    /// How the front of the last record compares with the bytes that were read.
    pub order: Ordering,
}

/// Compares a with b in byte order.
pub fn compare_bytes(a: &[u8], b: &[u8]) -> Ordering
    ensures { result ≡ slice_cmp nat_cmp a.now b.now }
{
    a.cmp(&b)
}

/// Writes the bytes over those from `at`. Returns how the old bytes compare with the new ones; `order` is the result
/// for the bytes before `at`.
fn write_over(under: &mut Vec<u8, Heap>, at: usize, order: Ordering, bytes: &[u8]) -> Ordering
    requires within { at ≤ length under.old.items }
    requires room { at + length bytes.now ≤ vec_capacity under.old }
    ensures written { under.new.items
        ≡ take at under.old.items ++ (bytes.now ++ drop (at + length bytes.now) under.old.items) }
    ensures order { result
        ≡ ordering_then order (slice_cmp nat_cmp (take (length bytes.now) (drop at under.old.items)) bytes.now) }
{
    let over = bytes.len().min(under.len() - at);
    let order = match order {
        Ordering::Equal => compare_bytes(&under[at..at + over], bytes),
        _ => order,
    };
    let (front, back) = bytes.split_at(over);
    under[at..at + over].copy_from_slice(front);
    under.extend_from_slice(back).unwrap();
    order
}

/// Pulls a piece of a record into the chunk, and writes it over the last record.
fn pull_over<R: Source>(r: &mut R, chunk: &mut [u8], buffer: &mut Buffer) -> Result<usize, Failed>
    requires within { buffer.old.at ≤ length buffer.old.bytes.items }
    requires room { buffer.old.at + length chunk.old ≤ vec_capacity buffer.old.bytes }
    ensures { Pulls R.left R.failures r.old r.new buffer.old buffer.new (length chunk.old) result }
{
    let n = r.pull(chunk)?;
    buffer.order = write_over(&mut buffer.bytes, buffer.at, buffer.order, &chunk[..n]);
    buffer.at += n;
    Ok(n)
}

/// Extends the bytes to this length, within their capacity, if they are shorter.
fn lengthen(bytes: &mut Vec<u8, Heap>, count: usize)
    requires room { count ≤ vec_capacity bytes.old }
    ensures long { count ≤ length bytes.new.items }
    ensures front { (at : ℕ) → at ≤ length bytes.old.items → take at bytes.new.items ≡ take at bytes.old.items }
{
    if bytes.len() < count {
        bytes.resize(count, 0).unwrap();
    }
}

/// Pulls a piece of a record straight into the buffer, after bytes that differ from the last record.
fn pull_after<R: Source>(r: &mut R, want: usize, buffer: &mut Buffer) -> Result<usize, Failed>
    requires within { buffer.old.at ≤ length buffer.old.bytes.items }
    requires room { buffer.old.at + want ≤ vec_capacity buffer.old.bytes }
    requires differs { buffer.old.order ≢ Equal }
    ensures { Pulls R.left R.failures r.old r.new buffer.old buffer.new want result }
{
    let end = buffer.at + want;
    lengthen(&mut buffer.bytes, end);
    let n = r.pull(&mut buffer.bytes[buffer.at..end])?;
    buffer.at += n;
    Ok(n)
}

/// Pulls a piece of a record, of at most the chunk's length.
fn pull_piece<R: Source>(r: &mut R, chunk: &mut [u8], buffer: &mut Buffer) -> Result<usize, Failed>
    requires within { buffer.old.at ≤ length buffer.old.bytes.items }
    requires room { buffer.old.at + length chunk.old ≤ vec_capacity buffer.old.bytes }
    ensures { Pulls R.left R.failures r.old r.new buffer.old buffer.new (length chunk.old) result }
{
    match buffer.order {
        Ordering::Equal => pull_over(r, chunk, buffer),
        _ => pull_after(r, chunk.len(), buffer),
    }
}

/// Reads this number of bytes over the buffer, in pieces of at most the chunk's length. They go through the chunk while
/// the record may equal the last one, and afterwards straight into the buffer.
pub fn fill<R: Source>(
    r: &mut R,
    chunk: &mut [u8],
    buffer: &mut Buffer,
    count: usize,
) -> Result<(), RecordFaultKind>
    requires room { 0 < length chunk.old }
    requires within { buffer.old.at ≤ length buffer.old.bytes.items }
    requires fits { buffer.old.at + count < 2 ^ 64 }
    ensures fills { Fills (R.left r.old) (R.left r.new) buffer.old buffer.new }
    ensures came { MatchResult result (λ _. buffer.new.at ≡ buffer.old.at + count)
        (λ kind. (buffer.new.at < buffer.old.at + count) × (seen_as kind ≡ Truncated)) }
    ensures reader { BlamesReader R.left R.failures r.old r.new result }
{
    let end = buffer.at + count;
    'filling: while buffer.at < end {
        let want = (end - buffer.at).min(chunk.len());
        let most = end.max(chunk.len());
        if let Err(NoMemory) = make_room(&mut buffer.bytes, buffer.at + want, most) {
            return Err(RecordFaultKind::OutOfMemory);
        }
        match pull_piece(r, &mut chunk[..want], buffer) {
            Ok(0) => return Err(RecordFaultKind::Truncated),
            Ok(_) => {}
            Err(Failed) => return Err(RecordFaultKind::Device),
        }
    }
    Ok(())
}
