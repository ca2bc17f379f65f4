//! Writes archives, summaries and deltas to a sink. If it fails, it has accepted the first `written` bytes of the text,
//! which are fewer than all.

ghost use Rattle.std.specs.Prelude.{◌≡◌, ◌+◌, ◌<◌, ◌≤◌, ◌^◌, ◌++◌, ◌∷◌, [], length, take, map, OnOk, IfOk};
ghost use Rattle.std.specs.FinSet as set;
ghost use Rattle.std.specs.List.{concat};
ghost use Rattle.join_core.specs.Listing.{listing};
ghost use Rattle.byte_device.specs.Writes.{Puts};
ghost use Rattle.archive_core.specs.Content.{IsContent};
ghost use Rattle.archive_core.specs.Record.{borrowed_bytes};
ghost use Rattle.archive_core.specs.Summary.{delta};
ghost use Rattle.archive_records.specs.Entry.{entry_bytes};
ghost use Rattle.archive_records.specs.Kind.{magic, summary_magic};
ghost use Rattle.archive_records.specs.Text.{end_record, missing, written, summary_text};
ghost use Rattle.archive_records.specs.Writing.{Writes};

use crate::entry::Entry;
use crate::format::Format;
use crate::head::{admission_head, end_bytes};
use crate::summary::Summary;
use archive_core::{Archive, Record, retirement_bytes};
use byte_device::{Sink, WriteFault, put};

/// The size of a text: the number of its records, and of its bytes from the magic to the end record.
#[derive(Clone, Copy, Debug, PartialEq, Eq)]
pub struct Sizes {
    pub records: u64,
    pub bytes: u128,
}

/// A record of at most this number of bytes is written in one push.
const SMALL_RECORD: usize = 1024;

/// Copies two parts into the buffer, one after the other.
fn lay_both(room: &mut [u8], head: &[u8], body: &[u8])
    requires { length (head.now ++ body.now) ≤ length room.old }
    ensures laid { take (length (head.now ++ body.now)) room.new ≡ head.now ++ body.now }
    ensures room { length room.new ≡ length room.old }
{
    let end = head.len() + body.len();
    room[..head.len()].copy_from_slice(head);
    room[head.len()..end].copy_from_slice(body);
}

/// Writes two small parts of a text, one after the other, in one push.
fn put_together<W: Sink>(
    w: &mut W,
    done: u128,
    head: &[u8],
    body: &[u8],
) -> Result<u128, WriteFault>
    requires fits { done + length (head.now ++ body.now) < 2 ^ 128 }
    requires small { length (head.now ++ body.now) ≤ 1024 }
    ensures { Puts W.held W.failures (λ n. n) w.old w.new done (head.now ++ body.now) result }
{
    let mut room = [0; SMALL_RECORD];
    lay_both(&mut room, head, body);
    put(w, done, &room[..head.len() + body.len()])
}

/// Writes two parts of a text, one after the other.
fn put_both<W: Sink>(w: &mut W, done: u128, head: &[u8], body: &[u8]) -> Result<u128, WriteFault>
    requires { done + length (head.now ++ body.now) < 2 ^ 128 }
    ensures { Puts W.held W.failures (λ n. n) w.old w.new done (head.now ++ body.now) result }
{
    if head.len() <= SMALL_RECORD && body.len() <= SMALL_RECORD - head.len() {
        return put_together(w, done, head, body);
    }
    let done = put(w, done, head)?;
    put(w, done, body)
}

/// Writes the record after the first `done` bytes of a text, and returns the new number of bytes. No slice is copied.
pub fn put_record<W: Sink>(w: &mut W, done: u128, item: &Record<'_>) -> Result<u128, WriteFault>
    requires { done + 2 ^ 33 < 2 ^ 128 }
    ensures puts { Puts W.held W.failures (λ n. n) w.old w.new done (borrowed_bytes item.now) result }
    ensures short { IfOk result (λ n. n ≤ done + 2 ^ 33) }
{
    match item {
        Record::Admit(slice) => put_both(w, done, &admission_head(slice), slice.bytes()),
        Record::Retire(key, digest) => put(w, done, &retirement_bytes(key, digest)),
    }
}

/// Writes the records in ascending order after the first `done` bytes of a text.
fn put_records<A: Archive, W: Sink>(archive: &A, w: &mut W, done: u128) -> Result<u128, WriteFault>
    requires { done ≤ 8 }
    ensures puts { Puts W.held W.failures (λ n. n) w.old w.new done (concat (listing (A.content archive.now))) result }
    ensures short { IfOk result (λ n. n ≤ 2 ^ 98) }
{
    let mut done = done;
    'putting: for i in 0..archive.len() {
        done = put_record(w, done, &archive.record_at(i))?;
    }
    Ok(done)
}

/// Writes the magic and the records.
fn put_front<A: Archive, W: Sink>(archive: &A, w: &mut W) -> Result<u128, WriteFault>
    ensures puts { Puts W.held W.failures (λ n. n) w.old w.new 0 (magic ++ concat (listing (A.content archive.now)))
        result }
    ensures short { IfOk result (λ n. n ≤ 2 ^ 98) }
{
    let done = put(w, 0, &Format::Archive.magic())?;
    put_records(archive, w, done)
}

/// Writes the end record after the first `done` bytes of a text.
pub fn put_end<W: Sink>(w: &mut W, done: u128, records: u64) -> Result<Sizes, WriteFault>
    requires { done + 9 < 2 ^ 128 }
    ensures puts { Puts W.held W.failures (λ sizes. sizes.bytes) w.old w.new done (end_record records) result }
    ensures records { IfOk result (λ sizes. sizes.records ≡ records) }
{
    let bytes = put(w, done, &end_bytes(records))?;
    Ok(Sizes { records, bytes })
}

/// Writes the archive's text, and returns its size. It allocates no memory.
pub fn write_archive<A: Archive, W: Sink>(archive: &A, w: &mut W) -> Result<Sizes, WriteFault>
    ensures writes { Writes W.held W.failures w.old w.new
        (set.len (A.content archive.now)) (written (A.content archive.now)) result }
    ensures content { OnOk result (IsContent (A.content archive.now)) }
{
    let done = put_front(archive, w)?;
    put_end(w, done, archive.len())
}

/// Writes the entries in their order after the first `done` bytes of a text.
fn put_entries<W: Sink>(entries: &[Entry], w: &mut W, done: u128) -> Result<u128, WriteFault>
    requires { done ≤ 8 }
    ensures puts { Puts W.held W.failures (λ n. n) w.old w.new done (concat (map entry_bytes entries.now)) result }
    ensures short { IfOk result (λ n. n ≤ 2 ^ 98) }
{
    let mut done = done;
    'putting: for entry in entries {
        done = put(w, done, &entry.bytes())?;
    }
    Ok(done)
}

/// Writes the magic and the entries.
fn put_summary_front<W: Sink>(summary: &Summary, w: &mut W) -> Result<u128, WriteFault>
    ensures puts { Puts W.held W.failures (λ n. n) w.old w.new 0 (summary_magic ++ concat (listing summary.now))
        result }
    ensures short { IfOk result (λ n. n ≤ 2 ^ 98) }
{
    let done = put(w, 0, &Format::Summary.magic())?;
    put_entries(summary.entries(), w, done)
}

/// Writes the summary's text, and returns its size. It allocates no memory.
pub fn write_summary<W: Sink>(summary: &Summary, w: &mut W) -> Result<Sizes, WriteFault>
    ensures { Writes W.held W.failures w.old w.new (set.len summary.now) (summary_text summary.now) result }
{
    let done = put_summary_front(summary, w)?;
    put_end(w, done, summary.len())
}

/// Writes the record after the first `done.bytes` bytes of a text, unless the summary has its entry, and returns the
/// new numbers of records and bytes.
pub fn put_missing_record<W: Sink>(
    w: &mut W,
    done: Sizes,
    summary: &Summary,
    item: &Record<'_>,
) -> Result<Sizes, WriteFault>
    requires room { done.bytes + 2 ^ 33 < 2 ^ 128 }
    requires few { done.records + 1 < 2 ^ 64 }
    ensures puts { Puts W.held W.failures (λ sizes. sizes.bytes) w.old w.new done.bytes
        (concat (missing summary.now (borrowed_bytes item.now ∷ []))) result }
    ensures records { IfOk result (λ n. n.records
        ≡ done.records + length (missing summary.now (borrowed_bytes item.now ∷ []))) }
    ensures short { IfOk result (λ n. n.bytes ≤ done.bytes + 2 ^ 33) }
{
    if summary.has(&Entry::of(item)) {
        return Ok(done);
    }
    let bytes = put_record(w, done.bytes, item)?;
    Ok(Sizes {
        records: done.records + 1,
        bytes,
    })
}

/// Writes the records that the summary lacks, in ascending order, after the first `done` bytes of a text, and returns
/// the new numbers of records and bytes.
fn put_missing<A: Archive, W: Sink>(
    archive: &A,
    summary: &Summary,
    w: &mut W,
    done: u128,
) -> Result<Sizes, WriteFault>
    requires { done ≤ 8 }
    ensures puts { Puts W.held W.failures (λ sizes. sizes.bytes) w.old w.new done
        (concat (missing summary.now (listing (A.content archive.now)))) result }
    ensures records { IfOk result (λ n. n.records ≡ length (missing summary.now (listing (A.content archive.now)))) }
    ensures short { IfOk result (λ n. n.bytes ≤ 2 ^ 98) }
{
    let mut sizes = Sizes {
        records: 0,
        bytes: done,
    };
    'putting: for i in 0..archive.len() {
        sizes = put_missing_record(w, sizes, summary, &archive.record_at(i))?;
    }
    Ok(sizes)
}

/// Writes the magic of an archive and the records that the summary lacks.
fn put_delta_front<A: Archive, W: Sink>(
    archive: &A,
    summary: &Summary,
    w: &mut W,
) -> Result<Sizes, WriteFault>
    ensures puts { Puts W.held W.failures (λ sizes. sizes.bytes) w.old w.new 0
        (magic ++ concat (missing summary.now (listing (A.content archive.now)))) result }
    ensures records { IfOk result (λ n. n.records ≡ length (missing summary.now (listing (A.content archive.now)))) }
    ensures short { IfOk result (λ n. n.bytes ≤ 2 ^ 98) }
{
    let done = put(w, 0, &Format::Archive.magic())?;
    put_missing(archive, summary, w, done)
}

/// Writes the text of the archive of those operations whose entries are not in the summary, and returns its size. Each
/// slice is hashed once, none is copied, and it allocates no memory.
pub fn write_delta<A: Archive, W: Sink>(
    archive: &A,
    summary: &Summary,
    w: &mut W,
) -> Result<Sizes, WriteFault>
    ensures { Writes W.held W.failures w.old w.new
        (set.len (delta (A.content archive.now) summary.now))
        (written (delta (A.content archive.now) summary.now)) result }
{
    let front = put_delta_front(archive, summary, w)?;
    put_end(w, front.bytes, front.records)
}
