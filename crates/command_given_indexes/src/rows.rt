//! The rows of an index.

ghost use Rattle.std.specs.Prelude.{◌≡◌, ◌<◌, ◌≤◌, ◌^◌, IfOk, OnOk, [], length, map};
ghost use Rattle.std.specs.List.{AllZip};
ghost use Rattle.std.specs.List.Sorted.{IsPermutation, IsSortedBy, IsStableBy};
ghost use Rattle.archive_core.specs.Key.{IsKey};
ghost use Rattle.archive_core.specs.Part.{is_under};
ghost use Rattle.index_format.specs.Entry.{offset_in, placed_bytes};
ghost use Rattle.index_format.specs.Runs.{is_tagged};
ghost use Rattle.index_format.specs.Text.{placed_in, placed_of};
ghost use Rattle.join_core.specs.Listing.{listing};
ghost use Rattle.command_given_indexes.specs.Rows.{AreIndexRows, AreRowsAmong, IsEntryRow, has_lower_key};
ghost use Rattle.command_given_indexes.specs.Rows.{stands_before};

use archive_core::{Digest, FindRow, FindState, SliceKey, compare_keys};
use archive_records::{ADMISSION, RETIREMENT};
use command_common::uuid_bytes;
use heap_memory::{Heap, NoMemory};
use index_format::{Index, IndexEntry, IndexPart};
use uuid::Uuid;

/// The row with these parts.
fn row_with(key: SliceKey, digest: Digest, state: FindState) -> FindRow
    ensures row { result ≡ record { key = key; digest = digest; state = state } }
    ensures key { IsKey key }
    ensures digest { length digest.0 ≡ 32 }
{
    FindRow { key, digest, state }
}

/// The row of an entry.
fn row_of(entry: &IndexEntry) -> FindRow
    ensures { IsEntryRow (placed_bytes entry.now) result }
{
    row_with(entry.row.key, entry.row.digest, entry.row.state)
}

/// The offset of the record of an entry with this row.
fn offset_with(row: FindRow, offset: u64) -> u64
    ensures offset { result ≡ offset }
    ensures fits { offset < 2 ^ 64 }
    ensures key { IsKey row.key }
    ensures digest { length row.digest.0 ≡ 32 }
{
    offset
}

/// The offset of the record of an entry.
fn offset_of(entry: &IndexEntry) -> u64
    ensures { result ≡ offset_in (placed_bytes entry.now) }
{
    offset_with(entry.row, entry.offset)
}

/// Sorts entries by the offsets of their records.
fn sort_by_offset(entries: &mut Vec<IndexEntry, Heap>)
    ensures moved { IsPermutation (map placed_bytes entries.old.items) (map placed_bytes entries.new.items) }
    ensures sorted { IsSortedBy stands_before (map placed_bytes entries.new.items) }
{
    entries.sort_unstable_by(|a, b| offset_of(a).cmp(&offset_of(b)));
}

/// The rows of entries, in order.
fn rows_of(heap: Heap, entries: &[IndexEntry]) -> Result<Vec<FindRow, Heap>, NoMemory>
    ensures { IfOk result (λ rows. AllZip IsEntryRow (map placed_bytes entries.now) rows.items) }
{
    let mut rows = Vec::new(heap);
    'entries: for entry in entries {
        rows.push(row_of(entry))?;
    }
    Ok(rows)
}

/// Sorts rows by their keys; those of one key keep their order.
fn put_by_key(rows: &mut Vec<FindRow, Heap>) -> Result<(), NoMemory>
    ensures sorted { OnOk result (IsSortedBy has_lower_key rows.new.items) }
    ensures stable { OnOk result (IsStableBy has_lower_key rows.old.items rows.new.items) }
{
    rows.sort_by(|a, b| compare_keys(&a.key, &b.key))?;
    Ok(())
}

/// The rows of entries: by key, and those of a key by the offsets of their records.
fn sorted_rows(heap: &Heap, entries: Vec<IndexEntry, Heap>) -> Result<Vec<FindRow, Heap>, NoMemory>
    ensures { IfOk result (λ rows. AreIndexRows [] (map placed_bytes entries.items) rows.items) }
{
    let mut placed = entries;
    sort_by_offset(&mut placed);
    let mut rows = rows_of(heap.share(), &placed)?;
    put_by_key(&mut rows)?;
    Ok(rows)
}

/// All rows of an index: by key, and those of a key by the offsets of their records. Fails only if memory runs out.
pub(crate) fn rows_listed(heap: &Heap, index: &Index) -> Result<Vec<FindRow, Heap>, NoMemory>
    ensures { IfOk result (λ rows. AreIndexRows [] (listing (placed_of index.now)) rows.items) }
{
    let mut placed = Vec::new(heap.share());
    placed.extend_from_slice(index.entries())?;
    sorted_rows(heap, placed)
}

/// The rows of the entries of an index under a UUID: by key, and those of a key by the offsets of their records. Fails
/// only if memory runs out.
pub(crate) fn rows_under(
    heap: &Heap,
    uuid: Uuid,
    index: &IndexPart,
) -> Result<Vec<FindRow, Heap>, NoMemory>
    ensures { IfOk result (λ rows. AreIndexRows uuid (placed_in index.now) rows.items) }
{
    let _count = index.len();
    let prefix = uuid_bytes(uuid);
    let mut placed = Vec::new(heap.share());
    placed.extend_from_slice(index.run_under(RETIREMENT, &prefix).1)?;
    placed.extend_from_slice(index.run_under(ADMISSION, &prefix).1)?;
    sorted_rows(heap, placed)
}

/// The rows of the entries with one tag under a prefix, found by binary search. No other entry is read.
fn rows_tagged(
    heap: Heap,
    tag: u8,
    prefix: &[u8],
    index: &IndexPart,
) -> Result<Vec<FindRow, Heap>, NoMemory>
    requires tag { 0 < tag }
    requires prefix { length prefix.now ≤ 24 }
    ensures { IfOk result (λ rows. AreRowsAmong (is_tagged tag prefix.now) index.now rows.items) }
{
    rows_of(heap, index.run_under(tag, prefix).1)
}

/// The rows of the entries of an index under a UUID: of its retirements, and then of its admissions. They are found by
/// binary search, so the cost grows with the rows that are found.
pub fn rows_with_uuid(
    heap: &Heap,
    uuid: Uuid,
    index: &IndexPart,
) -> Result<Vec<FindRow, Heap>, NoMemory>
    ensures { IfOk result (λ rows. AreRowsAmong (is_under uuid) index.now rows.items) }
{
    let _count = index.len();
    let prefix = uuid_bytes(uuid);
    let mut rows = rows_tagged(heap.share(), RETIREMENT, &prefix, index)?;
    let mut admitted = rows_tagged(heap.share(), ADMISSION, &prefix, index)?;
    rows.append(&mut admitted)?;
    Ok(rows)
}
