//! The slices that entries name, and the offsets of their records.

ghost use Rattle.std.specs.Prelude.{◌≡◌, ◌≢◌, Contains, IfOk, MatchOption, drop, map, take};
ghost use Rattle.std.specs.List.{AllZip};
ghost use Rattle.archive_core.specs.Key.{IsKey, key_bytes};
ghost use Rattle.index_lookup.specs.Among.{AreTied, EntryAt};
ghost use Rattle.index_lookup.specs.InnerAnswering.{entry_at};
ghost use Rattle.index_lookup.specs.Named.{LivesAmong, Names, NamesAmong, digest_at, state_at};

use crate::answering::answering_entries;
use crate::live::live_under;
use crate::numbered::{Numbered, is_companion};
use archive_core::{Digest, FindRow, FindState, SliceKey, key_prefix};
use archive_records::{ADMISSION_HEAD_LEN, digest_in, key_in};
use heap_memory::{Heap, NoMemory};
use index_format::IndexPart;

/// A slice that an entry of one of several indexes names.
#[derive(Clone, Copy)]
pub struct NamedSlice {
    /// The number of the index, and of its archive, from 0.
    pub input: u64,
    /// The number of the entry in the index, from 0.
    pub number: u64,
    /// The row for the slice in a list of the archive.
    pub row: FindRow,
    /// The number of bytes before the record in the archive's text.
    pub offset: u64,
    /// The number of bytes of the slice.
    pub size: u64,
}

/// The row of an entry's slice.
fn row_of(numbered: &Numbered) -> FindRow
    ensures is_key { IsKey result.key }
    ensures key { key_bytes result.key ≡ take 24 (drop 1 (entry_at numbered.now).entry) }
    ensures digest { result.digest.0 ≡ digest_at (entry_at numbered.now) }
    ensures state { result.state ≡ state_at (entry_at numbered.now) }
{
    let bytes = numbered.entry.bytes();
    FindRow {
        key: key_in(&bytes),
        digest: digest_in(&bytes),
        state: if is_companion(&numbered.entry) {
            FindState::Dsym
        } else {
            FindState::Image
        },
    }
}

/// The slice that an entry names.
fn named_by(numbered: &Numbered) -> NamedSlice
    ensures { Names (entry_at numbered.now) result }
{
    let entry = &numbered.entry;
    NamedSlice {
        input: numbered.input,
        number: numbered.number,
        row: row_of(numbered),
        offset: entry.offset,
        size: entry.length.saturating_sub(ADMISSION_HEAD_LEN as u64),
    }
}

/// The slices that entries name, in their order.
fn named_by_each(heap: Heap, entries: &[Numbered]) -> Result<Vec<NamedSlice, Heap>, NoMemory>
    ensures { IfOk result (λ named. AllZip Names (map entry_at entries.now) named.items) }
{
    let mut named = Vec::new(heap);
    'entries: for numbered in entries {
        named.push(named_by(numbered))?;
    }
    Ok(named)
}

/// The slices that answer for a key, as the entries of these indexes name them, in the order of their records.
///
/// `None` in the same case as for [`answering_entries`]. Fails only if memory runs out.
pub fn named_among(
    heap: &Heap,
    key: &SliceKey,
    indexes: &[IndexPart],
) -> Result<Option<Vec<NamedSlice, Heap>>, NoMemory>
    ensures { IfOk result (λ found. MatchOption found (AreTied (key_bytes key.now) indexes.now)
        (λ named. NamesAmong (key_bytes key.now) indexes.now named.items)) }
{
    match answering_entries(heap, key, indexes)? {
        Some(answering) => {
            let named = named_by_each(heap.share(), answering.entries())?;
            Ok(Some(named))
        }
        None => Ok(None),
    }
}

/// The first of these entries with the digest.
fn first_with(live: &[Numbered], digest: &Digest) -> Option<NamedSlice>
    ensures { MatchOption result
        ((x : EntryAt) → Contains (map entry_at live.now) x → digest_at x ≢ digest.now.0)
        (λ named. (x : EntryAt) × Contains (map entry_at live.now) x × (digest_at x ≡ digest.now.0)
        × Names x named) }
{
    'live: for numbered in live {
        let named = named_by(numbered);
        if named.row.digest == *digest {
            return Some(named);
        }
    }
    None
}

/// A slice that is live with a key and has the digest, even if it does not answer, from the first entry of these
/// indexes that names it. Fails only if memory runs out.
pub fn named_with(
    heap: &Heap,
    key: &SliceKey,
    digest: &Digest,
    indexes: &[IndexPart],
) -> Result<Option<NamedSlice>, NoMemory>
    ensures { IfOk result (λ found. MatchOption found
        ((x : EntryAt) → LivesAmong (key_bytes key.now) digest.now.0 indexes.now x → ⊥)
        (λ named. (x : EntryAt) × LivesAmong (key_bytes key.now) digest.now.0 indexes.now x × Names x named)) }
{
    let live = live_under(heap, &key_prefix(key), indexes)?;
    Ok(first_with(&live, digest))
}
