//! The order of the records of entries, and whether the entries determine it.

ghost use Rattle.std.specs.Prelude.{◌≡◌, ◌==◌, ◌&&◌, ◌||◌, not, map, take};
ghost use Rattle.std.specs.Str.{bytes_eq};
ghost use Rattle.std.specs.Bool.{MatchBool};
ghost use Rattle.std.specs.List.{AllPairs, dedup};
ghost use Rattle.std.specs.List.Sorted.{IsPermutation, IsSortedByKey};
ghost use Rattle.std.specs.Ordering.{nat_cmp};
ghost use Rattle.std.specs.Cmp.Lexicographic.{slice_cmp};
ghost use Rattle.index_format.specs.Entry.{length_in};
ghost use Rattle.index_format.specs.Entry.{entry_bytes};
ghost use Rattle.index_lookup.specs.InnerAnswering.{HaveOrder, HaveTie, entry_at, has_same_length_elsewhere, rank_in};

use crate::numbered::{Numbered, SLICE_LEN};
use heap_memory::Heap;
use index_format::IndexEntry;
use std::cmp::Ordering;

/// Whether the first 57 bytes of two entries are equal: they are for one slice.
fn have_same_slice(bytes: &[u8; 122], other: &[u8; 122]) -> bool
    ensures { result ≡ bytes_eq (take 57 bytes.now) (take 57 other.now) }
{
    bytes[..SLICE_LEN].cmp(&other[..SLICE_LEN]).is_eq()
}

/// Whether two entries are for one slice.
fn are_of_one_slice(entry: &IndexEntry, other: &IndexEntry) -> bool
    ensures { result ≡ bytes_eq (take 57 (entry_bytes entry.now)) (take 57 (entry_bytes other.now)) }
{
    have_same_slice(&entry.bytes(), &other.bytes())
}

/// The sort key of an entry: the length of the record, the index, and the offset of the record.
fn rank_of(numbered: &Numbered) -> [u64; 3]
    ensures { result ≡ rank_in (entry_at numbered.now) }
{
    let entry = &numbered.entry;
    [entry.length, numbered.input, entry.offset]
}

/// Whether the records of two entries have one length.
fn have_one_length(numbered: &Numbered, other: &Numbered) -> bool
    ensures { result ≡ (length_in (entry_at numbered.now).entry == length_in (entry_at other.now).entry) }
{
    numbered.entry.length == other.entry.length
}

/// Whether the records of two entries have one length, and are in two archives.
#[tactic(auto, unfolding(crate::specs::InnerAnswering::has_same_length_elsewhere))]
fn has_same_length_elsewhere(numbered: &Numbered, other: &Numbered) -> bool
    ensures { result ≡ has_same_length_elsewhere (entry_at numbered.now) (entry_at other.now) }
{
    have_one_length(numbered, other) && numbered.input != other.input
}

/// Compares two entries by their sort keys.
fn compare(numbered: &Numbered, other: &Numbered) -> Ordering
    ensures { result ≡ slice_cmp nat_cmp (rank_in (entry_at numbered.now)) (rank_in (entry_at other.now)) }
{
    rank_of(numbered)[..].cmp(&rank_of(other)[..])
}

/// Sorts entries by the lengths of their records, then by their indexes, and then by the offsets of the records.
pub(crate) fn sort_by_rank(entries: &mut Vec<Numbered, Heap>)
    ensures moved { IsPermutation (map entry_at entries.old.items) (map entry_at entries.new.items) }
    ensures sorted { IsSortedByKey rank_in (slice_cmp nat_cmp) (map entry_at entries.new.items) }
{
    entries.sort_unstable_by(|a, b| compare(a, b));
}

/// Whether two of the entries of one length are for two slices: two before this one, or this one and the first.
fn differ_now(differ: bool, first: &Numbered, next: &Numbered) -> bool
    ensures { result ≡ (differ
        || not (bytes_eq (take 57 (entry_at first.now).entry) (take 57 (entry_at next.now).entry))) }
{
    differ || !are_of_one_slice(&first.entry, &next.entry)
}

/// Whether an entry that differs is in another index than the first of its length.
fn ties(differ: bool, first: &Numbered, next: &Numbered) -> bool
    ensures { result ≡ (differ && has_same_length_elsewhere (entry_at next.now) (entry_at first.now)) }
{
    differ && has_same_length_elsewhere(next, first)
}

/// Whether two entries have records of one length, are in two indexes and are for two slices.
pub(crate) fn are_tied(entries: &[Numbered]) -> bool
    requires { IsSortedByKey rank_in (slice_cmp nat_cmp) (map entry_at entries.now) }
    ensures { MatchBool result (HaveTie (map entry_at entries.now)) (AllPairs HaveOrder (map entry_at entries.now)) }
{
    let Some(first) = entries.first() else {
        return false;
    };
    let mut first = *first;
    let mut differ = false;
    'entries: for next in entries {
        if !have_one_length(next, &first) {
            first = *next;
            differ = false;
            continue 'entries;
        }
        differ = differ_now(differ, &first, next);
        if ties(differ, &first, next) {
            return true;
        }
    }
    false
}

/// For each length, keeps only the entries of the first index.
pub(crate) fn keep_first_index(entries: &mut Vec<Numbered, Heap>)
    ensures { map entry_at entries.new.items ≡ dedup has_same_length_elsewhere (map entry_at entries.old.items) }
{
    entries.dedup_by(|next, kept| has_same_length_elsewhere(next, kept));
}
