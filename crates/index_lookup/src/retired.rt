//! The keys and digests of the retirements with a key.

ghost use Rattle.std.specs.Prelude.{◌≡◌, ◌++◌, IfOk, OnOk, length};
ghost use Rattle.std.specs.List.Sorted.{IsSortedByKey};
ghost use Rattle.std.specs.Ordering.{nat_cmp};
ghost use Rattle.std.specs.Cmp.Lexicographic.{slice_cmp};
ghost use Rattle.index_format.specs.Entry.{entry_bytes};
ghost use Rattle.index_lookup.specs.Among.{all_of};
ghost use Rattle.index_lookup.specs.InnerAnswering.{is_retired, retired_of};

use crate::numbered::subject_of;
use archive_records::RETIREMENT;
use heap_memory::{Heap, NoMemory};
use index_format::{IndexEntry, IndexPart};
use std::cmp::Ordering;

/// Compares two keys with their digests.
fn compare(subject: &[u8; 56], other: &[u8; 56]) -> Ordering
    ensures { result ≡ slice_cmp nat_cmp subject.now other.now }
{
    subject[..].cmp(&other[..])
}

/// Adds the keys and digests of an index's retirements with this prefix. No other entry is used.
fn gather(
    prefix: &[u8],
    index: &IndexPart,
    retired: &mut Vec<[u8; 56], Heap>,
) -> Result<(), NoMemory>
    requires { length prefix.now ≡ 24 }
    ensures { OnOk result (retired.new.items ≡ retired.old.items ++ retired_of prefix.now index.now) }
{
    let (_, entries) = index.run_under(RETIREMENT, prefix);
    'run: for entry in entries {
        retired.push(subject_of(entry))?;
    }
    Ok(())
}

/// The keys and digests of the retirements of several indexes with this prefix, in the order of their entries.
fn gathered(
    heap: Heap,
    prefix: &[u8],
    indexes: &[IndexPart],
) -> Result<Vec<[u8; 56], Heap>, NoMemory>
    requires { length prefix.now ≡ 24 }
    ensures { IfOk result (λ retired. retired.items ≡ retired_of prefix.now (all_of indexes.now)) }
{
    let mut retired = Vec::new(heap);
    'indexes: for index in indexes {
        gather(prefix, index, &mut retired)?;
    }
    Ok(retired)
}

/// The keys and digests of the retirements of several indexes with this prefix, in the order of their bytes.
pub(crate) fn retired_under(
    heap: Heap,
    prefix: &[u8],
    indexes: &[IndexPart],
) -> Result<Vec<[u8; 56], Heap>, NoMemory>
    requires { length prefix.now ≡ 24 }
    ensures same { IfOk result (λ retired.
        is_retired retired.items ≡ is_retired (retired_of prefix.now (all_of indexes.now))) }
    ensures sorted { IfOk result (λ retired. IsSortedByKey (λ subject. subject) (slice_cmp nat_cmp) retired.items) }
{
    let mut retired = gathered(heap, prefix, indexes)?;
    retired.sort_unstable_by(|a, b| compare(a, b));
    Ok(retired)
}

/// Whether the key and the digest of an entry are among these. They are found by binary search.
pub(crate) fn is_retired(retired: &[[u8; 56]], entry: &IndexEntry) -> bool
    requires { IsSortedByKey (λ subject. subject) (slice_cmp nat_cmp) retired.now }
    ensures { result ≡ is_retired retired.now (entry_bytes entry.now) }
{
    let sought = subject_of(entry);
    retired
        .binary_search_by(|subject| compare(subject, &sought))
        .is_ok()
}
