//! The entries that are live under a key.

ghost use Rattle.std.specs.Prelude.{◌≡◌, ◌++◌, ◌<◌, IfOk, OnOk, filter, length, map};
ghost use Rattle.std.specs.List.{list_any};
ghost use Rattle.std.specs.List.Sorted.{IsSortedByKey};
ghost use Rattle.std.specs.Ordering.{nat_cmp};
ghost use Rattle.std.specs.Cmp.Lexicographic.{slice_cmp};
ghost use Rattle.index_format.specs.Entry.{entry_bytes};
ghost use Rattle.index_lookup.specs.Among.{all_of, answers_among, lives_under};
ghost use Rattle.index_lookup.specs.Told.{is_companion};
ghost use Rattle.index_lookup.specs.InnerAnswering.{all_at, entries_at, entry_at, lives_by};

use crate::numbered::{Numbered, is_companion};
use crate::retired::{is_retired, retired_under};
use archive_records::ADMISSION;
use heap_memory::{Heap, NoMemory};
use index_format::IndexPart;

/// Adds the entries of the index with this number that are live with this prefix, in their order. Only its admissions
/// with this prefix are used.
fn gather(
    prefix: &[u8],
    retired: &[[u8; 56]],
    input: u64,
    index: &IndexPart,
    live: &mut Vec<Numbered, Heap>,
) -> Result<(), NoMemory>
    requires prefix { length prefix.now ≡ 24 }
    requires sorted { IsSortedByKey (λ subject. subject) (slice_cmp nat_cmp) retired.now }
    ensures { OnOk result (map entry_at live.new.items ≡ map entry_at live.old.items
        ++ filter (λ x. lives_by prefix.now retired.now x.entry) (entries_at input 0 index.now)) }
{
    let (numbers, entries) = index.run_under(ADMISSION, prefix);
    'run: for (nth, entry) in entries.iter().enumerate() {
        if is_retired(retired, entry) {
            continue 'run;
        }
        live.push(Numbered {
            input,
            number: numbers[nth],
            entry: *entry,
        })?;
    }
    Ok(())
}

/// The entries of several indexes that are live with this prefix, without the retired ones.
fn live_besides(
    heap: Heap,
    prefix: &[u8],
    retired: &[[u8; 56]],
    indexes: &[IndexPart],
) -> Result<Vec<Numbered, Heap>, NoMemory>
    requires prefix { length prefix.now ≡ 24 }
    requires sorted { IsSortedByKey (λ subject. subject) (slice_cmp nat_cmp) retired.now }
    ensures { IfOk result (λ live. map entry_at live.items
        ≡ filter (λ x. lives_by prefix.now retired.now x.entry) (all_at 0 indexes.now)) }
{
    let mut live = Vec::new(heap);
    'indexes: for (input, index) in indexes.iter().enumerate() {
        gather(prefix, retired, input as u64, index, &mut live)?;
    }
    Ok(live)
}

/// The entries of several indexes that are live with this prefix, in their order.
pub(crate) fn live_under(
    heap: &Heap,
    prefix: &[u8],
    indexes: &[IndexPart],
) -> Result<Vec<Numbered, Heap>, NoMemory>
    requires { length prefix.now ≡ 24 }
    ensures { IfOk result (λ live. map entry_at live.items
        ≡ filter (λ x. lives_under prefix.now (all_of indexes.now) x.entry) (all_at 0 indexes.now)) }
{
    let retired = retired_under(heap.share(), prefix, indexes)?;
    live_besides(heap.share(), prefix, &retired, indexes)
}

/// Whether one of these entries is that of a companion.
fn has_companion(live: &[Numbered]) -> bool
    ensures { result ≡ list_any (λ n. is_companion (entry_bytes n.entry)) live.now }
{
    live.iter().any(|numbered| is_companion(&numbered.entry))
}

/// Keeps only the companions.
fn keep_companions(live: &mut Vec<Numbered, Heap>)
    ensures { live.new.items ≡ filter (λ n. is_companion (entry_bytes n.entry)) live.old.items }
{
    live.retain(|numbered| is_companion(&numbered.entry));
}

/// The entries of several indexes that answer for this prefix, in their order.
pub(crate) fn answering_entries_under(
    heap: &Heap,
    prefix: &[u8],
    indexes: &[IndexPart],
) -> Result<Vec<Numbered, Heap>, NoMemory>
    requires { length prefix.now ≡ 24 }
    ensures { IfOk result (λ found. map entry_at found.items
        ≡ filter (λ x. answers_among prefix.now (all_of indexes.now) x.entry) (all_at 0 indexes.now)) }
{
    let mut live = live_under(heap, prefix, indexes)?;
    if has_companion(&live) {
        keep_companions(&mut live);
    }
    Ok(live)
}
