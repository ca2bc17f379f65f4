//! The slice that is wanted under a key, among those of an archive.

ghost use Rattle.std.specs.Prelude.{◌≡◌, ◌≢◌, ◌∷◌, ◌↔◌, [], ℕ, List, None, Some, IfNone, IfOk, IfSome, length, map};
ghost use Rattle.std.specs.Prelude.{◌<◌, slice_index_or, true};
ghost use Rattle.std.specs.FinSet as set;
ghost use Rattle.sha2.specs.Sha256.{sha256};
ghost use Rattle.join_core.specs.Listing.{listing};
ghost use Rattle.archive_core.specs.Content.{IsLive};
ghost use Rattle.archive_core.specs.Key.{key_bytes};
ghost use Rattle.archive_core.specs.Record.{admission_record, borrowed_bytes};
ghost use Rattle.archive_core.specs.Valid.{IsValid, key_of};
ghost use Rattle.command_extract.specs.InnerSteps.{IsChoice};
ghost use Rattle.command_extract.specs.Kept.{IsChosenIn};
ghost use Rattle.command_extract.specs.Wanted.{slice_row};

use crate::choice::{Choice, Chosen};
use archive_core::{Archive, CheckedSlice, Digest, FindRow, Record, Slice, SliceKey, is_key};
use heap_memory::{Heap, NoMemory};

/// The row of a slice.
fn row(slice: &Slice) -> FindRow
    ensures { result ≡ slice_row slice.now }
{
    FindRow::of(&Record::Admit(slice.lend()))
}

/// The rows of slices, in order.
fn rows_of(heap: Heap, slices: &[&Slice]) -> Result<Vec<FindRow, Heap>, NoMemory>
    ensures { IfOk result (λ rows. rows.items ≡ map (λ slice. slice_row slice.now) slices.now) }
{
    let mut rows = Vec::new(heap);
    'slices: for slice in slices {
        rows.push(row(slice))?;
    }
    Ok(rows)
}

/// The only slice, if there is exactly one.
fn only<'s>(slices: &[&'s Slice]) -> Option<&'s Slice>
    ensures one { IfSome result (λ slice. map (λ slice. slice.now) slices.now ≡ slice.now ∷ []) }
    ensures other { IfNone result (length slices.now ≢ 1) }
{
    if slices.len() == 1 {
        Some(slices[0])
    } else {
        None
    }
}

/// Whether a record admits this slice.
fn admits(held: Record<'_>, slice: &Slice) -> bool
    ensures { result ≡ true ↔ borrowed_bytes held.entry ≡ admission_record slice.now }
{
    held.compare(&Record::Admit(slice.lend())).is_eq()
}

/// The number of the record that admits a slice, which the archive has.
fn number_of<A: Archive>(archive: &A, slice: &Slice) -> u64
    requires { set.contains (A.content archive.now) (admission_record slice.now) ≡ true }
    ensures within { result < set.len (A.content archive.now) }
    ensures is { slice_index_or (listing (A.content archive.now)) result [] ≡ admission_record slice.now }
{
    'numbers: for number in 0..archive.len() {
        if admits(archive.record_at(number), slice) {
            return number;
        }
    }
    unreachable!()
}

/// The choice of a slice that answers, which the archive has.
fn choose_answering<A: Archive>(archive: &A, slice: &Slice) -> Chosen<u64>
    requires { set.contains (A.content archive.now) (admission_record slice.now) ≡ true }
    ensures { IsChosenIn (A.content archive.now) result.place result.digest result.size slice.now }
{
    Chosen {
        place: number_of(archive, slice),
        digest: slice.digest(),
        size: slice.bytes().len() as u64,
    }
}

/// The one slice that answers under a key, or the rows of all that do.
fn answering<A: Archive>(heap: Heap, archive: &A, key: &SliceKey) -> Result<Choice<u64>, NoMemory>
    ensures { IfOk result (λ choice. IsChoice (A.content archive.now) key.now None choice) }
{
    let slices = archive.answering_slices(key)?;
    match only(&slices) {
        Some(slice) => Ok(Choice::One(choose_answering(archive, slice))),
        None => Ok(Choice::Undecided(rows_of(heap, &slices)?)),
    }
}

/// The slice that a record admits, if it is under the key and has the digest.
fn slice_in<'a>(held: Record<'a>, key: &SliceKey, digest: &Digest) -> Option<CheckedSlice<'a>>
    requires { length (key_bytes key.now) ≡ 24 }
    ensures found { IfSome result (λ slice. (borrowed_bytes held.entry ≡ admission_record slice) × IsValid slice
        × (key_of slice ≡ key.now) × (sha256 slice ≡ digest.now.0)) }
    ensures none { IfNone result ((slice : List ℕ) → borrowed_bytes held.entry ≡ admission_record slice
        → key_of slice ≡ key.now → sha256 slice ≡ digest.now.0 → ⊥) }
{
    let Record::Admit(slice) = held else {
        return None;
    };
    let found = slice.digest();
    if is_key(&slice.key(), key) && found == *digest {
        Some(slice)
    } else {
        None
    }
}

/// A slice of the archive under a key, with this digest.
fn held_with<A: Archive>(archive: &A, key: &SliceKey, digest: &Digest) -> Option<Chosen<u64>>
    requires { length (key_bytes key.now) ≡ 24 }
    ensures found { IfSome result (λ chosen. (slice : List ℕ) × IsLive (A.content archive.now) key.now slice
        × (sha256 slice ≡ digest.now.0)
        × IsChosenIn (A.content archive.now) chosen.place chosen.digest chosen.size slice) }
    ensures none { IfNone result ((slice : List ℕ) → IsLive (A.content archive.now) key.now slice
        → sha256 slice ≡ digest.now.0 → ⊥) }
{
    'records: for number in 0..archive.len() {
        if let Some(slice) = slice_in(archive.record_at(number), key, digest) {
            return Some(Chosen {
                place: number,
                digest: *digest,
                size: slice.bytes().len() as u64,
            });
        }
    }
    None
}

/// The slice that is wanted under a key, by the number of its record: the one that answers, or one with the digest. The
/// archive has all records under the key.
pub(crate) fn choose_in<A: Archive>(
    heap: Heap,
    archive: &A,
    key: &SliceKey,
    digest: &Option<Digest>,
) -> Result<Choice<u64>, NoMemory>
    requires { length (key_bytes key.now) ≡ 24 }
    ensures { IfOk result (λ choice. IsChoice (A.content archive.now) key.now digest.now choice) }
{
    let Some(digest) = digest else {
        return answering(heap, archive, key);
    };
    match held_with(archive, key, digest) {
        Some(chosen) => Ok(Choice::One(chosen)),
        None => Ok(Choice::Undecided(Vec::new(heap))),
    }
}
