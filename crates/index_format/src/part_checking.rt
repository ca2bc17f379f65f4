//! The checks of entries that were read from pages.

ghost use Rattle.std.specs.Prelude.{◌≡◌, ◌≢◌, ◌⊎◌, ◌+◌, ◌*◌, ◌<◌, ◌^◌, ℕ, [], IfOk, IfErr, OnOk, OnErr, Ok};
ghost use Rattle.std.specs.Prelude.{length, map, take};
ghost use Rattle.std.specs.Ordering.{is_lt, nat_cmp};
ghost use Rattle.std.specs.Cmp.Lexicographic.{slice_cmp};
ghost use Rattle.std.specs.declared.cmp.Ordering.TheVariants.{Less};
ghost use Rattle.index_format.specs.Entry.{AreOrderedEntries, entry_bytes};
ghost use Rattle.index_format.specs.InnerPaged.{PassInPart, bytes_of, numbers_of};
ghost use Rattle.index_format.specs.Spread.{AreNumbers, spread};
ghost use Rattle.index_format.specs.Text.{check_entry};
ghost use Rattle.index_format.specs.declared.index_fault.IndexFaultKind.TheVariants.{Device, OutOfMemory};

use crate::checking::check_entry;
use crate::entry::{ENTRY_LEN, PLACED_LEN};
use crate::index_part::IndexPart;
use crate::paged_entry::PagedEntry;
use crate::{IndexEntry, IndexFault, IndexFaultKind};
use heap_memory::{Heap, NoMemory};

/// Whether an entry is above this one without its claim.
fn is_above(last: &[u8], entry: &[u8]) -> bool
    ensures { result ≡ is_lt (slice_cmp nat_cmp (take 74 last.now) (take 74 entry.now)) }
{
    let front = &last[..last.len().min(PLACED_LEN)];
    front.cmp(&entry[..entry.len().min(PLACED_LEN)]).is_lt()
}

/// Checks an entry after this last one, if the tables end at this offset. It is above it without its claim too.
fn check_after(last: &[u8], entry: &[u8], end: u64) -> Result<(), IndexFaultKind>
    requires { length entry.now ≡ 122 }
    ensures pass { OnOk result ((check_entry end last.now entry.now ≡ Ok tt)
        × (slice_cmp nat_cmp (take 74 last.now) (take 74 entry.now) ≡ Less)) }
    ensures fail { OnErr result (check_entry end last.now entry.now ≡ Ok tt
        → slice_cmp nat_cmp (take 74 last.now) (take 74 entry.now) ≡ Less → ⊥) }
    ensures faulty { IfErr result (λ kind. kind ≢ Device) }
{
    check_entry(last, entry, end)?;
    if !is_above(last, entry) {
        return Err(IndexFaultKind::NotAscending);
    }
    Ok(())
}

/// The entries that were read, if they pass their checks, where the tables end at this offset, and the entries begin
/// at that one.
fn checked(
    heap: Heap,
    read: &[PagedEntry],
    count: u64,
    end: u64,
    first: u64,
) -> Result<Vec<IndexEntry, Heap>, IndexFault>
    requires numbers { AreNumbers count (numbers_of read.now) }
    requires fits { first + 122 * count < 2 ^ 64 }
    ensures bytes { IfOk result (λ entries. map entry_bytes entries.items ≡ bytes_of read.now) }
    ensures ordered { IfOk result (λ entries. AreOrderedEntries entries.items) }
    ensures faulty { IfErr result (λ fault. ((fault.kind ≡ OutOfMemory) × (fault.offset ≡ end))
        ⊎ ((number : ℕ) × (fault.offset ≡ first + 122 * number) × (PassInPart end [] (bytes_of read.now) → ⊥))) }
    ensures device { IfErr result (λ fault. fault.kind ≢ Device) }
{
    let mut entries = Vec::new(heap);
    let mut last: &[u8] = &[];
    'reading: for entry in read {
        if let Err(kind) = check_after(last, &entry.bytes, end) {
            return Err(IndexFault {
                kind,
                offset: first + ENTRY_LEN as u64 * entry.number,
            });
        }
        last = &entry.bytes;
        if let Err(_) = entries.push(IndexEntry::of_bytes(&entry.bytes)) {
            return Err(IndexFault::out_of_memory(end));
        }
    }
    Ok(entries)
}

/// The numbers of entries that were read.
fn numbers_in(heap: Heap, read: &[PagedEntry]) -> Result<Vec<u64, Heap>, NoMemory>
    ensures { IfOk result (λ numbers. numbers.items ≡ numbers_of read.now) }
{
    let mut numbers = Vec::new(heap);
    'reading: for entry in read {
        numbers.push(entry.number)?;
    }
    Ok(numbers)
}

/// The part of an index of so many entries with those that were read, if they pass their checks, where the tables end
/// at this offset, and the entries begin at that one.
pub(crate) fn part_of(
    heap: &Heap,
    read: &[PagedEntry],
    count: u64,
    end: u64,
    first: u64,
) -> Result<IndexPart, IndexFault>
    requires numbers { AreNumbers count (numbers_of read.now) }
    requires fits { first + 122 * count < 2 ^ 64 }
    ensures part { IfOk result (λ part. part ≡ spread count (numbers_of read.now) (bytes_of read.now)) }
    ensures faulty { IfErr result (λ fault. ((fault.kind ≡ OutOfMemory) × (fault.offset ≡ end))
        ⊎ ((number : ℕ) × (fault.offset ≡ first + 122 * number) × (PassInPart end [] (bytes_of read.now) → ⊥))) }
    ensures device { IfErr result (λ fault. fault.kind ≢ Device) }
{
    let entries = checked(heap.share(), read, count, end, first)?;
    match numbers_in(heap.share(), read) {
        Ok(numbers) => Ok(IndexPart::of_entries(count, numbers, entries)),
        Err(NoMemory) => Err(IndexFault::out_of_memory(end)),
    }
}
