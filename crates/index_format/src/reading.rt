//! Reads an index.

ghost use Rattle.std.specs.Prelude.{◌≡◌, ◌≢◌, ◌⊎◌, ◌+◌, ◌*◌, ◌<◌, ◌^◌, ◌↔◌, ℕ, List, All, IfOk, IfErr, IsTrue};
ghost use Rattle.std.specs.Prelude.{length, map};
ghost use Rattle.index_format.specs.Entry.{AreOrderedEntries, HasItsFields, entry_bytes};
ghost use Rattle.index_format.specs.InnerReading.{AreEndsOf, AreEntriesOf, AreReadOf, FailsAfterEnds, unread_kind};
ghost use Rattle.index_format.specs.Fault.{FailsDigest, FailsInEntries, FailsInPlaces};
ghost use Rattle.index_format.specs.Reading.{IsRefused, ReadsIndex, ReadsText};
ghost use Rattle.index_format.specs.Text.{archive_length, retired_in};
ghost use Rattle.index_format.specs.declared.index_fault.IndexFaultKind.TheVariants.{BadPlace, Device, OutOfMemory};

use crate::checking::entries_in;
use crate::ends::{Ends, read_ends};
use crate::entry::ENTRY_LEN;
use crate::numbers::{archive_len, retired_in};
use crate::places::are_laid;
use crate::{Index, IndexEntry, IndexFault, IndexFaultKind};
use byte_device::Placed;
use heap_memory::{Heap, NoMemory};
use table_checked_pages::{CheckFault, Claim, read_all};

/// The fault of a part of the index that is stored with its digests.
pub(crate) fn unread(fault: CheckFault, offset: u64) -> IndexFault
    ensures { result ≡ record { kind = unread_kind fault; offset = offset } }
{
    let kind = match fault {
        CheckFault::Changed => IndexFaultKind::BadDigest,
        CheckFault::Device => IndexFaultKind::Device,
        CheckFault::OutOfMemory => IndexFaultKind::OutOfMemory,
    };
    IndexFault { kind, offset }
}

/// Reads the bytes of the entries, and compares them with their root.
fn read_bytes<P: Placed>(
    heap: &Heap,
    device: &mut P,
    ends: &Ends,
) -> Result<Vec<u8, Heap>, IndexFault>
    requires { ends.now.first + 122 * ends.now.count + 57 < 2 ^ 64 }
    ensures long { IfOk result (λ bytes. length bytes.items ≡ 122 * ends.now.count) }
    ensures read { ReadsText P.whole P.failures device.old device.new result
        (λ text bytes. AreEndsOf text ends.now → AreEntriesOf text bytes.items)
        (λ text fault. AreEndsOf text ends.now → IsRefused FailsDigest text fault) }
{
    let claim = Claim {
        offset: ends.start,
        size: ENTRY_LEN as u64 * ends.count,
        root: ends.root,
    };
    match read_all(heap, device, claim) {
        Ok(bytes) => Ok(bytes),
        Err(fault) => Err(unread(fault, ends.start)),
    }
}

/// Whether an end record has the numbers of these entries.
fn has_numbers(entries: &[IndexEntry], ends: &Ends) -> bool
    requires { All HasItsFields entries.now }
    ensures { let bytes = map entry_bytes entries.now in
        IsTrue result ↔ ((ends.now.retired ≡ retired_in bytes) × (ends.now.archive_len ≡ archive_length bytes)) }
{
    ends.retired == retired_in(entries) && u128::from(ends.archive_len) == archive_len(entries)
}

/// The fault of entries that are stored from this offset on.
fn bad_place(offset: u64) -> IndexFault
    ensures { result ≡ record { kind = BadPlace; offset = offset } }
{
    IndexFault {
        kind: IndexFaultKind::BadPlace,
        offset,
    }
}

/// The entries of a text with these ends, from their bytes.
fn check_entries(heap: Heap, bytes: &[u8], ends: &Ends) -> Result<Vec<IndexEntry, Heap>, IndexFault>
    requires whole { length bytes.now ≡ 122 * ends.now.count }
    requires fits { ends.now.first + 122 * ends.now.count + 57 < 2 ^ 64 }
    ensures sorted { IfOk result (λ entries. AreOrderedEntries entries.items) }
    ensures read { IfOk result (λ entries. (text : List ℕ) → AreEndsOf text ends.now → AreEntriesOf text bytes.now
        → AreReadOf text entries.items) }
    ensures faulty { IfErr result (λ fault. ((fault.kind ≡ OutOfMemory) × (fault.offset ≡ ends.now.start))
        ⊎ ((text : List ℕ) → AreEndsOf text ends.now → AreEntriesOf text bytes.now
        → FailsInEntries text fault ⊎ FailsInPlaces text fault)) }
    ensures device { IfErr result (λ fault. fault.kind ≢ Device) }
{
    let entries = entries_in(heap.share(), bytes, ends.count, ends.start, ends.first)?;
    if !has_numbers(&entries, ends) {
        return Err(bad_place(ends.start));
    }
    match are_laid(heap, &entries, ends.start) {
        Ok(true) => Ok(entries),
        Ok(false) => Err(bad_place(ends.start)),
        Err(NoMemory) => Err(IndexFault::out_of_memory(ends.start)),
    }
}

/// Reads the entries of a text with these ends.
fn read_entries<P: Placed>(
    heap: Heap,
    device: &mut P,
    ends: &Ends,
) -> Result<Vec<IndexEntry, Heap>, IndexFault>
    requires { ends.now.first + 122 * ends.now.count + 57 < 2 ^ 64 }
    ensures sorted { IfOk result (λ entries. AreOrderedEntries entries.items) }
    ensures read { ReadsText P.whole P.failures device.old device.new result
        (λ text entries. AreEndsOf text ends.now → AreReadOf text entries.items)
        (λ text fault. AreEndsOf text ends.now → IsRefused FailsAfterEnds text fault) }
{
    let bytes = read_bytes(&heap, device, ends)?;
    check_entries(heap, &bytes, ends)
}

/// Reads an index from its end: the magic, the end record and all entries. The entries are compared with their root,
/// and their offsets with the lengths before them. No table is read.
///
/// # Errors
///
/// The first of these: the magic is another; there is no room for an end record, or none at the end, or no room for its
/// entries, or more of them are retirements; the entries are not those of the root; for an entry, in this order, the
/// tag, the kind or the length is not possible, it is not above the one before it, or its claim is not possible; or
/// records or tables do not follow one another, or the end record has other numbers. If the device fails or memory runs
/// out, the offset is that of the part that was being read.
pub fn read_index<P: Placed>(heap: Heap, device: &mut P) -> Result<Index, IndexFault>
    ensures { ReadsIndex P.whole P.failures device.old device.new result }
{
    let ends = read_ends(heap.share(), device)?;
    let entries = read_entries(heap, device, &ends)?;
    Ok(Index::of_entries(entries))
}
