//! The operations of the entries with a prefix.

ghost use Rattle.std.specs.Prelude.{◌≡◌, ◌≤◌, ◌<◌, length, map};
ghost use Rattle.archive_core.specs.Part.{is_under};
ghost use Rattle.archive_core.specs.Record.{record_bytes};
ghost use Rattle.byte_device.specs.Devices.{FailsWithin};
ghost use Rattle.byte_device.specs.Places.{HasSize};
ghost use Rattle.index_format.specs.Entry.{IsPlacedEntry, placed_bytes};
ghost use Rattle.index_format.specs.Index.{AreIndexed};
ghost use Rattle.index_format.specs.Places.{FailsAmong, FailsUnder};
ghost use Rattle.index_format.specs.InnerGathering.{AreGathered, FailsOf, IsGathered, IsStaleAmong};
ghost use Rattle.index_format.specs.InnerGathering.{IsUnnamed, numbered_fault};
ghost use Rattle.index_format.specs.Runs.{is_tagged};
ghost use Rattle.index_format.specs.Gathering.{AreGatheredUnder, IsEntryFault, ReadsPlaces};
ghost use Rattle.index_format.specs.Text.{placed_in};

use crate::records::operation_at;
use crate::runs::run_under;
use crate::{IndexEntry, IndexPart, PlaceFault};
use archive_core::Operation;
use archive_records::{ADMISSION, RETIREMENT};
use byte_device::Placed;
use heap_memory::Heap;

/// Appends the operation of the entry with this number to those that were gathered.
fn gather_entry<P: Placed>(
    heap: &Heap,
    gathered: &mut Vec<Operation, Heap>,
    number: u64,
    entry: &IndexEntry,
    archive: &mut P,
    size: u64,
) -> Result<(), PlaceFault>
    requires size { HasSize (P.whole archive.old) size }
    requires entry { IsPlacedEntry (placed_bytes entry.now) }
    ensures { ReadsPlaces P.whole P.failures archive.old archive.new result
        (λ _. IsGathered (P.whole archive.old) (placed_bytes entry.now) (map record_bytes gathered.old.items)
        (map record_bytes gathered.new.items)) (IsUnnamed number (placed_bytes entry.now))
        (FailsOf (FailsWithin P.whole P.failures P.unread archive.old archive.new) (placed_bytes entry.now)) }
{
    let operation = operation_at(heap, archive, size, number, entry)?;
    let Ok(()) = gathered.push(operation) else {
        return Err(PlaceFault::OutOfMemory);
    };
    Ok(())
}

/// Gathers the operations of the entries with a tag and a prefix. No other entry is read.
fn gather_run<P: Placed>(
    heap: &Heap,
    gathered: &mut Vec<Operation, Heap>,
    tag: u8,
    prefix: &[u8],
    entries: &[IndexEntry],
    archive: &mut P,
    size: u64,
) -> Result<(), PlaceFault>
    requires size { HasSize (P.whole archive.old) size }
    requires indexed { AreIndexed (map placed_bytes entries.now) }
    requires short { length prefix.now ≤ 24 }
    ensures { ReadsPlaces P.whole P.failures archive.old archive.new result
        (λ _. AreGathered (P.whole archive.old) (is_tagged tag prefix.now) (map placed_bytes entries.now)
        (length entries.now) (map record_bytes gathered.old.items) (map record_bytes gathered.new.items))
        (IsStaleAmong (is_tagged tag prefix.now) (map placed_bytes entries.now))
        (FailsAmong (FailsWithin P.whole P.failures P.unread archive.old archive.new) (is_tagged tag prefix.now)
        (map placed_bytes entries.now)) }
{
    let (start, stop) = run_under(entries, tag, prefix);
    let run = &entries[start..stop];
    'run: for (index, entry) in run.iter().enumerate() {
        gather_entry(heap, gathered, (start + index) as u64, entry, archive, size)?;
    }
    Ok(())
}

/// Gathers the operations of the entries with a prefix, in their order: the retirements, then the admissions.
fn gather_under<P: Placed>(
    heap: &Heap,
    gathered: &mut Vec<Operation, Heap>,
    prefix: &[u8],
    entries: &[IndexEntry],
    archive: &mut P,
    size: u64,
) -> Result<(), PlaceFault>
    requires size { HasSize (P.whole archive.old) size }
    requires indexed { AreIndexed (map placed_bytes entries.now) }
    requires short { length prefix.now ≤ 24 }
    ensures { ReadsPlaces P.whole P.failures archive.old archive.new result
        (λ _. AreGathered (P.whole archive.old) (is_under prefix.now) (map placed_bytes entries.now)
        (length entries.now) (map record_bytes gathered.old.items) (map record_bytes gathered.new.items))
        (IsStaleAmong (is_under prefix.now) (map placed_bytes entries.now))
        (FailsAmong (FailsWithin P.whole P.failures P.unread archive.old archive.new) (is_under prefix.now)
        (map placed_bytes entries.now)) }
{
    gather_run(heap, gathered, RETIREMENT, prefix, entries, archive, size)?;
    gather_run(heap, gathered, ADMISSION, prefix, entries, archive, size)
}

/// The fault of gathering by a part of an index, whose entries have these numbers.
fn numbered_fault(numbers: &[u64], fault: PlaceFault) -> PlaceFault
    ensures { result ≡ numbered_fault numbers.now fault }
{
    match fault {
        PlaceFault::Stale(Some(at)) => PlaceFault::Stale(numbers.get(at as usize).copied()),
        told => told,
    }
}

/// Gathers the records with a UUID or a key at the offsets in an index, and appends them to those that were gathered:
/// each admission is tested like a record of an archive, and its slice is hashed and compared with its entry. The
/// entries are found by binary search, and no other is used. After a failure, some of the records may have been
/// gathered.
///
/// # Errors
///
/// `Stale` for the first entry that names no record at its offset; `Device` for the record that was being read;
/// `OutOfMemory`.
pub fn gather_at<P: Placed>(
    heap: &Heap,
    gathered: &mut Vec<Operation, Heap>,
    prefix: &[u8],
    part: &IndexPart,
    archive: &mut P,
    size: u64,
) -> Result<(), PlaceFault>
    requires some { 0 < length prefix.now }
    requires prefix { length prefix.now ≤ 24 }
    requires size { HasSize (P.whole archive.old) size }
    ensures { ReadsPlaces P.whole P.failures archive.old archive.new result
        (λ _. AreGatheredUnder (P.whole archive.old) prefix.now (placed_in part.now)
        (map record_bytes gathered.old.items) (map record_bytes gathered.new.items))
        (IsEntryFault prefix.now (placed_in part.now))
        (FailsUnder (FailsWithin P.whole P.failures P.unread archive.old archive.new) prefix.now
        (placed_in part.now)) }
{
    let (numbers, entries) = part.parts();
    match gather_under(heap, gathered, prefix, entries, archive, size) {
        Ok(()) => Ok(()),
        Err(fault) => Err(numbered_fault(numbers, fault)),
    }
}
