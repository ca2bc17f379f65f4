//! The record at the offset of an entry.

ghost use Rattle.std.specs.Prelude.{◌≡◌, ◌≢◌, ◌+◌, ◌≤◌, ◌↔◌, Err, true, false, length, take, drop};
ghost use Rattle.std.specs.Prelude.{slice_index, IfNone, IfOk, IfSome, IsTrue, MatchOption, OnOk};
ghost use Rattle.std.specs.Int.{w64, from_be_bytes};
ghost use Rattle.archive_core.specs.Record.{Admits, borrowed_bytes, record_bytes};
ghost use Rattle.archive_core.specs.declared.find.FindState.TheVariants.{Retired};
ghost use Rattle.byte_device.specs.Devices.{FailedIn, FailsWithin};
ghost use Rattle.byte_device.specs.Places.{EndsBefore, HasSize, Stands};
ghost use Rattle.index_format.specs.Entry.{IsPlacedEntry, placed_bytes, placed_entry};
ghost use Rattle.index_format.specs.Places.{IsNamedBy};
ghost use Rattle.index_format.specs.InnerGathering.{FailsOf, IsUnnamed};
ghost use Rattle.index_format.specs.Gathering.{ReadsPlaces};

use crate::{IndexEntry, PlaceFault};
use archive_core::{FindState, Operation, Record, Slice, retirement};
use archive_records::{ADMISSION, ADMISSION_HEAD_LEN, has_key, number_at};
use byte_device::{Placed, ReadFault, read_at};
use heap_memory::{Heap, NoMemory};

/// Whether the bytes begin with the tag of an admission and a key, and the length after them is that of the rest.
fn has_head(bytes: &[u8]) -> bool
    ensures long { result ≡ true → 33 ≤ length bytes.now }
    ensures yes { result ≡ true → (slice_index bytes.now 0 ≡ 2)
        × (from_be_bytes w64 (take 8 (drop 25 bytes.now)) + 33 ≡ length bytes.now) }
    ensures no { result ≡ false → Admits bytes.now → ⊥ }
{
    if bytes.len() < ADMISSION_HEAD_LEN {
        return false;
    }
    if bytes[0] != ADMISSION {
        return false;
    }
    number_at(bytes, 25) == (bytes.len() - ADMISSION_HEAD_LEN) as u64
}

/// The record of an admission, if these bytes are one.
fn admission_in(bytes: &[u8]) -> Option<Record<'_>>
    ensures found { IfSome result (λ borrowed. borrowed_bytes borrowed ≡ bytes.now) }
    ensures admits { IfSome result (λ _. Admits bytes.now) }
    ensures none { IfNone result (Admits bytes.now → ⊥) }
{
    if !has_head(bytes) {
        return None;
    }
    match Slice::check(&bytes[ADMISSION_HEAD_LEN..]) {
        Ok(slice) => {
            if has_key(bytes, &slice.key()) {
                Some(Record::Admit(slice))
            } else {
                None
            }
        }
        Err(_) => None,
    }
}

/// Whether the record with these bytes is that of the entry. Its slice is hashed.
fn is_of(entry: &IndexEntry, bytes: &[u8], record: &Record<'_>) -> bool
    requires { borrowed_bytes record.now ≡ bytes.now }
    ensures { IsTrue result ↔ (placed_bytes entry.now ≡ placed_entry entry.now.offset bytes.now) }
{
    let made = IndexEntry::of_record(record, entry.offset, bytes.len() as u64, entry.claim);
    made.placed_bytes() == entry.placed_bytes()
}

/// The operation of the admission with these bytes, if they are the record of the entry. The slice is hashed, and
/// copied.
fn admission_of(
    heap: &Heap,
    entry: &IndexEntry,
    bytes: &[u8],
) -> Result<Option<Operation>, NoMemory>
    ensures found { IfOk result (λ found. IfSome found (λ operation. record_bytes operation ≡ bytes.now)) }
    ensures named { IfOk result (λ found. IfSome found (λ _. Admits bytes.now
        × (placed_bytes entry.now ≡ placed_entry entry.now.offset bytes.now))) }
    ensures none { IfOk result (λ found. IfNone found (Admits bytes.now
        → placed_bytes entry.now ≡ placed_entry entry.now.offset bytes.now → ⊥)) }
{
    let Some(record) = admission_in(bytes) else {
        return Ok(None);
    };
    if is_of(entry, bytes, &record) {
        Ok(Some(record.copy(heap.share())?))
    } else {
        Ok(None)
    }
}

/// The bytes at the offset of an entry, in an archive of this size; none if there are fewer.
fn bytes_at<P: Placed>(
    heap: Heap,
    archive: &mut P,
    size: u64,
    entry: &IndexEntry,
) -> Result<Option<Vec<u8, Heap>>, ReadFault>
    requires { HasSize (P.whole archive.old) size }
    ensures read { IfOk result (λ read. MatchOption read
        (EndsBefore (P.whole archive.old) (entry.now.offset + entry.now.length))
        (λ bytes. (length bytes.items ≡ entry.now.length)
        × Stands (P.whole archive.old) entry.now.offset bytes.items)) }
    ensures keeps { P.whole archive.new ≡ P.whole archive.old }
    ensures unfailed { OnOk result (P.failures archive.new ≡ P.failures archive.old) }
    ensures device { result ≡ Err ReadFault.Device → FailedIn (P.failures archive.old) (P.failures archive.new) }
    ensures unread { result ≡ Err ReadFault.Device
        → FailsWithin P.whole P.failures P.unread archive.old archive.new entry.now.offset entry.now.length }
    ensures memory { result ≡ Err ReadFault.OutOfMemory → P.failures archive.new ≡ P.failures archive.old }
{
    if entry.length > size || entry.offset > size - entry.length {
        return Ok(None);
    }
    read_at(heap, archive, entry.offset, entry.length)
}

/// The offset of an entry's record.
fn offset_of(entry: &IndexEntry) -> u64
    ensures { result ≡ entry.now.offset }
{
    entry.offset
}

/// The length of an entry's record.
fn length_of(entry: &IndexEntry) -> u64
    ensures { result ≡ entry.now.length }
{
    entry.length
}

/// Whether an entry is that of a retirement.
fn is_retirement(state: FindState) -> bool
    ensures yes { result ≡ true → state ≡ Retired }
    ensures no { result ≡ false → state ≢ Retired }
{
    match state {
        FindState::Retired => true,
        FindState::Image | FindState::Dsym => false,
    }
}

/// The operation of the entry with this number: a retirement is in the entry itself, and an admission is at its offset.
/// Otherwise the entry is stale.
pub(crate) fn operation_at<P: Placed>(
    heap: &Heap,
    archive: &mut P,
    size: u64,
    number: u64,
    entry: &IndexEntry,
) -> Result<Operation, PlaceFault>
    requires size { HasSize (P.whole archive.old) size }
    requires entry { IsPlacedEntry (placed_bytes entry.now) }
    ensures { ReadsPlaces P.whole P.failures archive.old archive.new result
        (λ operation. IfSome (P.whole archive.old) (λ text. IsNamedBy text (placed_bytes entry.now)
        (record_bytes operation))) (IsUnnamed number (placed_bytes entry.now))
        (FailsOf (FailsWithin P.whole P.failures P.unread archive.old archive.new) (placed_bytes entry.now)) }
{
    let _offset = offset_of(entry);
    let _length = length_of(entry);
    if is_retirement(entry.row.state) {
        return Ok(retirement(entry.row.key, entry.row.digest));
    }
    let bytes = match bytes_at(heap.share(), archive, size, entry) {
        Ok(Some(bytes)) => bytes,
        Ok(None) => return Err(PlaceFault::Stale(Some(number))),
        Err(ReadFault::Device) => return Err(PlaceFault::Device(entry.offset)),
        Err(ReadFault::OutOfMemory) => return Err(PlaceFault::OutOfMemory),
    };
    match admission_of(heap, entry, &bytes) {
        Ok(Some(operation)) => Ok(operation),
        Ok(None) => Err(PlaceFault::Stale(Some(number))),
        Err(NoMemory) => Err(PlaceFault::OutOfMemory),
    }
}
