//! The magic and the end record of an index.

ghost use Rattle.std.specs.Prelude.{◌≡◌, ◌≢◌, ◌↔◌, ◌+◌, ◌-◌, ◌*◌, ◌<◌, ◌≤◌, ◌^◌, ℕ, List, Ok};
ghost use Rattle.std.specs.Prelude.{IfOk, IfErr, OnOk, MatchResult, IsTrue, length, slice_index, take, drop, min};
ghost use Rattle.std.specs.Str.{bytes_eq};
ghost use Rattle.table_checked_pages.specs.Pages.{digests_size};
ghost use Rattle.index_format.specs.Text.{earlier_magic, index_magic};
ghost use Rattle.index_format.specs.Fault.{FailsInBeginning, FailsAtEnd, check_beginning};
ghost use Rattle.index_format.specs.InnerReading.{AreEndsOf, FailsInEnds, HasBeginning, IsUnread};
ghost use Rattle.index_format.specs.Reading.{IsRefused, ReadsText};
ghost use Rattle.index_format.specs.declared.index_fault.IndexFaultKind.TheVariants.{Device};

use crate::entry::ENTRY_LEN;
use crate::{IndexFault, IndexFaultKind};
use archive_records::number_at;
use byte_device::{Failed, Placed, ReadFault, read_at};
use heap_memory::Heap;
use table_checked_pages::digests_len;

/// The length of the magic in bytes.
pub(crate) const MAGIC_LEN: u64 = archive_records::MAGIC_LEN as u64;

/// The length of the end record in bytes.
const END_LEN: u64 = 57;

/// The length of both in bytes.
const ENDS_LEN: u64 = MAGIC_LEN + END_LEN;

/// The tag of the end record.
const END: u8 = 3;

/// The fields of the end record, and the offsets of the entries.
#[derive(Clone, Copy)]
pub(crate) struct Ends {
    /// The offset of the stored entries: of the digests before them, if there are any.
    pub start: u64,
    /// The offset of the first entry.
    pub first: u64,
    /// The number of entries.
    pub count: u64,
    /// The number of retirements among them.
    pub retired: u64,
    /// The length of the archive.
    pub archive_len: u64,
    /// The root of the stored entries.
    pub root: [u8; 32],
}

/// The magic of an index: its first eight bytes.
pub fn magic() -> [u8; 8]
    ensures { result ≡ index_magic }
{
    *b"MSYMIDX2"
}

/// The size of the device in bytes.
fn read_size<P: Placed>(device: &mut P) -> Result<u64, IndexFault>
    ensures { ReadsText P.whole P.failures device.old device.new result
        (λ text size. size ≡ length text) (λ text fault. ⊥) }
{
    match device.size() {
        Ok(size) => Ok(size),
        Err(Failed) => Err(IndexFault {
            kind: IndexFaultKind::Device,
            offset: 0,
        }),
    }
}

/// Reads this number of bytes from an offset.
pub(crate) fn read_part<P: Placed>(
    heap: Heap,
    device: &mut P,
    offset: u64,
    count: u64,
) -> Result<Vec<u8, Heap>, IndexFault>
    requires { offset + count < 2 ^ 64 }
    ensures long { IfOk result (λ bytes. length bytes.items ≡ count) }
    ensures read { ReadsText P.whole P.failures device.old device.new result
        (λ text bytes. bytes.items ≡ take count (drop offset text)) (IsUnread offset count) }
{
    match read_at(heap, device, offset, count) {
        Ok(Some(bytes)) => Ok(bytes),
        Ok(None) => Err(IndexFault {
            kind: IndexFaultKind::Truncated,
            offset,
        }),
        Err(ReadFault::Device) => Err(IndexFault {
            kind: IndexFaultKind::Device,
            offset,
        }),
        Err(ReadFault::OutOfMemory) => Err(IndexFault::out_of_memory(offset)),
    }
}

/// Whether the bytes are a prefix of the magic.
fn begins(beginning: &[u8]) -> bool
    requires { length beginning.now ≤ 8 }
    ensures { result ≡ bytes_eq beginning.now (take (length beginning.now) index_magic) }
{
    beginning == &magic()[..beginning.len()]
}

/// Whether the bytes are the magic of a release before 2.4.
fn is_earlier(beginning: &[u8]) -> bool
    ensures { result ≡ bytes_eq beginning.now earlier_magic }
{
    beginning == b"MSYMIDX1".as_slice()
}

/// Whether the size has room for the magic, this number of entries as they are stored, and an end record, and no more
/// of the entries are retirements.
fn fit(size: u64, count: u64, retired: u64) -> bool
    ensures { IsTrue result ↔ ((65 + (digests_size (122 * count) + 122 * count) ≤ size) × (retired ≤ count)) }
{
    let Some(len) = (ENTRY_LEN as u64).checked_mul(count) else {
        return false;
    };
    let needed = u128::from(ENDS_LEN) + u128::from(digests_len(len)) + u128::from(len);
    needed <= u128::from(size) && retired <= count
}

/// Checks the beginning of a text with this size and these first bytes.
fn check_beginning(size: u64, beginning: &[u8]) -> Result<(), IndexFault>
    requires { length beginning.now ≡ min size 8 }
    ensures checked { (text : List ℕ) → size ≡ length text → beginning.now ≡ take 8 text
        → MatchResult result (λ _. check_beginning text ≡ Ok tt) (FailsInBeginning text) }
    ensures room { OnOk result (65 ≤ size) }
    ensures faulty { IfErr result (λ fault. fault.kind ≢ Device) }
{
    if is_earlier(beginning) {
        return Err(IndexFault {
            kind: IndexFaultKind::OldIndex,
            offset: 0,
        });
    }
    if !begins(beginning) {
        return Err(IndexFault {
            kind: IndexFaultKind::BadMagic,
            offset: 0,
        });
    }
    if size < ENDS_LEN {
        return Err(IndexFault {
            kind: IndexFaultKind::Truncated,
            offset: size.saturating_sub(END_LEN),
        });
    }
    Ok(())
}

/// Reads the magic, and returns the size of the text: it has room for an end record at least.
fn read_beginning<P: Placed>(heap: Heap, device: &mut P) -> Result<u64, IndexFault>
    ensures room { IfOk result (λ size. 65 ≤ size) }
    ensures read { ReadsText P.whole P.failures device.old device.new result
        HasBeginning FailsInBeginning }
{
    let size = read_size(device)?;
    let beginning = read_part(heap, device, 0, size.min(MAGIC_LEN))?;
    check_beginning(size, &beginning)?;
    Ok(size)
}

/// Whether the bytes begin with the tag of an end record.
fn is_end(bytes: &[u8]) -> bool
    requires { 0 < length bytes.now }
    ensures { IsTrue result ↔ (slice_index bytes.now 0 ≡ 3) }
{
    bytes[0] == END
}

/// The root in an end record.
fn root_in(end: &[u8]) -> [u8; 32]
    requires { length end.now ≡ 57 }
    ensures { result ≡ drop 25 end.now }
{
    let mut root = [0; 32];
    root.copy_from_slice(&end[25..]);
    root
}

/// The ends of a text with this size and this end record.
fn ends_in(size: u64, end: &[u8]) -> Result<Ends, IndexFault>
    requires room { 65 ≤ size }
    requires long { length end.now ≡ 57 }
    ensures checked { (text : List ℕ) → HasBeginning text size → end.now ≡ drop (length text - 57) text
        → MatchResult result (AreEndsOf text) (FailsAtEnd text) }
    ensures faulty { IfErr result (λ fault. fault.kind ≢ Device) }
    ensures short { IfOk result (λ ends. ends.archive_len < 2 ^ 64) }
    ensures retired { IfOk result (λ ends. ends.retired ≤ ends.count) }
    ensures fits { IfOk result (λ ends. ends.first + 122 * ends.count + 57 ≡ size) }
{
    let offset = size - END_LEN;
    if !is_end(end) {
        return Err(IndexFault {
            kind: IndexFaultKind::Truncated,
            offset,
        });
    }
    let count = number_at(end, 1);
    let retired = number_at(end, 9);
    if !fit(size, count, retired) {
        return Err(IndexFault {
            kind: IndexFaultKind::BadCount,
            offset,
        });
    }
    let len = ENTRY_LEN as u64 * count;
    let first = offset - len;
    let archive_len = number_at(end, 17);
    let root = root_in(end);
    Ok(Ends {
        start: first - digests_len(len),
        first,
        count,
        retired,
        archive_len,
        root,
    })
}

/// Reads the end record of a text with this size.
fn read_end<P: Placed>(heap: Heap, device: &mut P, size: u64) -> Result<Ends, IndexFault>
    requires { 65 ≤ size }
    ensures short { IfOk result (λ ends. ends.archive_len < 2 ^ 64) }
    ensures retired { IfOk result (λ ends. ends.retired ≤ ends.count) }
    ensures fits { IfOk result (λ ends. ends.first + 122 * ends.count + 57 ≡ size) }
    ensures read { ReadsText P.whole P.failures device.old device.new result
        (λ text ends. HasBeginning text size → AreEndsOf text ends)
        (λ text fault. HasBeginning text size → IsRefused FailsAtEnd text fault) }
{
    let end = read_part(heap, device, size - END_LEN, END_LEN)?;
    ends_in(size, &end)
}

/// Reads the magic and the end record.
pub(crate) fn read_ends<P: Placed>(heap: Heap, device: &mut P) -> Result<Ends, IndexFault>
    ensures short { IfOk result (λ ends. ends.archive_len < 2 ^ 64) }
    ensures retired { IfOk result (λ ends. ends.retired ≤ ends.count) }
    ensures fits { IfOk result (λ ends. ends.first + 122 * ends.count + 57 < 2 ^ 64) }
    ensures read { ReadsText P.whole P.failures device.old device.new result AreEndsOf FailsInEnds }
{
    let size = read_beginning(heap.share(), device)?;
    read_end(heap, device, size)
}
