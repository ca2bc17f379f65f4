//! The records with a UUID or a key.

ghost use Rattle.std.specs.Prelude.{◌≡◌, ◌<◌, length, map, IfOk, OnOk};
ghost use Rattle.std.specs.FinSet as set;
ghost use Rattle.archive_core.specs.Content.{content_of, with_records};
ghost use Rattle.archive_core.specs.Part.{is_under};
ghost use Rattle.archive_core.specs.Record.{record_bytes};
ghost use Rattle.byte_device.specs.Places.{HasSize};
ghost use Rattle.index_format.specs.Entry.{placed_bytes};
ghost use Rattle.index_format.specs.Gathering.{IsSizeFault, ReadsPlaces};

use crate::{IndexEntry, PlaceFault};
use archive_core::{Archive, Operation};
use byte_device::Placed;
use heap_memory::{Heap, NoMemory};

/// Whether the key of an entry begins with this prefix.
pub fn is_under(prefix: &[u8], entry: &IndexEntry) -> bool
    ensures { result ≡ is_under prefix.now (placed_bytes entry.now) }
{
    begins(&entry.placed_bytes(), prefix)
}

/// Whether the bytes after a tag begin with this prefix.
fn begins(bytes: &[u8], prefix: &[u8]) -> bool
    requires { 0 < length bytes.now }
    ensures { result ≡ is_under prefix.now bytes.now }
{
    bytes[1..].starts_with(prefix)
}

/// The size of an archive, if it is this one. No byte of the archive is read.
///
/// # Errors
///
/// `Stale` if the archive has another length; `Device` at 0.
pub fn indexed_size<P: Placed>(size: u128, archive: &mut P) -> Result<u64, PlaceFault>
    ensures { ReadsPlaces P.whole P.failures archive.old archive.new result
        (λ found. (found ≡ size) × HasSize (P.whole archive.old) found) (IsSizeFault size)
        (λ offset. (offset ≡ 0) × P.unmeasured archive.old archive.new) }
{
    let Ok(found) = archive.size() else {
        return Err(PlaceFault::Device(0));
    };
    if u128::from(found) == size {
        Ok(found)
    } else {
        Err(PlaceFault::Stale(None))
    }
}

/// Adds operations to an archive one after another. Fails only if memory runs out.
fn take_in_turn<A: Archive>(part: &mut A, operations: Vec<Operation, Heap>) -> Result<(), NoMemory>
    ensures { OnOk result
        (A.content part.new ≡ with_records (A.content part.old) (map record_bytes operations.items)) }
{
    'operations: for operation in operations {
        part.take(operation)?;
    }
    Ok(())
}

/// An archive of these operations, which may have any order. They are sorted first: so none shifts another, and each
/// slice follows the retirements of its key. Fails only if memory runs out.
pub fn archive_of<A: Archive + Drop>(
    heap: Heap,
    operations: Vec<Operation, Heap>,
) -> Result<A, NoMemory>
    ensures { IfOk result (λ made.
        A.content made ≡ content_of (set.from_list (map record_bytes operations.items))) }
{
    let mut sorted = operations;
    sorted.sort_unstable_by(|a, b| a.compare(b));
    let mut made = A::empty(heap);
    take_in_turn(&mut made, sorted)?;
    Ok(made)
}
