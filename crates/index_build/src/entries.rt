//! The entries of an index in byte order, as they are stored, and its end record.

ghost use Rattle.std.specs.Prelude.{◌≡◌, ◌++◌, IfOk, map};
ghost use Rattle.std.specs.FinSet as set;
ghost use Rattle.std.specs.List.{concat};
ghost use Rattle.join_core.specs.Listing.{listing};
ghost use Rattle.table_checked_pages.specs.Pages.{stored};
ghost use Rattle.archive_core.specs.Summary.{Entries};
ghost use Rattle.index_format.specs.Entry.{entry_bytes};
ghost use Rattle.index_format.specs.Text.{archive_length, end_of};

use archive_records::end_bytes;
use heap_memory::{Heap, NoMemory};
use index_format::{IndexEntry, retired_in};
use table_checked_pages::store;

/// The entries in ascending byte order.
pub(crate) fn sorted(entries: Vec<IndexEntry, Heap>) -> Vec<IndexEntry, Heap>
    ensures { let all : Entries = set.from_list (map entry_bytes entries.items) in
        map entry_bytes result.items ≡ listing all }
{
    let mut entries = entries;
    entries.sort_unstable_by(|a, b| a.compare(b));
    entries.dedup_by(|a, b| a.compare(b).is_eq());
    entries
}

/// The bytes of the entries, one after another. Fails only if memory runs out.
fn joined(heap: Heap, entries: &[IndexEntry]) -> Result<Vec<u8, Heap>, NoMemory>
    ensures { IfOk result (λ bytes. bytes.items ≡ concat (map entry_bytes entries.now)) }
{
    let mut bytes = Vec::new(heap);
    'joining: for entry in entries {
        let item = entry.bytes();
        bytes.extend_from_slice(&item)?;
    }
    Ok(bytes)
}

/// The end of an index after its tables: these entries as they are stored, and the end record, which has the length of
/// their archive. Fails only if memory runs out.
pub(crate) fn ending(
    heap: &Heap,
    entries: &[IndexEntry],
    archive_len: u128,
) -> Result<Vec<u8, Heap>, NoMemory>
    requires { archive_len ≡ archive_length (map entry_bytes entries.now) }
    ensures { let bytes = map entry_bytes entries.now in
        IfOk result (λ end. end.items ≡ stored (concat bytes) ++ end_of bytes) }
{
    let made = store(heap, joined(heap.share(), entries)?)?;
    let root = made.root;
    let mut bytes = made.bytes;
    bytes.extend_from_slice(&end_bytes(entries.len() as u64))?;
    bytes.extend_from_slice(&retired_in(entries).to_be_bytes())?;
    bytes.extend_from_slice(&archive_len.to_be_bytes()[8..])?;
    bytes.extend_from_slice(&root)?;
    Ok(bytes)
}
