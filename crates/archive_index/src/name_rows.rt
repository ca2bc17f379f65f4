//! The rows of a name in slices.
ghost use Rattle.std.specs.Prelude.{◌≡◌, ◌↔◌, map, Contains, IfOk};
ghost use Rattle.std.specs.List.Sorted.{IsStrictlySortedBy};
ghost use Rattle.archive_core.specs.Names.{NameRecord, name_cmp, name_view, names_in};

use archive_core::{NameRow, Slice};
use heap_memory::{Heap, NoMemory};

// The rows of a name in a slice, in the order of its symbol table. Not inlined: see `CheckedSlice::has_name`.
#[inline(never)]
pub(crate) fn rows_in<'a>(
    heap: Heap,
    slice: &'a Slice,
    name: &[u8],
) -> Result<Vec<NameRow<'a>, Heap>, NoMemory>
    ensures { IfOk result (λ rows. map name_view rows.items ≡ names_in name.now slice.now) }
{
    let key = slice.key();
    let digest = slice.digest();
    slice
        .symbols()
        .named(name)
        .map(|found| NameRow::of(key, digest, found))
        .collect(heap)
}

// Sorts the rows, and keeps each once.
pub(crate) fn put_in_order(rows: &mut Vec<NameRow<'_>, Heap>)
    ensures ascending { IsStrictlySortedBy name_cmp (map name_view rows.new.items) }
    ensures same { (row : NameRecord)
        → Contains (map name_view rows.new.items) row ↔ Contains (map name_view rows.old.items) row }
{
    rows.sort_unstable_by(|a, b| a.compare(b));
    rows.dedup_by(|a, b| a.compare(b).is_eq());
}
