//! The lines of the slices that answer in an archive under the UUIDs of keys.

ghost use Rattle.std.specs.Prelude.{IfOk, string_bytes};
ghost use Rattle.std.specs.List.Sorted.{IsSortedByKey};
ghost use Rattle.std.specs.Ordering.{nat_cmp};
ghost use Rattle.std.specs.Cmp.Lexicographic.{slice_cmp};
ghost use Rattle.command_frames.specs.InnerSlices.{AreRowsUnder, TellsRowsUnder};

use archive_core::{Archive, FindRow, SliceKey};
use archive_from_records::Selects;
use heap_memory::{Heap, NoMemory};
use text_reports::slices_lines;
use uuid::Uuid;

/// UUIDs in the order of their bytes.
#[derive(Drop)]
pub(crate) struct UnderUuids<'u> {
    pub(crate) uuids: &'u [Uuid],
    ghost in_order: { IsSortedByKey (λ uuid. uuid) (slice_cmp nat_cmp) uuids.now },
}

impl<'u> Selects for UnderUuids<'u> {
    ghost use Rattle.command_frames.specs.InnerSlices.{is_under_one};

    ghost picked = { λ under bytes. is_under_one under.uuids.now bytes };

    fn picks(&self, bytes: &[u8]) -> bool {
        let prefix = &bytes[1..17];
        self.uuids
            .binary_search_by(|uuid| uuid.as_bytes()[..].cmp(prefix))
            .is_ok()
    }
}

/// The rows of an archive under UUIDs.
fn rows_under<A: Archive>(
    heap: Heap,
    archive: &A,
    uuids: &[Uuid],
) -> Result<Vec<FindRow, Heap>, NoMemory>
    ensures { IfOk result (λ pool. AreRowsUnder (A.content archive.now) uuids.now pool.items) }
{
    let mut pool = Vec::new(heap);
    'uuids: for uuid in uuids {
        let rows = archive.find(uuid)?;
        pool.extend_from_slice(&rows)?;
    }
    Ok(pool)
}

/// The lines of the slices that answer in an archive under UUIDs, and of the keys without such a slice.
pub(crate) fn slices_under<A: Archive>(
    heap: Heap,
    archive: &A,
    uuids: &[Uuid],
    keys: &[SliceKey],
) -> Result<String<Heap>, NoMemory>
    ensures { IfOk result (λ text.
        TellsRowsUnder (A.content archive.now) uuids.now keys.now (string_bytes text)) }
{
    let pool = rows_under(heap.share(), archive, uuids)?;
    slices_lines(heap, &pool, keys)
}
