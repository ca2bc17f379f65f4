//! Archives that are read by their indexes.

ghost use Rattle.std.specs.Prelude.{◌≡◌, ◌<◌, length};
ghost use Rattle.command_common.specs.Inputs.{ReadsInputs, reader, readers};
ghost use Rattle.command_given_indexes.specs.Answered.{of_first_pair, rows_at, rows_by, rows_joined, rows_listed};
ghost use Rattle.command_given_indexes.specs.Answered.{summary_told};

use crate::inputs::{read_first_index, read_matching_part};
use crate::prefixes::KeyPrefix;
use crate::rows::{rows_listed, rows_under};
use crate::summaries::summary_of;
use crate::together::read_archives_by_indexes;
use archive_core::{Archive, FindRow};
use archive_records::Summary;
use byte_device::Placed;
use command_common::{CommandFault, Evidence, uuid_bytes};
use heap_memory::Heap;
use uuid::Uuid;

/// Archives and their indexes, in the order of the command line. The length of an archive is read, and the slices that
/// its index names, if they are needed.
#[derive(Drop)]
pub struct Indexes<'a, I, P> {
    /// The index of each archive.
    pub indexes: &'a mut [I],
    /// The archives, as many as the indexes.
    pub archives: &'a mut [P],
}

/// The rows of the entries of an index under a UUID.
fn rows_at<I: Placed, P: Placed>(
    heap: Heap,
    index: &mut I,
    archive: &mut P,
    uuid: &Uuid,
) -> Result<Vec<FindRow, Heap>, CommandFault>
    ensures { let asked = rows_at (reader I.whole I.failures index.old index.new)
        (reader P.whole P.failures archive.old archive.new) uuid.now in
        ReadsInputs result (λ rows. asked.Has rows.items) asked.Refuses asked.Unfailed }
{
    let uuids = [uuid_bytes(*uuid)];
    let (part, _) = read_matching_part(&heap, 0, &uuids, index, archive)?;
    Ok(rows_under(&heap, *uuid, &part)?)
}

/// All rows of an index.
fn rows_listed_at<I: Placed, P: Placed>(
    heap: Heap,
    index: &mut I,
    archive: &mut P,
) -> Result<Vec<FindRow, Heap>, CommandFault>
    ensures { let asked = rows_listed (reader I.whole I.failures index.old index.new)
        (reader P.whole P.failures archive.old archive.new) in
        ReadsInputs result (λ rows. asked.Has rows.items) asked.Refuses asked.Unfailed }
{
    let entries = read_first_index(&heap, index, archive)?;
    Ok(rows_listed(&heap, &entries)?)
}

/// The rows under a UUID of the slices that the indexes of archives name there.
fn rows_joined<A: Archive + Drop, I: Placed, P: Placed>(
    heap: Heap,
    indexes: &mut [I],
    archives: &mut [P],
    uuid: &Uuid,
) -> Result<Vec<FindRow, Heap>, CommandFault>
    requires { length indexes.old ≡ length archives.old }
    ensures { let asked = rows_joined (readers I.whole I.failures indexes.old indexes.new)
        (readers P.whole P.failures archives.old archives.new) uuid.now in
        ReadsInputs result (λ rows. asked.Has rows.items) asked.Refuses asked.Unfailed }
{
    let uuids = [uuid_bytes(*uuid)];
    let sought = [KeyPrefix::Uuid(*uuid)];
    let kept: A = read_archives_by_indexes(&heap, &uuids, &sought, indexes, archives)?;
    Ok(kept.find(uuid)?)
}

/// The rows under a UUID; for one archive by entries alone.
fn find_by<A: Archive + Drop, I: Placed, P: Placed>(
    heap: Heap,
    indexes: &mut [I],
    archives: &mut [P],
    uuid: &Uuid,
) -> Result<Vec<FindRow, Heap>, CommandFault>
    requires { length indexes.old ≡ length archives.old }
    ensures { let asked = rows_by (readers I.whole I.failures indexes.old indexes.new)
        (readers P.whole P.failures archives.old archives.new) uuid.now in
        ReadsInputs result (λ rows. asked.Has rows.items) asked.Refuses asked.Unfailed }
{
    if archives.len() == 1 {
        return match (indexes, archives) {
            ([index], [archive]) => rows_at(heap, index, archive, uuid),
            _ => unreachable!(),
        };
    }
    rows_joined::<A, _, _>(heap, indexes, archives, uuid)
}

/// All rows of the first archive.
fn list_first<I: Placed, P: Placed>(
    heap: Heap,
    indexes: &mut [I],
    archives: &mut [P],
) -> Result<Vec<FindRow, Heap>, CommandFault>
    requires index { 0 < length indexes.old }
    requires archive { 0 < length archives.old }
    ensures { let asked = of_first_pair (λ index archive. rows_listed index archive)
        (readers I.whole I.failures indexes.old indexes.new) (readers P.whole P.failures archives.old archives.new) in
        ReadsInputs result (λ rows. asked.Has rows.items) asked.Refuses asked.Unfailed }
{
    match (indexes, archives) {
        ([index, ..], [archive, ..]) => rows_listed_at(heap, index, archive),
        _ => unreachable!(),
    }
}

/// The summary of an index.
fn summary_at<I: Placed, P: Placed>(
    heap: Heap,
    index: &mut I,
    archive: &mut P,
) -> Result<Summary, CommandFault>
    ensures { let asked = summary_told (reader I.whole I.failures index.old index.new)
        (reader P.whole P.failures archive.old archive.new) in
        ReadsInputs result asked.Has asked.Refuses asked.Unfailed }
{
    let entries = read_first_index(&heap, index, archive)?;
    Ok(summary_of(heap, &entries)?)
}

/// The summary of the first archive.
fn summarize_first<I: Placed, P: Placed>(
    heap: Heap,
    indexes: &mut [I],
    archives: &mut [P],
) -> Result<Summary, CommandFault>
    requires index { 0 < length indexes.old }
    requires archive { 0 < length archives.old }
    ensures { let asked = of_first_pair (λ index archive. summary_told index archive)
        (readers I.whole I.failures indexes.old indexes.new) (readers P.whole P.failures archives.old archives.new) in
        ReadsInputs result asked.Has asked.Refuses asked.Unfailed }
{
    match (indexes, archives) {
        ([index, ..], [archive, ..]) => summary_at(heap, index, archive),
        _ => unreachable!(),
    }
}

impl<'a, I: Placed, P: Placed> Evidence for Indexes<'a, I, P> {
    ghost can_find = { λ by. length by.indexes.now ≡ length by.archives.now };

    ghost can_list = { λ by. (0 < length by.indexes.now) × (0 < length by.archives.now) };

    ghost keeps = { λ old new. (new.indexes.ghost_name ≡ old.indexes.ghost_name)
        × (new.archives.ghost_name ≡ old.archives.ghost_name)
        × (length new.indexes.now ≡ length old.indexes.now)
        × (length new.archives.now ≡ length old.archives.now) };

    ghost found = { λ old new uuid. rows_by (readers I.whole I.failures old.indexes.now new.indexes.now)
        (readers P.whole P.failures old.archives.now new.archives.now) uuid };

    ghost listed = { λ old new. of_first_pair (λ index archive. rows_listed index archive)
        (readers I.whole I.failures old.indexes.now new.indexes.now)
        (readers P.whole P.failures old.archives.now new.archives.now) };

    ghost summarized = { λ old new. of_first_pair (λ index archive. summary_told index archive)
        (readers I.whole I.failures old.indexes.now new.indexes.now)
        (readers P.whole P.failures old.archives.now new.archives.now) };

    fn find<A: Archive + Drop>(
        &mut self,
        heap: Heap,
        uuid: &Uuid,
    ) -> Result<Vec<FindRow, Heap>, CommandFault> {
        find_by::<A, _, _>(heap, self.indexes, self.archives, uuid)
    }

    fn list(&mut self, heap: Heap) -> Result<Vec<FindRow, Heap>, CommandFault> {
        list_first(heap, self.indexes, self.archives)
    }

    fn summarize(&mut self, heap: Heap) -> Result<Summary, CommandFault> {
        summarize_first(heap, self.indexes, self.archives)
    }
}
