//! The records of archives, which are read to their ends.

ghost use Rattle.std.specs.Prelude.{◌≡◌, ◌<◌, ◌∷◌, length};
ghost use Rattle.std.specs.Borrow.{Array, LendsBoth, sem};
ghost use Rattle.command_common.specs.Asked.{of_first};
ghost use Rattle.command_common.specs.Inputs.{ReadsInputs, reader, readers};
ghost use Rattle.command_common.specs.Records.{rows_found, rows_listed, summary_held};

use crate::evidence::Evidence;
use crate::faults::CommandFault;
use crate::sources::{read_rows, summarize_archive};
use crate::together::{read_parts, uuid_bytes};
use archive_core::{Archive, FindRow};
use archive_from_records::Under;
use archive_records::Summary;
use byte_device::Source;
use heap_memory::Heap;
use uuid::Uuid;

/// Archives in the order of the command line, each read to its end.
#[derive(Drop)]
pub struct Records<'a, S> {
    /// At least one.
    pub archives: &'a mut [S],
}

/// The first item, and the rest.
pub fn first_and_rest<T>(items: &mut [T]) -> (&mut T, &mut [T])
    requires { 0 < length items.old }
    ensures parts { items.old ≡ result.0.now ∷ result.1.now }
    ensures* writes_back { sem 𝓛 (LendsBoth (Array T.row 0) T.row (Array T.row 0) items.entry result ◌∷◌) }
{
    let (first, rest) = items.split_at_mut(1);
    (&mut first[0], rest)
}

/// The rows under a UUID in the join of an archive and others.
fn find_together<A: Archive + Drop, S: Source>(
    heap: Heap,
    archive: &mut S,
    others: &mut [S],
    uuid: &Uuid,
) -> Result<Vec<FindRow, Heap>, CommandFault>
    ensures { let asked = rows_found (reader S.left S.failures archive.old archive.new)
        (readers S.left S.failures others.old others.new) uuid.now in
        ReadsInputs result (λ rows. asked.Has rows.items) asked.Refuses asked.Unfailed }
{
    let prefix = uuid_bytes(*uuid);
    let kept: A = read_parts(heap, &Under(&prefix), archive, others)?;
    Ok(kept.find(uuid)?)
}

/// The rows under a UUID in the join of archives.
fn find_in<A: Archive + Drop, S: Source>(
    heap: Heap,
    archives: &mut [S],
    uuid: &Uuid,
) -> Result<Vec<FindRow, Heap>, CommandFault>
    requires { 0 < length archives.old }
    ensures { let asked = of_first (λ archive others. rows_found archive others uuid.now)
        (readers S.left S.failures archives.old archives.new) in
        ReadsInputs result (λ rows. asked.Has rows.items) asked.Refuses asked.Unfailed }
{
    let (archive, others) = first_and_rest(archives);
    find_together::<A, _>(heap, archive, others, uuid)
}

/// All rows of the first archive.
fn list_first<S: Source>(heap: Heap, archives: &mut [S]) -> Result<Vec<FindRow, Heap>, CommandFault>
    requires { 0 < length archives.old }
    ensures { let asked = of_first (λ archive _. rows_listed archive)
        (readers S.left S.failures archives.old archives.new) in
        ReadsInputs result (λ rows. asked.Has rows.items) asked.Refuses asked.Unfailed }
{
    match archives {
        [archive, ..] => read_rows(heap, archive),
        [] => unreachable!(),
    }
}

/// The summary of the first archive.
fn summarize_first<S: Source>(heap: Heap, archives: &mut [S]) -> Result<Summary, CommandFault>
    requires { 0 < length archives.old }
    ensures { let asked = of_first (λ archive _. summary_held archive)
        (readers S.left S.failures archives.old archives.new) in
        ReadsInputs result asked.Has asked.Refuses asked.Unfailed }
{
    match archives {
        [archive, ..] => summarize_archive(heap, archive),
        [] => unreachable!(),
    }
}

impl<'a, S: Source> Evidence for Records<'a, S> {
    ghost can_find = { λ records. 0 < length records.archives.now };

    ghost can_list = { λ records. 0 < length records.archives.now };

    ghost keeps = { λ old new. (new.archives.ghost_name ≡ old.archives.ghost_name)
        × (length new.archives.now ≡ length old.archives.now) };

    ghost found = { λ old new uuid. of_first (λ archive others. rows_found archive others uuid)
        (readers S.left S.failures old.archives.now new.archives.now) };

    ghost listed = { λ old new. of_first (λ archive _. rows_listed archive)
        (readers S.left S.failures old.archives.now new.archives.now) };

    ghost summarized = { λ old new. of_first (λ archive _. summary_held archive)
        (readers S.left S.failures old.archives.now new.archives.now) };

    fn find<A: Archive + Drop>(
        &mut self,
        heap: Heap,
        uuid: &Uuid,
    ) -> Result<Vec<FindRow, Heap>, CommandFault> {
        find_in::<A, _>(heap, self.archives, uuid)
    }

    fn list(&mut self, heap: Heap) -> Result<Vec<FindRow, Heap>, CommandFault> {
        list_first(heap, self.archives)
    }

    fn summarize(&mut self, heap: Heap) -> Result<Summary, CommandFault> {
        summarize_first(heap, self.archives)
    }
}
