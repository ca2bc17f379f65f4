//! The trait of an archive.
ghost use Rattle.std.specs.Prelude.{◌≡◌, ◌<◌, ◌↔◌, IfOk, OnOk, OnErr, map, slice_index_or, []};
ghost use Rattle.std.specs.FinSet as set;
ghost use Rattle.join_core.specs.Listing.{listing};
ghost use Rattle.archive_core.specs.Record.{record_bytes, borrowed_bytes};
ghost use Rattle.join_core.specs.Bound.{IsTowards};
ghost use Rattle.archive_core.specs.Content.{Operations, IsContent, IsBelow, with_record, changes, joined};
ghost use Rattle.archive_core.specs.Find.{AreAnswering, IsFinds};
ghost use Rattle.archive_core.specs.Lookup.{IsAnswer, IsConflict, answer_view};
ghost use Rattle.archive_core.specs.Names.{IsNames, name_view};

use crate::{Answer, FindRow, NameRow, Operation, Record, Slice, SliceKey, Where};
use heap_memory::{Heap, NoMemory};
use join_core::Join;
use std::marker::Model;
use uuid::Uuid;

/// The content of an archive, as contracts see it: a set of records. No value of this type exists at run time.
pub struct Contents {
    nothing: (),
}

impl Model for Contents {
    ghost use Rattle.std.specs.Ordering.{nat_cmp};
    ghost use Rattle.std.specs.Cmp.Lexicographic.{slice_cmp};
    ghost use Rattle.std.specs.FinSet as set;
    ghost use Rattle.std.specs.Coded.{coded_list, coded_ℕ};

    ghost Value = { set.FinSet (slice_cmp nat_cmp) };

    ghost coded = { set.code (coded_list coded_ℕ) };

    ghost view = { λ _. set.empty };
}

/// An archive: a set of operations with a join.
///
/// Its records are in ascending byte order, as in an archive's text. An archive keeps the heap that it was created
/// with.
pub trait Archive: Join<Content = Contents> {
    /// The archive without operations.
    fn empty(heap: Heap) -> Self
        ensures { Self.content result ≡ set.empty };

    /// Adds an operation, and returns whether the content changed. Fails only if memory runs out; the operation is then
    /// dropped. To call again, a caller keeps a copy (`Operation::copy`), or makes the operation again from its bytes.
    fn take(&mut self, operation: Operation) -> Result<bool, NoMemory>
        ensures taken { OnOk result (Self.content self.new
            ≡ with_record (Self.content self.old) (record_bytes operation)) }
        ensures answer { IfOk result (λ changed. changed ≡ changes (Self.content self.old) (record_bytes operation)) }
        ensures refused { OnErr result (Self.content self.new ≡ Self.content self.old) };

    /// Whether the operation is in the content.
    fn holds(&self, operation: &Operation) -> bool
        ensures { result ≡ set.contains (Self.content self.now) (record_bytes operation.now) };

    /// The retirements and the live slices with a UUID, one row for each, by `cputype` and `cpusubtype`, then in the
    /// order of their records. Fails only if memory runs out.
    fn find(&self, uuid: &Uuid) -> Result<Vec<FindRow, Heap>, NoMemory>
        ensures { IfOk result (λ rows. IsFinds (Self.content self.now) uuid.now rows.items) };

    /// The symbols that the answering slices of a key have for an address. The live companions answer; if there are
    /// none, the other live slices answer. Fails only if memory runs out: memory is needed only if several slices
    /// answer.
    fn lookup(&self, key: &SliceKey, asked: Where) -> Result<Answer<'_>, NoMemory>
        ensures answer { IfOk result (λ answer. IsAnswer (Self.content self.now) key.now asked (answer_view answer)) }
        ensures memory { OnErr result (IsConflict (Self.content self.now) key.now) };

    /// The answering slices of a key, in the order of their records. Fails only if memory runs out.
    fn answering_slices(&self, key: &SliceKey) -> Result<Vec<&Slice, Heap>, NoMemory>
        ensures { IfOk result (λ slices.
            AreAnswering (Self.content self.now) key.now (map (λ slice. slice.now) slices.items)) };

    /// The symbols with a name in live slices: one row for each, by key, digest and address, then by the number and the
    /// names of the section; symbols that are equal in all of these have one row. The name does not end with a NUL.
    /// Fails only with `NoMemory`.
    fn find_name(&self, name: &[u8]) -> Result<Vec<NameRow<'_>, Heap>, NoMemory>
        ensures { IfOk result (λ rows. IsNames (Self.content self.now) name.now (map name_view rows.items)) };

    /// The number of operations.
    fn len(&self) -> u64
        ensures len { result ≡ set.len (Self.content self.now) }
        ensures content { IsContent (Self.content self.now) };

    /// The operation at an index, from 0, among all in ascending order of their records.
    fn record_at(&self, index: u64) -> Record<'_>
        requires { index < set.len (Self.content self.now) }
        ensures { borrowed_bytes result ≡ slice_index_or (listing (Self.content self.now)) index [] };

    ghost is_content_is: { (o : Operations) → Self.Join.is_content o ↔ IsContent o };

    ghost below_is: { (o p : Operations) → Self.Join.below o p ↔ IsBelow o p };
}

/// Joins an archive with another one of its type, whose slices are moved and not copied. Fails only if memory runs out;
/// a part of `other` may then have been added, and `other` is dropped. To call again, a caller makes `other` again from
/// its source, for example by reading its text once more; `contents_join` of `laws_archive` (`resumed`) says that the
/// result is then that of a first call without a failure.
pub fn take_all<A: Archive>(archive: &mut A, other: A) -> Result<(), NoMemory>
    ensures joined { OnOk result (A.content archive.new ≡ joined (A.content archive.old) (A.content other)) }
    ensures refused { OnErr result
        (IsTowards IsContent IsBelow (A.content archive.old) (A.content other) (A.content archive.new)) }
{
    let _lengths = (archive.len(), other.len());
    archive.absorb(other)
}
