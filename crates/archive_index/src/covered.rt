//! Slices that the retirements of an archive cover. The archive holds none of them.
ghost use Rattle.std.specs.Prelude.{◌≡◌, ◌+◌, ◌<◌, ◌≤◌, ◌||◌, ℕ, List, [], ◌∷◌, ◌++◌, true, false, length, take, drop};
ghost use Rattle.std.specs.Prelude.{map, filter, not};
ghost use Rattle.std.specs.FinSet as set;
ghost use Rattle.std.specs.Ordering.{nat_cmp};
ghost use Rattle.std.specs.Cmp.Lexicographic.{slice_cmp};
ghost use Rattle.std.specs.List.{AllByRecursion};
ghost use Rattle.std.specs.List.Sorted.{IsStrictlySortedBy};
ghost use Rattle.std.specs.Vec.{vec_capacity};
ghost use Rattle.sha2.specs.Sha256.{sha256};
ghost use Rattle.archive_core.specs.Valid.{key_of, IsValid};
ghost use Rattle.archive_core.specs.Record.{record_bytes, retirement_record, IsOperation};
ghost use Rattle.archive_core.specs.Content.{is_covered, changes};
ghost use Rattle.archive_core.specs.InnerHeld.{IsHeld};
ghost use Rattle.archive_core.specs.declared.operations.Operation.TheVariants.{Retire};

use crate::plain::search;
use crate::range::{RecordKind, Scope, has_retirement, keep_digests_under, range_of};
use archive_core::{Digest, Operation, Slice, SliceKey, retirement};
use heap_memory::Heap;
use std::marker::Model;

// The operations of an archive, borrowed. A contract sees them as their content.
#[derive(Drop)]
pub(crate) struct BorrowedOperations<'a> {
    operations: &'a [Operation],
}

impl<'a> Model for BorrowedOperations<'a> {
    ghost use Rattle.std.specs.Prelude.{map};
    ghost use Rattle.std.specs.Ordering.{nat_cmp};
    ghost use Rattle.std.specs.Cmp.Lexicographic.{slice_cmp};
    ghost use Rattle.std.specs.FinSet as set;
    ghost use Rattle.std.specs.Coded.{coded_list, coded_ℕ};
    ghost use Rattle.archive_core.specs.Record.{record_bytes};
    ghost use Rattle.archive_core.specs.InnerHeld.{IsHeld};

    ghost Value = { set.FinSet (slice_cmp nat_cmp) };

    ghost coded = { set.code (coded_list coded_ℕ) };

    ghost view = { λ borrowed. set.from_list (map record_bytes borrowed.operations.now) };

    ghost invariant = { λ borrowed. IsHeld borrowed.operations.now };
}

// Whether one of the operations retires a slice. Its digest is needed only if there is a retirement with its key.
fn retires(operations: &[Operation], slice: &Slice, near: &mut usize) -> bool
    requires { IsHeld operations.now }
    ensures { result
        ≡ set.contains (set.from_list {R = slice_cmp nat_cmp} (map record_bytes operations.now))
        (retirement_record (key_of slice.now) (sha256 slice.now)) }
{
    if !has_retirement(operations, near, slice.key()) {
        return false;
    }
    search(operations, &Operation::Retire(slice.key(), slice.digest())).is_ok()
}

impl<'a> BorrowedOperations<'a> {
    // The operations of an archive.
    pub(crate) fn of(operations: &'a [Operation]) -> BorrowedOperations<'a>
        requires { IsHeld operations.now }
        ensures { result ≡ set.from_list (map record_bytes operations.now) }
    {
        BorrowedOperations { operations }
    }

    // Whether there are retirements. They are first in the list.
    fn has_retirements(&self) -> bool
        ensures none { result ≡ false → (r : List ℕ) → is_covered self.now r ≡ false }
    {
        let Some(first) = self.operations.first() else {
            return false;
        };
        match first {
            Operation::Retire(_, _) => true,
            Operation::Admit(_) => false,
        }
    }

    // Whether a retirement covers the slice. The search begins near the index of the last one.
    pub(crate) fn retires(&self, slice: &Slice, near: &mut usize) -> bool
        ensures retires { result
            ≡ set.contains self.now (retirement_record (key_of slice.now) (sha256 slice.now)) }
        ensures valid { IsValid slice.now }
    {
        let _bytes = slice.bytes();
        retires(self.operations, slice, near)
    }

    // Keeps the digest of a slice if there is a retirement with its key: a test whether that covers the slice needs the
    // digest.
    pub(crate) fn keep_digest(&self, slice: &mut Slice, near: &mut usize)
        ensures { slice.new ≡ slice.old }
    {
        if has_retirement(self.operations, near, slice.key()) {
            slice.keep_digest();
        }
    }

    // The same for the slice of an operation.
    pub(crate) fn keep_digest_of(&self, operation: &mut Operation, near: &mut usize)
        ensures { operation.new ≡ operation.old }
    {
        if let Operation::Admit(slice) = operation {
            self.keep_digest(slice, near);
        }
    }

    // Whether a retirement covers the operation.
    pub(crate) fn retires_operation(&self, operation: &Operation, near: &mut usize) -> bool
        ensures { result ≡ is_covered self.now (record_bytes operation.now) }
    {
        match operation {
            Operation::Admit(slice) => self.retires(slice, near),
            Operation::Retire(_, _) => false,
        }
    }

    // Whether the operation is in the archive, or is covered.
    #[tactic(auto, unfolding(archive_core::specs::Content::changes))]
    pub(crate) fn knows(&self, operation: &Operation, near: &mut usize) -> bool
        ensures knows { result
            ≡ (set.contains self.now (record_bytes operation.now) || is_covered self.now (record_bytes operation.now)) }
        ensures changes { changes self.now (record_bytes operation.now) ≡ not result }
    {
        search(self.operations, operation).is_ok() || self.retires_operation(operation, near)
    }
}

// Keeps the digests of those operations for whose keys there is a retirement.
fn keep_digests(operations: &mut [Operation], by: &BorrowedOperations<'_>)
    ensures { operations.new ≡ operations.old }
{
    let mut near = 0;
    'operations: for operation in operations {
        by.keep_digest_of(operation, &mut near);
    }
}

// Drops the operations that are covered. If no retirement is borrowed, none is tested.
pub(crate) fn drop_covered(operations: &mut Vec<Operation, Heap>, by: &BorrowedOperations<'_>)
    ensures items { operations.new.items
        ≡ filter (λ operation. not (is_covered by.now (record_bytes operation))) operations.old.items }
    ensures capacity { vec_capacity operations.new ≡ vec_capacity operations.old }
    ensures bound { length operations.new.items ≤ length operations.old.items }
{
    if !by.has_retirements() {
        return;
    }
    keep_digests(operations, by);
    let mut near = 0;
    operations.retain(|operation| !by.retires_operation(operation, &mut near));
}

// Drops the operation at an index.
fn drop_at(operations: &mut Vec<Operation, Heap>, index: usize)
    requires { index < length operations.old.items }
    ensures { operations.new.items ≡ take index operations.old.items ++ drop (index + 1) operations.old.items }
{
    operations.remove(index);
}

// Drops the slices that one retirement covers. Only those with its key are searched.
pub(crate) fn drop_retired(operations: &mut Vec<Operation, Heap>, key: &SliceKey, digest: &Digest)
    requires ascending { IsStrictlySortedBy (slice_cmp nat_cmp) (map record_bytes operations.old.items) }
    requires are { AllByRecursion IsOperation operations.old.items }
    ensures { operations.new.items
        ≡ filter (λ operation. not (is_covered (set.from_list (map record_bytes (Retire key.now digest.now ∷ [])))
        (record_bytes operation)))
        operations.old.items }
{
    let only = [retirement(*key, *digest)];
    let by = BorrowedOperations::of(&only);
    keep_digests_under(operations, *key);
    let (start, count) = range_of(operations, RecordKind::Admission, Scope::OfKey(*key));
    let mut index = start + count;
    while index > start {
        index -= 1;
        if by.retires_operation(&operations[index], &mut 0) {
            drop_at(operations, index);
        }
    }
}
