//! The operations of one kind with one key, or with one UUID.
ghost use Rattle.std.specs.Prelude.{◌≡◌, ◌+◌, ◌≤◌, [], true, false, map, filter, length, take, drop};
ghost use Rattle.std.specs.Ordering.{nat_cmp};
ghost use Rattle.std.specs.Cmp.Lexicographic.{slice_cmp};
ghost use Rattle.std.specs.List.{AllByRecursion};
ghost use Rattle.std.specs.List.Sorted.{IsStrictlySortedBy};
ghost use Rattle.archive_core.specs.Key.{IsKey};
ghost use Rattle.archive_core.specs.Record.{record_bytes, IsOperation};
ghost use Rattle.archive_core.specs.InnerHeld.{IsHeld};
ghost use Rattle.archive_index.specs.InnerRange.{scope_prefix, prefix_of, scope_bytes, bytes_within};
ghost use Rattle.archive_index.specs.InnerRange.{is_within, is_under_key, is_under_uuid};
ghost use Rattle.archive_index.specs.declared.range.RecordKind.TheVariants.{Retirement};

use crate::asked::is_kind;
use archive_core::{Operation, SliceKey, compare_keys};
use heap_memory::{Heap, NoMemory};
use std::cmp::Ordering;
use uuid::Uuid;

// The kind of an operation. Retirements precede admissions.
#[derive(Clone, Copy)]
pub(crate) enum RecordKind {
    Retirement,
    Admission,
}

// One key, or all keys with a UUID.
#[derive(Clone, Copy)]
pub(crate) enum Scope {
    OfKey(SliceKey),
    OfUuid(Uuid),
}

// This number of indexes is tried, one after another, before a binary search.
const STEPS: usize = 4;

// The index of the first operation of a kind within a scope, and their number. They are adjacent. If they would be
// after all operations, that is found at once, otherwise by binary search.
pub(crate) fn range_of(operations: &[Operation], kind: RecordKind, scope: Scope) -> (usize, usize)
    requires ascending { IsStrictlySortedBy (slice_cmp nat_cmp) (map record_bytes operations.now) }
    requires are { AllByRecursion IsOperation operations.now }
    ensures within { result.0 + result.1 ≤ length operations.now }
    ensures range { take result.1 (drop result.0 operations.now) ≡ filter (is_within kind scope) operations.now }
{
    let len = operations.len();
    if len > 0 && compare(&operations[len - 1], kind, &scope).is_lt() {
        return (len, 0);
    }
    let start = operations.partition_point(|operation| compare(operation, kind, &scope).is_lt());
    let (_, behind) = operations.split_at(start);
    let count = behind.partition_point(|operation| compare(operation, kind, &scope).is_le());
    (start, count)
}

// The operations of a kind within a scope.
fn within(operations: &[Operation], kind: RecordKind, scope: Scope) -> &[Operation]
    requires { IsHeld operations.now }
    ensures { result.now ≡ filter (is_within kind scope) operations.now }
{
    let (start, count) = range_of(operations, kind, scope);
    let (_, rest) = operations.split_at(start);
    let (within, _) = rest.split_at(count);
    within
}

// The operations of a kind with a key.
pub(crate) fn under<'a>(
    operations: &'a [Operation],
    kind: RecordKind,
    key: SliceKey,
) -> &'a [Operation]
    requires { IsHeld operations.now }
    ensures range { result.now ≡ filter (is_under_key kind key) operations.now }
    ensures key { IsKey key }
{
    within(operations, kind, Scope::OfKey(key))
}

// Whether the retirements within a scope would be inserted at this index: the operation before it is below them, and
// the one at it is above. Then none of them is present.
fn is_gap(operations: &[Operation], asked: usize, scope: &Scope) -> bool
    requires { IsHeld operations.now }
    ensures { result ≡ true → filter (is_within Retirement scope.now) operations.now ≡ [] }
{
    if asked > operations.len() {
        return false;
    }
    if asked > 0 && !compare(&operations[asked - 1], RecordKind::Retirement, scope).is_lt() {
        return false;
    }
    if asked < operations.len()
        && !compare(&operations[asked], RecordKind::Retirement, scope).is_gt()
    {
        return false;
    }
    true
}

// Whether there are retirements with a key. The search begins at the index of those of another key, so that few
// comparisons are needed for ascending keys, and is a binary search after a few steps.
pub(crate) fn has_retirement(operations: &[Operation], near: &mut usize, key: SliceKey) -> bool
    requires { IsHeld operations.now }
    ensures none { result ≡ false → filter (is_under_key Retirement key) operations.now ≡ [] }
    ensures key { IsKey key }
{
    let scope = Scope::OfKey(key);
    for _ in 0..STEPS {
        if is_gap(operations, *near, &scope) {
            return false;
        }
        *near = near.saturating_add(1);
    }
    *near = operations.partition_point(|operation| compare(
        operation,
        RecordKind::Retirement,
        &scope,
    ).is_lt());
    !is_gap(operations, *near, &scope)
}

// The operations of a kind with a UUID, for all architectures.
pub(crate) fn under_uuid(operations: &[Operation], kind: RecordKind, uuid: Uuid) -> &[Operation]
    requires { IsHeld operations.now }
    ensures { result.now ≡ filter (is_under_uuid kind uuid) operations.now }
{
    within(operations, kind, Scope::OfUuid(uuid))
}

// Keeps the digests of the slices with a key.
pub(crate) fn keep_digests_under(operations: &mut [Operation], key: SliceKey)
    requires ascending { IsStrictlySortedBy (slice_cmp nat_cmp) (map record_bytes operations.old) }
    requires are { AllByRecursion IsOperation operations.old }
    ensures { operations.new ≡ operations.old }
{
    let (start, count) = range_of(operations, RecordKind::Admission, Scope::OfKey(key));
    let (_, rest) = operations.split_at_mut(start);
    let (under, _) = rest.split_at_mut(count);
    keep_each_digest(under);
}

// Keeps the digests of the slices that operations admit.
fn keep_each_digest(operations: &mut [Operation])
    ensures { operations.new ≡ operations.old }
{
    'operations: for operation in operations {
        operation.keep_digest();
    }
}

// Builds the tables of the slices that operations admit, if they have none. Fails only if memory runs out.
pub(crate) fn keep_each_table(operations: &mut [Operation], heap: &Heap) -> Result<(), NoMemory>
    ensures { operations.new ≡ operations.old }
{
    'operations: for operation in operations {
        operation.keep_table(heap)?;
    }
    Ok(())
}

// Whether an operation admits a companion. No result depends on it.
pub(crate) fn is_companion(operation: &Operation) -> bool {
    match operation {
        Operation::Admit(slice) => is_kind(true, slice),
        Operation::Retire(_, _) => false,
    }
}

// Compares the kind and the key of an operation with a kind and a scope.
fn compare(operation: &Operation, kind: RecordKind, scope: &Scope) -> Ordering
    ensures { result ≡ slice_cmp nat_cmp (prefix_of scope.now operation.now) (scope_prefix kind scope.now) }
{
    match (operation, kind) {
        (Operation::Retire(key, _), RecordKind::Retirement) => compare_key(key, scope),
        (Operation::Retire(_, _), RecordKind::Admission) => Ordering::Less,
        (Operation::Admit(_), RecordKind::Retirement) => Ordering::Greater,
        (Operation::Admit(slice), RecordKind::Admission) => compare_key(&slice.key(), scope),
    }
}

// Compares a key, or its UUID alone, with a scope.
fn compare_key(key: &SliceKey, scope: &Scope) -> Ordering
    ensures { result ≡ slice_cmp nat_cmp (bytes_within scope.now key.now) (scope_bytes scope.now) }
{
    match scope {
        Scope::OfKey(that) => compare_keys(key, that),
        Scope::OfUuid(uuid) => key.uuid.as_bytes().cmp(uuid.as_bytes()),
    }
}
