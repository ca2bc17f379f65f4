//! Adds many operations to an archive.
ghost use Rattle.std.specs.Prelude.{◌≡◌, true, not, map, IfOk, OnOk};
ghost use Rattle.std.specs.List.{list_all};
ghost use Rattle.archive_core.specs.Record.{record_bytes};
ghost use Rattle.archive_core.specs.Content.{IsContent, is_admission};
ghost use Rattle.archive_index.specs.InTurn.{AreSortedWithSameEffect};
ghost use Rattle.archive_index.specs.Taking.{Takes, TakesEach};

use crate::parting::{Parts, by_kind};
use crate::plain::order;
use archive_core::{Archive, Operation};
use heap_memory::{Heap, NoMemory};

// Whether the operation admits a slice.
fn is_admission(operation: &Operation) -> bool
    ensures { result ≡ is_admission (record_bytes operation.now) }
{
    match operation {
        Operation::Admit(_) => true,
        Operation::Retire(_, _) => false,
    }
}

// Whether each of the operations admits a slice.
fn are_admissions(operations: &[Operation]) -> bool
    ensures { result ≡ list_all (λ operation. is_admission (record_bytes operation)) operations.now }
{
    operations.iter().all(|operation| is_admission(operation))
}

// Whether each of the operations is a retirement.
fn are_retirements(operations: &[Operation]) -> bool
    ensures { result ≡ list_all (λ operation. not (is_admission (record_bytes operation))) operations.now }
{
    operations.iter().all(|operation| !is_admission(operation))
}

// Adds operations one after another, in their order, and counts the new ones.
fn take_in_turn<A: Archive>(
    archive: &mut A,
    operations: Vec<Operation, Heap>,
) -> Result<u64, NoMemory>
    ensures taken { TakesEach (A.content archive.old) (A.content archive.new) (map record_bytes operations.items)
        result }
    ensures content { OnOk result (IsContent (A.content archive.new)) }
{
    let _before = archive.len();
    let mut new = 0;
    'operations: for operation in operations {
        let changed = archive.take(operation)?;
        new += u64::from(changed);
    }
    Ok(new)
}

// Adds operations in any order. They are sorted once and added together, so that none of them shifts the others.
fn take_sorted<A: Archive + Drop>(
    archive: &mut A,
    mut operations: Vec<Operation, Heap>,
) -> Result<(), NoMemory>
    ensures { Takes (A.content archive.old) (A.content archive.new) (map record_bytes operations.items) result }
{
    let _before = archive.len();
    operations.sort_unstable_by(|a, b| a.compare(b));
    let mut taken = A::empty(operations.allocator().share());
    take_in_turn(&mut taken, operations)?;
    archive.absorb(taken)?;
    Ok(())
}

// Adds admissions. None of them drops another, so the number of new ones is the growth of the archive.
fn take_admissions<A: Archive + Drop>(
    archive: &mut A,
    operations: Vec<Operation, Heap>,
) -> Result<u64, NoMemory>
    requires { list_all (λ operation. is_admission (record_bytes operation)) operations.items ≡ true }
    ensures { TakesEach (A.content archive.old) (A.content archive.new) (map record_bytes operations.items) result }
{
    let before = archive.len();
    take_sorted(archive, operations)?;
    Ok(archive.len() - before)
}

// Adds retirements. None of them is dropped, so the new ones are those that are not held, each once.
fn take_retirements<A: Archive + Drop>(
    archive: &mut A,
    mut operations: Vec<Operation, Heap>,
) -> Result<u64, NoMemory>
    requires { list_all (λ operation. not (is_admission (record_bytes operation))) operations.items ≡ true }
    ensures { TakesEach (A.content archive.old) (A.content archive.new) (map record_bytes operations.items) result }
{
    let _before = archive.len();
    order(&mut operations);
    operations.retain(|operation| !archive.holds(operation));
    let new = operations.len() as u64;
    take_sorted(archive, operations)?;
    Ok(new)
}

// Adds operations of both kinds: the admissions that no retirement before them covers, then the retirements. A slice
// that is retired after its admission is dropped by the retirement.
fn take_by_kind<A: Archive + Drop>(
    archive: &mut A,
    operations: Vec<Operation, Heap>,
) -> Result<u64, NoMemory>
    ensures { TakesEach (A.content archive.old) (A.content archive.new) (map record_bytes operations.items) result }
{
    let _before = archive.len();
    let parts = by_kind(operations)?;
    let admitted = take_admissions(archive, parts.admissions)?;
    let retired = take_retirements(archive, parts.retirements)?;
    Ok(admitted + retired)
}

/// Adds operations in their order, and returns the number of new ones: each that changed the content after those before
/// it. A repeated operation is new once; a slice before its retirement is new, and one after it is not. The admissions
/// are sorted once and added together, and after them the retirements, so that none of them shifts the others.
///
/// Fails only if memory runs out. Some of the operations may then have been added, and the list is dropped. The call
/// may be repeated with all of them, which the caller reads again from their source, for example their file, or has
/// kept as copies (`Operation::copy`): `taking_each_resumed` of `laws_archive` says that the result is then that of a
/// first call without a failure.
pub fn take_each<A: Archive + Drop>(
    archive: &mut A,
    operations: Vec<Operation, Heap>,
) -> Result<u64, NoMemory>
    ensures { TakesEach (A.content archive.old) (A.content archive.new) (map record_bytes operations.items) result }
{
    if are_admissions(&operations) {
        return take_admissions(archive, operations);
    }
    if are_retirements(&operations) {
        return take_retirements(archive, operations);
    }
    take_by_kind(archive, operations)
}

/// The operations of a list that are new at their position for any content, in the order of their records, each once:
/// its retirements, and the slices that do not follow theirs. The result may have both a slice and a retirement that
/// follows and covers it.
///
/// Fails only if memory runs out.
pub fn sort_with_same_effect(
    operations: Vec<Operation, Heap>,
) -> Result<Vec<Operation, Heap>, NoMemory>
    ensures { IfOk result (λ sorted. AreSortedWithSameEffect operations.items sorted.items) }
{
    let Parts {
        mut admissions,
        mut retirements,
    } = by_kind(operations)?;
    admissions.append(&mut retirements)?;
    order(&mut admissions);
    Ok(admissions)
}
