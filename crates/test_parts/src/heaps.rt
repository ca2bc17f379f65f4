//! Two memories, one for each of two archives.

use crate::archives::read;
use crate::faults::{CallFault, Ended};
use archive_core::{Archive, Operation, take_all};
use archive_from_records::read_ops;
use byte_device::Bytes;
use heap_memory::{Heap, NoMemory};
use std::alloc::Global;

/// The texts of two archives, and of operations.
#[derive(Clone, Copy)]
pub struct Texts<'a> {
    pub alloc: Global,
    pub one: &'a [u8],
    pub other: &'a [u8],
    pub operations: &'a [u8],
}

// Two archives, each in a memory of its own.
#[derive(Drop)]
struct Apart<A: Archive> {
    own: Heap,
    theirs: Heap,
    archive: A,
    other: A,
}

impl<A: Archive + Drop> Apart<A> {
    fn read(texts: Texts) -> Result<Self, CallFault> {
        let own = Heap::new(texts.alloc)?;
        let theirs = Heap::new(texts.alloc)?;
        Ok(Apart {
            archive: read(own.share(), texts.one)?,
            other: read(theirs.share(), texts.other)?,
            own,
            theirs,
        })
    }
}

/// Prints which operations need the memory of which archive, if each of two archives has its own: each runs out of
/// memory while the other does not.
pub fn print_heaps<A: Archive + Drop>(texts: Texts, printed: &mut String) -> Ended {
    print_copies(texts, printed)?;
    print_joined::<A>(texts, printed)?;
    print_absorbed::<A>(texts, printed)
}

// Prints how many operations are copied to a memory, if the memory of the original ones has run out, and if it has run
// out itself.
fn print_copies(texts: Texts, printed: &mut String) -> Ended {
    let own = Heap::new(texts.alloc)?;
    let theirs = Heap::new(texts.alloc)?;
    let operations = read_ops(theirs.share(), &mut Bytes::new(texts.operations))?;
    theirs.grant(0);
    let with = count_copies(&own, &operations)?;
    theirs.grant(u64::MAX);
    own.grant(0);
    let without = count_copies(&own, &operations)?;
    writeln!(
        printed,
        "{with} copied in their own memory, {without} without it"
    )?;
    Ok(())
}

fn count_copies(heap: &Heap, operations: &[Operation]) -> Result<u64, NoMemory> {
    let mut copied: u64 = 0;
    for operation in operations {
        if operation.copy(heap.share()).is_ok() {
            copied = copied.saturating_add(1);
        }
    }
    Ok(copied)
}

// Prints whether an archive joins another if its own memory has run out, and the contents of both when each grows in
// its own memory.
fn print_joined<A: Archive + Drop>(texts: Texts, printed: &mut String) -> Ended {
    let mut apart = Apart::<A>::read(texts)?;
    apart.own.grant(0);
    let joined = apart.archive.join(&apart.other).is_ok();
    writeln!(printed, "joined without its own memory: {joined}")?;
    apart.own.grant(u64::MAX);
    apart.theirs.grant(0);
    apart.archive.join(&apart.other)?;
    print_growing("joined", &mut apart.archive, texts, printed)?;
    apart.theirs.grant(u64::MAX);
    apart.own.grant(0);
    print_growing("the other", &mut apart.other, texts, printed)
}

// Prints the same for a join by value.
fn print_absorbed<A: Archive + Drop>(texts: Texts, printed: &mut String) -> Ended {
    let mut apart = Apart::<A>::read(texts)?;
    let other = apart.other;
    apart.own.grant(0);
    let absorbed = take_all(&mut apart.archive, other).is_ok();
    writeln!(printed, "absorbed without its own memory: {absorbed}")?;
    let mut apart = Apart::<A>::read(texts)?;
    let other = apart.other;
    apart.theirs.grant(0);
    take_all(&mut apart.archive, other)?;
    print_growing("absorbed", &mut apart.archive, texts, printed)
}

// Prints the number of records of an archive, and then with each operation that it can add.
fn print_growing<A: Archive>(
    what: &str,
    archive: &mut A,
    texts: Texts,
    printed: &mut String,
) -> Ended {
    let before = archive.len();
    for operation in read_ops(Heap::new(texts.alloc)?, &mut Bytes::new(texts.operations))? {
        let _ = archive.take(operation);
    }
    let after = archive.len();
    Ok(writeln!(printed, "{what}: {before} records, then {after}")?)
}
