//! Calls over the texts of archives, of operations and of summaries.

use crate::devices::{StrictSink, StrictSource};
use crate::faults::Ended;
use crate::printing::print_text;
use archive_core::{Archive, Operation, Record};
use archive_from_records::{read_archive, read_front, read_ops};
use archive_merge::merge_streams;
use archive_records::{MergeCause, MergeFault, RecordFault, Summary, read_summary, write_archive};
use byte_device::{Bytes, Short, Source};
use heap_memory::{Heap, NoMemory};
use std::alloc::Global;
use text_reports::Text;
use text_values::Spelled;

/// Reads an archive's text from the start of an input, and prints how many bytes are left after it.
pub fn print_front<A: Archive + Drop>(
    heap: Heap,
    source: &mut StrictSource,
    printed: &mut String,
) -> Ended {
    let records = read_front::<A, _>(heap, source)?.len();
    let (left, end) = count_left(source);
    Ok(writeln!(printed, "{records} records, {left} bytes are left{end}")?)
}

// The number of bytes that an input still returns, and how it ends.
fn count_left(source: &mut StrictSource) -> (u64, &'static str) {
    let mut byte = [0; 1];
    for left in 0..u64::MAX {
        match source.pull(&mut byte) {
            Ok(0) => return (left, ""),
            Ok(_) => {}
            Err(_) => return (left, ", then it fails"),
        }
    }
    (u64::MAX, " or more")
}

/// Reads an archive's text, and prints its number of records, and the number of entries of its summary.
pub fn print_whole<A: Archive + Drop>(
    heap: Heap,
    source: &mut StrictSource,
    printed: &mut String,
) -> Ended {
    let archive = read_archive::<A, _>(heap.share(), source)?;
    let records = archive.len();
    let entries = Summary::of(heap, &archive)?.len();
    Ok(writeln!(printed, "{records} records, {entries} entries")?)
}

/// Reads operations, and prints their number.
pub fn print_operations(heap: Heap, source: &mut StrictSource, printed: &mut String) -> Ended {
    let operations = read_ops(heap, source)?.len();
    Ok(writeln!(printed, "{operations} operations")?)
}

/// Reads a summary, and prints its number of entries.
pub fn print_summary(heap: Heap, source: &mut StrictSource, printed: &mut String) -> Ended {
    let entries = read_summary(heap, source)?.len();
    Ok(writeln!(printed, "{entries} entries")?)
}

/// Merges two archives as they are read into an output that accepts a limited number of bytes. Prints the sizes of the
/// join, or the cause that stopped it, and the written bytes.
pub fn print_merging(
    heap: &Heap,
    left: &mut StrictSource,
    right: &mut StrictSource,
    most: usize,
    printed: &mut String,
) -> Ended {
    let mut out = StrictSink::new(Heap::new(*printed.allocator())?, most);
    match merge_streams(heap, left, right, &mut out) {
        Ok(sizes) => writeln!(printed, "{} records, {} bytes", sizes.records, sizes.bytes)?,
        Err(stopped) => print_stopped(stopped, printed)?,
    }
    Ok(print_text(out.as_slice(), printed)?)
}

// Prints the cause that stopped a merge, and the number of bytes written before.
fn print_stopped(stopped: MergeFault, printed: &mut String) -> Result<(), NoMemory> {
    match stopped.cause {
        MergeCause::Left(fault) => write!(printed, "Left: {:?} at {}", fault.kind, fault.offset)?,
        MergeCause::Right(fault) => write!(printed, "Right: {:?} at {}", fault.kind, fault.offset)?,
        MergeCause::Write => write!(printed, "Write")?,
    }
    writeln!(printed, "; {} bytes written", stopped.written)
}

/// Adds operations to an archive in order, and prints for each whether it was new.
pub fn print_each_taking<A: Archive>(
    archive: &mut A,
    operations: Vec<Operation, Heap>,
    printed: &mut String,
) -> Ended {
    for operation in operations {
        print_taking(archive, operation, printed)?;
    }
    Ok(writeln!(printed, "{} records", archive.len())?)
}

// Adds an operation, and prints whether it was new. A refused one leaves the archive unchanged.
fn print_taking<A: Archive>(archive: &mut A, operation: Operation, printed: &mut String) -> Ended {
    let alloc = *printed.allocator();
    let before = text_of(alloc, archive)?;
    let held = archive.holds(&operation);
    print_record(&operation.lend(), printed)?;
    match archive.take(operation) {
        Ok(true) => writeln!(printed, " new")?,
        Ok(false) if held => writeln!(printed, " held")?,
        Ok(false) => writeln!(printed, " covered")?,
        Err(refused) => {
            if text_of(alloc, archive)? != before {
                writeln!(printed, " WRONG: refused, and taken")?;
            }
            return Err(refused.into());
        }
    }
    Ok(())
}

/// Prints a record, and does not end the line.
pub fn print_record(record: &Record, printed: &mut String) -> Result<(), NoMemory> {
    match record {
        Record::Admit(slice) => {
            let key = Text(slice.key());
            write!(printed, "admit {key} {}", Spelled(slice.digest()))
        }
        Record::Retire(key, digest) => write!(
            printed,
            "retire {} {}",
            Text(*key),
            Spelled(*digest)
        ),
    }
}

/// Reads an archive from a whole text.
pub fn read<A: Archive + Drop>(heap: Heap, text: &[u8]) -> Result<A, RecordFault> {
    read_archive(heap, &mut Bytes::new(text))
}

/// The text of an archive.
pub fn text_of<A: Archive>(alloc: Global, archive: &A) -> Result<Vec<u8>, NoMemory> {
    let mut text = Short::new(Heap::new(alloc)?, usize::MAX);
    match write_archive(archive, &mut text) {
        Ok(_) => text.as_slice().to_vec(alloc),
        Err(_) => Err(NoMemory),
    }
}

/// Prints the number of records of an archive, and whether it has all records of the other.
pub fn print_beside<A: Archive>(
    archive: &A,
    other: &A,
    printed: &mut String,
) -> Result<(), NoMemory> {
    let records = archive.len();
    let all = if archive.covers(other) { "yes" } else { "no" };
    writeln!(printed, "{records} records, all of the other: {all}")
}
