//! Reads archives from a source.

ghost use Rattle.std.specs.Prelude.{◌≡◌, OnOk};
ghost use Rattle.archive_core.specs.Record.{borrowed_bytes};
ghost use Rattle.archive_core.specs.Content.{with_record};
ghost use Rattle.archive_records.specs.declared.kind.TextKind.TheVariants.{Archive};
ghost use Rattle.archive_records.specs.Reading.{ReadsWhole, ReadsFront};

use archive_core::{Archive, Record};
use archive_records::{FromRecords, RecordFault, RecordReader, TextKind, read_answer, read_text};
use byte_device::Source;
use heap_memory::{Heap, NoMemory};

/// Adds the operation of a record.
pub(crate) fn take_record<A: Archive>(
    archive: &mut A,
    heap: &Heap,
    record: &Record<'_>,
) -> Result<(), NoMemory>
    ensures { OnOk result (A.content archive.new ≡ with_record (A.content archive.old) (borrowed_bytes record.now)) }
{
    let operation = record.copy(heap.share())?;
    archive.take(operation)?;
    Ok(())
}

/// An archive that is built from its records.
#[derive(Drop)]
struct Whole<A>(A);

impl<A: Archive> FromRecords for Whole<A> {
    ghost use Rattle.std.specs.Prelude.{◌≡◌};
    ghost use Rattle.std.specs.FinSet as set;
    ghost use Rattle.archive_records.specs.declared.kind.TextKind.TheVariants.{Archive};

    type Question = ();

    type Told = A;

    ghost file = { Archive };

    ghost makes = { λ _ records now. A.content now.0 ≡ set.from_list records };

    ghost tells = { λ _ archive o. A.content archive ≡ o };

    fn begin(heap: Heap, _question: ()) -> Whole<A> {
        Whole(A::empty(heap))
    }

    fn take(&mut self, heap: &Heap, reader: &RecordReader) -> Result<(), NoMemory> {
        take_record(&mut self.0, heap, &reader.record())
    }

    fn finish(self, _heap: &Heap) -> Result<A, NoMemory> {
        Ok(self.0)
    }
}

/// Reads an archive: the whole input is the one text of its content, or a text of version 1 whose operations have this
/// content; its covered slices are dropped.
///
/// # Errors
///
/// Each kind of `RecordFaultKind`; within a record they are found in the order of its tests: BadTag, Truncated inside
/// the head, TooLarge, Truncated inside the slice, NotAscending, BadSlice, KeyMismatch, and in version 2 Covered; for
/// an end record Truncated, BadCount, Trailing. Dropped records pass the same tests, and the end record counts them.
/// Truncated is returned only if the reader reported its end, Device if it failed, and every other fault if it did not.
/// Device and OutOfMemory are returned only if the bytes that were read decide no fault: they are fewer than in a
/// magic, or have no other fault than that they end too early. The offset of Device is the length of the longest good
/// front of these bytes, that of OutOfMemory the length of a good front; both are 0 before the magic was read.
pub fn read_archive<A: Archive + Drop, R: Source>(heap: Heap, r: &mut R) -> Result<A, RecordFault>
    ensures { ReadsWhole Archive A.content R.left R.failures r.old r.new result }
{
    read_answer::<Whole<A>, R>(&heap, TextKind::Archive, (), r)
}

/// Reads an archive from the front of the input: exactly the bytes of a text with its content, of either version. The
/// bytes after them are left for the next reader, so no fault is Trailing.
pub fn read_front<A: Archive + Drop, R: Source>(heap: Heap, r: &mut R) -> Result<A, RecordFault>
    ensures { ReadsFront Archive A.content R.left R.failures r.old r.new result }
{
    let (whole, _) = read_text::<Whole<A>, R>(&heap, TextKind::Archive, (), r)?;
    Ok(whole.0)
}
