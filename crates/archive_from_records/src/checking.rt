//! Tests an archive, and keeps nothing of it.

ghost use Rattle.archive_records.specs.declared.kind.TextKind.TheVariants.{Archive};
ghost use Rattle.archive_records.specs.Reading.{ReadsInPart};

use archive_records::{FromRecords, RecordFault, RecordReader, TextKind, read_answer};
use byte_device::Source;
use heap_memory::{Heap, NoMemory};

/// The value of records that are only tested.
#[derive(Drop)]
struct Nothing;

impl FromRecords for Nothing {
    ghost use Rattle.archive_records.specs.declared.kind.TextKind.TheVariants.{Archive};

    type Question = ();

    type Told = ();

    ghost file = { Archive };

    ghost makes = { λ _ records now. Unit {0} };

    ghost tells = { λ _ told o. Unit {0} };

    fn begin(_heap: Heap, _question: ()) -> Nothing {
        Nothing
    }

    fn take(&mut self, _heap: &Heap, _reader: &RecordReader) -> Result<(), NoMemory> {
        Ok(())
    }

    fn finish(self, _heap: &Heap) -> Result<(), NoMemory> {
        Ok(())
    }
}

/// Reads an archive to its end, and keeps nothing of it. The whole input is read and tested as by
/// [`crate::read_archive`], in the memory of one record and of 57 bytes for each retirement.
pub fn test_archive<R: Source>(heap: Heap, r: &mut R) -> Result<(), RecordFault>
    ensures { ReadsInPart Archive (λ _ _. Unit {0}) R.left R.failures r.old r.new result }
{
    read_answer::<Nothing, R>(&heap, TextKind::Archive, (), r)
}
