//! The summary of an archive, record by record.

ghost use Rattle.std.specs.Prelude.{◌≡◌};
ghost use Rattle.archive_core.specs.Summary.{summary};
ghost use Rattle.archive_records.specs.declared.kind.TextKind.TheVariants.{Archive};
ghost use Rattle.archive_records.specs.Reading.{ReadsInPart};

use archive_records::{
    Entry, FromRecords, RecordFault, RecordReader, Summary, TextKind, read_answer,
};
use byte_device::Source;
use heap_memory::{Heap, NoMemory};

/// Entries, one after another.
#[derive(Drop)]
struct Entries(Vec<Entry, Heap>);

impl FromRecords for Entries {
    ghost use Rattle.std.specs.Prelude.{◌≡◌, map};
    ghost use Rattle.archive_core.specs.Summary.{entry, summary};
    ghost use Rattle.archive_records.specs.Entry.{entry_bytes};
    ghost use Rattle.archive_records.specs.declared.kind.TextKind.TheVariants.{Archive};

    type Question = ();

    type Told = Summary;

    ghost file = { Archive };

    ghost makes = { λ _ records now. map entry_bytes now.0.items ≡ map entry records };

    ghost tells = { λ _ made o. made ≡ summary o };

    fn begin(heap: Heap, _question: ()) -> Entries {
        Entries(Vec::new(heap))
    }

    fn take(&mut self, _heap: &Heap, reader: &RecordReader) -> Result<(), NoMemory> {
        self.0.push(Entry::of(&reader.record()))?;
        Ok(())
    }

    fn finish(self, _heap: &Heap) -> Result<Summary, NoMemory> {
        Ok(Summary::of_entries(self.0))
    }
}

/// Reads an archive, and returns the summary of its content. The whole input is read and tested like by
/// [`crate::read_archive`], in the memory of the summary, of one record and of 57 bytes for each retirement. Each slice
/// is hashed when it is read.
pub fn summarize<R: Source>(heap: Heap, r: &mut R) -> Result<Summary, RecordFault>
    ensures { ReadsInPart Archive (λ made o. made ≡ summary o) R.left R.failures r.old r.new result }
{
    read_answer::<Entries, R>(&heap, TextKind::Archive, (), r)
}
