//! Reads operations files from a source.

ghost use Rattle.archive_records.specs.declared.kind.TextKind.TheVariants.{Operations};
ghost use Rattle.archive_records.specs.Reading.{ReadsWhole};

use archive_core::Operation;
use archive_records::{FromRecords, RecordFault, RecordReader, TextKind, read_answer};
use byte_device::Source;
use heap_memory::{Heap, NoMemory};

/// Operations, one after another.
#[derive(Drop)]
struct Listed(Vec<Operation, Heap>);

impl FromRecords for Listed {
    ghost use Rattle.std.specs.Prelude.{◌≡◌, map, All};
    ghost use Rattle.archive_core.specs.Record.{record_bytes, IsOperation};
    ghost use Rattle.archive_records.specs.declared.kind.TextKind.TheVariants.{Operations};

    type Question = ();

    type Told = Vec<Operation, Heap>;

    ghost file = { Operations };

    ghost makes = { λ _ records now. All IsOperation now.0.items × (map record_bytes now.0.items ≡ records) };

    ghost tells = { λ _ told operations. told.items ≡ operations };

    fn begin(heap: Heap, _question: ()) -> Listed {
        Listed(Vec::new(heap))
    }

    fn take(&mut self, heap: &Heap, reader: &RecordReader) -> Result<(), NoMemory> {
        let operation = reader.record().copy(heap.share())?;
        self.0.push(operation)?;
        Ok(())
    }

    fn finish(self, _heap: &Heap) -> Result<Vec<Operation, Heap>, NoMemory> {
        Ok(self.0)
    }
}

/// Reads an operations file: the magic `MSYMOPS1`, and retirements and admissions in any order and with repeats up to
/// the end of the input. The list has them in that order.
///
/// # Errors
///
/// None of them is NotAscending, BadCount, Trailing or Covered: such a file has no order and no end record, the tag 3
/// is BadTag, and a file may have both an admission and the retirement of its slice.
pub fn read_ops<R: Source>(heap: Heap, r: &mut R) -> Result<Vec<Operation, Heap>, RecordFault>
    ensures { ReadsWhole Operations (λ operations. operations.items) R.left R.failures r.old r.new result }
{
    read_answer::<Listed, R>(&heap, TextKind::Operations, (), r)
}
