//! The rows of an archive's list, record by record.

ghost use Rattle.std.specs.Prelude.{OnOk};
ghost use Rattle.join_core.specs.Listing.{listing};
ghost use Rattle.archive_core.specs.Content.{Operations, IsContent};
ghost use Rattle.archive_core.specs.Lists.{IsList};
ghost use Rattle.archive_records.specs.declared.kind.TextKind.TheVariants.{Archive};
ghost use Rattle.archive_records.specs.Reading.{ReadsInPart};
ghost use Rattle.archive_from_records.specs.InnerRows.{AreRowsOf};

use archive_core::{FindRow, compare_keys};
use archive_records::{FromRecords, RecordFault, RecordReader, TextKind, read_answer};
use byte_device::Source;
use heap_memory::{Heap, NoMemory};

/// Sorts rows that are in the order of their records into that of a list: by key, and for a key as before. Fails only
/// if memory runs out.
fn put_rows_in_order(rows: &mut Vec<FindRow, Heap>) -> Result<(), NoMemory>
    ensures { OnOk result ((o : Operations) → IsContent o → AreRowsOf (listing o) rows.old.items
        → IsList o rows.new.items) }
{
    rows.sort_by(|a, b| compare_keys(&a.key, &b.key))?;
    Ok(())
}

/// Rows, one after another.
#[derive(Drop)]
struct Rows(Vec<FindRow, Heap>);

impl FromRecords for Rows {
    ghost use Rattle.archive_core.specs.Lists.{IsList};
    ghost use Rattle.archive_records.specs.declared.kind.TextKind.TheVariants.{Archive};
    ghost use Rattle.archive_from_records.specs.InnerRows.{AreRowsOf};

    type Question = ();

    type Told = Vec<FindRow, Heap>;

    ghost file = { Archive };

    ghost makes = { λ _ records now. AreRowsOf records now.0.items };

    ghost tells = { λ _ rows o. IsList o rows.items };

    fn begin(heap: Heap, _question: ()) -> Rows {
        Rows(Vec::new(heap))
    }

    fn take(&mut self, _heap: &Heap, reader: &RecordReader) -> Result<(), NoMemory> {
        self.0.push(FindRow::of(&reader.record()))?;
        Ok(())
    }

    fn finish(self, _heap: &Heap) -> Result<Vec<FindRow, Heap>, NoMemory> {
        let mut rows = self.0;
        put_rows_in_order(&mut rows)?;
        Ok(rows)
    }
}

/// Reads an archive, and returns a row for each of its retirements and its live slices: by UUID, then by `cputype` and
/// `cpusubtype`, then in the order of their records. The whole input is read and tested like by
/// [`crate::read_archive`], in the memory of the rows, of one record and of 57 bytes for each retirement. Each slice is
/// hashed when it is read.
pub fn list_rows<R: Source>(heap: Heap, r: &mut R) -> Result<Vec<FindRow, Heap>, RecordFault>
    ensures { ReadsInPart Archive (λ rows o. IsList o rows.items) R.left R.failures r.old r.new result }
{
    read_answer::<Rows, R>(&heap, TextKind::Archive, (), r)
}
