//! The operations of an archive, without its slices.

ghost use Rattle.std.specs.Prelude.{◌≡◌, map, IfOk};
ghost use Rattle.std.specs.FinSet as set;
ghost use Rattle.std.specs.List.{AllByRecursion};
ghost use Rattle.join_core.specs.Listing.{listing};
ghost use Rattle.archive_core.specs.Content.{IsContent};
ghost use Rattle.archive_core.specs.Summary.{entry, summary};
ghost use Rattle.archive_records.specs.Entry.{entry_bytes, IsEntry, AreEntries};
ghost use Rattle.archive_records.specs.declared.kind.TextKind.TheVariants.{Summary as SummaryFile};
ghost use Rattle.archive_records.specs.Reading.{ReadsWhole};

use crate::entry::{Entry, entry_in};
use crate::fault::RecordFault;
use crate::kind::TextKind;
use crate::reader::RecordReader;
use crate::records::{FromRecords, read_answer};
use archive_core::Archive;
use byte_device::Source;
use heap_memory::{Heap, NoMemory};
use std::marker::Model;

/// The entries of the operations of a content, each once, in ascending byte order. A contract sees it as the set of
/// their bytes.
#[derive(Drop)]
pub struct Summary {
    entries: Vec<Entry, Heap>,
}

impl Model for Summary {
    ghost use Rattle.std.specs.Prelude.{map};
    ghost use Rattle.std.specs.Ordering.{nat_cmp};
    ghost use Rattle.std.specs.Cmp.Lexicographic.{slice_cmp};
    ghost use Rattle.std.specs.FinSet as set;
    ghost use Rattle.std.specs.Coded.{coded_list, coded_ℕ};
    ghost use Rattle.archive_records.specs.Entry.{entry_bytes};
    ghost use Rattle.archive_records.specs.Reader.{AreListed};

    ghost Value = { set.FinSet (slice_cmp nat_cmp) };

    ghost coded = { set.code (coded_list coded_ℕ) };

    ghost view = { λ summary. set.from_list (map entry_bytes summary.entries.items) };

    ghost invariant = { λ summary. AreListed (map entry_bytes summary.entries.items) };
}

// The entries of an archive's operations, in the order of their records.
fn entries_of<A: Archive>(heap: Heap, archive: &A) -> Result<Vec<Entry, Heap>, NoMemory>
    ensures entries { IfOk result (λ entries.
        map entry_bytes entries.items ≡ map entry (listing (A.content archive.now))) }
    ensures content { IsContent (A.content archive.now) }
{
    let mut entries = Vec::new(heap);
    'entries: for i in 0..archive.len() {
        entries.push(Entry::of(&archive.record_at(i)))?;
    }
    Ok(entries)
}

impl Summary {
    /// The summary of an archive's content. Each slice is hashed once. Fails only if memory runs out.
    pub fn of<A: Archive>(heap: Heap, archive: &A) -> Result<Summary, NoMemory>
        ensures { IfOk result (λ made. made ≡ summary (A.content archive.now)) }
    {
        let entries = entries_of(heap, archive)?;
        Ok(Summary::of_entries(entries))
    }

    /// The summary of these entries, which may be in any order and with repeats.
    pub fn of_entries(entries: Vec<Entry, Heap>) -> Summary
        requires { AllByRecursion IsEntry (map entry_bytes entries.items) }
        ensures { result ≡ set.from_list (map entry_bytes entries.items) }
    {
        let mut entries = entries;
        entries.sort_unstable_by(|a, b| a.compare(b));
        entries.dedup_by(|a, b| a.compare(b).is_eq());
        Summary { entries }
    }

    /// The number of entries.
    pub fn len(&self) -> u64
        ensures len { result ≡ set.len self.now }
        ensures entries { AreEntries self.now }
    {
        self.entries.len() as u64
    }

    /// Whether the summary has the entry.
    pub fn has(&self, entry: &Entry) -> bool
        ensures { result ≡ set.contains self.now (entry_bytes entry.now) }
    {
        self.entries
            .binary_search_by(|named| named.compare(entry))
            .is_ok()
    }

    // The entries in their order.
    pub(crate) fn entries(&self) -> &[Entry]
        ensures { map entry_bytes result.now ≡ listing self.now }
    {
        &self.entries
    }
}

/// Entries, one after another.
#[derive(Drop)]
struct Named(Vec<Entry, Heap>);

impl FromRecords for Named {
    ghost use Rattle.std.specs.Prelude.{◌≡◌, map};
    ghost use Rattle.archive_records.specs.Entry.{entry_bytes};
    ghost use Rattle.archive_records.specs.declared.kind.TextKind.TheVariants.{Summary as SummaryFile};

    type Question = ();

    type Told = Summary;

    ghost file = { SummaryFile };

    ghost makes = { λ _ records now. map entry_bytes now.0.items ≡ records };

    ghost tells = { λ _ summary s. summary ≡ s };

    fn begin(heap: Heap, _question: ()) -> Named {
        Named(Vec::new(heap))
    }

    fn take(&mut self, _heap: &Heap, reader: &RecordReader) -> Result<(), NoMemory> {
        self.0.push(entry_in(reader.last()))?;
        Ok(())
    }

    fn finish(self, _heap: &Heap) -> Result<Summary, NoMemory> {
        Ok(Summary { entries: self.0 })
    }
}

/// Reads a summary from the whole input, and returns it. The sizes of the reader's pieces do not matter. After a fault
/// there is no summary, and it is not specified how much of the input was read.
///
/// # Errors
///
/// Those of `read_archive` of `archive_from_records`, in the same order and with the same offsets, without BadSlice,
/// KeyMismatch, TooLarge and Covered: an entry has no slice.
pub fn read_summary<R: Source>(heap: Heap, r: &mut R) -> Result<Summary, RecordFault>
    ensures { ReadsWhole SummaryFile (λ summary. summary) R.left R.failures r.old r.new result }
{
    read_answer::<Named, R>(&heap, TextKind::Summary, (), r)
}
