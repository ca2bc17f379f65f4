//! The rows of two names, record by record in one pass.

ghost use Rattle.std.specs.Prelude.{◌≡◌, ◌↔◌, ◌++◌, [], map, Contains, OnOk, false};
ghost use Rattle.std.specs.FinSet as set;
ghost use Rattle.std.specs.List.{AllByRecursion};
ghost use Rattle.archive_core.specs.Record.{IsOperation, borrowed_bytes, operation_borrowed, retirement_record};
ghost use Rattle.archive_records.specs.Entry.{IsEntry, entry_bytes};
ghost use Rattle.archive_from_records.specs.Names.{AddsNames};
ghost use Rattle.std.specs.List.Sorted.{IsStrictlySortedBy};
ghost use Rattle.archive_core.specs.Names.{IsNames, NameRecord, name_cmp, names_in, owned_name_view};
ghost use Rattle.archive_records.specs.declared.kind.TextKind.TheVariants.{Archive};
ghost use Rattle.archive_from_records.specs.InnerNames.{names_of};
ghost use Rattle.archive_records.specs.Reader.{set_of};
ghost use Rattle.archive_records.specs.Reading.{ReadsInPart};

use archive_core::{CheckedSlice, NameRow, OwnedNameRow, Record};
use archive_records::{
    Entry, FromRecords, RecordFault, RecordReader, Summary, TextKind, read_answer,
};
use byte_device::Source;
use heap_memory::{Heap, NoMemory};

/// Adds the rows of a name in a slice, in the order of its symbol table. The slice is hashed. Not inlined: see
/// [`CheckedSlice::has_name`].
#[inline(never)]
fn push_rows(
    rows: &mut Vec<OwnedNameRow, Heap>,
    heap: &Heap,
    slice: &CheckedSlice<'_>,
    name: &[u8],
) -> Result<(), NoMemory>
    ensures { OnOk result (map owned_name_view rows.new.items
        ≡ map owned_name_view rows.old.items ++ names_in name.now slice.now) }
{
    let key = slice.key();
    let digest = slice.digest();
    'names: for found in slice.symbols().named(name) {
        rows.push(NameRow::of(key, digest, found).own(heap)?)?;
    }
    Ok(())
}

/// Adds the rows of a name in the slice of a record. A slice without the name is not hashed.
fn push_names(
    rows: &mut Vec<OwnedNameRow, Heap>,
    heap: &Heap,
    record: &Record<'_>,
    name: &[u8],
) -> Result<(), NoMemory>
    requires { IsOperation (operation_borrowed record.now) }
    ensures { OnOk result (map owned_name_view rows.new.items
        ≡ map owned_name_view rows.old.items ++ names_of name.now (borrowed_bytes record.now)) }
{
    let Record::Admit(slice) = record else {
        return Ok(());
    };
    if !slice.has_name(name) {
        return Ok(());
    }
    push_rows(rows, heap, slice, name)
}

/// Sorts the rows, and keeps each once.
fn put_names_in_order(rows: &mut Vec<OwnedNameRow, Heap>)
    ensures ascending { IsStrictlySortedBy name_cmp (map owned_name_view rows.new.items) }
    ensures same { (row : NameRecord) → Contains (map owned_name_view rows.new.items) row
        ↔ Contains (map owned_name_view rows.old.items) row }
{
    rows.sort_unstable_by(|a, b| a.lend().compare(&b.lend()));
    rows.dedup_by(|a, b| a.lend().compare(&b.lend()).is_eq());
}

/// Two names that are searched for in one pass.
#[derive(Clone, Copy)]
pub struct SoughtNames<'n> {
    pub name: &'n [u8],
    pub other: &'n [u8],
}

/// The rows of both names.
#[derive(Drop)]
pub struct NamesTold {
    pub rows: Vec<OwnedNameRow, Heap>,
    pub others: Vec<OwnedNameRow, Heap>,
}

/// The rows of two names, while records are read.
#[derive(Drop)]
struct NameRows<'n> {
    told: NamesTold,
    names: SoughtNames<'n>,
}

impl<'n> FromRecords for NameRows<'n> {
    ghost use Rattle.std.specs.Prelude.{◌≡◌, [], map};
    ghost use Rattle.archive_core.specs.Names.{IsNames, owned_name_view};
    ghost use Rattle.archive_from_records.specs.InnerNames.{names_among};
    ghost use Rattle.archive_records.specs.declared.kind.TextKind.TheVariants.{Archive};

    type Question = NameRows<'n>;

    type Told = NamesTold;

    ghost file = { Archive };

    ghost may_ask = { λ start. (start.told.rows.items ≡ []) × (start.told.others.items ≡ []) };

    ghost makes = { λ start records now. (now.names.name.now ≡ start.names.name.now)
        × (now.names.other.now ≡ start.names.other.now)
        × (map owned_name_view now.told.rows.items ≡ names_among start.names.name.now records)
        × (map owned_name_view now.told.others.items ≡ names_among start.names.other.now records) };

    ghost tells = { λ start told o. IsNames o start.names.name.now (map owned_name_view told.rows.items)
        × IsNames o start.names.other.now (map owned_name_view told.others.items) };

    fn begin(_heap: Heap, start: NameRows<'n>) -> NameRows<'n> {
        start
    }

    fn take(&mut self, heap: &Heap, reader: &RecordReader) -> Result<(), NoMemory> {
        let record = reader.record();
        push_names(&mut self.told.rows, heap, &record, self.names.name)?;
        push_names(&mut self.told.others, heap, &record, self.names.other)
    }

    fn finish(self, _heap: &Heap) -> Result<NamesTold, NoMemory> {
        let mut told = self.told;
        put_names_in_order(&mut told.rows);
        put_names_in_order(&mut told.others);
        Ok(told)
    }
}

/// Reads an archive, and returns a row for each symbol with one of the names in a live slice, like
/// [`archive_core::Archive::find_name`] for an archive in memory, in the same order. The whole input is read and tested
/// like by [`crate::read_archive`], in the memory of the rows, of one record and of 57 bytes for each retirement. A
/// slice is hashed only if it has a name. No name ends with a NUL.
pub fn read_names<R: Source>(
    heap: Heap,
    none: NamesTold,
    sought: SoughtNames<'_>,
    r: &mut R,
) -> Result<NamesTold, RecordFault>
    requires { (none.rows.items ≡ []) × (none.others.items ≡ []) }
    ensures { ReadsInPart Archive (λ told o. IsNames o sought.entry.name.now (map owned_name_view told.rows.items)
        × IsNames o sought.entry.other.now (map owned_name_view told.others.items))
        R.left R.failures r.old r.new result }
{
    let start = NameRows {
        told: none,
        names: sought,
    };
    read_answer::<NameRows<'_>, R>(&heap, TextKind::Archive, start, r)
}

/// The results for two names in the archives so far, none of which is kept.
#[derive(Drop)]
pub struct NamesFound {
    /// Rows of the names, in any order and with any repeats.
    pub told: NamesTold,
    /// The entries of the archives' retirements.
    pub retired: Vec<Entry, Heap>,
}

/// The results for two names, while records are read.
#[derive(Drop)]
struct Gathering<'n> {
    found: NamesFound,
    names: SoughtNames<'n>,
}

impl<'n> FromRecords for Gathering<'n> {
    ghost use Rattle.std.specs.Prelude.{◌≡◌, ◌++◌, map};
    ghost use Rattle.archive_core.specs.Names.{owned_name_view};
    ghost use Rattle.archive_records.specs.Entry.{entry_bytes};
    ghost use Rattle.archive_from_records.specs.InnerNames.{names_among, retirements_among};
    ghost use Rattle.archive_from_records.specs.Names.{AddsNames};
    ghost use Rattle.archive_records.specs.declared.kind.TextKind.TheVariants.{Archive};

    type Question = Gathering<'n>;

    type Told = NamesFound;

    ghost file = { Archive };

    ghost makes = { λ start records now. (now.names.name.now ≡ start.names.name.now)
        × (now.names.other.now ≡ start.names.other.now)
        × (map owned_name_view now.found.told.rows.items
        ≡ map owned_name_view start.found.told.rows.items ++ names_among start.names.name.now records)
        × (map owned_name_view now.found.told.others.items
        ≡ map owned_name_view start.found.told.others.items ++ names_among start.names.other.now records)
        × (map entry_bytes now.found.retired.items
        ≡ map entry_bytes start.found.retired.items ++ retirements_among records) };

    ghost tells = { λ start now o. AddsNames o start.names.name.now start.names.other.now start.found now };

    fn begin(_heap: Heap, question: Gathering<'n>) -> Gathering<'n> {
        question
    }

    fn take(&mut self, heap: &Heap, reader: &RecordReader) -> Result<(), NoMemory> {
        let record = reader.record();
        if let Record::Retire(key, digest) = record {
            self.found.retired.push(Entry::Retirement(key, digest))?;
            return Ok(());
        }
        push_names(&mut self.found.told.rows, heap, &record, self.names.name)?;
        push_names(&mut self.found.told.others, heap, &record, self.names.other)
    }

    fn finish(self, _heap: &Heap) -> Result<NamesFound, NoMemory> {
        Ok(self.found)
    }
}

/// Reads an archive, and adds to the results what its join with other archives needs: its rows of the names, and its
/// retirements. The whole input is read and tested like by [`crate::read_archive`], in the memory of the rows, of one
/// record and of twice 57 bytes for each retirement. A slice is hashed only if it has a name. No name ends with a NUL.
pub fn gather_names<R: Source>(
    heap: Heap,
    found: NamesFound,
    sought: SoughtNames<'_>,
    r: &mut R,
) -> Result<NamesFound, RecordFault>
    ensures { ReadsInPart Archive (λ now o. AddsNames o sought.entry.name.now sought.entry.other.now found now)
        R.left R.failures r.old r.new result }
{
    let start = Gathering {
        found,
        names: sought,
    };
    read_answer::<Gathering<'_>, R>(&heap, TextKind::Archive, start, r)
}

/// Keeps the rows whose slices are not retired, in the order of [`read_names`], each once.
fn keep_live(rows: &mut Vec<OwnedNameRow, Heap>, retired: &Summary)
    ensures ascending { IsStrictlySortedBy name_cmp (map owned_name_view rows.new.items) }
    ensures live { (row : NameRecord) → Contains (map owned_name_view rows.new.items) row
        ↔ (Contains (map owned_name_view rows.old.items) row
        × (set.contains retired.now (retirement_record row.key row.digest) ≡ false)) }
{
    rows.retain(|row| !retired.has(&Entry::Retirement(row.key, row.digest)));
    put_names_in_order(rows);
}

/// The rows whose slices are not retired, in the order of [`read_names`], each once.
pub fn live_names(found: NamesFound) -> NamesTold
    requires { AllByRecursion IsEntry (map entry_bytes found.retired.items) }
    ensures ascending { IsStrictlySortedBy name_cmp (map owned_name_view result.rows.items)
        × IsStrictlySortedBy name_cmp (map owned_name_view result.others.items) }
    ensures live { (row : NameRecord) → Contains (map owned_name_view result.rows.items) row
        ↔ (Contains (map owned_name_view found.told.rows.items) row
        × (set.contains (set_of (map entry_bytes found.retired.items)) (retirement_record row.key row.digest)
        ≡ false)) }
    ensures others_live { (row : NameRecord) → Contains (map owned_name_view result.others.items) row
        ↔ (Contains (map owned_name_view found.told.others.items) row
        × (set.contains (set_of (map entry_bytes found.retired.items)) (retirement_record row.key row.digest)
        ≡ false)) }
{
    let retired = Summary::of_entries(found.retired);
    let mut told = found.told;
    keep_live(&mut told.rows, &retired);
    keep_live(&mut told.others, &retired);
    told
}
