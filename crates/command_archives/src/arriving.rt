//! The slices of files as they are read, each once, and the rows of these files.
ghost use Rattle.std.specs.Prelude.{◌≡◌, ◌++◌, ◌∷◌, ℕ, ◌<◌, List, [], length, map, IfOk, OnOk};
ghost use Rattle.std.specs.Prelude.{slice_index_or, slice_set};
ghost use Rattle.std.specs.FinSet as set;
ghost use Rattle.join_core.specs.Listing.{listing};
ghost use Rattle.archive_core.specs.Record.{admission_record};
ghost use Rattle.archive_image_admission.specs.Take.{admitted, taken_of};
ghost use Rattle.archive_merge.specs.Arrivals.{is_new};
ghost use Rattle.text_reports.specs.declared.rows.AdmitRow.{AdmitRow};
ghost use Rattle.command_archives.specs.declared.file_rows.FileRow.{FileRow};
ghost use Rattle.command_archives.specs.declared.file_rows.FileRow.TheVariants.{Part, PassedOver};
ghost use Rattle.command_archives.specs.InnerArriving.{AreFirstRows, images_in, record_in};
ghost use Rattle.command_archives.specs.InnerArriving.{updated_row, row_of, updated_rows};
ghost use Rattle.command_archives.specs.InnerArriving.{slice_rows, updated_taken};
ghost use Rattle.command_archives.specs.PassedOver.{part_rows};

use crate::file_rows::FileRow;
use archive_core::{Archive, Slice};
use archive_image_admission::Taken;
use archive_index::PlainArchive;
use archive_merge::Arrival;
use command_common::Why;
use heap_memory::{Heap, NoMemory};
use text_reports::AdmitRow;

/// The slices, each once, the rows of their files, and for each slice the number of its first row.
#[derive(Drop)]
pub struct Arrivals {
    pub came: PlainArchive,
    pub first_rows: Vec<u64, Heap>,
    pub rows: Vec<FileRow, Heap>,
}

impl Arrivals {
    /// No slices, and no rows.
    pub fn none(heap: &Heap) -> Arrivals
        ensures came { result.came ≡ set.empty }
        ensures first_rows { result.first_rows.items ≡ [] }
        ensures rows { result.rows.items ≡ [] }
    {
        Arrivals {
            came: PlainArchive::empty(heap.share()),
            first_rows: Vec::new(heap.share()),
            rows: Vec::new(heap.share()),
        }
    }

    /// Adds a slice, whose row is to be added next, and returns its outcome.
    fn take_slice(&mut self, mut slice: Slice) -> Result<Taken, NoMemory>
        ensures came { OnOk result (self.new.came ≡ admitted self.old.came (slice ∷ [])) }
        ensures taken { IfOk result (λ taken. taken ≡ taken_of self.old.came slice) }
        ensures rows { OnOk result (self.new.rows.items ≡ self.old.rows.items) }
        ensures are_first { IfOk result (λ taken. (records : List (List ℕ)) (row : AdmitRow) → row.taken ≡ taken
            → AreFirstRows (listing self.old.came) self.old.first_rows.items self.old.rows.items records
            → AreFirstRows (listing self.new.came) self.new.first_rows.items (self.old.rows.items ++ Part row ∷ [])
            (records ++ admission_record slice ∷ [])) }
    {
        let key = slice.key();
        slice.keep_digest();
        let digest = slice.digest();
        let row = self.rows.len() as u64;
        let index = self.came.admit_at(slice)?;
        match index {
            Some(index) => {
                // There are as many first rows as slices, so this is the index itself.
                let at = index.min(self.first_rows.len());
                self.first_rows.insert(at, row)?;
                Ok(Taken::Added(key, digest))
            }
            None => Ok(Taken::Known(key, digest)),
        }
    }

    /// Adds the row of a part of a file, or of a file that is passed over.
    fn push_row(&mut self, file: u64, told: Result<(u64, Taken), Why>) -> Result<(), NoMemory>
        ensures rows { OnOk result (self.new.rows.items ≡ self.old.rows.items ++ row_of file told ∷ []) }
        ensures came { self.new.came ≡ self.old.came }
        ensures first_rows { self.new.first_rows.items ≡ self.old.first_rows.items }
    {
        let row = match told {
            Ok((slice, taken)) => FileRow::Part(AdmitRow { file, slice, taken }),
            Err(why) => FileRow::PassedOver { file, why },
        };
        self.rows.push(row)?;
        Ok(())
    }

    /// Adds a part of a file, if it is a slice, and its row.
    fn take_part(&mut self, file: u64, number: u64, part: Option<Slice>) -> Result<(), NoMemory>
        ensures came { OnOk result (self.new.came ≡ admitted self.old.came (images_in (part ∷ []))) }
        ensures rows { OnOk result (self.new.rows.items
            ≡ self.old.rows.items ++ part_rows file number (slice_rows self.old.came (part ∷ []))) }
        ensures are_first { OnOk result ((records : List (List ℕ))
            → AreFirstRows (listing self.old.came) self.old.first_rows.items self.old.rows.items records
            → AreFirstRows (listing self.new.came) self.new.first_rows.items self.new.rows.items
            (records ++ record_in part ∷ [])) }
    {
        match part {
            Some(slice) => {
                let taken = self.take_slice(slice)?;
                self.push_row(file, Ok((number, taken)))
            }
            None => self.push_row(file, Ok((number, Taken::Skipped))),
        }
    }

    /// Adds the slices of the file with this number, and a row for each of its parts.
    pub fn take_slices(
        &mut self,
        file: u64,
        slices: Vec<Option<Slice>, Heap>,
    ) -> Result<(), NoMemory>
        ensures came { OnOk result (self.new.came ≡ admitted self.old.came (images_in slices.items)) }
        ensures rows { OnOk result (self.new.rows.items
            ≡ self.old.rows.items ++ part_rows file 0 (slice_rows self.old.came slices.items)) }
        ensures are_first { OnOk result ((records : List (List ℕ))
            → AreFirstRows (listing self.old.came) self.old.first_rows.items self.old.rows.items records
            → AreFirstRows (listing self.new.came) self.new.first_rows.items self.new.rows.items
            (records ++ map record_in slices.items)) }
    {
        let mut number = 0;
        'slices: for part in slices {
            self.take_part(file, number, part)?;
            number += 1;
        }
        Ok(())
    }

    /// Adds the row of the file with this number, which is passed over.
    pub fn pass_over(&mut self, file: u64, why: Why) -> Result<(), NoMemory>
        ensures came { self.new.came ≡ self.old.came }
        ensures rows { OnOk result (self.new.rows.items ≡ self.old.rows.items ++ PassedOver file why ∷ []) }
        ensures are_first { OnOk result ((records : List (List ℕ))
            → AreFirstRows (listing self.old.came) self.old.first_rows.items self.old.rows.items records
            → AreFirstRows (listing self.new.came) self.new.first_rows.items self.new.rows.items
            (records ++ [] ∷ [])) }
    {
        self.push_row(file, Err(why))
    }
}

/// The updated outcome of a slice: one that was added is known if it is not new.
fn updated_taken(taken: Taken, new: bool) -> Taken
    ensures { result ≡ updated_taken new taken }
{
    match taken {
        Taken::Added(key, digest) => {
            if new {
                Taken::Added(key, digest)
            } else {
                Taken::Known(key, digest)
            }
        }
        Taken::Known(key, digest) => Taken::Known(key, digest),
        Taken::Skipped => Taken::Skipped,
    }
}

fn updated_row(row: FileRow, new: bool) -> FileRow
    ensures { result ≡ updated_row new row }
{
    match row {
        FileRow::Part(row) => FileRow::Part(AdmitRow {
            file: row.file,
            slice: row.slice,
            taken: updated_taken(row.taken, new),
        }),
        FileRow::PassedOver { file, why } => FileRow::PassedOver { file, why },
    }
}

fn update_row(rows: &mut [FileRow], number: usize, new: bool)
    requires { number < length rows.old }
    ensures { (none : FileRow)
        → rows.new ≡ slice_set rows.old number (updated_row new (slice_index_or rows.old number none)) }
{
    rows[number] = updated_row(rows[number], new);
}

/// Updates the rows of the slices by the arrival of each in IN.
pub fn update_rows(rows: &mut [FileRow], first_rows: &[u64], told: &[Arrival])
    requires { (came records : List (List ℕ)) × AreFirstRows came first_rows.now rows.old records
        × (length told.now ≡ length came) }
    ensures { (arrival : List ℕ → Arrival) (came records : List (List ℕ))
        → AreFirstRows came first_rows.now rows.old records
        → told.now ≡ map arrival came → rows.new ≡ updated_rows (λ r. is_new (arrival r)) rows.old records }
{
    'told: for (index, arrival) in told.iter().enumerate() {
        update_row(rows, first_rows[index] as usize, arrival.is_new());
    }
}
