//! One pass over an archive that keeps slices, each in one copy.

ghost use Rattle.std.specs.Prelude.{◌≡◌, ◌∷◌, ◌++◌, ℕ, List, Option, [], None, OnOk, IfOk, IfErr};
ghost use Rattle.std.specs.FinSet as set;
ghost use Rattle.std.specs.Io.KnownBytes.{IsAtEnd};
ghost use Rattle.archive_core.specs.Content.{Operations, with_record};
ghost use Rattle.archive_core.specs.Record.{IsRecord};
ghost use Rattle.archive_records.specs.declared.format.Format.{Format};
ghost use Rattle.archive_records.specs.declared.kind.TextKind.TheVariants.{Archive};
ghost use Rattle.archive_records.specs.Kind.{kind_of};
ghost use Rattle.archive_records.specs.Reader.{FaultBlamesReader, GathersAll, HasRead, HasStopped, IsGathered};
ghost use Rattle.archive_records.specs.Reader.{MakeThemselves, after_taken};
ghost use Rattle.archive_from_records.specs.InnerKeeping.{with_last};

use crate::reading::take_record;
use archive_core::{Archive, Operation, Slice};
use archive_records::{NextRecord, RecordFault, RecordReader, TextKind};
use byte_device::Source;
use heap_memory::{Heap, NoMemory};

/// An archive to which records are added, and the slice of the last one, which is added later.
#[derive(Drop)]
pub(crate) struct Kept<A> {
    pub(crate) archive: A,
    /// The slice was moved out of the reader, and the next record is compared with it.
    last: Option<Slice>,
}

impl<A: Archive> Kept<A> {
    /// Adds the slice of the last record to the archive. Fails only if memory runs out.
    pub(crate) fn add_last_slice(&mut self) -> Result<(), NoMemory>
        ensures kept { OnOk result
            (A.content self.new.archive ≡ with_last (A.content self.old.archive) self.old.last) }
        ensures none { OnOk result (self.new.last ≡ None) }
    {
        if let Some(slice) = self.last.take() {
            self.archive.take(Operation::Admit(slice))?;
        }
        Ok(())
    }

    /// Keeps the record that was read last. Its slice is moved out of the reader.
    pub(crate) fn keep_last(
        &mut self,
        heap: &Heap,
        reader: &mut RecordReader,
    ) -> Result<(), NoMemory>
        requires record { IsRecord reader.old.last }
        requires none { self.old.last ≡ None }
        ensures kept { OnOk result (with_last (A.content self.new.archive) self.new.last
            ≡ with_record (A.content self.old.archive) reader.old.last) }
        ensures taken { OnOk result (after_taken self.new.last reader.new ≡ reader.old) }
    {
        match reader.take_slice() {
            Some(slice) => {
                self.last = Some(slice);
                Ok(())
            }
            None => take_record(&mut self.archive, heap, &reader.record()),
        }
    }
}

/// Selects records of an archive to keep, while they are read one after another.
pub(crate) trait Keeper {
    // By these records the first value became the second, and this is the content of the records that were kept.
    ghost has_kept: { Self → List (List ℕ) → Operations → Self → Type 0 };

    /// Keeps the record that was read last, if it is selected. Fails only if memory runs out.
    fn keep<A: Archive + Drop>(
        &mut self,
        heap: &Heap,
        kept: &mut Kept<A>,
        reader: &mut RecordReader,
    ) -> Result<(), NoMemory>
        requires record { IsRecord reader.old.last }
        requires none { kept.old.last ≡ None }
        ensures kept { OnOk result ((start : Self) (records : List (List ℕ))
            → MakeThemselves Archive (records ++ reader.old.last ∷ [])
            → has_kept start records (A.content kept.old.archive) self.old
            → has_kept start (records ++ reader.old.last ∷ [])
            (with_last (A.content kept.new.archive) kept.new.last) self.new) }
        ensures taken { OnOk result (after_taken kept.new.last reader.new ≡ reader.old) };
}

/// A keeper, and the archive that it has kept.
#[derive(Drop)]
pub(crate) struct Keeping<A, K> {
    pub(crate) kept: Kept<A>,
    pub(crate) keeper: K,
}

/// Keeps records of an archive up to its end, without those that are dropped.
fn keep_records<A: Archive + Drop, K: Keeper, R: Source>(
    keeping: &mut Keeping<A, K>,
    heap: &Heap,
    reader: &mut RecordReader,
    r: &mut R,
) -> Result<(), RecordFault>
    requires file { kind_of reader.old.file ≡ Archive }
    requires none { keeping.old.kept.last ≡ None }
    requires start { K.has_kept keeping.old.keeper [] (A.content keeping.old.kept.archive) keeping.old.keeper }
    ensures all { OnOk result ((a : Option (List ℕ)) → HasRead reader.old.file a (R.left r.old) [] reader.old
        → GathersAll reader.old.file (λ records now. K.has_kept keeping.old.keeper records
        (with_last (A.content now.kept.archive) now.kept.last) now.keeper)
        a (R.left r.new) keeping.new reader.new) }
    ensures stopped { IfErr result (λ fault. (a : Option (List ℕ))
        → HasRead reader.old.file a (R.left r.old) [] reader.old → HasStopped Archive a (R.left r.new) fault) }
    ensures reader { FaultBlamesReader R.left R.failures r.old r.new result }
{
    'records: loop {
        let offset = reader.offset();
        match reader.advance_after(r, keeping.kept.last.as_ref()) {
            Ok(NextRecord::End) => return Ok(()),
            Ok(NextRecord::Item(_)) => {}
            Err(fault) => return Err(fault),
        }
        if let Err(NoMemory) = keeping.kept.add_last_slice() {
            return Err(RecordFault::out_of_memory(offset));
        }
        if reader.dropped() {
            continue 'records;
        }
        if let Err(NoMemory) = keeping.keeper.keep(heap, &mut keeping.kept, reader) {
            return Err(RecordFault::out_of_memory(offset));
        }
    }
}

/// Reads the text of an archive from the front of the input, keeps records of it, and returns the reader too.
fn keep_front<A: Archive + Drop, K: Keeper + Drop, R: Source>(
    heap: &Heap,
    keeper: K,
    r: &mut R,
) -> Result<(Keeping<A, K>, RecordReader), RecordFault>
    requires start { K.has_kept keeper [] set.empty keeper }
    ensures read { IfOk result (λ read. (format : Format) × (kind_of format ≡ Archive)
        × GathersAll format (λ records now. K.has_kept keeper records
        (with_last (A.content now.kept.archive) now.kept.last) now.keeper)
        (R.left r.old) (R.left r.new) read.0 read.1) }
    ensures stopped { IfErr result (λ fault. HasStopped Archive (R.left r.old) (R.left r.new) fault) }
    ensures reader { FaultBlamesReader R.left R.failures r.old r.new result }
{
    let kept = Kept {
        archive: A::empty(heap.share()),
        last: None,
    };
    let mut keeping = Keeping { kept, keeper };
    let mut reader = RecordReader::begin(heap.share(), TextKind::Archive, r)?;
    keep_records(&mut keeping, heap, &mut reader, r)?;
    Ok((keeping, reader))
}

/// Reads a whole input as the text of an archive, and keeps records of it.
pub(crate) fn keep_whole<A: Archive + Drop, K: Keeper + Drop, R: Source>(
    heap: &Heap,
    keeper: K,
    r: &mut R,
) -> Result<Keeping<A, K>, RecordFault>
    requires start { K.has_kept keeper [] set.empty keeper }
    ensures read { IfOk result (λ keeping. IsGathered Archive
        (λ records now. K.has_kept keeper records (with_last (A.content now.kept.archive) now.kept.last) now.keeper)
        (R.left r.old) (R.left r.new) keeping) }
    ensures at_end { OnOk result (IsAtEnd (R.left r.new)) }
    ensures stopped { IfErr result (λ fault. HasStopped Archive (R.left r.old) (R.left r.new) fault) }
    ensures reader { FaultBlamesReader R.left R.failures r.old r.new result }
{
    let (keeping, reader) = keep_front::<A, K, R>(heap, keeper, r)?;
    reader.finish(r)?;
    Ok(keeping)
}
