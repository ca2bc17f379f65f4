//! One pass over the records of a file, for an answer from them.

ghost use Rattle.std.specs.Prelude.{◌≡◌, ◌≢◌, ◌∷◌, ◌++◌, ⊤, ℕ, List, Option, [], OnOk, IfOk, IfErr};
ghost use Rattle.std.specs.Io.KnownBytes.{IsAtEnd};
ghost use Rattle.archive_records.specs.declared.kind.TextKind.{TextKind};
ghost use Rattle.archive_records.specs.declared.fault.RecordFaultKind.TheVariants.{Trailing};
ghost use Rattle.archive_records.specs.Reader.{FaultBlamesReader, HasStopped, HasRead};
ghost use Rattle.archive_records.specs.Reader.{GathersAll, IsGathered, MakeThemselves};
ghost use Rattle.archive_records.specs.Reading.{IsMeaning, Meaning, ReadsInPart, records_in};
ghost use Rattle.archive_records.specs.Kind.{IsItemOf, kind_of};
ghost use Rattle.archive_records.specs.declared.format.Format.{Format};

use crate::fault::RecordFault;
use crate::head::MAGIC_LEN;
use crate::kind::TextKind;
use crate::next::NextRecord;
use crate::reader::RecordReader;
use byte_device::Source;
use heap_memory::{Heap, NoMemory};

/// A value that is built from the records of a file, one after another, and the answer that it returns at the end.
pub trait FromRecords {
    /// The question.
    type Question: Drop;

    /// The answer.
    type Told;

    // The kind of file with the records.
    ghost file: { TextKind };

    // The questions that are allowed.
    ghost may_ask: { Self.Question → Type 0 } = { λ _. ⊤ };

    // For the question, these records in their order built the value.
    ghost makes: { Self.Question → List (List ℕ) → Self → Type 0 };

    // The answer to the question for a file with this meaning.
    ghost tells: { Self.Question → Self.Told → Meaning file → Type 0 };

    /// Begins the value, from no records.
    fn begin(heap: Heap, question: Self::Question) -> Self
        requires { may_ask question }
        ensures { makes question [] result };

    /// Adds one more record: the last one that was read. Fails only if memory runs out.
    fn take(&mut self, heap: &Heap, reader: &RecordReader) -> Result<(), NoMemory>
        requires { IsItemOf file reader.now.last }
        ensures { OnOk result ((question : Self.Question) (records : List (List ℕ))
            → MakeThemselves file (records ++ reader.now.last ∷ [])
            → makes question records self.old → makes question (records ++ reader.now.last ∷ []) self.new) };

    /// The answer, after the last record. Fails only if memory runs out.
    fn finish(self, heap: &Heap) -> Result<Self::Told, NoMemory>
        requires { (question : Self.Question) × (m : Meaning file) × IsMeaning file m
            × makes question (records_in file m) self }
        ensures { IfOk result (λ told. (question : Self.Question) (m : Meaning file) → IsMeaning file m
            → makes question (records_in file m) self → tells question told m) };
}

/// Adds the records of a file up to its end, without those that are dropped.
fn take_records<T: FromRecords, R: Source>(
    taker: &mut T,
    heap: &Heap,
    reader: &mut RecordReader,
    r: &mut R,
) -> Result<(), RecordFault>
    requires file { kind_of reader.old.file ≡ T.file }
    ensures all { OnOk result ((a : Option (List ℕ)) (question : T.Question) → T.makes question [] taker.old
        → HasRead reader.old.file a (R.left r.old) [] reader.old
        → GathersAll reader.old.file (T.makes question) a (R.left r.new) taker.new reader.new) }
    ensures stopped { IfErr result (λ fault. (a : Option (List ℕ))
        → HasRead reader.old.file a (R.left r.old) [] reader.old → HasStopped T.file a (R.left r.new) fault) }
    ensures no_trailing { IfErr result (λ fault. fault.kind ≢ Trailing) }
    ensures reader { FaultBlamesReader R.left R.failures r.old r.new result }
{
    'taking: loop {
        let offset = reader.offset();
        match reader.advance(r) {
            Ok(NextRecord::End) => return Ok(()),
            Ok(NextRecord::Item(_)) => {}
            Err(fault) => return Err(fault),
        }
        if reader.dropped() {
            continue 'taking;
        }
        if let Err(_) = taker.take(heap, reader) {
            return Err(RecordFault::out_of_memory(offset));
        }
    }
}

/// Reads the text of a file from the front of the input, and returns the value and the reader. The contract is about
/// the bytes that were consumed.
pub fn read_text<T: FromRecords + Drop, R: Source>(
    heap: &Heap,
    file: TextKind,
    question: T::Question,
    r: &mut R,
) -> Result<(T, RecordReader), RecordFault>
    requires file { file ≡ T.file }
    requires may { T.may_ask question }
    ensures read { IfOk result (λ read. (format : Format) × (kind_of format ≡ T.file)
        × GathersAll format (T.makes question) (R.left r.old) (R.left r.new) read.0 read.1) }
    ensures stopped { IfErr result (λ fault. HasStopped T.file (R.left r.old) (R.left r.new) fault) }
    ensures no_trailing { IfErr result (λ fault. fault.kind ≢ Trailing) }
    ensures reader { FaultBlamesReader R.left R.failures r.old r.new result }
{
    let mut taker = T::begin(heap.share(), question);
    let mut reader = RecordReader::begin(heap.share(), file, r)?;
    take_records(&mut taker, heap, &mut reader, r)?;
    Ok((taker, reader))
}

/// Reads a whole input as the text of a file. The contract is about the bytes that were consumed.
fn read_records<T: FromRecords + Drop, R: Source>(
    heap: &Heap,
    file: TextKind,
    question: T::Question,
    r: &mut R,
) -> Result<T, RecordFault>
    requires file { file ≡ T.file }
    requires may { T.may_ask question }
    ensures read { IfOk result (λ made. IsGathered T.file (T.makes question) (R.left r.old) (R.left r.new) made) }
    ensures at_end { OnOk result (IsAtEnd (R.left r.new)) }
    ensures stopped { IfErr result (λ fault. HasStopped T.file (R.left r.old) (R.left r.new) fault) }
    ensures reader { FaultBlamesReader R.left R.failures r.old r.new result }
{
    let (taker, reader) = read_text::<T, R>(heap, file, question, r)?;
    if file.is_open() {
        return Ok(taker);
    }
    reader.finish(r)?;
    Ok(taker)
}

/// Reads a whole input as the text of a file, and returns the answer to a question. If memory runs out after the last
/// record, the fault has the offset after the magic, a good front of every text.
pub fn read_answer<T: FromRecords + Drop, R: Source>(
    heap: &Heap,
    file: TextKind,
    question: T::Question,
    r: &mut R,
) -> Result<T::Told, RecordFault>
    requires file { file ≡ T.file }
    requires may { T.may_ask question }
    ensures { ReadsInPart T.file (T.tells question) R.left R.failures r.old r.new result }
{
    let taker = read_records::<T, R>(heap, file, question, r)?;
    match taker.finish(heap) {
        Ok(told) => Ok(told),
        Err(NoMemory) => Err(RecordFault::out_of_memory(MAGIC_LEN)),
    }
}
