//! Archives whose parts are kept and joined, and questions that their join answers.
ghost use Rattle.std.specs.Prelude.{◌≡◌, [], ℕ, List, Contains, OnOk, IfSome, length, true};
ghost use Rattle.archive_core.specs.Content.{Operations, joined};
ghost use Rattle.archive_core.specs.Key.{key_bytes};
ghost use Rattle.archive_core.specs.Part.{is_under, part};
ghost use Rattle.archive_core.specs.declared.keys.SliceKey.{SliceKey};
ghost use Rattle.archive_from_records.specs.Keys.{AnswersAs, AreInOrder, first_key};
ghost use Rattle.command_common.specs.Archives.{ReadsOthers, ReadsTogether};
ghost use Rattle.command_common.specs.Inputs.{HoldsContent, IsRefusedArchive, ReadsInput, reader, readers};
ghost use Rattle.command_common.specs.InnerTogether.{HasJoinedParts};
ghost use Rattle.command_common.specs.Together.{AreAlikeWhere};

use crate::faults::CommandFault;
use crate::sources::{answer_from_archive, read_archive_part};
use archive_core::{Archive, SliceKey, take_all};
use archive_from_records::{Questions, Selects};
use archive_records::key_prefix;
use byte_device::Source;
use heap_memory::{Heap, NoMemory};
use uuid::Uuid;

/// Joins the selected records of the archive with this number on the command line.
pub fn join_part<A: Archive + Drop, S: Selects, R: Source>(
    heap: Heap,
    kept: &mut A,
    number: u64,
    select: &S,
    archive: &mut R,
) -> Result<(), CommandFault>
    ensures { ReadsInput (reader R.left R.failures archive.old archive.new) result
        (λ archive _. HoldsContent archive
        (λ o. A.content kept.new ≡ joined (A.content kept.old) (part o (S.picked select.now))))
        (IsRefusedArchive number) }
{
    let other: A = read_archive_part(heap, number, select, archive)?;
    take_all(kept, other)?;
    Ok(())
}

/// Joins the selected records of each of these archives, in order. The first of them is archive 1 on the command line.
fn join_parts<A: Archive + Drop, S: Selects, R: Source>(
    heap: &Heap,
    kept: &mut A,
    select: &S,
    others: &mut [R],
) -> Result<(), CommandFault>
    ensures { ReadsOthers (readers R.left R.failures others.old others.new) result
        (λ others _. HasJoinedParts others (S.picked select.now) (A.content kept.old) (A.content kept.new)) }
{
    'others: for (index, other) in others.iter_mut().enumerate() {
        join_part(heap.share(), kept, index as u64 + 1, select, other)?;
    }
    Ok(())
}

/// Reads the archives in the order of the command line, each to its end, and keeps the join of their selected records.
/// Under each key, or prefix of a key, all of whose records are selected, it has the same records as the join of the
/// archives.
pub fn read_parts<A: Archive + Drop, S: Selects, R: Source>(
    heap: Heap,
    select: &S,
    archive: &mut R,
    others: &mut [R],
) -> Result<A, CommandFault>
    ensures { ReadsTogether (reader R.left R.failures archive.old archive.new)
        (readers R.left R.failures others.old others.new) result
        (λ kept. AreAlikeWhere (S.picked select.now) (A.content kept)) }
{
    let mut kept: A = read_archive_part(heap.share(), 0, select, archive)?;
    join_parts(&heap, &mut kept, select, others)?;
    Ok(kept)
}

/// The bytes of a UUID.
pub fn uuid_bytes(uuid: Uuid) -> [u8; 16]
    ensures bytes { result ≡ uuid }
    ensures long { length uuid ≡ 16 }
{
    *uuid.as_bytes()
}

pub fn bytes_of(key: &SliceKey) -> [u8; 24]
    ensures bytes { result ≡ key_bytes key.now }
    ensures long { length (key_bytes key.now) ≡ 24 }
{
    key_prefix(key)
}

fn next_key<Q: Questions>(questions: &Q) -> Option<SliceKey>
    ensures key { result ≡ first_key (Q.left questions.now) }
    ensures long { IfSome result (λ key. length (key_bytes key) ≡ 24) }
{
    let key = questions.next_key()?;
    let _bytes = bytes_of(&key);
    Some(key)
}

/// Answers all questions from an archive that answers under each of their keys.
pub fn answer_all<A: Archive, Q: Questions>(questions: &mut Q, archive: &A) -> Result<(), NoMemory>
    ensures left { OnOk result (Q.left questions.new ≡ []) }
    ensures answered { OnOk result ((start : Q) (o : Operations)
        → ((key : SliceKey) → Contains (Q.left questions.old) key → length (key_bytes key) ≡ 24
        → AnswersAs key (A.content archive.now) o)
        → Q.answered start o questions.old → Q.answered start o questions.new) }
{
    'questions: while let Some(_) = next_key(questions) {
        questions.answer(archive)?;
    }
    Ok(())
}

/// Answers questions from the join of the archives. With one archive, the slices of one key are in memory at a time;
/// with several, all selected records, which include those under the keys of the questions.
pub fn answer_archives<A: Archive + Drop, Q: Questions + Drop, S: Selects, R: Source>(
    heap: Heap,
    questions: Q,
    select: &S,
    archive: &mut R,
    others: &mut [R],
) -> Result<Q, CommandFault>
    requires order { AreInOrder (Q.left questions) }
    requires picked { (key : SliceKey) → Contains (Q.left questions) key → length (key_bytes key) ≡ 24
        → (r : List ℕ) → is_under (key_bytes key) r ≡ true → S.picked select.now r ≡ true }
    requires start { (o : Operations) → Q.answered questions o questions }
    ensures { ReadsTogether (reader R.left R.failures archive.old archive.new)
        (readers R.left R.failures others.old others.new) result
        (λ told o. (Q.left told ≡ []) × Q.answered questions o told) }
{
    if others.is_empty() {
        return answer_from_archive::<A, Q, R>(heap, questions, archive);
    }
    let kept: A = read_parts(heap, select, archive, others)?;
    let mut told = questions;
    answer_all(&mut told, &kept)?;
    Ok(told)
}
