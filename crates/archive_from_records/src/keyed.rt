//! Answers queries by key in one pass over an archive.

ghost use Rattle.std.specs.Prelude.{◌≡◌, [], ⊤, ℕ, List, Some, OnOk, IfOk, drop, false, length, if◌then◌else◌};
ghost use Rattle.std.specs.Prelude.{option_map};
ghost use Rattle.std.specs.FinSet as set;
ghost use Rattle.std.specs.Option.{ForSome};
ghost use Rattle.join_core.specs.Listing.{listing};
ghost use Rattle.archive_core.specs.Content.{IsContent, Operations};
ghost use Rattle.archive_core.specs.Key.{key_bytes};
ghost use Rattle.archive_core.specs.declared.keys.SliceKey.{SliceKey};
ghost use Rattle.archive_records.specs.declared.kind.TextKind.TheVariants.{Archive};
ghost use Rattle.archive_from_records.specs.InnerKeeping.{with_last};
ghost use Rattle.archive_from_records.specs.InnerKeys.{AreAsked, Begins, is_first, is_passed};
ghost use Rattle.archive_from_records.specs.Keys.{AnswersAs, AreInOrder, first_key};
ghost use Rattle.archive_records.specs.Reading.{ReadsInPart};

use crate::keeping::{Keeper, Keeping, Kept, keep_whole};
use archive_core::{Archive, Record, SliceKey};
use archive_records::{MAGIC_LEN, RecordFault, RecordReader, key_prefix};
use byte_device::Source;
use heap_memory::{Heap, NoMemory};

/// Queries on a content, each with a key, which are answered one after another.
pub trait Questions {
    // The keys of the queries that are left, in the order in which these are answered.
    ghost left: { Self → List SliceKey };

    // The first value became the second by the answers of this content.
    ghost answered: { Self → Operations → Self → Type 0 };

    /// The key of the next query; none if no query is left.
    fn next_key(&self) -> Option<SliceKey>
        ensures { result ≡ first_key (left self.now) };

    /// Answers the next query, if one is left, from an archive that has the answer for its key. Fails only if memory
    /// runs out.
    fn answer<A: Archive>(&mut self, archive: &A) -> Result<(), NoMemory>
        ensures left { OnOk result (left self.new ≡ drop 1 (left self.old)) }
        ensures answered { OnOk result ((start : Self) (o : Operations)
            → ForSome (first_key (left self.old)) (λ key. AnswersAs key (A.content archive.now) o)
            → answered start o self.old → answered start o self.new) };
}

/// Whether the next query has the key of these bytes.
fn is_next<Q: Questions>(questions: &Q, prefix: &[u8]) -> bool
    ensures { result ≡ is_first prefix.now (Q.left questions.now) }
{
    match questions.next_key() {
        Some(key) => &key_prefix(&key)[..] == prefix,
        None => false,
    }
}

/// Whether the key is below that of these bytes; without bytes, each key is.
fn is_passed(key: &SliceKey, prefix: Option<&[u8]>) -> bool
    ensures passed { result ≡ is_passed key.now (option_map (λ bytes. bytes.now) prefix.entry) }
    ensures long { length (key_bytes key.now) ≡ 24 }
{
    let key = key_prefix(key);
    match prefix {
        Some(prefix) => key[..].cmp(prefix).is_lt(),
        None => true,
    }
}

/// Answers the next query from the slices that are held. They are dropped if the query after it has another key.
fn answer_next<A: Archive + Drop, Q: Questions>(
    held: &mut A,
    questions: &mut Q,
    heap: &Heap,
    key: &SliceKey,
) -> Result<(), NoMemory>
    requires { first_key (Q.left questions.old) ≡ Some key.now }
    ensures left { OnOk result (Q.left questions.new ≡ drop 1 (Q.left questions.old)) }
    ensures held { OnOk result (A.content held.new ≡ if is_first (key_bytes key.now) (Q.left questions.new)
        then A.content held.old else set.empty) }
    ensures answered { OnOk result ((start : Q) (o : Operations) → AnswersAs key.now (A.content held.old) o
        → Q.answered start o questions.old → Q.answered start o questions.new) }
{
    questions.answer(held)?;
    if !is_next(questions, &key_prefix(key)) {
        *held = A::empty(heap.share());
    }
    Ok(())
}

/// Answers the queries with keys below that of these bytes, or all without bytes: no slice with such a key follows.
fn answer_passed<A: Archive + Drop, Q: Questions>(
    held: &mut A,
    questions: &mut Q,
    heap: &Heap,
    prefix: Option<&[u8]>,
) -> Result<(), NoMemory>
    ensures asked { OnOk result ((start : Q) (records : List (List ℕ))
        → AreAsked (Begins (option_map (λ bytes. bytes.now) prefix.entry)) (Q.left questions.old)
        (λ o. Q.answered start o questions.old) (A.content held.old) records
        → AreAsked (Begins (option_map (λ bytes. bytes.now) prefix.entry)) (Q.left questions.new)
        (λ o. Q.answered start o questions.new) (A.content held.new) records) }
    ensures passed { OnOk result (ForSome (first_key (Q.left questions.new))
        (λ key. is_passed key (option_map (λ bytes. bytes.now) prefix.entry) ≡ false)) }
{
    'questions: while let Some(key) = questions.next_key() {
        if !is_passed(&key, prefix) {
            return Ok(());
        }
        answer_next(held, questions, heap, &key)?;
    }
    Ok(())
}

/// Queries; the slices for the next one are held.
#[derive(Drop)]
struct Asked<Q>(Q);

impl<Q: Questions> Keeper for Asked<Q> {
    ghost use Rattle.std.specs.Prelude.{⊤};
    ghost use Rattle.archive_from_records.specs.InnerKeys.{AreAsked};

    ghost has_kept = { λ start records held now. AreAsked (λ _. ⊤) (Q.left now.0)
        (λ o. Q.answered start.0 o now.0) held records };

    fn keep<A: Archive + Drop>(
        &mut self,
        heap: &Heap,
        kept: &mut Kept<A>,
        reader: &mut RecordReader,
    ) -> Result<(), NoMemory> {
        let Record::Admit(_) = reader.record() else {
            return Ok(());
        };
        let prefix = &reader.last()[1..25];
        answer_passed(&mut kept.archive, &mut self.0, heap, Some(prefix))?;
        if !is_next(&self.0, prefix) {
            return Ok(());
        }
        kept.keep_last(heap, reader)
    }
}

/// Answers the queries that are left after the last record.
fn answer_rest<A: Archive + Drop, Q: Questions + Drop>(
    asked: Keeping<A, Asked<Q>>,
    heap: &Heap,
) -> Result<Q, NoMemory>
    ensures { IfOk result (λ told. (start : Q) (o : Operations) → IsContent o
        → AreAsked (λ _. ⊤) (Q.left asked.keeper.0) (λ p. Q.answered start p asked.keeper.0)
        (with_last (A.content asked.kept.archive) asked.kept.last) (listing o)
        → (Q.left told ≡ []) × Q.answered start o told) }
{
    let mut rest = asked;
    rest.kept.add_last_slice()?;
    answer_passed(&mut rest.kept.archive, &mut rest.keeper.0, heap, None)?;
    Ok(rest.keeper.0)
}

/// Reads an archive, and answers queries from its content: the whole input is read and tested like by
/// [`crate::read_archive`], in the memory of the slices with one of the keys, of one other record and of 57 bytes for
/// each retirement. Slices that are held are not copied.
///
/// The queries are in the order of their keys, as the slices are.
pub fn answer_by_key<A: Archive + Drop, Q: Questions + Drop, R: Source>(
    heap: Heap,
    questions: Q,
    r: &mut R,
) -> Result<Q, RecordFault>
    requires order { AreInOrder (Q.left questions) }
    requires start { (o : Operations) → Q.answered questions o questions }
    ensures { ReadsInPart Archive (λ told o. (Q.left told ≡ []) × Q.answered questions o told)
        R.left R.failures r.old r.new result }
{
    let asked = keep_whole::<A, Asked<Q>, R>(&heap, Asked(questions), r)?;
    match answer_rest(asked, &heap) {
        Ok(told) => Ok(told),
        Err(NoMemory) => Err(RecordFault::out_of_memory(MAGIC_LEN)),
    }
}
