//! The headline of this repository as one law over the definitions alone.
ghost use Rattle.std.specs.Prelude.{◌≡◌, ◌↔◌, ◌≤◌, ℕ, List, [], ◌∷◌, true, length};
ghost use Rattle.std.specs.declared.option.Option.{Option};
ghost use Rattle.std.specs.FinSet as set;
ghost use Rattle.std.specs.List.{AllZip};
ghost use Rattle.join_core.specs.Bound.{IsLeastAbove};
ghost use Rattle.macho_symbols.specs.Found.{FoundRecord};
ghost use Rattle.archive_core.specs.Content.{Operations, IsContent, IsBelow, joined};
ghost use Rattle.archive_core.specs.Find.{AreAnswering};
ghost use Rattle.archive_core.specs.Lookup.{AnswerRecord, Unanswered, Alone, Disputed};
ghost use Rattle.archive_core.specs.Lookup.{OwnRow, IsAnswer, IsOwn, IsOwnRow};
ghost use Rattle.archive_core.specs.declared.keys.SliceKey.{SliceKey};
ghost use Rattle.archive_core.specs.declared.lookup.Where.{Where};
ghost use Rattle.archive_exchange.specs.World.{Event, state};
ghost use Rattle.archive_exchange.specs.Reached.{had, reached, Reaches};
ghost use Rattle.archive_exchange.specs.Issued.{AreRecords};
ghost use Rattle.archive_exchange.specs.SiteState.{IsArchiveTextOf};
ghost use Rattle.archive_exchange.specs.Alike.{TookTheSame};

use crate::content_laws::{contents_join, one_answer};
use archive_exchange::model_laws::{
    reaching_in_words, records_make_contents, same_operations_same_content,
};

/// After any list of events, sites that took the same operations, in any orders, with any repeats and through any
/// merges, write out the same bytes and answer every lookup alike: the nearest symbol as defined, a conflict or none;
/// and merge is associative, commutative and idempotent, giving the least archive above both.
///
/// Each clause is a phrase of that. The content of a site after a list of events is `(state sites events (length
/// events)).held`, and `run` of `archive_exchange` proves that the program's sites have it (`state`), so its clause
/// `same_operations_same_bytes` is the first half for them. The contracts of `write_archive`, of `Archive::lookup`, and
/// of `take_all`, `Site::deliver` and the command `merge` state that a site writes the bytes of `IsArchiveTextOf`, that
/// an archive's `lookup` returns an answer for which `IsAnswer` holds, and that a merge makes `joined`.
pub fn headline<F>()
    // After any list of events, a site took exactly the operations that an accepted event before the end brought to it
    // (a file, a retirement or a message), and that no stop has removed since.
    ensures took { (sites : ℕ) (events : List (Event F)) (i : ℕ) (r : List ℕ)
        → (set.contains (reached sites events i) r ≡ true)
        ↔ Reaches sites events (had sites events) r i (length events) }

    // Sites that the same operations reached, in one run or in two, took the same. Sites also took the same if a slice
    // reached only one of them but is retired at both.
    ensures same_operations { (sites others : ℕ) (events later : List (Event F)) (i j : ℕ)
        → ((r : List ℕ)
        → (set.contains (reached sites events i) r ≡ true) ↔ (set.contains (reached others later j) r ≡ true))
        → TookTheSame sites events i others later j }

    // Sites that took the same operations, in one run or in two, have the same content.
    ensures same_content { (sites others : ℕ) (events later : List (Event F)) (i j : ℕ)
        → TookTheSame sites events i others later j
        → (state sites events (length events)).held i ≡ (state others later (length later)).held j }

    // They write the same bytes: a content has exactly one text. The events of a run issue records: see the clause
    // `records` of `run`.
    ensures same_bytes { (sites others : ℕ) (events later : List (Event F)) (i j : ℕ)
        → TookTheSame sites events i others later j
        → AreRecords sites events
        → (text : List ℕ)
        × IsArchiveTextOf text ((state sites events (length events)).held i)
        × IsArchiveTextOf text ((state others later (length later)).held j) }
    ensures one_text { (o : Operations) (text other : List ℕ) → IsArchiveTextOf text o → IsArchiveTextOf other o
        → text ≡ other }

    // They answer every lookup alike: a lookup has one answer.
    ensures same_answers { (sites others : ℕ) (events later : List (Event F)) (i j : ℕ)
        → TookTheSame sites events i others later j
        → (key : SliceKey) (asked : Where) (answer : AnswerRecord)
        → IsAnswer ((state sites events (length events)).held i) key asked answer
        ↔ IsAnswer ((state others later (length later)).held j) key asked answer }
    ensures some_answer { (o : Operations) (key : SliceKey) (asked : Where)
        → (answer : AnswerRecord) × IsAnswer o key asked answer }
    ensures one_answer { (o : Operations) (key : SliceKey) (asked : Where) (answer other : AnswerRecord)
        → IsAnswer o key asked answer
        → IsAnswer o key asked other
        → answer ≡ other }

    // If one slice answers: the nearest symbol as defined, or none; if several do: the answer of each slice; if none
    // does: no answer.
    ensures nearest { (o : Operations) (key : SliceKey) (asked : Where) (own : Option FoundRecord)
        → IsAnswer o key asked (Alone own)
        ↔ ((slice : List ℕ) × AreAnswering o key (slice ∷ []) × IsOwn slice asked own) }
    ensures conflict { (o : Operations) (key : SliceKey) (asked : Where) (rows : List OwnRow)
        → IsAnswer o key asked (Disputed rows)
        ↔ ((slices : List (List ℕ))
        × AreAnswering o key slices
        × (2 ≤ length slices)
        × AllZip (IsOwnRow asked) slices rows) }
    ensures none { (o : Operations) (key : SliceKey) (asked : Where)
        → IsAnswer o key asked Unanswered ↔ AreAnswering o key [] }

    // Merge is associative, commutative and idempotent, and gives the least content above both.
    ensures associative { (o p q : Operations)
        → IsContent o
        → IsContent p
        → IsContent q
        → joined (joined o p) q ≡ joined o (joined p q) }
    ensures commutative { (o p : Operations) → IsContent o → IsContent p → joined o p ≡ joined p o }
    ensures idempotent { (o : Operations) → IsContent o → joined o o ≡ o }
    ensures least { (o p : Operations) → IsContent o → IsContent p → IsLeastAbove IsContent IsBelow o p (joined o p) }
{
    reaching_in_words::<F>();
    same_operations_same_content::<F>();
    records_make_contents::<F>();
    one_answer();
    contents_join();
}
