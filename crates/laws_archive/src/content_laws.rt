//! Laws of records, contents, joins, summaries, rows and answers.
//!
//! Each law is the contract of a function that only calls other laws, and is about the definitions alone: a caller that
//! needs a law calls its function.
ghost use Rattle.std.specs.Prelude.{◌≡◌, ◌⊎◌, ◌↔◌, ◌&&◌, ℕ, ◌+◌, ◌≤◌, Bool, List, [], ◌∷◌, ◌++◌};
ghost use Rattle.std.specs.Prelude.{true, false, not, if◌then◌else◌, filter, length, Contains};
ghost use Rattle.std.specs.Ordering.{nat_cmp};
ghost use Rattle.std.specs.Cmp.Lexicographic.{slice_cmp};
ghost use Rattle.std.specs.FinSet as set;
ghost use Rattle.std.specs.List.{flat_map};
ghost use Rattle.std.specs.List.Sorted.{IsStrictlySortedBy};
ghost use Rattle.sha2.specs.Sha256.{sha256};
ghost use Rattle.join_core.specs.Bound.{IsLeastAbove};
ghost use Rattle.archive_core.specs.Key.{IsKey, key_bytes};
ghost use Rattle.archive_core.specs.Valid.{IsValid, key_of};
ghost use Rattle.archive_core.specs.Record.{IsRecord, Admits, IsOperation, record_bytes, admission_record};
ghost use Rattle.archive_core.specs.Record.{retirement_record};
ghost use Rattle.archive_core.specs.Content.{Operations, is_admission, is_covered, content_of, IsMade, IsContent};
ghost use Rattle.archive_core.specs.Content.{IsBelow};
ghost use Rattle.archive_core.specs.Content.{with_record, with_records};
ghost use Rattle.archive_core.specs.Content.{changes, new_among, joined, HaveSameMembers, IsLive, IsTakenInPart};
ghost use Rattle.archive_core.specs.Summary.{Entries, entry, summary, is_known, delta, DigestsDiffer};
ghost use Rattle.archive_core.specs.Find.{IsFinds, AreAnswering, answering_count};
ghost use Rattle.archive_core.specs.Lists.{IsList, rows_under};
ghost use Rattle.archive_core.specs.Lookup.{AnswerRecord, IsAnswer, IsConflict};
ghost use Rattle.archive_core.specs.Names.{NameRecord, IsNames};
ghost use Rattle.archive_core.specs.Part.{is_under, part, AreAlikeUnder, AreAlikeNamed};
ghost use Rattle.join_core.specs.Listing.{IsListing, listing};
ghost use Rattle.archive_core.specs.declared.find.FindRow.{FindRow};
ghost use Rattle.archive_core.specs.declared.keys.SliceKey.{SliceKey};
ghost use Rattle.archive_core.specs.declared.lookup.Where.{Where};
ghost use Rattle.archive_core.specs.declared.operations.Operation.{Operation};

use archive_core::{Archive, Slice};
use archive_index::PlainArchive;
use join_core::laws::{
    associative, commutative, idempotent, monotone, one_listing, resumed, unique,
};
use macho_symbols::laws::one_nearest;

/// The record of an admission has 33 bytes before the slice; that of a retirement has 57 bytes.
pub fn record_lengths()
    ensures admission { (slice : List ℕ) → IsValid slice → length (admission_record slice) ≡ 33 + length slice }
    ensures retirement { (key : SliceKey) (digest : List ℕ)
        → IsKey key
        → length digest ≡ 32
        → length (retirement_record key digest) ≡ 57 }
{}

/// No record is the beginning of another: a text that is a sequence of records is split into them in one way.
pub fn no_record_begins_another()
    ensures { (r s rest : List ℕ) → IsRecord r → IsRecord s → s ≡ r ++ rest → rest ≡ [] }
{}

/// Each operation has a record, each record is that of an operation, and different operations have
/// different records.
pub fn one_record_each()
    ensures is_record { (a : Operation) → IsOperation a → IsRecord (record_bytes a) }
    ensures is_operation { (r : List ℕ) → IsRecord r → (a : Operation) × IsOperation a × (record_bytes a ≡ r) }
    ensures one { (a b : Operation) → IsOperation a → IsOperation b → record_bytes a ≡ record_bytes b → a ≡ b }
{}

/// The operations of a content have one list in the ascending byte order of their records, and `listing`, whose members
/// `Archive::record_at` returns, is that list.
pub fn one_listing_of_records()
    ensures listed { (o : Operations) → IsListing (slice_cmp nat_cmp) o (listing o) }
    ensures one { (o : Operations) (records : List (List ℕ))
        → IsListing (slice_cmp nat_cmp) o records
        → records ≡ listing o }
    ensures number { (o : Operations) → length (listing o) ≡ set.len o }
{
    one_listing::<Slice>();
}

/// Contents are a join semilattice (INRIA RR-7506, 2011): the join of two is their least upper bound; grouping, order
/// and repeats do not matter; the join is monotone; and a join that stopped half way has the same result when it is
/// called again.
pub fn contents_join()
    ensures least { (o p : Operations) → IsContent o → IsContent p → IsLeastAbove IsContent IsBelow o p (joined o p) }
    ensures associative { (o p q : Operations)
        → IsContent o
        → IsContent p
        → IsContent q
        → joined (joined o p) q ≡ joined o (joined p q) }
    ensures commutative { (o p : Operations) → IsContent o → IsContent p → joined o p ≡ joined p o }
    ensures idempotent { (o : Operations) → IsContent o → joined o o ≡ o }
    ensures monotone { (o p q : Operations)
        → IsContent o
        → IsContent p
        → IsContent q
        → IsBelow o p
        → IsBelow (joined o q) (joined p q) }
    ensures resumed { (o mid p : Operations)
        → IsContent o
        → IsContent mid
        → IsContent p
        → IsBelow o mid
        → IsBelow mid (joined o p)
        → joined mid p ≡ joined o p }
{
    unique::<PlainArchive>();
    associative::<PlainArchive>();
    commutative::<PlainArchive>();
    idempotent::<PlainArchive>();
    monotone::<PlainArchive>();
    resumed::<PlainArchive>();
}

/// The join of each archive type is the content of the operations of both contents.
pub fn join_gives_union<A: Archive>()
    ensures { (o p both : Operations)
        → IsContent o
        → IsContent p
        → IsLeastAbove A.is_content A.below o p both
        → both ≡ joined o p }
{}

/// The join of the contents of two sets of operations is the content of both sets together.
pub fn migrate_joins()
    ensures { (o p : Operations) → joined (content_of o) (content_of p) ≡ content_of (set.union o p) }
{}

/// The content of a set of operations has those that the set does not cover. It covers the admissions of slices whose
/// retirement, by key and SHA-256, is in the set, and no retirement. So each slice that is admitted in a content is
/// live.
pub fn contents_in_words()
    ensures made { (o : Operations) (r : List ℕ)
        → set.contains (content_of o) r ≡ (set.contains o r && not (is_covered o r)) }
    ensures again { (o : Operations) → IsMade (content_of o) }
    ensures content { (o : Operations) → ((r : List ℕ) → set.contains o r ≡ true → IsRecord r)
        → IsContent (content_of o) }
    ensures admission { (o : Operations) (slice : List ℕ)
        → IsValid slice
        → is_covered o (admission_record slice) ≡ set.contains o (retirement_record (key_of slice) (sha256 slice)) }
    ensures retirement { (o : Operations) (key : SliceKey) (digest : List ℕ)
        → is_covered o (retirement_record key digest) ≡ false }
    ensures live { (o : Operations) (slice : List ℕ)
        → IsContent o
        → IsValid slice
        → set.contains o (admission_record slice) ≡ true
        → IsLive o (key_of slice) slice }
{}

/// A content is below another exactly if the other has its retirements, and has or covers each of its live slices.
pub fn order_in_words()
    ensures retirements { (o p : Operations) (key : SliceKey) (digest : List ℕ)
        → IsBelow o p
        → set.contains o (retirement_record key digest) ≡ true
        → set.contains p (retirement_record key digest) ≡ true }
    ensures live { (o p : Operations) (slice : List ℕ)
        → IsContent p
        → IsValid slice
        → IsBelow o p
        → IsLive o (key_of slice) slice
        → IsLive p (key_of slice) slice ⊎ (set.contains p (retirement_record (key_of slice) (sha256 slice)) ≡ true) }
    ensures below { (o p : Operations)
        → IsContent o
        → ((key : SliceKey) (digest : List ℕ)
        → set.contains o (retirement_record key digest) ≡ true
        → set.contains p (retirement_record key digest) ≡ true)
        → ((slice : List ℕ)
        → IsLive o (key_of slice) slice
        → IsLive p (key_of slice) slice ⊎ (set.contains p (retirement_record (key_of slice) (sha256 slice)) ≡ true))
        → IsBelow o p }
{}

/// An operation changes a content exactly if the content with it is a different one.
pub fn unchanged_is_the_same()
    ensures { (o : Operations) (r : List ℕ) → IsMade o → (changes o r ≡ false) ↔ (with_record o r ≡ o) }
{}

/// The same operations, added in any order and with any repeats, give one content: the join with their own content.
pub fn takes_in_any_order()
    ensures order { (o : Operations) (rs ss : List (List ℕ))
        → IsMade o
        → HaveSameMembers rs ss
        → with_records o rs ≡ with_records o ss }
    ensures union { (o : Operations) (rs : List (List ℕ))
        → IsMade o
        → with_records o rs ≡ joined o (content_of (set.from_list rs)) }
{}

/// The number of new records is counted in order: each record that changes the content of the earlier ones adds one.
/// There are no more new records than records.
pub fn new_ones_in_turn()
    ensures none { (o : Operations) → new_among o [] ≡ 0 }
    ensures in_turn { (o : Operations) (r : List ℕ) (rs : List (List ℕ))
        → new_among o (r ∷ rs) ≡ (if changes o r then 1 else 0) + new_among (with_record o r) rs }
    ensures within { (o : Operations) (rs : List (List ℕ)) → new_among o rs ≤ length rs }
{}

/// Each new admission adds one record to the content. A new retirement adds one record, too, and removes the slices
/// that it covers.
pub fn new_admissions_are_added()
    ensures { (o : Operations) (rs : List (List ℕ))
        → IsMade o
        → ((r : List ℕ) → Contains rs r → is_admission r ≡ true)
        → set.len (with_records o rs) ≡ set.len o + new_among o rs }
{}

/// If operations were added in part, and then all are added again, the result is that of adding all at once.
pub fn taking_each_resumed()
    ensures { (o mid : Operations) (rs : List (List ℕ))
        → IsContent o
        → IsTakenInPart o rs mid
        → with_records mid rs ≡ with_records o rs }
{}

/// A retired slice never returns: no content above one that retires a slice has it live.
pub fn retired_stays_retired()
    ensures { (o p : Operations) (key : SliceKey) (slice : List ℕ)
        → set.contains o (retirement_record key (sha256 slice)) ≡ true
        → IsBelow o p
        → IsLive p key slice
        → ⊥ }
{}

/// The entry of an admission is its tag, its key and the SHA-256 of its slice; that of a retirement is its record. Each
/// has 57 bytes.
pub fn entries_in_words()
    ensures admission { (slice : List ℕ)
        → IsValid slice
        → entry (admission_record slice) ≡ 2 ∷ (key_bytes (key_of slice) ++ sha256 slice) }
    ensures retirement { (key : SliceKey) (digest : List ℕ)
        → entry (retirement_record key digest) ≡ retirement_record key digest }
    ensures long { (r : List ℕ) → IsRecord r → length (entry r) ≡ 57 }
{}

/// An entry is that of one retirement, or of the admissions under one key of slices with one SHA-256.
pub fn one_entry()
    ensures retirement { (key : SliceKey) (digest r : List ℕ)
        → IsRecord r
        → entry r ≡ entry (retirement_record key digest)
        → r ≡ retirement_record key digest }
    ensures admissions { (slice r : List ℕ)
        → IsValid slice
        → IsRecord r
        → entry r ≡ entry (admission_record slice)
        → (other : Admits r)
        × (key_bytes (key_of other.slice) ≡ key_bytes (key_of slice))
        × (sha256 other.slice ≡ sha256 slice) }
{}

/// If no slice of one content has the SHA-256 of a different slice of the other, operations of the two with one entry
/// are one operation.
pub fn digests_differ()
    ensures { (o p : Operations) (r s : List ℕ)
        → IsContent o
        → IsContent p
        → DigestsDiffer o p
        → set.contains o r ≡ true
        → set.contains p s ≡ true
        → entry r ≡ entry s
        → r ≡ s }
{}

/// A summary has the entry of each operation of a content and no other. A delta is the content of the operations whose
/// entries are not in the summary, in order.
pub fn deltas_in_words()
    ensures summary { (o : Operations) (e : List ℕ)
        → (set.contains (summary o) e ≡ true) ↔ ((r : List ℕ) × (set.contains o r ≡ true) × (entry r ≡ e)) }
    ensures delta { (o : Operations) (s : Entries) (r : List ℕ)
        → set.contains (delta o s) r ≡ (set.contains o r && not (set.contains s (entry r))) }
    ensures listed { (o : Operations) (s : Entries)
        → listing (delta o s) ≡ filter (λ r. not (set.contains s (entry r))) (listing o) }
    ensures content { (o : Operations) (s : Entries) → IsContent o → IsContent (delta o s) }
    ensures below { (o : Operations) (s : Entries) → IsContent o → IsBelow (delta o s) o }
{}

/// A content that joins a delta for its own summary, or for an older one, is above the content from which the delta was
/// made, if no slice of one has the SHA-256 of a different slice of the other. Each entry of an older summary is that
/// of an operation that the content still has, or of a slice that it has retired since. For any entries and slices, it
/// is below the join of both.
pub fn delta_brings_above()
    ensures above { (o p : Operations) (s : Entries)
        → IsContent o
        → IsContent p
        → DigestsDiffer o p
        → ((e : List ℕ) → set.contains s e ≡ true → is_known p e ≡ true)
        → IsBelow o (joined p (delta o s)) }
    ensures own { (o p : Operations)
        → IsContent o
        → IsContent p
        → DigestsDiffer o p
        → IsBelow o (joined p (delta o (summary p))) }
    ensures within { (o p : Operations) (s : Entries)
        → IsContent o
        → IsContent p
        → IsBelow (joined p (delta o s)) (joined o p) }
{}

/// A content and a UUID have one list of rows.
pub fn one_find()
    ensures some { (o : Operations) (uuid : List ℕ) → IsContent o → (rows : List FindRow) × IsFinds o uuid rows }
    ensures one { (o : Operations) (uuid : List ℕ) (rows others : List FindRow)
        → IsFinds o uuid rows
        → IsFinds o uuid others
        → rows ≡ others }
{}

/// A content has one list of all its rows.
pub fn one_list()
    ensures some { (o : Operations) → IsContent o → (rows : List FindRow) × IsList o rows }
    ensures one { (o : Operations) (rows others : List FindRow) → IsList o rows → IsList o others → rows ≡ others }
{}

/// The rows of a search for a UUID are the part of the list under it, and the list consists of such parts, in ascending
/// order of UUIDs.
pub fn finds_are_parts()
    ensures part { (o : Operations) (uuid : List ℕ) (rows : List FindRow)
        → IsList o rows
        → IsFinds o uuid (rows_under uuid rows) }
    ensures found { (o : Operations) (uuid : List ℕ) (rows found : List FindRow)
        → IsList o rows
        → IsFinds o uuid found
        → found ≡ rows_under uuid rows }
    ensures parts { (o : Operations) (rows : List FindRow)
        → IsList o rows
        → (uuids : List (List ℕ))
        × IsStrictlySortedBy (slice_cmp nat_cmp) uuids
        × (rows ≡ flat_map (λ uuid. rows_under uuid rows) uuids) }
{
    one_find();
}

/// A content and a name have one list of rows.
pub fn one_find_name()
    ensures some { (o : Operations) (name : List ℕ) → IsContent o → (rows : List NameRecord) × IsNames o name rows }
    ensures one { (o : Operations) (name : List ℕ) (rows others : List NameRecord)
        → IsNames o name rows
        → IsNames o name others
        → rows ≡ others }
{}

/// The rows of a UUID determine how many slices answer under it and an architecture.
pub fn rows_count_answering()
    ensures { (o : Operations) (key : SliceKey) (rows : List FindRow)
        → IsContent o
        → IsKey key
        → IsFinds o key.uuid rows
        → (slices : List (List ℕ)) × AreAnswering o key slices × (length slices ≡ answering_count rows key.arch) }
{}

/// The slices that answer under a key are one list, in a content and in any other set of operations.
pub fn one_answering()
    ensures some { (o : Operations) (key : SliceKey) → (slices : List (List ℕ)) × AreAnswering o key slices }
    ensures one { (o : Operations) (key : SliceKey) (slices others : List (List ℕ))
        → AreAnswering o key slices
        → AreAnswering o key others
        → slices ≡ others }
{}

/// A content, a key and an address have one answer, and so has any other set of operations.
pub fn one_answer()
    ensures some { (o : Operations) (key : SliceKey) (asked : Where)
        → (answer : AnswerRecord) × IsAnswer o key asked answer }
    ensures one { (o : Operations) (key : SliceKey) (asked : Where) (answer other : AnswerRecord)
        → IsAnswer o key asked answer
        → IsAnswer o key asked other
        → answer ≡ other }
{
    one_nearest();
}

/// A part of a content has the selected records, and is a content.
pub fn parts_in_words()
    ensures part { (o : Operations) (picks : List ℕ → Bool) (r : List ℕ)
        → set.contains (part o picks) r ≡ (set.contains o r && picks r) }
    ensures content { (o : Operations) (picks : List ℕ → Bool) → IsContent o → IsContent (part o picks) }
    ensures alike { (o : Operations) (picks : List ℕ → Bool) (front : List ℕ)
        → ((r : List ℕ) → is_under front r ≡ true → picks r ≡ true)
        → AreAlikeUnder front (part o picks) o }
{}

/// The answer for a key, the rows of a UUID and those of a name depend only on the records of that key, that UUID and
/// that name: contents with the same such records have the same answers.
pub fn answers_of_few_records()
    ensures answer { (o p : Operations) (key : SliceKey) (asked : Where) (answer : AnswerRecord)
        → AreAlikeUnder (key_bytes key) o p
        → IsAnswer o key asked answer ↔ IsAnswer p key asked answer }
    ensures conflict { (o p : Operations) (key : SliceKey)
        → AreAlikeUnder (key_bytes key) o p
        → IsConflict o key ↔ IsConflict p key }
    ensures find { (o p : Operations) (uuid : List ℕ) (rows : List FindRow)
        → AreAlikeUnder uuid o p
        → IsFinds o uuid rows ↔ IsFinds p uuid rows }
    ensures find_name { (o p : Operations) (name : List ℕ) (rows : List NameRecord)
        → AreAlikeNamed name o p
        → IsNames o name rows ↔ IsNames p name rows }
{}

/// If a part of a content has all records under a key, or under a UUID, its answers for it are those of the whole
/// content.
pub fn part_answers_as_the_whole()
    ensures answer { (o : Operations) (picks : List ℕ → Bool) (key : SliceKey) (asked : Where) (answer : AnswerRecord)
        → ((r : List ℕ) → is_under (key_bytes key) r ≡ true → picks r ≡ true)
        → IsAnswer (part o picks) key asked answer ↔ IsAnswer o key asked answer }
    ensures find { (o : Operations) (picks : List ℕ → Bool) (uuid : List ℕ) (rows : List FindRow)
        → ((r : List ℕ) → is_under uuid r ≡ true → picks r ≡ true)
        → IsFinds (part o picks) uuid rows ↔ IsFinds o uuid rows }
{
    parts_in_words();
    answers_of_few_records();
}
