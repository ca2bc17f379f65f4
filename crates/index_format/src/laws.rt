//! Laws about an index and the content from which it was made, and about reading it. Each law is a function with an
//! empty body, and its contract the law.

ghost use Rattle.std.specs.Prelude.{◌≡◌, ◌⊎◌, ◌≤◌, ◌<◌, ◌^◌, ℕ, List, length, map, slice_index, take};
ghost use Rattle.std.specs.FinSet as set;
ghost use Rattle.join_core.specs.Listing.{listing};
ghost use Rattle.archive_core.specs.Content.{Operations, IsContent};
ghost use Rattle.archive_core.specs.Part.{is_under, part};
ghost use Rattle.archive_core.specs.Summary.{summary};
ghost use Rattle.archive_records.specs.Text.{written};
ghost use Rattle.index_format.specs.Fault.{IsIndexFault};
ghost use Rattle.index_format.specs.Index.{index};
ghost use Rattle.index_format.specs.Places.{AreNamed, HasIndexedLength, TellsFound};
ghost use Rattle.index_format.specs.Text.{IsIndexText};
ghost use Rattle.index_format.specs.Tree.{AreReadUnder, MayHaveEntries};
ghost use Rattle.index_format.specs.declared.index_fault.IndexFault.{IndexFault};

/// With the index of the archive with this text, the records that are named with a UUID or a key are those of the
/// content. Nothing is assumed about SHA-256.
pub fn index_answers_right()
    ensures { (front : List ℕ) (o p : Operations) → length front ≤ 24 → IsContent o → length (written o) < 2 ^ 64
        → AreNamed front (listing (index o)) (written o) p → p ≡ part o (is_under front) }
{}

/// For any bytes, the records that the index of a content names are those of the content, unless a slice that was found
/// has the SHA-256 of a different slice of the content. So for an archive that has changed since, the answer is that of
/// the indexed content, or there is none.
pub fn answers_are_of_the_index()
    ensures { (front text : List ℕ) (o p : Operations) → length front ≤ 24 → IsContent o
        → (named : AreNamed front (listing (index o)) text p) → TellsFound o named.records
        → p ≡ part o (is_under front) }
{}

/// The archive of an index has the length that the index implies.
pub fn right_length()
    ensures { (o : Operations) → IsContent o → length (written o) < 2 ^ 64 → HasIndexedLength (index o) (written o) }
{}

/// The entries of a content's summary are those of its index, without offsets, lengths and kinds.
pub fn summary_of_the_index()
    ensures { (o : Operations) → IsContent o → summary o ≡ set.from_list (map (take 57) (listing (index o))) }
{}

/// Bytes are an index with exactly one list of entries, or have exactly one fault, and never both.
pub fn one_index_fault()
    ensures either { (text : List ℕ) → ((i : ℕ) → slice_index text i < 256)
        → ((entries : List (List ℕ)) × IsIndexText text entries) ⊎ ((f : IndexFault) × IsIndexFault text f) }
    ensures one { (text : List ℕ) (f g : IndexFault) → IsIndexFault text f → IsIndexFault text g → f ≡ g }
    ensures none { (text : List ℕ) (entries : List (List ℕ)) (f : IndexFault) → IsIndexText text entries
        → IsIndexFault text f → ⊥ }
    ensures alone { (text : List ℕ) (entries others : List (List ℕ)) → IsIndexText text entries
        → IsIndexText text others → entries ≡ others }
{}

/// An index may have its entries: nothing is assumed about SHA-256.
pub fn index_may_have()
    ensures { (text : List ℕ) (entries : List (List ℕ)) → IsIndexText text entries → MayHaveEntries text entries }
{}

/// Two lists of entries that were read of one text under the same UUIDs are one, if it may have any entries.
pub fn one_part()
    ensures { (uuids : List (List ℕ)) (text : List ℕ) (entries some other : List (List ℕ))
        → MayHaveEntries text entries → AreReadUnder uuids text some → AreReadUnder uuids text other → some ≡ other }
{}
