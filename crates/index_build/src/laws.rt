//! Laws about an index and the content from which it was made. Each law is the contract of a function that does
//! nothing.

ghost use Rattle.std.specs.Prelude.{◌≡◌, ◌<◌, ◌^◌, ℕ, List, Option, Some, drop, length, true};
ghost use Rattle.std.specs.List.{concat};
ghost use Rattle.std.specs.FinSet as set;
ghost use Rattle.join_core.specs.Listing.{listing};
ghost use Rattle.table_checked_pages.specs.Pages.{AreStored, DigestsDecidePages, root_of};
ghost use Rattle.table_symbols.specs.Found.{IsSaid};
ghost use Rattle.table_symbols.specs.Steps.{AreBytes};
ghost use Rattle.table_symbols.specs.Table.{IsTableText};
ghost use Rattle.table_symbols.specs.declared.nearest.NearestSymbol.{NearestSymbol};
ghost use Rattle.archive_core.specs.Content.{Operations, IsContent, is_admission};
ghost use Rattle.archive_records.specs.Text.{written};
ghost use Rattle.index_build.specs.Asked.{IsToldBy};
ghost use Rattle.index_build.specs.Content.{EndAlike, HasTable, IsIndexOf, entries_of};
ghost use Rattle.index_build.specs.Making.{IsTooFar};
ghost use Rattle.index_format.specs.Entry.{claim_in};
ghost use Rattle.index_format.specs.Paged.{only};
ghost use Rattle.index_format.specs.Text.{IsIndexText, entries_claim};
ghost use Rattle.index_format.specs.Tree.{AreReadUnder, is_under_one};

use table_source_frames::laws::one_slice_table;

/// A content has one index.
pub fn one_index()
    ensures { (o : Operations) (text other : List ℕ) → IsIndexOf o text → IsIndexOf o other → text ≡ other }
{
    one_slice_table();
}

/// The index of a content is accepted: it is the text of an index, with the entries of that content.
pub fn accepted()
    ensures { (o : Operations) (text : List ℕ) → (index : IsIndexOf o text) → IsContent o
        → length (written o) < 2 ^ 64 → length text < 2 ^ 64
        → IsIndexText text (entries_of (listing o) index.tables) }
{}

/// In an archive of less than 2^64 bytes no record has a too large offset, and no table has one, if its index has less
/// than 2^64 bytes.
pub fn never_too_long()
    ensures { (o : Operations) (index : List ℕ) (left held_old held_new : Option (List ℕ)) → IsContent o
        → IsIndexOf o index → length (written o) < 2 ^ 64 → length index < 2 ^ 64
        → IsTooFar (Some (written o)) left held_old held_new → ⊥ }
{
    one_slice_table();
}

/// The index of a content has an entry for each of its slices, and the table of the slice is stored where the entry
/// says. The answer of such an entry for an address is the nearest symbol of its slice. Nothing is assumed about
/// SHA-256.
pub fn index_answers_right()
    ensures table { (o : Operations) (text : List ℕ) → (index : IsIndexOf o text) → IsContent o
        → length text < 2 ^ 64 → (r : List ℕ) → set.contains o r ≡ true → is_admission r ≡ true
        → HasTable text (entries_of (listing o) index.tables) r }
    ensures told { (text e slice table : List ℕ) (address : ℕ) (found : Option NearestSymbol)
        → IsTableText slice table → AreStored text (claim_in e) table → AreBytes slice
        → IsToldBy text e address found → IsSaid slice address found }
{}

/// Of any bytes with the length and the end record of the index of a content, the entries that are read under some
/// UUIDs are those of that content, unless other bytes at the offset of a page of the entries, or of their digests, have
/// the digest of that page.
pub fn entries_over_any_bytes()
    ensures { (o : Operations) (index text : List ℕ) (uuids some : List (List ℕ)) → (is : IsIndexOf o index)
        → IsContent o → length (written o) < 2 ^ 64 → length index < 2 ^ 64 → length text ≡ length index
        → EndAlike text index
        → (let entries = entries_of (listing o) is.tables in
        DigestsDecidePages text (entries_claim text) (concat entries) → AreReadUnder uuids text some
        → some ≡ only (is_under_one uuids) entries) }
{}

/// In any bytes that end with the end record of the index of a content, the entries that are read are those of that
/// content, unless others have their root; and the answer of such an entry for an address is the nearest symbol of
/// its slice, unless other bytes at the offset of a page of the table, or of its digests, have the digest of that page.
pub fn answers_are_of_the_content()
    ensures entries { (o : Operations) (index text : List ℕ) (entries : List (List ℕ)) → (is : IsIndexOf o index)
        → IsContent o → length (written o) < 2 ^ 64 → length index < 2 ^ 64 → IsIndexText text entries
        → EndAlike text index
        → (let others = entries_of (listing o) is.tables in
        (root_of (concat entries) ≡ root_of (concat others) → concat entries ≡ concat others) → entries ≡ others) }
    ensures told { (index text r : List ℕ) (entries : List (List ℕ)) (address : ℕ) (found : Option NearestSymbol)
        → (table : HasTable index entries r) → DigestsDecidePages text (claim_in table.e) table.table
        → AreBytes (drop 33 r) → IsToldBy text table.e address found → IsSaid (drop 33 r) address found }
{}
