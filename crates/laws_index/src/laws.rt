//! The answers of several indexes are those of the joint content from which they were made. Each law is the contract of
//! a function that does nothing.

ghost use Rattle.std.specs.Prelude.{◌≡◌, ℕ, Bool, List, Option, [], ◌∷◌, Some, drop, slice_get, true};
ghost use Rattle.archive_core.specs.Content.{Operations};
ghost use Rattle.archive_core.specs.Key.{IsKey, key_bytes};
ghost use Rattle.archive_core.specs.Lookup.{AnswerRecord, IsOwn};
ghost use Rattle.archive_core.specs.declared.keys.SliceKey.{SliceKey};
ghost use Rattle.archive_core.specs.declared.lookup.Where.{Where};
ghost use Rattle.dwarf_source_frames.specs.Frames.{FrameRecord};
ghost use Rattle.macho_symbols.specs.Found.{FoundRecord};
ghost use Rattle.table_checked_pages.specs.Pages.{DigestsDecidePages};
ghost use Rattle.table_source_frames.specs.SliceTable.{HasNoLines};
ghost use Rattle.table_symbols.specs.Steps.{AreBytes};
ghost use Rattle.index_build.specs.Content.{HasTable};
ghost use Rattle.index_format.specs.Entry.{claim_in};
ghost use Rattle.index_lookup.specs.Told.{AreFramesOfPlace, AreFramesToldBy, HasNoLinesBy, IsToldBy};
ghost use Rattle.index_format.specs.Text.{IsIndexText};
ghost use Rattle.command_queries.specs.SourceFrames.{IsAnswerWithFrames};
ghost use Rattle.index_lookup.specs.Among.{AreAnsweringAmong, AreTied, EntryAt, IsAmong, all_of, answers_among};
ghost use Rattle.index_lookup.specs.AmongTold.{IsAnswerAmong};
ghost use Rattle.index_lookup.specs.AmongAsked.{HasNoTable, IsUntoldAmong};
ghost use Rattle.index_lookup.specs.declared.fault.AnswerFault.TheVariants.{Damaged, NoLines};
ghost use Rattle.laws_index.specs.Indexes.{AnswersUnder, AreIndexes, AreTiedSlices, DigestsDiffer, IsIndexFile};
ghost use Rattle.laws_index.specs.Indexes.{all_joined};

/// The answer of several indexes under a key is that of the joint content of their contents, with the shown frames, if
/// no two different slices of these have one SHA-256. The answer of one index is that of its content, and there is no
/// assumption about SHA-256.
pub fn right_among()
    ensures several { (os : List Operations) (texts : List (List ℕ)) (indexes : List (List (List ℕ))) (key : SliceKey)
        (lines : Bool) (asked : Where) (answer : AnswerRecord) (frames : List (List FrameRecord))
        → AreIndexes os texts indexes → DigestsDiffer os → IsKey key
        → IsAnswerAmong texts indexes (key_bytes key) lines asked answer frames
        → IsAnswerWithFrames (all_joined os) key lines asked answer frames }
    ensures alone { (o : Operations) (text : List ℕ) (entries : List (List ℕ)) (key : SliceKey) (lines : Bool)
        (asked : Where) (answer : AnswerRecord) (frames : List (List FrameRecord)) → IsIndexFile o text
        → IsIndexText text entries → IsKey key
        → IsAnswerAmong (text ∷ []) (entries ∷ []) (key_bytes key) lines asked answer frames
        → IsAnswerWithFrames o key lines asked answer frames }
{}

/// No entry that answers is damaged: its table is stored at its offset. An entry whose table has no lines is that of a
/// slice that answers and has none. There is no assumption about SHA-256.
pub fn undamaged_among()
    ensures entry { (os : List Operations) (texts : List (List ℕ)) (indexes : List (List (List ℕ)))
        (prefix text : List ℕ) (x : EntryAt) → AreIndexes os texts indexes → IsAmong indexes x
        → answers_among prefix (all_of indexes) x.entry ≡ true → slice_get texts x.input ≡ Some text
        → HasNoTable text x.entry → ⊥ }
    ensures told { (os : List Operations) (texts : List (List ℕ)) (indexes : List (List (List ℕ))) (prefix : List ℕ)
        (answering : List EntryAt) (input number : ℕ) → AreIndexes os texts indexes
        → AreAnsweringAmong prefix indexes answering → IsUntoldAmong texts answering (Damaged input number) → ⊥ }
    ensures lineless { (os : List Operations) (texts : List (List ℕ)) (indexes : List (List (List ℕ)))
        (prefix : List ℕ) (answering : List EntryAt) (input number : ℕ) → AreIndexes os texts indexes
        → AreAnsweringAmong prefix indexes answering → IsUntoldAmong texts answering (NoLines input number)
        → (slice : List ℕ) × AnswersUnder os prefix slice × HasNoLines slice }
{}

/// Tied entries are those of two different slices of one length, of two contents, that answer under the key. There is
/// no assumption about SHA-256.
pub fn tied_among()
    ensures { (os : List Operations) (texts : List (List ℕ)) (indexes : List (List (List ℕ))) (key : SliceKey)
        → AreIndexes os texts indexes → IsKey key → AreTied (key_bytes key) indexes → AreTiedSlices os key }
{}

/// Over any bytes of an index, an entry of the index of a content gives what its slice has (symbols, frames, or no
/// lines), unless other bytes at a page of the table, or at its digests, have the digest of that page.
pub fn right_over_any_bytes()
    ensures symbols { (index text r : List ℕ) (entries : List (List ℕ)) (asked : Where) (own : Option FoundRecord)
        → (table : HasTable index entries r) → DigestsDecidePages text (claim_in table.e) table.table
        → AreBytes (drop 33 r) → IsToldBy text (claim_in table.e) asked own → IsOwn (drop 33 r) asked own }
    ensures frames { (index text r : List ℕ) (entries : List (List ℕ)) (asked : Where) (frames : List FrameRecord)
        → (table : HasTable index entries r) → DigestsDecidePages text (claim_in table.e) table.table
        → AreBytes (drop 33 r) → AreFramesToldBy text (claim_in table.e) asked frames
        → AreFramesOfPlace asked (drop 33 r) frames }
    ensures lines { (index text r : List ℕ) (entries : List (List ℕ)) → (table : HasTable index entries r)
        → DigestsDecidePages text (claim_in table.e) table.table → AreBytes (drop 33 r)
        → HasNoLinesBy text (claim_in table.e) → HasNoLines (drop 33 r) }
{}
