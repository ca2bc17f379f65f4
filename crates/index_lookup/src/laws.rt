//! Laws about the answers of entries for several addresses and for each, and about the bytes stored for entries that
//! answer. Each law is the contract of a function that does nothing.

ghost use Rattle.std.specs.Prelude.{◌≡◌, ◌<◌, ◌≤◌, ℕ, Bool, true, Contains, List, [], Some, length, map, slice_get};
ghost use Rattle.std.specs.Prelude.{slice_index_or};
ghost use Rattle.std.specs.List.{AllZip};
ghost use Rattle.table_checked_pages.specs.Pages.{AreStored};
ghost use Rattle.dwarf_source_frames.specs.Frames.{FrameRecord};
ghost use Rattle.table_symbols.specs.Opened.{AreHeaded};
ghost use Rattle.archive_core.specs.Lookup.{AnswerRecord};
ghost use Rattle.archive_core.specs.declared.lookup.Where.{Where};
ghost use Rattle.archive_core.specs.Part.{is_under};
ghost use Rattle.index_format.specs.Entry.{claim_in};
ghost use Rattle.index_format.specs.Paged.{only};
ghost use Rattle.index_lookup.specs.Among.{AreAnsweringAmong, AreTied, EntryAt};
ghost use Rattle.index_lookup.specs.AmongTold.{IsAnswerAmong, IsToldOfAmong};
ghost use Rattle.index_lookup.specs.Views.{IsColumnAt, answer_of, row_at, shown_of};
ghost use Rattle.index_lookup.specs.declared.answers.EntryAnswers.{EntryAnswers};

/// The answers of entries for several addresses are their answers for each address, and the answer of the indexes if
/// these are the entries that answer, with the frames that are shown.
pub fn each_told()
    ensures told { (texts : List (List ℕ)) (answering : List EntryAt) (lines : Bool) (asked : List Where)
        (columns : List EntryAnswers) (number : ℕ) (none : Where)
        → AllZip (IsColumnAt texts lines asked) answering columns → number < length asked
        → IsToldOfAmong texts (slice_index_or asked number none) answering (answer_of (map (row_at number) columns)) }
    ensures answer { (texts : List (List ℕ)) (indexes : List (List (List ℕ))) (prefix : List ℕ)
        (answering : List EntryAt) (lines : Bool) (asked : List Where) (columns : List EntryAnswers) (number : ℕ)
        (none : Where) → AreAnsweringAmong prefix indexes answering
        → AllZip (IsColumnAt texts lines asked) answering columns → number < length asked
        → IsAnswerAmong texts indexes prefix lines (slice_index_or asked number none)
        (answer_of (map (row_at number) columns)) (shown_of lines number columns) }
{}

/// The bytes stored for an entry that answers begin with the head of a table of their size. So an entry without stored
/// bytes, as `symarch-keep` stores for a changed slice, does not answer: it is damaged.
pub fn headed_among()
    ensures headed { (texts : List (List ℕ)) (indexes : List (List (List ℕ))) (prefix : List ℕ) (lines : Bool)
        (asked : Where) (answer : AnswerRecord) (frames : List (List FrameRecord)) (x : EntryAt) (text all : List ℕ)
        (is : IsAnswerAmong texts indexes prefix lines asked answer frames) → Contains is.answering x
        → slice_get texts x.input ≡ Some text → AreStored text (claim_in x.entry) all → AreHeaded all }
    ensures empty { (texts : List (List ℕ)) (indexes : List (List (List ℕ))) (prefix : List ℕ) (lines : Bool)
        (asked : Where) (answer : AnswerRecord) (frames : List (List FrameRecord)) (x : EntryAt) (text : List ℕ)
        (is : IsAnswerAmong texts indexes prefix lines asked answer frames) → Contains is.answering x
        → slice_get texts x.input ≡ Some text → AreStored text (claim_in x.entry) [] → ⊥ }
{}

/// What answers under a key among entries of which only some are there, of the others no bytes, answers among all, if
/// all under the key are there; and so it is with entries that are tied.
pub fn part_answers_alike()
    ensures answering { (passes : List ℕ → Bool) (prefix : List ℕ) (indexes : List (List (List ℕ)))
        (answering : List EntryAt) → length prefix ≤ 56
        → ((e : List ℕ) → is_under prefix e ≡ true → passes e ≡ true)
        → AreAnsweringAmong prefix (map (only passes) indexes) answering → AreAnsweringAmong prefix indexes answering }
    ensures tied { (passes : List ℕ → Bool) (prefix : List ℕ) (indexes : List (List (List ℕ))) → length prefix ≤ 56
        → ((e : List ℕ) → is_under prefix e ≡ true → passes e ≡ true)
        → AreTied prefix (map (only passes) indexes) → AreTied prefix indexes }
{}
