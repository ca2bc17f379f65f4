//! Laws of the commands with the indexes of contents. Each law is a function with an empty body, and its contract the
//! law.

ghost use Rattle.std.specs.Prelude.{◌≡◌, ◌≤◌, ◌<◌, ◌^◌, ◌⊎◌, ◌∷◌, ◌++◌, [], ℕ, List, Bool, Option, Contains, Ok};
ghost use Rattle.std.specs.Prelude.{Some, length, true};
ghost use Rattle.std.specs.List.{AllByRecursion};
ghost use Rattle.archive_core.specs.Content.{IsContent, Operations};
ghost use Rattle.archive_core.specs.Key.{IsKey, key_bytes};
ghost use Rattle.archive_core.specs.Lookup.{AnswerRecord};
ghost use Rattle.archive_core.specs.declared.lookup.Where.{Where};
ghost use Rattle.dwarf_source_frames.specs.Frames.{FrameRecord};
ghost use Rattle.archive_core.specs.Lists.{IsList};
ghost use Rattle.archive_core.specs.Part.{AreAlikeUnder, is_under, part};
ghost use Rattle.join_core.specs.Listing.{listing};
ghost use Rattle.archive_core.specs.Summary.{summary};
ghost use Rattle.archive_core.specs.declared.find.FindRow.{FindRow};
ghost use Rattle.archive_core.specs.declared.keys.Digest.{Digest};
ghost use Rattle.archive_core.specs.declared.keys.SliceKey.{SliceKey};
ghost use Rattle.archive_records.specs.Text.{summary_text, written};
ghost use Rattle.index_format.specs.Index.{index};
ghost use Rattle.command_common.specs.Records.{TellsFound, TellsListed};
ghost use Rattle.command_queries.specs.Frames.{TellsFramesWith, frame_keys, frames_under_key};
ghost use Rattle.command_queries.specs.SourceFrames.{IsAnswerWithFrames};
ghost use Rattle.command_queries.specs.Symbolicate.{TellsAddressesWith};
ghost use Rattle.text_input_files.specs.Frames.{frames_of};
ghost use Rattle.text_input_files.specs.declared.frame.Frame.{Frame};
ghost use Rattle.command_common.specs.Inputs.{IsDeviceFault, IsGiven, Reader};
ghost use Rattle.command_common.specs.Outputs.{Writer, summary_report_of};
ghost use Rattle.command_common.specs.declared.faults.InputName.{InputName};
ghost use Rattle.command_common.specs.declared.faults.Status.{Status};
ghost use Rattle.command_common.specs.declared.faults.Why.{Why};
ghost use Rattle.index_build.specs.Index.{MakesIndex};
ghost use Rattle.laws_index.specs.Indexes.{AreTiedSlices, AreUnderOne, DigestsDiffer, IsIndexFile, all_joined};
ghost use Rattle.command_given_indexes.specs.Find.{find_at, find_together};
ghost use Rattle.command_given_indexes.specs.Indexes.{IsRefusedByIndex, IsRefusedByPart};
ghost use Rattle.command_given_indexes.specs.List.{list_at};
ghost use Rattle.command_given_indexes.specs.Rows.{AreIndexRows};
ghost use Rattle.command_given_indexes.specs.Several.{AreRefusedTogether, HoldTogether};
ghost use Rattle.command_given_indexes.specs.Summary.{summary_at};
ghost use Rattle.command_given_indexes.specs.Together.{AreReadWith};
ghost use Rattle.command_frames.specs.Asking.{AreAskedUuids, AreRefusedAsking, AreUntold, IsAnsweredBySlices, keys_of};
ghost use Rattle.command_frames.specs.Frames.{AreToldAt, symbolicate_at};
ghost use Rattle.command_frames.specs.Refusals.{IsKeyRefused, KeyRefusal};
ghost use Rattle.command_extract.specs.Indexed.{LacksEntry, MakesEntry, extract_at};
ghost use Rattle.command_extract.specs.Wanted.{AreUndecided, IsWanted, slice_line, slices_text};
ghost use Rattle.laws_index.specs.Contents.{AreIndexed, AreIndexesGiven, AreOwnIndexes, HaveKeys, IsIndexGiven};
ghost use Rattle.laws_index.specs.Contents.{IsForLines, IsOwnIndex};
ghost use Rattle.laws_index.specs.Refusing.{IsRefusedForLines, TellsAddressesOrBesides, TellsFramesBesides};
ghost use Rattle.laws_index.specs.Refusing.{TellsFramesOrBesides};
ghost use Rattle.laws_index.specs.Undecided.{TellsUndecided};

use byte_device::{Placed, Source};
use index_build::laws::one_index;
use table_source_frames::laws::one_slice_table;

/// The index that `index` makes is the index file of a content, as the other laws require, if neither it nor the
/// archive has 2^64 bytes.
pub fn made_index_is_of_a_content<R: Source>()
    ensures { (archive : Reader R) (text told : List ℕ) → (made : MakesIndex archive text told)
        → length (written made.content) < 2 ^ 64 → length text < 2 ^ 64 → IsIndexFile made.content text }
{}

/// The rows of the index of a content under a prefix are the list of the part of the content there. There is no
/// assumption about SHA-256, and no archive is read. A content with an index file has the keys that this requires.
pub fn rows_of_index()
    ensures rows { (prefix : List ℕ) (o : Operations) (rows : List FindRow) → length prefix ≤ 24 → IsContent o
        → HaveKeys o → length (written o) < 2 ^ 64 → AreIndexRows prefix (listing (index o)) rows
        → IsList (part o (is_under prefix)) rows }
    ensures keys { (o : Operations) (text : List ℕ) → IsIndexFile o text → HaveKeys o }
{}

/// If INDEX is that of a content, `find` has the report of that content, for any bytes of ARCHIVE.
pub fn found_by_index<I: Placed, P: Placed>()
    ensures { (input : Reader I) (archive : Reader P) (o : Operations) (uuid : List ℕ) (status : Status)
        (text : List ℕ) → length uuid ≡ 16 → IsIndexGiven input o → (find_at input archive uuid).Makes status text
        → TellsFound o uuid status text }
{}

/// If INDEX is that of a content, `list` has the report of that content, for any bytes of ARCHIVE.
pub fn listed_by_index<I: Placed, P: Placed>()
    ensures { (input : Reader I) (archive : Reader P) (o : Operations) (status : Status) (text : List ℕ)
        → IsIndexGiven input o → (list_at input archive).Makes status text → TellsListed o status text }
{}

/// If INDEX is that of a content, `summary` makes the summary of that content, for any bytes of ARCHIVE.
pub fn summarized_by_index<I: Placed, P: Placed>()
    ensures { (input : Reader I) (archive : Reader P) (o : Operations) (text told : List ℕ) → IsIndexGiven input o
        → (summary_at input archive).Makes text told
        → (text ≡ summary_text (summary o)) × (told ≡ summary_report_of (summary o)) }
{}

/// With the indexes of these very archives a command is refused only for a device: no index of its own content is
/// stale.
pub fn right_index_is_accepted<I: Placed, P: Placed>()
    ensures alone { (number : ℕ) (input : Reader I) (archive : Reader P) (o : Operations) (at : InputName) (why : Why)
        → IsIndexGiven input o → IsGiven archive (written o) → IsRefusedByIndex number input archive at why
        → IsDeviceFault why }
    ensures part { (uuids : List (List ℕ)) (number : ℕ) (input : Reader I) (archive : Reader P) (o : Operations)
        (at : InputName) (why : Why) → IsIndexGiven input o → IsGiven archive (written o)
        → IsRefusedByPart uuids number input archive at why → IsDeviceFault why }
    ensures together { (uuids prefixes : List (List ℕ)) (inputs : List (Reader I)) (archives : List (Reader P))
        (os : List Operations) (at : InputName) (why : Why) → AreOwnIndexes inputs archives os
        → AllByRecursion (λ prefix. 0 < length prefix) prefixes
        → AreRefusedTogether uuids prefixes inputs archives at why → IsDeviceFault why }
{}

/// If each INDEX is that of a content, the content held under prefixes of keys has the records of the join of these
/// contents there, if these keys have UUIDs whose entries were read. Each ARCHIVE is the text of its content, and there
/// is no assumption about SHA-256; or it has any bytes, and no slice of the content has the SHA-256 of a different one
/// in these.
pub fn held_by_indexes<I: Placed, P: Placed>()
    ensures { (uuids prefixes : List (List ℕ)) (inputs : List (Reader I)) (archives : List (Reader P))
        (os : List Operations) (p : Operations)
        → AllByRecursion (λ prefix. (length prefix ≤ 24) × AreUnderOne uuids prefix) prefixes
        → AreIndexed inputs archives os → HoldTogether uuids prefixes inputs archives p → (prefix : List ℕ)
        → Contains prefixes prefix → AreAlikeUnder prefix p (all_joined os) }
{}

/// So `find` over several archives has the report of the join of the contents.
pub fn found_by_indexes<I: Placed, P: Placed>()
    ensures { (inputs : List (Reader I)) (archives : List (Reader P)) (os : List Operations) (uuid : List ℕ)
        (status : Status) (text : List ℕ) → length uuid ≡ 16 → AreIndexed inputs archives os
        → (find_together inputs archives uuid).Makes status text
        → TellsFound (all_joined os) uuid status text }
{}

/// The same holds for `symbolicate`, with and without lines, and with the lines of the slices that answer. If no two
/// slices are tied under the key, it holds for any bytes of the archives; with the index of one archive none are tied,
/// and there is no assumption about SHA-256. With the lines of slices the key may be refused: if its slice has no lines
/// that are wanted, or if two are tied and an archive was changed. Answers of slices that are read need no assumption
/// about several contents.
pub fn answered_by_indexes<I: Placed, P: Placed>()
    ensures untied { (inputs : List (Reader I)) (archives : List (Reader P)) (os : List Operations) (key : SliceKey)
        (load : Option ℕ) (lines slices : Bool) (addresses : List ℕ) (status : Status) (text : List ℕ)
        → AreIndexesGiven inputs os → DigestsDiffer os → IsKey key → (AreTiedSlices os key → ⊥)
        → (symbolicate_at inputs archives key load lines slices addresses).Makes status text
        → TellsAddressesOrBesides archives os key load lines slices addresses status text }
    ensures alone { (input : Reader I) (archive : Reader P) (o : Operations) (key : SliceKey) (load : Option ℕ)
        (lines slices : Bool) (addresses : List ℕ) (status : Status) (text : List ℕ) → IsIndexGiven input o → IsKey key
        → (symbolicate_at (input ∷ []) (archive ∷ []) key load lines slices addresses).Makes status text
        → TellsAddressesWith o key load lines slices addresses status text
        ⊎ ((slices ≡ true) × TellsFramesBesides lines (archive ∷ []) (o ∷ []) (key ∷ [])
        (frames_under_key key load addresses) status text) }
    ensures slices { (uuids : List (List ℕ)) (inputs : List (Reader I)) (archives : List (Reader P))
        (os : List Operations) (all : List (List (List ℕ))) (lines : Bool) (key : SliceKey) (asked : Where)
        (answer : AnswerRecord) (frames : List (List FrameRecord)) → length (key_bytes key) ≤ 24
        → AreUnderOne uuids (key_bytes key) → AreIndexed inputs archives os → AreReadWith uuids inputs archives all
        → IsAnsweredBySlices archives all lines key asked answer frames
        → IsAnswerWithFrames (all_joined os) key lines asked answer frames }
    ensures either { (inputs : List (Reader I)) (archives : List (Reader P)) (os : List Operations) (key : SliceKey)
        (load : Option ℕ) (lines slices : Bool) (addresses : List ℕ) (status : Status) (text : List ℕ)
        → AreIndexed inputs archives os → DigestsDiffer os → IsKey key
        → (symbolicate_at inputs archives key load lines slices addresses).Makes status text
        → TellsAddressesOrBesides archives os key load lines slices addresses status text }
{}

/// The same holds for `frames`: the frames of a key that is not refused have the answers of the join. The frames of a
/// text have the keys that this requires.
pub fn framed_by_indexes<I: Placed, P: Placed>()
    ensures untied { (inputs : List (Reader I)) (archives : List (Reader P)) (os : List Operations)
        (lines slices : Bool)
        (listed : List Frame) (status : Status) (text : List ℕ) → AreIndexesGiven inputs os → DigestsDiffer os
        → ((frame : Frame) → Contains listed frame → IsKey frame.key × (AreTiedSlices os frame.key → ⊥))
        → AreToldAt lines slices inputs archives (frame_keys listed) listed status text
        → TellsFramesOrBesides lines slices archives os listed status text }
    ensures alone { (input : Reader I) (archive : Reader P) (o : Operations) (lines slices : Bool) (listed : List Frame)
        (status : Status) (text : List ℕ) → IsIndexGiven input o
        → ((frame : Frame) → Contains listed frame → IsKey frame.key)
        → AreToldAt lines slices (input ∷ []) (archive ∷ []) (frame_keys listed) listed status text
        → TellsFramesWith lines slices o listed status text
        ⊎ ((slices ≡ true)
        × TellsFramesBesides lines (archive ∷ []) (o ∷ []) (frame_keys listed) listed status text) }
    ensures either { (inputs : List (Reader I)) (archives : List (Reader P)) (os : List Operations)
        (lines slices : Bool)
        (listed : List Frame) (status : Status) (text : List ℕ) → AreIndexed inputs archives os → DigestsDiffer os
        → ((frame : Frame) → Contains listed frame → IsKey frame.key)
        → AreToldAt lines slices inputs archives (frame_keys listed) listed status text
        → TellsFramesOrBesides lines slices archives os listed status text }
    ensures keys { (bytes : List ℕ) (listed : List Frame) (frame : Frame) → frames_of bytes ≡ Ok listed
        → Contains listed frame → IsKey frame.key }
{}

/// The slice that `extract` writes by the indexes of these very archives is the wanted slice of the join of the
/// contents, if no two different slices of several contents have one SHA-256. With the index of one archive it is that
/// of its content, and there is no assumption about SHA-256.
pub fn extracted_by_indexes<I: Placed, P: Placed>()
    ensures entry { (inputs : List (Reader I)) (archives : List (Reader P)) (os : List Operations) (key : SliceKey)
        (digest : Option Digest) (slice told : List ℕ) → AreOwnIndexes inputs archives os → DigestsDiffer os
        → IsKey key → MakesEntry inputs archives key digest slice told
        → IsWanted (all_joined os) key digest slice × (told ≡ slice_line slice) }
    ensures alone { (input : Reader I) (archive : Reader P) (o : Operations) (key : SliceKey) (digest : Option Digest)
        (slice told : List ℕ) → IsOwnIndex input archive o → IsKey key
        → MakesEntry (input ∷ []) (archive ∷ []) key digest slice told
        → IsWanted o key digest slice × (told ≡ slice_line slice) }
    ensures either { (inputs : List (Reader I)) (archives : List (Reader P)) (os : List Operations) (key : SliceKey)
        (digest : Option Digest) (draft : Writer) (slice told : List ℕ) → AreOwnIndexes inputs archives os
        → DigestsDiffer os → IsKey key → (extract_at inputs archives key digest draft).writes.Makes slice told
        → IsWanted (all_joined os) key digest slice × (told ≡ slice_line slice) }
{}

/// If the indexes of contents have no entry that is wanted, for any bytes of the archives, the join of the contents has
/// no slice that is wanted. With a digest, no held slice has it, nothing is reported, and there is no assumption about
/// SHA-256. Without one, the lines are those of the slices that answer, in order, if no two different slices of several
/// contents have one SHA-256.
pub fn undecided_by_indexes<I: Placed, P: Placed>()
    ensures digest { (inputs : List (Reader I)) (archives : List (Reader P)) (os : List Operations) (key : SliceKey)
        (digest : Digest) (told : List ℕ) → AreIndexesGiven inputs os → IsKey key
        → LacksEntry inputs archives key (Some digest) told
        → AreUndecided (all_joined os) key (Some digest) [] × (told ≡ slices_text []) }
    ensures entry { (inputs : List (Reader I)) (archives : List (Reader P)) (os : List Operations) (key : SliceKey)
        (digest : Option Digest) (told : List ℕ) → AreIndexesGiven inputs os → DigestsDiffer os → IsKey key
        → LacksEntry inputs archives key digest told → TellsUndecided (all_joined os) key digest told }
    ensures alone { (input : Reader I) (archive : Reader P) (o : Operations) (key : SliceKey) (digest : Option Digest)
        (told : List ℕ) → IsIndexGiven input o → IsKey key → LacksEntry (input ∷ []) (archive ∷ []) key digest told
        → TellsUndecided o key digest told }
    ensures either { (inputs : List (Reader I)) (archives : List (Reader P)) (os : List Operations) (key : SliceKey)
        (digest : Option Digest) (draft : Writer) (told : List ℕ) → AreOwnIndexes inputs archives os → DigestsDiffer os
        → IsKey key → (extract_at inputs archives key digest draft).Lacks told
        → TellsUndecided (all_joined os) key digest told }
{}

/// By the indexes of contents a table is refused only for a device, or, if lines are wanted, at the entry of a slice
/// that answers under a key of the frames and has none, for any bytes of the archives. By the indexes of these very
/// archives this holds for all refusals, and a key is refused alone only for such a slice.
pub fn undamaged_by_indexes<I: Placed, P: Placed>()
    ensures tables { (lines slices : Bool) (keys : List SliceKey) (uuids : List (List ℕ)) (frames : List Frame)
        (inputs : List (Reader I)) (archives : List (Reader P)) (os : List Operations) (at : InputName) (why : Why)
        → AreIndexesGiven inputs os → AreAskedUuids (keys ++ frame_keys frames) uuids
        → AreUntold lines slices uuids frames inputs archives at why
        → IsDeviceFault why ⊎ IsForLines lines os (keys_of frames) at why }
    ensures asked { (lines slices : Bool) (frames : List Frame) (inputs : List (Reader I)) (archives : List (Reader P))
        (os : List Operations) (at : InputName) (why : Why) → AreOwnIndexes inputs archives os
        → AreRefusedAsking lines slices frames inputs archives at why
        → IsDeviceFault why ⊎ IsForLines lines os (keys_of frames) at why }
    ensures key { (lines : Bool) (keys : List SliceKey) (uuids : List (List ℕ)) (frames : List Frame)
        (inputs : List (Reader I)) (archives : List (Reader P)) (os : List Operations) (all : List (List (List ℕ)))
        (refusal : KeyRefusal) → AreOwnIndexes inputs archives os → AreAskedUuids (keys ++ frame_keys frames) uuids
        → Contains (keys_of frames) (key_bytes refusal.key) → AreReadWith uuids inputs archives all
        → IsKeyRefused lines frames inputs archives all refusal → IsRefusedForLines lines os refusal }
{}

/// Two calls for the same frames, by the indexes of these very archives, with the same contents, refuse the same input
/// for the same reason, unless for a device, if no two different slices of several contents have one SHA-256.
pub fn one_refusal_by_indexes<I: Placed, J: Placed, P: Placed, Q: Placed>()
    ensures { (lines slices : Bool) (frames : List Frame) (inputs : List (Reader I)) (archives : List (Reader P))
        (others : List (Reader J)) (more : List (Reader Q)) (os : List Operations) (at other : InputName)
        (why another : Why) → AreOwnIndexes inputs archives os → AreOwnIndexes others more os → DigestsDiffer os
        → ((frame : Frame) → Contains frames frame → IsKey frame.key)
        → AreRefusedAsking lines slices frames inputs archives at why
        → AreRefusedAsking lines slices frames others more other another
        → (IsDeviceFault why → ⊥) → (IsDeviceFault another → ⊥) → (at ≡ other) × (why ≡ another) }
{
    one_index();
    one_slice_table();
}
