//! Laws of the commands that only report, in the words of their user. Each law is the contract of a function that only
//! calls other laws.
ghost use Rattle.std.specs.Prelude.{◌≡◌, ◌≤◌, ◌↔◌, ℕ, List, [], Bool, true, false, Ok, Option, length, map};
ghost use Rattle.std.specs.List.{AllByRecursion, flat_map};
ghost use Rattle.archive_core.specs.Content.{IsContent, Operations, joined, content_of};
ghost use Rattle.archive_core.specs.Part.{AreAlikeUnder, is_under, part};
ghost use Rattle.archive_core.specs.declared.keys.SliceKey.{SliceKey};
ghost use Rattle.text_input_files.specs.Events.{Act};
ghost use Rattle.text_input_files.specs.Script.{script_of};
ghost use Rattle.text_input_files.specs.Frames.{frames_of};
ghost use Rattle.text_input_files.specs.declared.frame.Frame.{Frame};
ghost use Rattle.text_reports.specs.Answers.{answer_lines};
ghost use Rattle.command_common.specs.declared.faults.InputName.{InputName};
ghost use Rattle.command_common.specs.declared.faults.Status.{Status};
ghost use Rattle.command_common.specs.declared.faults.Why.{Why};
ghost use Rattle.command_common.specs.Archives.{AreRefused, AreUnfailed, merged};
ghost use Rattle.command_common.specs.Inputs.{Gives, HoldsContent, IsGiven, IsGivenArchive, IsRefusedArchive, Reader};
ghost use Rattle.command_common.specs.Inputs.{RefusesDevicesAlone, Unfailed};
ghost use Rattle.command_common.specs.Records.{TellsFound};
ghost use Rattle.command_queries.specs.Find.{find};
ghost use Rattle.command_queries.specs.Frames.{SymbolicatesEach, TellsFramesWith, frames};
ghost use Rattle.command_queries.specs.List.{list};
ghost use Rattle.command_queries.specs.Name.{MakesNamed, TellsNamed, name};
ghost use Rattle.command_queries.specs.Symbolicate.{MakesAnswered, TellsAddresses, TellsAddressesWith, symbolicate};
ghost use Rattle.archive_exchange.specs.Rehearse.{MakesRehearsed, rehearse, held_line};
ghost use Rattle.laws_archive.specs.Joins.{AreDevicesAlone, IsGivenJoin, IsMergedFile, TellAlike, TellOne};
ghost use Rattle.archive_exchange.specs.Reached.{reached};
ghost use Rattle.archive_exchange.specs.World.{state};
ghost use Rattle.archive_exchange.specs.ModelEvent.{ModelEvent};

use crate::content_laws::{one_answer, one_find, one_find_name, one_list};
use archive_exchange::laws::one_meaning;
use archive_exchange::model_laws::same_operations_same_content;
use archive_image_admission::TakeFault;
use byte_device::Source;
use dwarf_source_frames::laws::one_list_of_frames;

/// If the archives are the texts of contents, FRAMES is a text of frames and SCRIPT a script, with any events, inputs
/// are refused only for their devices.
pub fn accepted_inputs_are_not_refused<Q: Source, R: Source, S: Source>()
    ensures find { (archive : Reader R) (others : List (Reader S)) (o : Operations) (uuid : List ℕ)
        → IsGivenJoin archive others o
        → AreDevicesAlone (find archive others uuid).Refuses }
    ensures list { RefusesDevicesAlone {R = R} (λ archive. (list archive).Refuses) }
    ensures name { (archive : Reader R) (others : List (Reader S)) (o : Operations) (sought : List ℕ)
        → IsGivenJoin archive others o
        → AreDevicesAlone (name archive others sought).Refuses }
    ensures symbolicate { (archive : Reader R) (others : List (Reader S)) (o : Operations) (key : SliceKey)
        (load : Option ℕ) (lines slices : Bool) (addresses : List ℕ)
        → IsGivenJoin archive others o
        → AreDevicesAlone (symbolicate archive others key load lines slices addresses).Refuses }
    ensures frames { (lines slices : Bool) (input : Reader Q) (archive : Reader R) (others : List (Reader S))
        (bytes : List ℕ) (listed : List Frame) (o : Operations)
        → IsGiven input bytes
        → frames_of bytes ≡ Ok listed
        → IsGivenJoin archive others o
        → AreDevicesAlone (frames lines slices input archive others).Refuses }
    ensures rehearse { (script : Reader Q) (bytes : List ℕ) (sites : ℕ) (events : List Act)
        → IsGiven script bytes
        → script_of bytes ≡ Ok (sites, events)
        → AreDevicesAlone (rehearse script).Refuses }
{}

/// A content has one status and one text for a UUID, for a name and for addresses, with and without the lines of the
/// slices that answer, in any type of archive.
pub fn one_telling()
    ensures find { (o : Operations) (uuid : List ℕ) → TellOne (TellsFound o uuid) (TellsFound o uuid) }
    ensures name { (o : Operations) (sought : List ℕ) → TellOne (TellsNamed o sought) (TellsNamed o sought) }
    ensures symbolicate { (o : Operations) (key : SliceKey) (load : Option ℕ) (lines slices : Bool) (addresses : List ℕ)
        → TellOne (TellsAddressesWith o key load lines slices addresses)
        (TellsAddressesWith o key load lines slices addresses) }
{
    one_answer();
    one_find();
    one_find_name();
    one_list_of_frames();
}

/// Two calls whose archives have one joint content, and whose FRAMES or SCRIPT have the same bytes, have the same
/// status and the same report, for any number of archives.
pub fn one_report<Q: Source, R: Source, S: Source, T: Source, U: Source, V: Source>()
    ensures find { (archive : Reader R) (others : List (Reader S)) (also : Reader T) (more : List (Reader U))
        (o : Operations) (uuid : List ℕ)
        → IsGivenJoin archive others o
        → IsGivenJoin also more o
        → TellOne (find archive others uuid).Makes (find also more uuid).Makes }
    ensures list { (archive : Reader R) (other : Reader S) (o : Operations)
        → IsContent o
        → IsGivenArchive archive o
        → IsGivenArchive other o
        → TellOne (list archive).Makes (list other).Makes }
    ensures name { (archive : Reader R) (others : List (Reader S)) (also : Reader T) (more : List (Reader U))
        (o : Operations) (sought : List ℕ)
        → IsGivenJoin archive others o
        → IsGivenJoin also more o
        → TellOne (MakesNamed archive others sought) (MakesNamed also more sought) }
    ensures symbolicate { (archive : Reader R) (others : List (Reader S)) (also : Reader T) (more : List (Reader U))
        (o : Operations) (key : SliceKey) (load : Option ℕ) (lines slices : Bool) (addresses : List ℕ)
        → IsGivenJoin archive others o
        → IsGivenJoin also more o
        → TellOne (MakesAnswered archive others key load lines slices addresses)
        (MakesAnswered also more key load lines slices addresses) }
    ensures frames { (lines slices : Bool) (input : Reader Q) (archive : Reader R) (others : List (Reader S))
        (also : Reader T) (other : Reader U) (more : List (Reader V)) (bytes : List ℕ) (o : Operations)
        → IsGiven input bytes
        → IsGiven also bytes
        → IsGivenJoin archive others o
        → IsGivenJoin other more o
        → TellOne (frames lines slices input archive others).Makes (frames lines slices also other more).Makes }
    ensures rehearse { (script : Reader Q) (other : Reader R) (bytes : List ℕ)
        → IsGiven script bytes
        → IsGiven other bytes
        → TellOne (MakesRehearsed script) (MakesRehearsed other) }
{
    one_answer();
    one_list();
    one_list_of_frames();
    one_meaning();
    one_telling();
}

/// The status and the report for several archives are those for the one archive that `merge` of them writes.
pub fn asked_together<Q: Source, R: Source, S: Source, T: Source>()
    ensures find { (archive : Reader R) (others : List (Reader S)) (file : Reader T) (uuid : List ℕ)
        → IsMergedFile archive others file
        → TellAlike (find archive others uuid).Makes (find {S = S} file [] uuid).Makes }
    ensures name { (archive : Reader R) (others : List (Reader S)) (file : Reader T) (sought : List ℕ)
        → IsMergedFile archive others file
        → TellAlike (MakesNamed archive others sought) (MakesNamed {S = S} file [] sought) }
    ensures symbolicate { (archive : Reader R) (others : List (Reader S)) (file : Reader T) (key : SliceKey)
        (load : Option ℕ) (lines slices : Bool) (addresses : List ℕ)
        → IsMergedFile archive others file
        → TellAlike (MakesAnswered archive others key load lines slices addresses)
        (MakesAnswered {S = S} file [] key load lines slices addresses) }
    ensures frames { (lines slices : Bool) (input : Reader Q) (archive : Reader R) (others : List (Reader S))
        (file : Reader T)
        → IsMergedFile archive others file
        → TellAlike (frames lines slices input archive others).Makes
        (frames {T = S} lines slices input file []).Makes }
{}

/// The status and the report for one archive are those of its content.
pub fn one_archive<Q: Source, R: Source, S: Source>()
    ensures find { (archive : Reader R) (uuid : List ℕ)
        → TellAlike (find {S = S} archive [] uuid).Makes
        (λ status text. HoldsContent archive (λ o. TellsFound o uuid status text)) }
    ensures name { (archive : Reader R) (sought : List ℕ)
        → TellAlike (MakesNamed {S = S} archive [] sought)
        (λ status text. HoldsContent archive (λ o. TellsNamed o sought status text)) }
    ensures symbolicate { (archive : Reader R) (key : SliceKey) (load : Option ℕ) (lines slices : Bool)
        (addresses : List ℕ)
        → TellAlike (MakesAnswered {S = S} archive [] key load lines slices addresses)
        (λ status text. HoldsContent archive (λ o. TellsAddressesWith o key load lines slices addresses status text)) }
    ensures frames { (lines slices : Bool) (input : Reader Q) (archive : Reader R)
        → TellAlike (frames {T = S} lines slices input archive []).Makes
        (λ status text. (listed : List Frame) × Gives input (λ bytes. frames_of bytes ≡ Ok listed)
        × HoldsContent archive (λ o. TellsFramesWith lines slices o listed status text)) }
{}

/// One archive is refused, or its reader does not fail, exactly as with an empty list of others.
pub fn no_others<R: Source, S: Source>()
    ensures refused { (archive : Reader R) (at : InputName) (why : Why)
        → AreRefused {S = S} archive [] at why ↔ IsRefusedArchive 0 archive at why }
    ensures unfailed { (archive : Reader R) → AreUnfailed {S = S} archive [] ↔ Unfailed archive }
{}

/// Under a key, or a prefix of a key, the join of parts has the records that the join of the contents has, if the parts
/// have all records under it.
pub fn joins_of_parts()
    ensures two { (o p : Operations) (picks : List ℕ → Bool) (prefix : List ℕ)
        → IsContent o
        → IsContent p
        → length prefix ≤ 24
        → ((r : List ℕ) → is_under prefix r ≡ true → picks r ≡ true)
        → AreAlikeUnder prefix (joined (part o picks) (part p picks)) (joined o p) }
    ensures several { (o : Operations) (contents : List Operations) (picks : List ℕ → Bool) (prefix : List ℕ)
        → IsContent o
        → AllByRecursion IsContent contents
        → length prefix ≤ 24
        → ((r : List ℕ) → is_under prefix r ≡ true → picks r ≡ true)
        → AreAlikeUnder prefix (merged (part o picks) (map (λ p. part p picks) contents)) (merged o contents) }
{}

/// Without lines `symbolicate` has the same answers, with the same status, and no frames.
pub fn told_without_lines()
    ensures { (content : Operations) (key : SliceKey) (load : Option ℕ) (addresses : List ℕ) (status : Status)
        (text : List ℕ)
        → (told : TellsAddresses content key load true addresses status text)
        → TellsAddresses content key load false addresses status
        (flat_map (λ row. answer_lines row.address row.answer []) told.rows) }
{}

/// The lines of a frame are those of `symbolicate` for it: `frames`, without the lines of slices, has this status and
/// this text if and only if they are the status and the text of `symbolicate` over the same archives, called once for
/// each frame of FRAMES.
pub fn each_is_symbolicated<R: Source, S: Source, T: Source>()
    ensures { (lines : Bool) (input : Reader R) (archive : Reader S) (others : List (Reader T)) (bytes : List ℕ)
        (listed : List Frame) (o : Operations)
        → IsGiven input bytes
        → frames_of bytes ≡ Ok listed
        → IsGivenJoin archive others o
        → TellAlike (frames lines false input archive others).Makes (SymbolicatesEach lines archive others listed) }
{}

/// For sites that the same operations reached, in one rehearsal or in two, the lines are the same after their numbers:
/// they have the same numbers of records and bytes, and one digest.
pub fn same_operations_same_line()
    ensures { (sites others : ℕ) (seen later : List ModelEvent) (i j number : ℕ)
        → content_of (reached sites seen i) ≡ content_of (reached others later j)
        → held_line number ((state sites seen (length seen)).held i)
        ≡ held_line number ((state others later (length later)).held j) }
{
    same_operations_same_content::<TakeFault>();
}
