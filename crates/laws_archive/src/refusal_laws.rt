//! The results of two calls whose inputs have the same bytes. Each law is the contract of a function that only calls
//! other laws.
ghost use Rattle.std.specs.Prelude.{ℕ, Bool, List, Option};
ghost use Rattle.archive_core.specs.declared.keys.Digest.{Digest};
ghost use Rattle.archive_core.specs.declared.keys.SliceKey.{SliceKey};
ghost use Rattle.command_common.specs.Inputs.{Reader};
ghost use Rattle.command_queries.specs.Find.{find};
ghost use Rattle.command_queries.specs.Frames.{frames};
ghost use Rattle.command_queries.specs.List.{list};
ghost use Rattle.command_queries.specs.Name.{name};
ghost use Rattle.command_queries.specs.Symbolicate.{symbolicate};
ghost use Rattle.archive_exchange.specs.Rehearse.{rehearse};
ghost use Rattle.command_archives.specs.Admit.{admit};
ghost use Rattle.command_archives.specs.Apply.{apply};
ghost use Rattle.command_archives.specs.Delta.{delta};
ghost use Rattle.command_archives.specs.Merge.{merge};
ghost use Rattle.command_archives.specs.Migrate.{migrate};
ghost use Rattle.command_archives.specs.Retire.{retire};
ghost use Rattle.command_archives.specs.Summary.{summary};
ghost use Rattle.laws_archive.specs.Refusals.{ArchivesHoldAlike, EachHoldAlike, EndAlike, HoldAlike, RefuseOne};

use crate::content_laws::{one_answer, one_find, one_find_name, one_list};
use archive_exchange::laws::one_meaning;
use archive_image_admission::laws::one_take_fault;
use byte_device::Source;
use dwarf_source_frames::laws::one_list_of_frames;

/// Two calls of a command that writes OUT, whose inputs have the same bytes, refuse the same input for the same reason,
/// unless for a device. `merge` with one FILE refuses the text that stops it first; its law is `one_side_stops`.
pub fn one_refusal<Q: Source, R: Source, S: Source, T: Source>()
    ensures admit { (input : Reader Q) (other : Reader R) (files : List (Reader S)) (others : List (Reader T))
        → HoldAlike input other
        → EachHoldAlike files others
        → RefuseOne (admit input files).Refuses (admit other others).Refuses }
    ensures retire { (input : Reader Q) (other : Reader R) (key : SliceKey) (digest : Digest)
        → HoldAlike input other
        → RefuseOne (retire input key digest).Refuses (retire other key digest).Refuses }
    ensures merge { (input : Reader Q) (other : Reader R) (files : List (Reader S)) (others : List (Reader T))
        → HoldAlike input other
        → EachHoldAlike files others
        → RefuseOne (merge input files).Refuses (merge other others).Refuses }
    ensures migrate { (input : Reader Q) (other : Reader R)
        → HoldAlike input other
        → RefuseOne (migrate input).Refuses (migrate other).Refuses }
    ensures apply { (input : Reader Q) (other : Reader R) (ops : Reader S) (others : Reader T)
        → HoldAlike input other
        → HoldAlike ops others
        → RefuseOne (apply input ops).Refuses (apply other others).Refuses }
    ensures summary { (archive : Reader Q) (other : Reader R)
        → HoldAlike archive other
        → RefuseOne (summary archive).Refuses (summary other).Refuses }
    ensures delta { (archive : Reader Q) (other : Reader R) (named : Reader S) (others : Reader T)
        → HoldAlike archive other
        → HoldAlike named others
        → RefuseOne (delta archive named).Refuses (delta other others).Refuses }
{
    one_take_fault();
}

/// Two calls of a command that only reports, whose inputs have the same bytes, have the same result unless the machine
/// ends one: they have one status and report one text, or refuse the same input for the same reason.
pub fn same_inputs_end_alike<O: Source, P: Source, Q: Source, R: Source, S: Source, T: Source>()
    ensures find { (archive : Reader Q) (others : List (Reader R)) (also : Reader S) (more : List (Reader T))
        (uuid : List ℕ)
        → ArchivesHoldAlike archive others also more
        → EndAlike (find archive others uuid) (find also more uuid) }
    ensures list { (archive : Reader Q) (other : Reader R)
        → HoldAlike archive other
        → EndAlike (list archive) (list other) }
    ensures name { (archive : Reader Q) (others : List (Reader R)) (also : Reader S) (more : List (Reader T))
        (sought : List ℕ)
        → ArchivesHoldAlike archive others also more
        → EndAlike (name archive others sought) (name also more sought) }
    ensures symbolicate { (archive : Reader Q) (others : List (Reader R)) (also : Reader S) (more : List (Reader T))
        (key : SliceKey) (load : Option ℕ) (lines slices : Bool) (addresses : List ℕ)
        → ArchivesHoldAlike archive others also more
        → EndAlike (symbolicate archive others key load lines slices addresses)
        (symbolicate also more key load lines slices addresses) }
    ensures frames { (lines slices : Bool) (input : Reader O) (archive : Reader Q) (others : List (Reader R))
        (also : Reader P) (other : Reader S) (more : List (Reader T))
        → HoldAlike input also
        → ArchivesHoldAlike archive others other more
        → EndAlike (frames lines slices input archive others) (frames lines slices also other more) }
    ensures rehearse { (script : Reader O) (other : Reader P)
        → HoldAlike script other
        → EndAlike (rehearse script) (rehearse other) }
{
    one_answer();
    one_find();
    one_find_name();
    one_list();
    one_list_of_frames();
    one_meaning();
}
